//! Whole runs of changes, and the laws that hold of them.

ghost use Rattle.std.specs.Prelude.{◌≡◌, ℕ, ◌≤◌, true, take, is_err};
ghost use Rattle.service_runs.specs.Laws.{as_result, ClaimGives, NearTheLimit, SayHolds, put_of, ran};
ghost use Rattle.services.specs.Makes.{ledger_next};
ghost use Rattle.services.specs.Places.{no_places, hour_seconds, hour_total};
ghost use Rattle.services.specs.Say.{say_next, say_outcome};

use crate::steady::Steady;
use schedule::{Change, Department, Kind};
use services::ledger::BreakLedger;
use services::say::FinalSay;
use services::service::Service;

/// Carries out changes, one after the other.
pub fn run<S: Service>(service: &mut S, changes: &[Change])
    ensures { S.Service.meaning service.new ≡ ran S.Service.next (S.Service.meaning service.old) changes.now }
{
    for change in changes {
        let _ = service.carry_out(change);
    }
}

/// Carries out a change: what was told if it is done, else its outcome, and then the service is as it was.
// kept: a refused outcome is a pair of numbers by a rule of the project.
pub fn attempt<S: Steady>(service: &mut S, change: &Change) -> Result<u32, (u32, u32)>
    ensures answers { result ≡ as_result (S.Service.outcome (S.Service.meaning service.old) change.now) }
    ensures moves { S.Service.meaning service.new ≡ S.Service.next (S.Service.meaning service.old) change.now }
    ensures kept { is_err result ≡ true → S.Service.meaning service.new ≡ S.Service.meaning service.old }
{
    match service.carry_out(change) {
        (0, told) => Ok(told),
        refused => Err(refused),
    }
}

/// A ledger after these changes, from an empty one: at no point does an hour pass its seconds.
pub fn ledger_after(changes: &[Change]) -> BreakLedger
    ensures ran { result.places.rows ≡ ran ledger_next no_places changes.now }
    ensures within { (n h : ℕ) → hour_total (ran ledger_next no_places (take n changes.now)) h ≤ hour_seconds }
{
    hours_stay_within(changes);
    let mut ledger = BreakLedger::new();
    run(&mut ledger, changes);
    ledger
}

/// The law of `ledger_after`.
fn hours_stay_within(changes: &[Change])
    ensures { (n h : ℕ) → hour_total (ran ledger_next no_places (take n changes.now)) h ≤ hour_seconds }
{}

/// Carries out changes under final say.
pub fn run_under_say<S: Service>(layer: &mut FinalSay<S>, changes: &[Change])
    ensures ran { (layer.new.says, S.Service.meaning layer.new.below) ≡ ran (say_next S.Service.next) (layer.old.says, S.Service.meaning layer.old.below) changes.now }
    ensures gives { ClaimGives (say_next S.Service.next) (say_outcome S.Service.outcome) }
    ensures holds { SayHolds (say_next S.Service.next) (layer.old.says, S.Service.meaning layer.old.below) changes.now }
{
    claim_gives_the_say(layer);
    say_is_kept(layer, changes);
    run(layer, changes);
}

/// The first law of `run_under_say`.
fn claim_gives_the_say<S: Service>(_layer: &FinalSay<S>)
    ensures { ClaimGives (say_next S.Service.next) (say_outcome S.Service.outcome) }
{}

/// The second law of `run_under_say`.
fn say_is_kept<S: Service>(layer: &FinalSay<S>, changes: &[Change])
    ensures { SayHolds (say_next S.Service.next) (layer.now.says, S.Service.meaning layer.now.below) changes.now }
{}

/// An hour at 700 seconds and an empty account of it: the outcomes of putting 20 seconds there, or 21 instead.
pub fn near_the_limit() -> ((u32, u32), (u32, u32))
    ensures law { NearTheLimit }
    ensures shown { result ≡ ((0, 0), (4, 0)) }
{
    let mut ledger = BreakLedger::new();
    let _ = ledger.carry_out(&seconds(0, 700));
    let mut other = ledger;
    (
        ledger.carry_out(&seconds(1, 20)),
        other.carry_out(&seconds(1, 21)),
    )
}

/// Sales books seconds of the first hour in an account.
fn seconds(account: u32, value: u32) -> Change
    ensures { result ≡ put_of 1 0 account value }
{
    Change {
        department: Department::Sales.into(),
        kind: Kind::Put.into(),
        hour: 0,
        slot: account,
        value,
    }
}
