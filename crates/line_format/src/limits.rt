//! The limits of every field of a message.

ghost use Rattle.std.specs.Prelude.{◌≡◌, [], ◌∷◌};
ghost use Rattle.std.specs.Result.{result_err};
ghost use Rattle.schedule.specs.Group.{timestamp_fits};
ghost use Rattle.line_format.specs.Limits.{check, sender_check, id_check, timestamp_check, ballot_check, takeover_check, entry_checks, answer_checks, promises_checks, first_checks, rest_checks, phase_fits, set_fits, detached_fits, pair_fits, pairs_rise, unused, pairs_fit, Refuses, unfit};

use crate::message::{Message, PAIRS, Pair, Promises, WORDS};
use schedule::change::{HOURS, LAST_VALUE, SLOTS};
use schedule::figures::{LAST_BALLOT, LAST_TIMESTAMP};
use schedule::{Change, ControllerSet, Department, Figures, Kind, Phase};

/// The fields of messages, as they are named to people.
#[derive(Clone, Copy, PartialEq, Eq, Debug)]
pub enum Field {
    Sender,
    Id,
    Department,
    Kind,
    Hour,
    Slot,
    Value,
    Set,
    Timestamp,
    Ballot,
    Phase,
    Accepted,
    Detached,
    Pairs,
}

/// Refuses a field that is outside its limits.
fn within(fits: bool, field: Field) -> Result<(), Field>
    ensures { Refuses result (check field fits ∷ []) }
{
    if fits { Ok(()) } else { Err(field) }
}

fn check_sender(figures: &Figures, sender: u32) -> Result<(), Field>
    ensures { Refuses result (sender_check figures.now.r sender ∷ []) }
{
    within(sender >= 1 && sender <= figures.r, Field::Sender)
}

fn check_id(figures: &Figures, id: u32) -> Result<(), Field>
    ensures { Refuses result (id_check figures.now.r id ∷ []) }
{
    within(figures.home(id).is_some(), Field::Id)
}

fn timestamp_fits(timestamp: u32) -> bool
    ensures { result ≡ timestamp_fits timestamp }
{
    timestamp >= 1 && timestamp <= LAST_TIMESTAMP
}

fn check_timestamp(timestamp: u32) -> Result<(), Field>
    ensures { Refuses result (timestamp_check timestamp ∷ []) }
{
    within(timestamp_fits(timestamp), Field::Timestamp)
}

fn check_ballot(ballot: u32) -> Result<(), Field>
    ensures { Refuses result (ballot_check ballot ∷ []) }
{
    within(ballot >= 1 && ballot <= LAST_BALLOT, Field::Ballot)
}

/// A take-over's ballot is above r.
fn check_takeover(figures: &Figures, ballot: u32) -> Result<(), Field>
    ensures { Refuses result (takeover_check figures.now.r ballot ∷ []) }
{
    within(ballot > figures.r && ballot <= LAST_BALLOT, Field::Ballot)
}

/// The phase of a change that is known and not committed.
fn phase_fits(phase: u32) -> bool
    ensures { result ≡ phase_fits phase }
{
    Phase::try_from(phase).is_ok_and(|phase| phase.is_pending())
}

fn set_fits(figures: &Figures, id: u32, set: &ControllerSet) -> bool
    ensures { result ≡ set_fits figures.now.r figures.now.f id set.now.bits }
{
    figures
        .home(id)
        .is_some_and(|home| set.is_fast_set(figures, home))
}

fn detached_fits(words: &[u64; WORDS]) -> bool
    ensures { result ≡ detached_fits words.now }
{
    words[WORDS - 1] < (1 << (LAST_TIMESTAMP as usize - 64 * (WORDS - 1)))
}

/// A pair within its limits, its change's number above the one before.
fn pair_fits(figures: &Figures, last: u32, pair: &Pair) -> bool
    ensures { result ≡ pair_fits figures.now.r last pair.now }
{
    pair.id > last && figures.home(pair.id).is_some() && timestamp_fits(pair.timestamp)
}

/// Each pair within its limits, the numbers of the changes rising.
fn pairs_rise(figures: &Figures, pairs: &[Pair]) -> bool
    ensures { result ≡ pairs_rise figures.now.r 0 pairs.now }
{
    pairs
        .iter()
        .try_fold(0, |last, pair| {
            pair_fits(figures, last, pair).then_some(pair.id)
        })
        .is_some()
}

/// Places that are not used hold zeros.
fn unused(pairs: &[Pair]) -> bool
    ensures { result ≡ unused pairs.now }
{
    pairs.iter().all(|pair| *pair == Pair::default())
}

fn pairs_fit(figures: &Figures, promises: &Promises) -> bool
    ensures { result ≡ pairs_fit figures.now.r promises.now }
{
    let count = promises.count as usize;
    if count > PAIRS {
        return false;
    }
    let (used, rest) = promises.pairs.split_at(count);
    pairs_rise(figures, used) && unused(rest)
}

/// The change and the set of MPayload and MPropose.
fn check_entry(
    figures: &Figures,
    id: u32,
    change: &Change,
    set: &ControllerSet,
) -> Result<(), Field>
    ensures { Refuses result (entry_checks figures.now.r figures.now.f id change.now set.now.bits) }
{
    within(
        Department::try_from(change.department).is_ok(),
        Field::Department,
    )?;
    within(Kind::try_from(change.kind).is_ok(), Field::Kind)?;
    within(change.hour < HOURS, Field::Hour)?;
    within(change.slot < SLOTS, Field::Slot)?;
    within(change.value <= LAST_VALUE, Field::Value)?;
    within(set_fits(figures, id, set), Field::Set)
}

/// What MRecAck answers of a change.
fn check_answer(timestamp: u32, phase: u32, accepted: u32, ballot: u32) -> Result<(), Field>
    ensures { Refuses result (answer_checks timestamp phase accepted ballot) }
{
    check_timestamp(timestamp)?;
    within(phase_fits(phase), Field::Phase)?;
    within(accepted <= LAST_BALLOT, Field::Accepted)?;
    check_ballot(ballot)
}

fn check_promises(figures: &Figures, promises: &Promises) -> Result<(), Field>
    ensures { Refuses result (promises_checks figures.now.r promises.now) }
{
    within(detached_fits(&promises.detached), Field::Detached)?;
    within(pairs_fit(figures, promises), Field::Pairs)
}

impl Message {
    /// Who sends it, and the change that it is about.
    fn check_first(&self, figures: &Figures) -> Result<(), Field>
        ensures { Refuses result (first_checks figures.now.r self.now) }
    {
        match self {
            Message::MPayload { sender, id, .. }
            | Message::MPropose { sender, id, .. }
            | Message::MProposeAck { sender, id, .. }
            | Message::MCommit { sender, id, .. }
            | Message::MConsensus { sender, id, .. }
            | Message::MConsensusAck { sender, id, .. }
            | Message::MRec { sender, id, .. }
            | Message::MRecAck { sender, id, .. } => {
                check_sender(figures, *sender)?;
                check_id(figures, *id)
            }
            Message::MPromises { sender, .. } => check_sender(figures, *sender),
        }
    }

    /// The fields after those.
    fn check_rest(&self, figures: &Figures) -> Result<(), Field>
        ensures { Refuses result (rest_checks figures.now.r figures.now.f self.now) }
    {
        match self {
            Message::MPayload {
                id,
                change,
                set,
                ..
            } => check_entry(figures, *id, change, set),
            Message::MPropose {
                id,
                change,
                set,
                timestamp,
                ..
            } => {
                check_entry(figures, *id, change, set)?;
                check_timestamp(*timestamp)
            }
            Message::MProposeAck { timestamp, .. } | Message::MCommit { timestamp, .. } => {
                check_timestamp(*timestamp)
            }
            Message::MConsensus {
                timestamp,
                ballot,
                ..
            } => {
                check_timestamp(*timestamp)?;
                check_ballot(*ballot)
            }
            Message::MConsensusAck { ballot, .. } => check_ballot(*ballot),
            Message::MRec { ballot, .. } => check_takeover(figures, *ballot),
            Message::MRecAck {
                timestamp,
                phase,
                accepted,
                ballot,
                ..
            } => check_answer(*timestamp, *phase, *accepted, *ballot),
            Message::MPromises { promises, .. } => check_promises(figures, promises),
        }
    }

    /// Refuses the first field that is outside its limits, in the order of the bytes.
    #[tactic(auto, using(crate::proofs::Checks::unfit_append))]
    pub fn check(&self, figures: &Figures) -> Result<(), Field>
        ensures { result_err result ≡ unfit figures.now.r figures.now.f self.now }
    {
        self.check_first(figures)?;
        self.check_rest(figures)
    }

    /// The first field that is outside its limits, in the order of the bytes.
    pub fn unfit(&self, figures: &Figures) -> Option<Field>
        ensures { result ≡ unfit figures.now.r figures.now.f self.now }
    {
        self.check(figures).err()
    }
}
