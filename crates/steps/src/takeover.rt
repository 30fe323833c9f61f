//! Taking over a change that has not been committed.

ghost use Rattle.std.specs.Prelude.{◌≡◌};
ghost use Rattle.steps.specs.Steps.{Settled, taking_over};

use crate::turn::Turn;
use promise_words::{Clock, ClockFault};
use record::{Acks, Proposals, Recoveries, Recovery, Row};
use sites::refusal::Refusal;
use sites::site::Site;

/// Takes over a pending change at the next ballot of this controller, and answers the ballot.
pub fn take_over(site: &Site, row: &mut Row, clock: &mut Clock) -> Result<u32, Refusal>
    ensures { Settled (taking_over site.now.figures.r site.now.own row.old clock.old) row.old clock.old result row.new clock.new }
{
    if !row.phase.is_pending() {
        return Err(Refusal::OutOfStep);
    }
    let ballot = site.next_ballot(row.ballot).ok_or(Refusal::BallotsSpent)?;
    let mut turn = Turn { site, row, clock };
    turn.join(ballot)?;
    let own = Recovery {
        timestamp: turn.row.timestamp,
        phase: turn.row.phase,
        accepted: turn.row.accepted,
    };
    turn.row.proposals = Proposals::none();
    turn.row.acks = Acks::none();
    turn.row.recoveries = Recoveries::none();
    turn.row.recoveries.note(site.own, Some(own));
    Ok(ballot)
}
