//! Entering a change.

ghost use Rattle.std.specs.Prelude.{◌≡◌};
ghost use Rattle.steps.specs.Steps.{Settled, entering};

use crate::turn::Turn;
use promise_words::{Clock, ClockFault};
use record::Row;
use schedule::{Change, ControllerSet};
use sites::refusal::Refusal;
use sites::site::Site;

/// Begins a change at its home: the next timestamp is promised, noted as the own reply, and answered.
pub fn begin(
    site: &Site,
    row: &mut Row,
    clock: &mut Clock,
    change: &Change,
    set: &ControllerSet,
) -> Result<u32, Refusal>
    ensures { Settled (entering site.now.own change.now set.now row.old clock.old) row.old clock.old result row.new clock.new }
{
    let least = clock.time.saturating_add(1);
    let mut turn = Turn { site, row, clock };
    let t = turn.propose(change, set, least)?;
    turn.row.proposals.note_timestamp(site.own, t);
    Ok(t)
}
