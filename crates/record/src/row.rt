//! The record of one change.

ghost use Rattle.std.specs.Prelude.{◌≡◌};
ghost use Rattle.record.specs.Rows.{blank};

use crate::acks::Acks;
use crate::phase::Phase;
use crate::proposals::Proposals;
use crate::recoveries::Recoveries;
use schedule::{Change, ControllerSet};

/// What a controller keeps of a change. `promise` is its own promise, and `accepted` the ballot at which it
/// accepted `timestamp`. A carried-out change has its place and outcome.
#[derive(Clone, Copy, PartialEq, Eq, Debug)]
pub struct Row {
    pub phase: Phase,
    pub change: Change,
    pub set: ControllerSet,
    pub timestamp: u32,
    // kept: 0 for none, which is below all ballots: every test compares it, and with an Option it would compare with Some(b).
    pub ballot: u32,
    pub accepted: Option<u32>,
    pub promise: Option<u32>,
    pub proposals: Proposals,
    pub acks: Acks,
    pub recoveries: Recoveries,
    // kept: 0 before; place and outcome are read only in phase carried out, so the phase says whether there are any.
    pub place: u32,
    // kept: an outcome is a pair of numbers by a rule of the project, as a service answers it.
    pub outcome: (u32, u32),
}

impl Row {
    /// The row of a change of which nothing is known.
    pub fn blank() -> Row
        ensures { result ≡ blank }
    {
        Row {
            phase: Phase::Start,
            change: Change::default(),
            set: ControllerSet::default(),
            timestamp: 0,
            ballot: 0,
            accepted: None,
            promise: None,
            proposals: Proposals::none(),
            acks: Acks::none(),
            recoveries: Recoveries::none(),
            place: 0,
            outcome: (0, 0),
        }
    }
}
