//! Runs of the rules, staged message by message and proved together.
#![tactic(auto)]

ghost use Rattle.std.specs.Prelude.{◌≡◌, Some};
ghost use Rattle.record.specs.declared.proposals.Decision.TheVariants.{Fast};
ghost use Rattle.staged_runs.specs.Calls.{StagedCalls};
ghost use Rattle.staged_runs.specs.Runs.{StagedRuns};

use record::{Decision, Proposals};
use schedule::{ControllerSet, Figures};

/// What five controllers, two of which may be silent, decide on the replies 6, 7, 11 and 11. The runs that are staged
/// from this one on stand in `StagedRuns`, single calls in `StagedCalls`.
#[tactic(auto, unfolding(steps::specs::Steps::gathered, promise_words::specs::Timestamps::no_words, promise_words::specs::Runs::unbroken, promise_words::specs::Runs::run_past))]
pub fn staged_decision() -> Option<Decision>
    ensures value { result ≡ Some (Fast 11) }
    ensures runs { StagedRuns }
    ensures calls { StagedCalls }
{
    let replies = Proposals {
        replies: [Some(6), Some(7), Some(11), Some(11), None, None, None],
    };
    replies.decision(&Figures { r: 5, f: 2 }, &ControllerSet { bits: 15 })
}
