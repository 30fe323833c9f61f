//! Small cases of the rules, staged and proved.

ghost use Rattle.std.specs.Prelude.{◌≡◌};
ghost use Rattle.promise_words.specs.Samples.{Skipped, from_one};

use crate::clock::{Clock, ClockFault};
use crate::stability::stable;
use crate::timestamps::Timestamps;
use schedule::Figures;

/// The set of 1 to last.
fn up_to(last: u32) -> Timestamps
    ensures { result ≡ from_one last }
{
    let mut set = Timestamps::none();
    set.insert_range(1, last);
    set
}

/// A clock at 1 that is asked for a timestamp not below 6 answers 6, and 2 to 5 are detached.
#[tactic(auto, unfolding(crate::specs::Timestamps::no_words))]
pub fn sample_proposal() -> (Result<u32, ClockFault>, Clock)
    ensures { Skipped result.0 result.1 }
{
    let mut clock = Clock {
        time: 1,
        detached: Timestamps::none(),
    };
    let answer = clock.propose(6);
    (answer, clock)
}

/// Of three with {2}, {1, 2, 3} and {1, 2}, the stable timestamp is 2.
/// Of four with runs 3, 3, 1 and 1, it is 1: half of a group is no majority.
/// What is known of controllers that the group does not have does not count.
pub fn sample_stable() -> (u32, u32)
    ensures three { result.0 ≡ 2 }
    ensures four { result.1 ≡ 1 }
{
    let mut second = Timestamps::none();
    second.insert(2);
    let long = up_to(3);
    let short = up_to(1);
    let of_three = Figures { r: 3, f: 1 };
    let of_four = Figures { r: 4, f: 1 };
    (
        stable(&of_three, &[second, long, up_to(2), long, long, long, long]),
        stable(&of_four, &[long, long, short, short, long, long, long]),
    )
}
