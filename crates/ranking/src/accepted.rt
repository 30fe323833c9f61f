//! Replies to a take-over, of which one tells what was accepted.

ghost use Rattle.ranking.specs.Orders.{tells, outranks};
ghost use Rattle.std.proofs.Common.{rules};

use crate::rank::Ranked;
use std::cmp::Reverse;

// kept: ballot 0 is none, and is no entry by `is_eligible`, since a reply may tell of ballot 0.
/// A controller's reply: the greatest accepted ballot first, then the lowest controller. Ballot 0 is none.
#[derive(Clone, Copy, PartialEq, Eq, PartialOrd, Ord, Debug)]
pub struct Accepted {
    pub ballot: Reverse<u32>,
    pub controller: u32,
}

impl Ranked for Accepted {
    ghost eligible = { tells };

    ghost before = { outranks };

    ghost asymmetric = { Prim.search rules };

    ghost chains = { Prim.search rules };

    fn is_eligible(&self) -> bool {
        self.ballot.0 != 0
    }

    fn is_before(&self, other: &Accepted) -> bool {
        self < other
    }
}
