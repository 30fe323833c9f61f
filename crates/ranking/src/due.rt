//! Committed changes, of which one is due.

ghost use Rattle.std.specs.Prelude.{true};
ghost use Rattle.ranking.specs.Orders.{sooner};
ghost use Rattle.std.proofs.Common.{rules};

use crate::rank::Ranked;

/// A change that is due: the least timestamp first, then the least number.
#[derive(Clone, Copy, PartialEq, Eq, PartialOrd, Ord, Debug)]
pub struct Due {
    pub timestamp: u32,
    pub id: u32,
}

impl Ranked for Due {
    ghost eligible = { λ _. true };

    ghost before = { sooner };

    ghost asymmetric = { Prim.search rules };

    ghost chains = { Prim.search rules };

    fn is_eligible(&self) -> bool {
        true
    }

    fn is_before(&self, other: &Due) -> bool {
        self < other
    }
}
