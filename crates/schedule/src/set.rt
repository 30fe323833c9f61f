//! Sets of controllers.

ghost use Rattle.std.specs.Prelude.{◌≡◌};
ghost use Rattle.schedule.specs.Sets.{size, member, fast_set};

use crate::figures::Figures;

/// A set of controllers as a number: bit j - 1 stands for controller j.
#[derive(Clone, Copy, PartialEq, Eq, Debug, Default)]
pub struct ControllerSet {
    pub bits: u32,
}

impl ControllerSet {
    /// How many members the set has.
    pub fn size(&self) -> u32
        ensures { result ≡ size self.now.bits }
    {
        self.bits.count_ones()
    }

    /// Whether controller j is a member.
    pub fn contains(&self, j: u32) -> bool
        ensures { result ≡ member self.now.bits j }
    {
        let bits = self.bits;
        if j > 32 {
            return false;
        }
        j >= 1 && (bits >> (j - 1)) % 2 == 1
    }

    /// Whether this can be the fast set of a change of the given home.
    pub fn is_fast_set(&self, figures: &Figures, home: u32) -> bool
        ensures { result ≡ fast_set figures.now.r figures.now.f home self.now.bits }
    {
        self.bits < (1 << figures.r) && self.size() == figures.fast_quorum() && self.contains(home)
    }
}
