//! Making group figures, and telling them apart.

ghost use Rattle.std.specs.Prelude.{◌≡◌};
ghost use Rattle.schedule.specs.Making.{Made, ToldApart, fault_number};

use crate::figures::{Figures, FiguresFault};

impl FiguresFault {
    /// The number of this refusal.
    // kept: a refusal has a number, and nothing is made of one; each kind of refusal maps its own cases.
    pub fn number(&self) -> u32
        ensures { result ≡ fault_number self.now }
    {
        match self {
            FiguresFault::OutsideLimits => 11,
        }
    }
}

impl Figures {
    /// Figures of r controllers, f of them silent at most; refused outside the limits.
    pub fn new(r: u32, f: u32) -> Result<Figures, FiguresFault>
        ensures { Made r f result }
    {
        if r >= 3 && r <= 7 && f >= 1 && f <= (r - 1) / 2 {
            Ok(Figures { r, f })
        } else {
            Err(FiguresFault::OutsideLimits)
        }
    }

    /// Whether two groups have the same figures: then they are equal in all.
    pub fn same(&self, other: &Figures) -> bool
        ensures { ToldApart self.now other.now result }
    {
        self == other
    }
}
