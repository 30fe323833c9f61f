//! Why a message was refused.

ghost use Rattle.std.specs.Prelude.{◌≡◌};
ghost use Rattle.line_format.specs.Faults.{fault_number};
ghost use Rattle.line_format.specs.declared.fault.LineFault.TheVariants.{OutsideLimits};

use crate::limits::Field;

/// Why bytes are no message, or a message cannot be written.
#[derive(Clone, Copy, PartialEq, Eq, Debug)]
pub enum LineFault {
    /// The outgoing buffer is too short for every message.
    ShortBuffer,
    /// No message has this type, length or count.
    Malformed,
    /// A field is outside its limits.
    OutsideLimits,
}

impl LineFault {
    /// The number of this refusal.
    // kept: a refusal has a number, and nothing is made of one; each kind of refusal maps its own cases.
    pub fn number(&self) -> u32
        ensures { result ≡ fault_number self.now }
    {
        match self {
            LineFault::ShortBuffer => 12,
            LineFault::Malformed => 13,
            LineFault::OutsideLimits => 14,
        }
    }
}

impl From<Field> for LineFault {
    ghost from_gives = { λ _ fault. fault ≡ OutsideLimits };

    fn from(_field: Field) -> LineFault {
        Self::OutsideLimits
    }
}
