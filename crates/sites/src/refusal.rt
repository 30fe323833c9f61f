//! Why a controller turns down a call.

ghost use Rattle.std.specs.Prelude.{◌≡◌};
ghost use Rattle.sites.specs.Refusals.{refusal_number, by_line, by_clock};

use line_format::LineFault;
use promise_words::ClockFault;

/// Why a call was turned down. What the line or the clock found is held whole.
#[derive(Clone, Copy, PartialEq, Eq, Debug)]
pub enum Refusal {
    /// The buffer, or the message: its shape or its limits.
    Line(LineFault),
    /// The sender may not send this message.
    WrongSender,
    /// A condition of the step is false.
    OutOfStep,
    /// All changes of this controller were entered.
    NumbersSpent,
    /// The next ballot would be above the last.
    BallotsSpent,
    /// The next timestamp would be past the last.
    TimestampsSpent(ClockFault),
    /// No change is due.
    NothingDue,
}

impl Refusal {
    // kept: a refusal has a number, and nothing is made of a number; each type of refusal maps its own cases.
    /// The number of this refusal.
    pub fn number(&self) -> u32
        ensures { result ≡ refusal_number self.now }
    {
        match self {
            Refusal::Line(found) => found.number(),
            Refusal::WrongSender => 15,
            Refusal::OutOfStep => 16,
            Refusal::NumbersSpent => 17,
            Refusal::BallotsSpent => 18,
            Refusal::TimestampsSpent(found) => found.number(),
            Refusal::NothingDue => 20,
        }
    }
}

impl From<LineFault> for Refusal {
    ghost from_gives = { λ fault why. why ≡ by_line fault };

    fn from(fault: LineFault) -> Refusal {
        Refusal::Line(fault)
    }
}

impl From<ClockFault> for Refusal {
    ghost from_gives = { λ fault why. why ≡ by_clock fault };

    fn from(fault: ClockFault) -> Refusal {
        Refusal::TimestampsSpent(fault)
    }
}
