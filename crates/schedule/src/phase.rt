//! How far a change has come at a controller.

ghost use Rattle.std.specs.Prelude.{◌≡◌, Some, ok_or};
ghost use Rattle.schedule.specs.Changes.{unknown, nameless};
ghost use Rattle.schedule.specs.Phases.{phase_number, phase_of, phase_name, phase_named, pending, settled};

use crate::unknown::{UnknownName, UnknownNumber};
use std::fmt;
use std::str::FromStr;

/// How far a change has come. `RecoverR` promised in a take-over, `RecoverP` on the home's proposal.
#[derive(Clone, Copy, PartialEq, Eq, Debug)]
pub enum Phase {
    Start,
    Payload,
    Propose,
    RecoverR,
    RecoverP,
    Commit,
    CarriedOut,
}

/// The number that stands for a phase.
impl From<Phase> for u32 {
    ghost from_gives = { λ phase number. number ≡ phase_number phase };

    fn from(phase: Phase) -> u32 {
        match phase {
            Phase::Start => 0,
            Phase::Payload => 1,
            Phase::Propose => 2,
            Phase::RecoverR => 3,
            Phase::RecoverP => 4,
            Phase::Commit => 5,
            Phase::CarriedOut => 6,
        }
    }
}

/// The phase that a number stands for.
impl TryFrom<u32> for Phase {
    type Error = UnknownNumber;

    ghost try_from_gives = { λ number answer. answer ≡ ok_or (phase_of number) (unknown number) };

    fn try_from(number: u32) -> Result<Phase, UnknownNumber> {
        match number {
            0 => Ok(Phase::Start),
            1 => Ok(Phase::Payload),
            2 => Ok(Phase::Propose),
            3 => Ok(Phase::RecoverR),
            4 => Ok(Phase::RecoverP),
            5 => Ok(Phase::Commit),
            6 => Ok(Phase::CarriedOut),
            _ => Err(UnknownNumber(number)),
        }
    }
}

impl Phase {
    /// Whether the change is known and not committed.
    pub fn is_pending(&self) -> bool
        ensures { result ≡ pending self.now }
    {
        matches!(
            self,
            Phase::Payload | Phase::Propose | Phase::RecoverR | Phase::RecoverP
        )
    }

    /// Whether the change is committed, carried out or not.
    pub fn is_settled(&self) -> bool
        ensures { result ≡ settled self.now }
    {
        matches!(self, Phase::Commit | Phase::CarriedOut)
    }

    /// The phase's name.
    pub fn name(&self) -> &'static str
        ensures { result.now ≡ phase_name self.now }
    {
        match self {
            Phase::Start => "start",
            Phase::Payload => "payload",
            Phase::Propose => "propose",
            Phase::RecoverR => "recover-r",
            Phase::RecoverP => "recover-p",
            Phase::Commit => "commit",
            Phase::CarriedOut => "carried-out",
        }
    }
}

impl fmt::Display for Phase {
    ghost output = { λ phase. Some (phase_name phase) };

    fn fmt<W: fmt::Write>(&self, f: &mut fmt::Formatter<W>) -> fmt::Result {
        f.write_str(self.name())
    }
}

/// The phase of a name.
impl FromStr for Phase {
    type Err = UnknownName;

    ghost from_str_gives = { λ text answer. answer ≡ ok_or (phase_named text) nameless };

    fn from_str(text: &str) -> Result<Phase, UnknownName> {
        match text {
            "start" => Ok(Phase::Start),
            "payload" => Ok(Phase::Payload),
            "propose" => Ok(Phase::Propose),
            "recover-r" => Ok(Phase::RecoverR),
            "recover-p" => Ok(Phase::RecoverP),
            "commit" => Ok(Phase::Commit),
            "carried-out" => Ok(Phase::CarriedOut),
            _ => Err(UnknownName),
        }
    }
}
