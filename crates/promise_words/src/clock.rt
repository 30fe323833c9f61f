//! The clock of a controller, and the timestamps that it will give to no change.

ghost use Rattle.std.specs.Prelude.{◌≡◌};
ghost use Rattle.promise_words.specs.Clocks.{fault_number, first_clock, proposal, Settled, bumped};

use crate::timestamps::Timestamps;
use schedule::figures::LAST_TIMESTAMP;

/// The greatest timestamp promised so far, and the promised ones that belong to no change.
#[derive(Clone, Copy, PartialEq, Eq, Debug)]
pub struct Clock {
    pub time: u32,
    pub detached: Timestamps,
}

/// Why no timestamp was proposed.
#[derive(Clone, Copy, PartialEq, Eq, Debug)]
pub enum ClockFault {
    /// It would be past the last one.
    PastLast,
}

impl ClockFault {
    // kept: a refusal has a number, and nothing is made of a number; each type of refusal maps its own cases.
    /// The number of this refusal.
    pub fn number(&self) -> u32
        ensures { result ≡ fault_number self.now }
    {
        match self {
            ClockFault::PastLast => 19,
        }
    }
}

impl Clock {
    /// A clock at the start of the day.
    pub fn new() -> Clock
        ensures { result ≡ first_clock }
    {
        Clock {
            time: 0,
            detached: Timestamps::none(),
        }
    }

    /// Promises the first timestamp that is after the clock and not below `least`, and answers it.
    /// Those that it skips become detached.
    pub fn propose(&mut self, least: u32) -> Result<u32, ClockFault>
        ensures { Settled (proposal least self.old) self.old result self.new }
    {
        if self.time >= LAST_TIMESTAMP || least > LAST_TIMESTAMP {
            return Err(ClockFault::PastLast);
        }
        let next = self.time + 1;
        let t = least.max(next);
        self.detached.insert_range(next, t - 1);
        self.time = t;
        Ok(t)
    }

    /// Brings the clock to t, if that is later; those up to t become detached.
    /// A number past the last timestamp changes nothing.
    pub fn bump(&mut self, t: u32)
        ensures { self.new ≡ bumped t self.old }
    {
        if t > self.time && t <= LAST_TIMESTAMP {
            self.detached.insert_range(self.time + 1, t);
            self.time = t;
        }
    }
}
