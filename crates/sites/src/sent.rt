//! Messages handed out, and to whom.

ghost use Rattle.std.specs.Prelude.{◌≡◌, ◌-◌};
ghost use Rattle.sites.specs.Sending.{addressed, all_of, just, to_one, to_others, to_rest, to_outsiders};

use crate::site::Site;
use line_format::Message;
use record::proposals::SEATS;
use schedule::ControllerSet;

/// A message, and the controllers that it is addressed to.
#[derive(Clone, Copy, PartialEq, Eq, Debug)]
pub struct Sent {
    pub to: ControllerSet,
    pub message: Message,
}

/// One controller alone; nobody, where no group has such a number.
pub fn just(controller: u32) -> ControllerSet
    ensures { result.bits ≡ just controller }
{
    if (1..=SEATS as u32).contains(&controller) {
        ControllerSet {
            bits: 1 << (controller - 1),
        }
    } else {
        ControllerSet::default()
    }
}

impl Sent {
    /// To one controller; to nobody, where no group has such a number.
    pub fn to_one(controller: u32, message: Message) -> Sent
        ensures { result ≡ to_one controller message }
    {
        Sent {
            to: just(controller),
            message,
        }
    }

    /// To those of a set that are not in another, which is a part of it.
    fn to_those_of(set: ControllerSet, without: ControllerSet, message: Message) -> Sent
        ensures { result ≡ addressed (set.bits - without.bits) message }
    {
        Sent {
            to: ControllerSet {
                bits: set.bits.saturating_sub(without.bits),
            },
            message,
        }
    }
}

impl Site {
    /// Everybody in the group.
    fn everybody(&self) -> ControllerSet
        ensures { result.bits ≡ all_of self.now.figures.r }
    {
        ControllerSet {
            bits: (1 << self.figures.r) - 1,
        }
    }

    /// To all others.
    pub fn to_others(&self, message: Message) -> Sent
        ensures { result ≡ to_others self.now.figures.r self.now.own message }
    {
        self.to_rest(&self.everybody(), message)
    }

    /// To the others in a set that this controller is in.
    pub fn to_rest(&self, set: &ControllerSet, message: Message) -> Sent
        ensures { result ≡ to_rest self.now.own set.now.bits message }
    {
        Sent::to_those_of(*set, just(self.own), message)
    }

    /// To those outside a set.
    pub fn to_outsiders(&self, set: &ControllerSet, message: Message) -> Sent
        ensures { result ≡ to_outsiders self.now.figures.r set.now.bits message }
    {
        Sent::to_those_of(self.everybody(), *set, message)
    }
}
