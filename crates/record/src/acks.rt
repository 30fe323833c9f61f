//! Who has accepted at a ballot.

ghost use Rattle.std.specs.Prelude.{◌≡◌};
ghost use Rattle.schedule.specs.Sets.{size};
ghost use Rattle.record.specs.Replies.{with_member, newcomer};

use crate::replies::seat;
use schedule::ControllerSet;

// kept: a set and not `Replies<()>`, since an acceptance says nothing but whose it is, and a set counts its members
/// The controllers whose acceptance came.
#[derive(Clone, Copy, PartialEq, Eq, Debug)]
pub struct Acks {
    pub from: ControllerSet,
}

impl Acks {
    /// Nobody's.
    pub fn none() -> Acks
        ensures { result.from.bits ≡ 0 }
    {
        Acks {
            from: ControllerSet::default(),
        }
    }

    /// Whether a controller's has not come yet. Nobody without a place is new.
    pub fn is_new(&self, controller: u32) -> bool
        ensures { result ≡ newcomer self.now.from.bits controller }
    {
        seat(controller).is_some() && !self.from.contains(controller)
    }

    /// Notes a controller's; one without a place is passed over.
    pub fn note(&mut self, controller: u32)
        ensures { self.new.from.bits ≡ with_member self.old.from.bits controller }
    {
        if let Some(i) = seat(controller) {
            self.from.bits |= 1 << i;
        }
    }

    /// How many came.
    pub fn count(&self) -> u32
        ensures { result ≡ size self.now.from.bits }
    {
        self.from.size()
    }
}
