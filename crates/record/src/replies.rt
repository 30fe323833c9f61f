//! Replies, by controller.

ghost use Rattle.std.specs.Prelude.{◌≡◌, ⊤};
ghost use Rattle.record.specs.Replies.{seat_of, no_replies, unheard, with_reply, heard};

use std::alloc::AllocError;
use std::ops::Range;

/// How many controllers a group has at most.
pub const SEATS: usize = 7;

/// The numbers of the controllers that have a place.
pub(crate) const NUMBERS: Range<u32> = 1..SEATS as u32 + 1;

/// The reply of each controller, in the order of their numbers.
#[derive(PartialEq, Eq, Debug)]
pub struct Replies<T> {
    pub replies: [Option<T>; SEATS],
}

// kept: by hand, since the proof of a derived one does not close at an array of Options
impl<T: Copy> Clone for Replies<T> {
    ghost is_clone = { λ x y. y ≡ x };

    ghost is_infallible = { λ _. ⊤ };

    fn clone(&self) -> Result<Replies<T>, AllocError> {
        Ok(*self)
    }
}

impl<T: Copy> Copy for Replies<T> {}

/// The place of a controller in a table of replies.
pub(crate) fn seat(controller: u32) -> Option<usize>
    ensures { result ≡ seat_of controller }
{
    (controller as usize)
        .checked_sub(1)
        .filter(|place| *place < SEATS)
}

impl<T: Copy> Replies<T> {
    /// No replies.
    pub fn none() -> Replies<T>
        ensures { result.replies ≡ no_replies }
    {
        Replies {
            replies: [None; SEATS],
        }
    }

    /// Whether a controller has not replied yet. Nobody without a place is new.
    pub fn is_new(&self, controller: u32) -> bool
        ensures { result ≡ unheard self.now.replies controller }
    {
        // kept: a `match`; tried with `is_some_and`, and the goal stays open.
        match seat(controller) {
            Some(i) => self.replies[i].is_none(),
            None => false,
        }
    }

    /// Notes a controller's reply; one without a place is passed over.
    pub fn note(&mut self, controller: u32, reply: Option<T>)
        ensures { self.new.replies ≡ with_reply self.old.replies controller reply }
    {
        if let Some(i) = seat(controller) {
            self.replies[i] = reply;
        }
    }

    /// How many replied.
    pub fn count(&self) -> u32
        ensures { result ≡ heard self.now.replies }
    {
        self.replies.iter().filter(|reply| reply.is_some()).count() as u32
    }
}
