//! Replies to a proposal, and what they decide.

ghost use Rattle.std.specs.Prelude.{◌≡◌};
ghost use Rattle.record.specs.Replies.{with_timestamp, awaited, all_replied, greatest, givers, decision};

pub use crate::replies::SEATS;
use crate::replies::{NUMBERS, Replies};
use schedule::{ControllerSet, Figures};

/// The timestamp that each controller replied.
pub type Proposals = Replies<u32>;

/// What the replies of a whole fast set decide.
#[derive(Clone, Copy, PartialEq, Eq, Debug)]
pub enum Decision {
    /// Commit this timestamp at once.
    Fast { timestamp: u32 },
    /// Have this timestamp accepted first.
    Slow { timestamp: u32 },
}

/// Whether a member of the set, controller j, has yet to reply.
fn is_awaited(set: &ControllerSet, j: u32, reply: Option<u32>) -> bool
    ensures { result ≡ awaited set.now.bits j reply }
{
    set.contains(j) && reply.is_none()
}

impl Replies<u32> {
    // kept: a number, of which 0 is no reply, since the definition of `step` holds for any message, with timestamp 0 too.
    /// Notes the timestamp that a controller replied; 0 is no reply.
    pub fn note_timestamp(&mut self, controller: u32, timestamp: u32)
        ensures { self.new.replies ≡ with_timestamp self.old.replies controller timestamp }
    {
        self.note(controller, (timestamp != 0).then_some(timestamp));
    }

    /// Whether every member of the set has replied.
    fn all_replied(&self, set: &ControllerSet) -> bool
        ensures { result ≡ all_replied set.now.bits self.now.replies }
    {
        NUMBERS
            .zip(&self.replies)
            .all(|(j, reply)| !is_awaited(set, j, *reply))
    }

    /// The greatest timestamp replied.
    fn greatest(&self) -> Option<u32>
        ensures { result ≡ greatest self.now.replies }
    {
        self.replies.iter().filter_map(|reply| *reply).max()
    }

    /// How many replied this.
    fn givers(&self, reply: Option<u32>) -> u32
        ensures { result ≡ givers reply self.now.replies }
    {
        self.replies.iter().filter(|given| **given == reply).count() as u32
    }

    /// What the replies decide, once all of the fast set have replied: the greatest timestamp,
    /// at once if at least f gave it.
    pub fn decision(&self, figures: &Figures, set: &ControllerSet) -> Option<Decision>
        ensures { result ≡ decision figures.now.f set.now.bits self.now.replies }
    {
        if !self.all_replied(set) {
            return None;
        }
        let greatest = self.greatest();
        let timestamp = greatest.unwrap_or(0);
        if self.givers(greatest) >= figures.f {
            Some(Decision::Fast { timestamp })
        } else {
            Some(Decision::Slow { timestamp })
        }
    }
}
