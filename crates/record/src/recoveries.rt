//! Replies to a take-over, and the choice after it.

ghost use Rattle.std.specs.Prelude.{◌≡◌};
ghost use Rattle.record.specs.Choosing.{late, late_any, counted, counted_timestamp, accepted_entry, accepted_entries, greatest_counted, choice};

use crate::phase::Phase;
use crate::replies::{NUMBERS, Replies, SEATS};
use ranking::{Accepted, first_in_rank};
use schedule::ControllerSet;
use std::array;
use std::cmp::Reverse;

/// What a controller replied: the timestamp and phase of its row, and the ballot at which it had accepted.
#[derive(Clone, Copy, PartialEq, Eq, Debug)]
pub struct Recovery {
    pub timestamp: u32,
    pub phase: Phase,
    pub accepted: Option<u32>,
}

/// What each controller replied.
pub type Recoveries = Replies<Recovery>;

/// Whether a reply of controller j lifts the limit to the fast set: j is in it, and is the home or promised in a take-over.
fn is_late(reply: Option<Recovery>, j: u32, home: u32, set: &ControllerSet) -> bool
    ensures { result ≡ late home set.now.bits j reply }
{
    reply.is_some_and(|told| set.contains(j) && (j == home || told.phase == Phase::RecoverR))
}

/// The timestamp of a reply of controller j, if it counts: every one's does, or only those of the members of a set.
fn counted(reply: Option<Recovery>, j: u32, within: Option<ControllerSet>) -> Option<u32>
    ensures { result ≡ counted_timestamp (counted within) j reply }
{
    reply
        .filter(|_| within.is_none_or(|set| set.contains(j)))
        .map(|reply| reply.timestamp)
}

/// A reply of controller j that tells of an accepted ballot, as an entry of the search for the first in rank.
fn entry(reply: Option<Recovery>, j: u32) -> Option<Accepted>
    ensures { result ≡ accepted_entry j reply }
{
    reply
        .and_then(|reply| reply.accepted)
        .map(|ballot| Accepted {
            ballot: Reverse(ballot),
            controller: j,
        })
}

impl Replies<Recovery> {
    /// The replies as entries of the search for the first in rank.
    fn entries(&self) -> [Option<Accepted>; SEATS]
        ensures { result ≡ accepted_entries self.now.replies }
    {
        array::from_fn(|i| entry(self.replies[i], i as u32 + 1))
    }

    /// Whether some reply lifts the limit to the fast set.
    fn has_late(&self, home: u32, set: &ControllerSet) -> bool
        ensures { result ≡ late_any home set.now.bits self.now.replies }
    {
        NUMBERS
            .zip(&self.replies)
            .any(|(j, reply)| is_late(*reply, j, home, set))
    }

    /// The greatest timestamp of those that replied and count.
    fn greatest_counted(&self, within: Option<ControllerSet>) -> Option<u32>
        ensures { result ≡ greatest_counted (counted within) self.now.replies }
    {
        NUMBERS
            .zip(&self.replies)
            .filter_map(|(j, reply)| counted(*reply, j, within))
            .max()
    }

    // kept: home and set together, as in the rule of the choice; a row holds its set, and the home comes from the change's number.
    /// The timestamp that the replies leave to choose.
    pub fn choice(&self, home: u32, set: &ControllerSet) -> u32
        ensures { result ≡ choice home set.now.bits self.now.replies }
    {
        if let Some(reply) = first_in_rank(&self.entries()).and_then(|i| self.replies[i]) {
            return reply.timestamp;
        }
        let within = if self.has_late(home, set) {
            None
        } else {
            Some(*set)
        };
        // kept: 0 where no reply counts, since the definition of `step` holds for any record, and accepts what is chosen.
        self.greatest_counted(within).unwrap_or(0)
    }
}
