//! A plan tried on a service.

ghost use Rattle.std.specs.Prelude.{◌≡◌};
ghost use Rattle.plans.specs.Books.{book_meaning};
ghost use Rattle.plans.specs.Days.{reply_of, day_next};

use crate::book::Book;
use crate::request::Request;
use crate::tally::Tally;
use schedule::Change;
use services::Service;

/// The service that a plan is tried on, and the count of outcomes.
#[derive(Clone, Copy)]
pub struct Day {
    pub book: Book,
    pub tally: Tally,
}

/// What a request came to.
#[derive(Clone, Copy)]
pub enum Reply {
    /// A change and its outcome.
    // kept: an outcome is a pair of numbers by a rule of the project, as a service answers it.
    Outcome(Change, (u32, u32)),
    /// What a place holds.
    Holds(u32),
}

impl Day {
    /// Does what is asked for, and counts the outcome of a change.
    pub fn answer(&mut self, request: &Request) -> Reply
        ensures replies { result ≡ reply_of (book_meaning self.old.book) request.now }
        ensures moves { (book_meaning self.new.book, self.new.tally.counts) ≡ day_next (book_meaning self.old.book, self.old.tally.counts) request.now }
    {
        match request {
            Request::Carrying(change) => {
                let outcome = self.book.carry_out(change);
                self.tally.note(outcome.0);
                Reply::Outcome(*change, outcome)
            }
            Request::Reading(hour, slot) => Reply::Holds(self.book.read(*hour, *slot)),
        }
    }
}
