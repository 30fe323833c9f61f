//! The services that a plan can be tried on.

ghost use Rattle.std.specs.Prelude.{◌≡◌, ok_or};
ghost use Rattle.std.specs.Result.{result_map_both};
ghost use Rattle.plans.specs.Books.{BookState, book_meaning, book_next, book_outcome, book_reads, book_named, book_say, book_inner_say, book_booked, book_holds, book_used};
ghost use Rattle.plans.specs.declared.request.Misread.TheVariants.{NoService};

use crate::request::Misread;
use schedule::Change;
use schedule::change::SLOTS;
use services::{BreakLedger, FinalSay, RunningOrder, Service};
use std::str::FromStr;

/// One of the services, by what it is made of.
// kept: the matches of `carry_out`, `read` and `say` have an arm for each type of service, since a function may not hand out a `dyn`, and a macro for three is no shorter.
#[derive(Clone, Copy)]
pub enum Book {
    Order(RunningOrder),
    Ledger(BreakLedger),
    SayOrder(FinalSay<RunningOrder>),
    SayLedger(FinalSay<BreakLedger>),
    SaySayOrder(FinalSay<FinalSay<RunningOrder>>),
}

impl Service for Book {
    ghost State = { BookState };

    ghost meaning = { book_meaning };

    ghost next = { book_next };

    ghost outcome = { book_outcome };

    ghost reads = { book_reads };

    fn carry_out(&mut self, change: &Change) -> (u32, u32) {
        match self {
            Book::Order(service) => service.carry_out(change),
            Book::Ledger(service) => service.carry_out(change),
            Book::SayOrder(service) => service.carry_out(change),
            Book::SayLedger(service) => service.carry_out(change),
            Book::SaySayOrder(service) => service.carry_out(change),
        }
    }

    fn read(&self, hour: u32, slot: u32) -> u32 {
        match self {
            Book::Order(service) => service.read(hour, slot),
            Book::Ledger(service) => service.read(hour, slot),
            Book::SayOrder(service) => service.read(hour, slot),
            Book::SayLedger(service) => service.read(hour, slot),
            Book::SaySayOrder(service) => service.read(hour, slot),
        }
    }
}

/// The service of a name, in its first state.
impl FromStr for Book {
    type Err = Misread;

    ghost from_str_gives = { λ name answer. result_map_both book_meaning (λ why. why) answer ≡ ok_or (book_named name) NoService };

    fn from_str(name: &str) -> Result<Book, Misread> {
        match name {
            "running-order" => Ok(Book::Order(RunningOrder::new())),
            "break-ledger" => Ok(Book::Ledger(BreakLedger::new())),
            "final-say running-order" => Ok(Book::SayOrder(FinalSay::new(RunningOrder::new()))),
            "final-say break-ledger" => Ok(Book::SayLedger(FinalSay::new(BreakLedger::new()))),
            "final-say final-say running-order" => {
                Ok(Book::SaySayOrder(FinalSay::new(FinalSay::new(RunningOrder::new()))))
            }
            _ => Err(Misread::NoService),
        }
    }
}

impl Book {
    /// Who has the say of an hour, for a service under final say: 0 nobody, else the department.
    // kept: 0 for nobody as in an outcome, since an Option of an Option is no plainer.
    pub fn say(&self, hour: u32) -> Option<u32>
        ensures { result ≡ book_say (book_meaning self.now) hour }
    {
        match self {
            Book::Order(_) | Book::Ledger(_) => None,
            Book::SayOrder(service) => Some(service.say(hour)),
            Book::SayLedger(service) => Some(service.say(hour)),
            Book::SaySayOrder(service) => Some(service.say(hour)),
        }
    }

    /// Who has the say below that, where final say stands over final say.
    // kept: 0 for nobody, since an Option of an Option is no plainer.
    pub fn inner_say(&self, hour: u32) -> Option<u32>
        ensures { result ≡ book_inner_say (book_meaning self.now) hour }
    {
        match self {
            Book::SaySayOrder(service) => Some(service.below().say(hour)),
            _ => None,
        }
    }

    /// The seconds booked in an hour, for a ledger.
    pub fn booked(&self, hour: u32) -> Option<u32>
        ensures { result ≡ book_booked (book_meaning self.now) hour }
    {
        match self {
            Book::Ledger(service) => Some(service.booked(hour)),
            Book::SayLedger(service) => Some(service.below().booked(hour)),
            _ => None,
        }
    }

    /// Whether an hour holds anything, or somebody has the say of it.
    pub fn in_use(&self, hour: u32) -> bool
        ensures { result ≡ book_used (book_meaning self.now) hour }
    {
        self.say(hour).is_some_and(|say| say != 0)
            || self.inner_say(hour).is_some_and(|say| say != 0)
            || self.holds_anything(hour)
    }

    /// Whether a slot of an hour holds anything.
    fn holds_anything(&self, hour: u32) -> bool
        ensures { result ≡ book_holds (book_meaning self.now) hour }
    {
        (0..SLOTS).any(|slot| self.read(hour, slot) != 0)
    }
}
