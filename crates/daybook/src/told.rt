//! How outcomes and the account of a day are told.

use plans::Book;
use schedule::change::{HOURS, LAST_VALUE, SLOTS};
use schedule::{Change, Department, Kind};
use services::{Answer, HOUR_SECONDS, Service};
use std::fmt;

/// What happened to a change, in words.
// kept: an outcome is a pair of numbers by a rule of the project, as a service answers it.
#[derive(Clone, Copy)]
pub struct Told {
    pub change: Change,
    pub outcome: (u32, u32),
}

/// Who has the say, if anybody has.
#[derive(Clone, Copy)]
struct Who(Option<Department>);

/// Why a number is outside its limits, or that the service has no such kind.
#[derive(Clone, Copy)]
struct Outside(Change);

/// The account of one hour.
#[derive(Clone, Copy)]
pub struct HourAccount<'a> {
    pub book: &'a Book,
    pub hour: u32,
}

/// Who a number stands for: 0 for nobody, else the department.
impl From<u32> for Who {
    fn from(number: u32) -> Who {
        Who(Department::try_from(number).ok())
    }
}

impl fmt::Display for Who {
    fn fmt<W: fmt::Write>(&self, f: &mut fmt::Formatter<W>) -> fmt::Result {
        f.write_str(self.0.map_or("nobody", |department| department.name()))
    }
}

impl fmt::Display for Outside {
    fn fmt<W: fmt::Write>(&self, f: &mut fmt::Formatter<W>) -> fmt::Result {
        let change = self.0;
        if Department::try_from(change.department).is_err() {
            write!(f, "there is no department {}", change.department)
        } else if Kind::try_from(change.kind).is_err() {
            write!(f, "there is no kind {}", change.kind)
        } else if change.hour >= HOURS {
            write!(f, "the hours are 0 to {}", HOURS - 1)
        } else if change.slot >= SLOTS {
            write!(f, "the slots are 0 to {}", SLOTS - 1)
        } else if change.value > LAST_VALUE {
            write!(f, "the values are 0 to {LAST_VALUE}")
        } else {
            f.write_str("this service knows no claim or yield")
        }
    }
}

impl fmt::Display for Told {
    fn fmt<W: fmt::Write>(&self, f: &mut fmt::Formatter<W>) -> fmt::Result {
        let (first, second) = self.outcome;
        let who = Who::from(second);
        let outside = Outside(self.change);
        match Answer::try_from(first) {
            Ok(Answer::Done) => done(f, &self.change, second),
            Ok(Answer::Occupied) => write!(f, "refused: the place holds {second}"),
            Ok(Answer::Empty) => f.write_str("refused: the place is empty"),
            Ok(Answer::NoValue) => write!(
                f,
                "refused: 0 is nothing to put; the place holds {second}"
            ),
            Ok(Answer::HourFull) => write!(
                f,
                "refused: the hour would pass {HOUR_SECONDS} seconds; the place holds {second}"
            ),
            Ok(Answer::NotHolder | Answer::OthersSay) => {
                write!(f, "refused: {who} has the say of the hour")
            }
            Ok(Answer::OutsideLimits) => write!(f, "refused: {outside}"),
            Err(_) => f.write_str("an answer without a name"),
        }
    }
}

/// What a change did that was carried out.
fn done<W: fmt::Write>(f: &mut fmt::Formatter<W>, change: &Change, second: u32) -> fmt::Result {
    let value = change.value;
    let who = Who::from(change.department);
    match Kind::try_from(change.kind) {
        Ok(Kind::Put) => write!(f, "done: the place was empty and holds {value}"),
        Ok(Kind::Clear) => write!(f, "done: the place held {second} and is empty"),
        Ok(Kind::Replace) => write!(f, "done: the place held {second} and holds {value}"),
        Ok(Kind::Claim) if second == 0 => write!(
            f,
            "done: nobody had the say of the hour, {who} has it now"
        ),
        Ok(Kind::Claim) => write!(f, "done: {who} had the say of the hour already"),
        Ok(Kind::Yield) => write!(f, "done: {who} had the say of the hour, nobody has it now"),
        Err(_) => f.write_str("done"),
    }
}

/// A short name for the first number of an outcome.
// kept: a number by a rule of the project, as outcomes are counted and told by theirs.
pub(crate) fn outcome_name(number: u32) -> &'static str {
    match Answer::try_from(number) {
        Ok(Answer::Done) => "done",
        Ok(Answer::Occupied) => "refused, the place was taken",
        Ok(Answer::Empty) => "refused, the place was empty",
        Ok(Answer::NoValue) => "refused, nothing to put",
        Ok(Answer::HourFull) => "refused, the hour was full",
        Ok(Answer::NotHolder) => "refused, not the holder's yield",
        Ok(Answer::OthersSay) => "refused, the other has the say",
        Ok(Answer::OutsideLimits) => "refused, outside the limits",
        Err(_) => "an answer without a name",
    }
}

impl fmt::Display for HourAccount<'_> {
    fn fmt<W: fmt::Write>(&self, f: &mut fmt::Formatter<W>) -> fmt::Result {
        let hour = self.hour;
        write!(f, "hour {hour:>2}:")?;
        let say = self.book.say(hour).map(Who::from);
        if let Some(who) = say {
            write!(f, " {who} has the say")?;
        }
        if let Some(who) = self.book.inner_say(hour).map(Who::from) {
            write!(f, ", below it {who}")?;
        }
        if let Some(seconds) = self.book.booked(hour) {
            let mark = if say.is_some() { "," } else { "" };
            write!(f, "{mark} {seconds} of {HOUR_SECONDS} seconds booked")?;
        }
        for slot in 0..SLOTS {
            let held = self.book.read(hour, slot);
            if held != 0 {
                write!(f, "\n  slot {slot:>2} holds {held:>6}")?;
            }
        }
        Ok(())
    }
}
