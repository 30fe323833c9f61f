//! Final say: for each hour one department may have the say over a service.

ghost use Rattle.std.specs.Prelude.{◌≡◌};
ghost use Rattle.services.specs.Say.{Says, no_says, say_number, holder_at, say_at, say_judged, say_becomes, say_next, say_outcome};

use crate::answer::Answer;
use crate::places::DAY_HOURS;
use crate::rules::asks;
use crate::service::Service;
use schedule::change::HOURS;
use schedule::{Change, Department, Kind};

/// A service under final say: who has the say of each hour, and the service below.
#[derive(Clone, Copy)]
pub struct FinalSay<S> {
    pub(crate) says: [Option<Department>; DAY_HOURS],
    pub(crate) below: S,
}

/// What final say decides on a change.
#[derive(Clone, Copy)]
pub enum SayRuling {
    /// The service below answers.
    Below,
    /// The say of the hour becomes this, and the number is told.
    Becomes(Option<Department>, u32),
    /// Refused, and the number is told.
    Refused(Answer, u32),
}

/// The number for who has the say: 0 nobody, else the department.
// kept: outcomes tell the number, by a rule of the project.
fn number_of(say: Option<Department>) -> u32
    ensures { result ≡ say_number say }
{
    say.map_or(0, u32::from)
}

/// What is decided where the hour's say is with the given holder. The first line that fits decides.
fn judge_say(change: &Change, holder: Option<Department>) -> SayRuling
    ensures { result ≡ say_judged change.now (say_number holder) }
{
    let asking = Department::try_from(change.department).ok();
    let told = number_of(holder);
    match asks(change) {
        None => SayRuling::Refused(Answer::OutsideLimits, 0),
        Some(Kind::Claim) if holder.is_none() || holder == asking => SayRuling::Becomes(
            asking, told,
        ),
        Some(Kind::Claim) => SayRuling::Refused(Answer::OthersSay, told),
        Some(Kind::Yield) if holder == asking => SayRuling::Becomes(None, told),
        Some(Kind::Yield) => SayRuling::Refused(Answer::NotHolder, told),
        Some(_) if holder.is_some() && holder != asking => SayRuling::Refused(
            Answer::OthersSay,
            told,
        ),
        Some(_) => SayRuling::Below,
    }
}

impl<S> FinalSay<S> {
    /// Final say over a service; nobody has the say of any hour.
    pub fn new(below: S) -> FinalSay<S>
        ensures says { result.says ≡ no_says }
        ensures below { result.below ≡ below }
    {
        FinalSay {
            says: [None; DAY_HOURS],
            below,
        }
    }

    /// Who has the say of an hour, if anybody has; nobody has it outside the day.
    pub fn holder(&self, hour: u32) -> Option<Department>
        ensures { result ≡ holder_at self.now.says hour }
    {
        self.says.get(hour as usize).copied().flatten()
    }

    /// The number for who has the say of an hour: 0 nobody or an hour outside the day, else the department.
    // kept: a number by a rule of the project, told in outcomes; `holder` answers the department.
    pub fn say(&self, hour: u32) -> u32
        ensures { result ≡ say_at self.now.says hour }
    {
        number_of(self.holder(hour))
    }

    /// Gives the say of an hour to a department or to nobody; outside the day nothing changes.
    fn give(&mut self, hour: u32, say: Option<Department>)
        ensures says { self.new.says ≡ say_becomes self.old.says hour say }
        ensures below { self.new.below ≡ self.old.below }
    {
        // kept: tried with `get_mut`, and after a write through it the proof knows no element.
        if hour < HOURS {
            self.says[hour as usize] = say;
        }
    }

    /// The service below.
    pub fn below(&self) -> &S
        ensures { result.now ≡ self.now.below }
    {
        &self.below
    }
}

impl<S: Service> Service for FinalSay<S> {
    ghost State = { Says × S.Service.State };

    ghost meaning = { λ layer. (layer.says, S.Service.meaning layer.below) };

    ghost next = { say_next S.Service.next };

    ghost outcome = { say_outcome S.Service.outcome };

    ghost reads = { λ state. S.Service.reads state.1 };

    fn carry_out(&mut self, change: &Change) -> (u32, u32) {
        match judge_say(change, self.holder(change.hour)) {
            SayRuling::Below => self.below.carry_out(change),
            SayRuling::Becomes(say, told) => {
                self.give(change.hour, say);
                (Answer::Done.into(), told)
            }
            SayRuling::Refused(answer, told) => (answer.into(), told),
        }
    }

    fn read(&self, hour: u32, slot: u32) -> u32 {
        self.below.read(hour, slot)
    }
}
