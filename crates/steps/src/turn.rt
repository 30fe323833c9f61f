//! What a message, an entry or a take-over alters: the record of a change and the clock, at a site.

ghost use Rattle.std.specs.Prelude.{◌≡◌};
ghost use Rattle.promise_words.specs.Clocks.{bumped};
ghost use Rattle.steps.specs.Steps.{known, committed, promised, accepted, joining, offered};
ghost use Rattle.steps.specs.Turns.{Holds, Tries};

use promise_words::{Clock, ClockFault};
use record::{Phase, Row};
use schedule::{Change, ControllerSet};
use sites::site::Site;

/// The record of a change and the clock, at a site.
// kept: the number of the change is a parameter and no field, since an entry and a take-over have none.
#[derive(Drop)]
pub(crate) struct Turn<'a> {
    pub(crate) site: &'a Site,
    pub(crate) row: &'a mut Row,
    pub(crate) clock: &'a mut Clock,
}

impl Turn<'_> {
    /// Keeps a change and its fast set.
    pub(crate) fn keep(&mut self, change: &Change, set: &ControllerSet)
        ensures { Holds (known change.now set.now self.old.row.now) self.old.clock.now self.old self.new }
    {
        self.row.change = *change;
        self.row.set = *set;
        self.row.phase = Phase::Payload;
    }

    /// Keeps a change and its fast set, and promises the next timestamp that is not below `least`.
    // kept: change and set are two parameters, as the messages and the record have them; a struct of both would be taken apart at once.
    pub(crate) fn propose(
        &mut self,
        change: &Change,
        set: &ControllerSet,
        least: u32,
    ) -> Result<u32, ClockFault>
        ensures { Tries (offered change.now set.now least self.old.row.now self.old.clock.now) self.old result self.new }
    {
        let t = self.clock.propose(least)?;
        self.keep(change, set);
        self.promise(Phase::Propose, t);
        Ok(t)
    }

    /// Takes a timestamp as the own promise.
    fn promise(&mut self, phase: Phase, t: u32)
        ensures { Holds (promised phase t self.old.row.now) self.old.clock.now self.old self.new }
    {
        self.row.timestamp = t;
        self.row.promise = Some(t);
        self.row.phase = phase;
    }

    /// Commits a timestamp.
    pub(crate) fn commit(&mut self, t: u32)
        ensures { Holds (committed t self.old.row.now) (bumped t self.old.clock.now) self.old self.new }
    {
        self.row.timestamp = t;
        self.row.phase = Phase::Commit;
        self.clock.bump(t);
    }

    /// Accepts a timestamp at a ballot; at ballot 0, which is none, nothing counts as accepted.
    pub(crate) fn accept(&mut self, t: u32, ballot: u32)
        ensures { Holds (accepted t ballot self.old.row.now) (bumped t self.old.clock.now) self.old self.new }
    {
        self.row.timestamp = t;
        self.row.ballot = ballot;
        self.row.accepted = (ballot != 0).then_some(ballot);
        self.clock.bump(t);
    }

    /// Joins a ballot.
    pub(crate) fn join(&mut self, ballot: u32) -> Result<(), ClockFault>
        ensures { Tries (joining ballot self.old.row.now self.old.clock.now) self.old result self.new }
    {
        match self.row.phase {
            Phase::Payload if self.row.ballot == 0 => {
                let t = self.clock.propose(0)?;
                self.promise(Phase::RecoverR, t);
            }
            Phase::Propose if self.row.ballot == 0 => self.row.phase = Phase::RecoverP,
            _ => (),
        }
        self.row.ballot = ballot;
        Ok(())
    }
}
