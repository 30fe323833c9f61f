//! The account of a run: how many lines came to what.

use line_format::{LineFault, Message};
use std::fmt;
use text_forms::Form;

/// How many forms a message has.
const KINDS: usize = 9;

/// How many messages of each form were read, how many were written, and how many lines came to nothing.
#[derive(Clone, Copy)]
pub struct Account {
    read: [u64; KINDS],
    written: u64,
    malformed: u64,
    outside: u64,
    not_understood: u64,
}

/// The forms in the order of their types, each at its place in the count.
const FORMS: [Form; KINDS] = [
    Form::MPayload,
    Form::MPropose,
    Form::MProposeAck,
    Form::MCommit,
    Form::MConsensus,
    Form::MConsensusAck,
    Form::MRec,
    Form::MRecAck,
    Form::MPromises,
];

impl Account {
    pub(crate) fn new() -> Account {
        Account {
            read: [0; KINDS],
            written: 0,
            malformed: 0,
            outside: 0,
            not_understood: 0,
        }
    }

    pub(crate) fn count_read(&mut self, message: &Message) {
        let place = Form::from(message) as usize;
        self.read[place] = self.read[place].saturating_add(1);
    }

    pub(crate) fn count_written(&mut self) {
        self.written = self.written.saturating_add(1);
    }

    pub(crate) fn count_refused(&mut self, fault: LineFault) {
        match fault {
            LineFault::OutsideLimits => self.outside = self.outside.saturating_add(1),
            _ => self.malformed = self.malformed.saturating_add(1),
        }
    }

    pub(crate) fn count_not_understood(&mut self) {
        self.not_understood = self.not_understood.saturating_add(1);
    }

    fn all_read(&self) -> u64 {
        self.read
            .iter()
            .fold(0, |all, count| all.saturating_add(*count))
    }
}

impl fmt::Display for Account {
    fn fmt<W: fmt::Write>(&self, f: &mut fmt::Formatter<W>) -> fmt::Result {
        let read = self.all_read();
        writeln!(f, "read            {read:>8}")?;
        for (form, count) in FORMS.iter().zip(&self.read) {
            let name = form.name();
            writeln!(f, "  {name:<14}{count:>8}")?;
        }
        let written = self.written;
        writeln!(f, "written         {written:>8}")?;
        let malformed = LineFault::Malformed.number();
        writeln!(f, "refused {malformed:<8}{:>8}", self.malformed)?;
        let outside = LineFault::OutsideLimits.number();
        writeln!(f, "refused {outside:<8}{:>8}", self.outside)?;
        let lost = self.not_understood;
        write!(f, "not understood  {lost:>8}")
    }
}
