//! Numbers and names that stand for nothing.

ghost use Rattle.std.specs.Prelude.{Some};
ghost use Rattle.schedule.specs.Changes.{unknown_text, nameless_text};

use std::error::Error;
use std::fmt;

/// A number that stands for nothing.
#[derive(Clone, Copy, PartialEq, Eq, Debug)]
pub struct UnknownNumber(pub u32);

/// A name that nothing has.
#[derive(Clone, Copy, PartialEq, Eq, Debug)]
pub struct UnknownName;

impl fmt::Display for UnknownNumber {
    ghost output = { λ unknown. Some (unknown_text unknown.0) };

    fn fmt<W: fmt::Write>(&self, f: &mut fmt::Formatter<W>) -> fmt::Result {
        write!(f, "the number {} stands for nothing", self.0)
    }
}

impl fmt::Display for UnknownName {
    ghost output = { λ _. Some nameless_text };

    fn fmt<W: fmt::Write>(&self, f: &mut fmt::Formatter<W>) -> fmt::Result {
        f.write_str("nothing has this name")
    }
}

impl Error for UnknownNumber {}

impl Error for UnknownName {}
