//! Why a line is not understood.

ghost use Rattle.std.specs.Prelude.{Some};
ghost use Rattle.line_text.specs.Faults.{not_understood_text};

use crate::fields::label;
use line_format::Field;
use std::fmt;

/// Why a line in words is no message.
#[derive(Clone, Copy, PartialEq, Eq, Debug)]
pub enum NotUnderstood {
    /// The first word names no message.
    Name,
    /// This field should stand here.
    Expected(Field),
    /// This field has a value that it cannot have.
    Value(Field),
    /// Words follow the last field.
    Leftover,
}

impl fmt::Display for NotUnderstood {
    ghost output = { λ fault. Some (not_understood_text fault) };

    fn fmt<W: fmt::Write>(&self, f: &mut fmt::Formatter<W>) -> fmt::Result {
        match self {
            NotUnderstood::Name => write!(f, "no message has this name"),
            NotUnderstood::Expected(field) => {
                let name = label(*field);
                write!(f, "expected {name}=")
            }
            NotUnderstood::Value(field) => {
                let name = label(*field);
                write!(f, "{name} has no such value")
            }
            NotUnderstood::Leftover => write!(f, "words after the last field"),
        }
    }
}
