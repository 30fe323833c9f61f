//! The first line of the input: the figures of the group.

use line_text::reading::words;
use schedule::{Figures, FiguresFault};
use std::alloc::{AllocError, Global};
use std::fmt;
use text_forms::number::number;

/// Why there are no group figures.
#[derive(Clone, Copy)]
pub enum NoFigures {
    NotTwoNumbers,
    Refused(FiguresFault),
    NoMemory,
}

impl fmt::Display for NoFigures {
    fn fmt<W: fmt::Write>(&self, f: &mut fmt::Formatter<W>) -> fmt::Result {
        match self {
            NoFigures::NotTwoNumbers => {
                let number = FiguresFault::OutsideLimits.number();
                write!(
                    f,
                    "refused {number} (the first line is not two numbers, R F)"
                )
            }
            NoFigures::Refused(fault) => {
                let number = fault.number();
                write!(
                    f,
                    "refused {number} (figures want 3 <= R <= 7, 1 <= F and 2F + 1 <= R)"
                )
            }
            NoFigures::NoMemory => write!(f, "no memory"),
        }
    }
}

impl From<AllocError> for NoFigures {
    fn from(_error: AllocError) -> NoFigures {
        NoFigures::NoMemory
    }
}

impl From<FiguresFault> for NoFigures {
    fn from(fault: FiguresFault) -> NoFigures {
        NoFigures::Refused(fault)
    }
}

/// The figures that two numbers, R and F, give.
pub(crate) fn figures(heap: Global, line: &str) -> Result<Figures, NoFigures> {
    let given = words(heap, line)?;
    let [r, f] = given.as_slice() else {
        return Err(NoFigures::NotTwoNumbers);
    };
    let r = number(r).ok_or(NoFigures::NotTwoNumbers)?;
    let f = number(f).ok_or(NoFigures::NotTwoNumbers)?;
    Ok(Figures::new(r, f)?)
}
