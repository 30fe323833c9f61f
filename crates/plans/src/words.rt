//! The words of a plan's line.

ghost use Rattle.std.specs.Prelude.{◌≡◌};
ghost use Rattle.plans.specs.Lines.{number_of, department_named, kind_named};

use schedule::{Department, Kind};

/// The number that a word writes in decimal.
pub(crate) fn number(word: &str) -> Option<u32>
    ensures { result ≡ number_of word.now }
{
    word.parse::<u32>().ok()
}

/// The number of a department, given by its name or as any number.
// kept: beside the one of a kind, since one over any type would state two conversions, which is longer than either chain.
pub(crate) fn department(word: &str) -> Option<u32>
    ensures { result ≡ department_named word.now }
{
    word.parse::<Department>()
        .ok()
        .map(u32::from)
        .or_else(|| number(word))
}

/// The number of a kind, given by its name or as any number.
pub(crate) fn kind(word: &str) -> Option<u32>
    ensures { result ≡ kind_named word.now }
{
    word.parse::<Kind>()
        .ok()
        .map(u32::from)
        .or_else(|| number(word))
}
