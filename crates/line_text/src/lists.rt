//! Lists joined by commas: read piece by piece, `none` where there is none.

ghost use Rattle.std.specs.Prelude.{◌≡◌, ℕ, ◌<◌, List, [], Option, Some};
ghost use Rattle.std.specs.Option.{option_map};
ghost use Rattle.std.specs.Fmt.{DisplaysOnOk, WritesOnOk, ◌++?◌};
ghost use Rattle.line_text.specs.Lists.{cut, ends, listed, comma, list_from};
ghost use Rattle.line_text.specs.Sets.{with_member, set_text};

use schedule::ControllerSet;
use std::fmt;
use text_forms::number::number;

/// What stands before and after the first such character.
pub(crate) fn cut<'a>(text: &'a str, at: char) -> Option<(&'a str, &'a str)>
    requires { at < 128 }
    ensures { option_map ends result ≡ cut at text.now }
{
    text.split_once(at)
}

/// What is gathered from the pieces of a list.
pub trait Gathering: Copy {
    ghost adds: { Self → List ℕ → Option Self };

    /// What is gathered with one more piece; none where the piece is not understood.
    fn with(self, piece: &str) -> Option<Self>
        ensures { result ≡ Self.Gathering.adds self piece.now };
}

/// What the pieces of a list add to what is there.
pub(crate) fn gather<G: Gathering>(start: G, text: &str) -> Option<G>
    ensures { result ≡ listed G.Gathering.adds start text.now }
{
    if text == "none" {
        return Some(start);
    }
    text.split(',')
        .try_fold(start, |gathered, piece| gathered.with(piece))
}

/// Members of a set are numbers from 1 to 32.
impl Gathering for ControllerSet {
    ghost adds = { with_member };

    fn with(self, piece: &str) -> Option<ControllerSet> {
        let member = number(piece)?;
        if member < 1 || member > 32 {
            return None;
        }
        Some(ControllerSet {
            bits: self.bits | 1 << (member - 1),
        })
    }
}

/// One more piece of a list, after a comma where it is not the first.
pub(crate) fn add<P: fmt::Display, W: fmt::Write>(
    first: bool,
    piece: &P,
    f: &mut fmt::Formatter<W>,
) -> fmt::Result
    ensures { DisplaysOnOk W.write_str_gives f.old result (Some (comma first) ++? P.output piece.now) f.new }
{
    if first {
        write!(f, "{piece}")
    } else {
        write!(f, ",{piece}")
    }
}

/// The end of a list: `none` where there was no piece.
pub(crate) fn finish<W: fmt::Write>(first: bool, f: &mut fmt::Formatter<W>) -> fmt::Result
    ensures { WritesOnOk W.write_str_gives f.old result (list_from [] first) f.new }
{
    if first { write!(f, "none") } else { Ok(()) }
}

/// A set's members as text.
#[derive(Clone, Copy)]
pub(crate) struct Members(pub u32);

impl fmt::Display for Members {
    ghost output = { λ members. Some (set_text members.0) };

    fn fmt<W: fmt::Write>(&self, f: &mut fmt::Formatter<W>) -> fmt::Result {
        let set = ControllerSet { bits: self.0 };
        // kept: a flag; a joiner of any iterator would need contracts of its own for what that yields, and be no plainer.
        let mut first = true;
        for member in 1..33u32 {
            if set.contains(member) {
                add(first, &member, f)?;
                first = false;
            }
        }
        finish(first, f)
    }
}
