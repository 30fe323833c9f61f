//! The rules that the makes share: what is decided on one place of a day.

ghost use Rattle.std.specs.Prelude.{◌≡◌};
ghost use Rattle.services.specs.Rules.{asked, over, judged};

use crate::answer::Answer;
use schedule::{Change, Kind};

/// The most seconds that an hour of a ledger holds.
pub const HOUR_SECONDS: u32 = 720;

/// What a change asks for, if all its numbers are within their limits.
pub(crate) fn asks(change: &Change) -> Option<Kind>
    ensures { result ≡ asked change.now }
{
    if change.fits() {
        Kind::try_from(change.kind).ok()
    } else {
        None
    }
}

/// Whether an hour that counts its total would pass its seconds, were a place to hold `value` instead of `held`.
fn passes(total: Option<u32>, held: u32, value: u32) -> bool
    ensures { result ≡ over total held value }
{
    total.is_some_and(|seconds| seconds.saturating_sub(held).saturating_add(value) > HOUR_SECONDS)
}

/// What the place holds after the change, or why it is refused and what is told besides.
/// `total` is what the whole hour holds, for a make that limits it. The first line that fits decides.
pub(crate) fn judge(change: &Change, held: u32, total: Option<u32>) -> Result<u32, (Answer, u32)>
    ensures { result ≡ judged change.now held total }
{
    let value = change.value;
    match asks(change) {
        None | Some(Kind::Claim | Kind::Yield) => Err((Answer::OutsideLimits, 0)),
        Some(Kind::Put | Kind::Replace) if value == 0 => Err((Answer::NoValue, held)),
        Some(Kind::Put) if held != 0 => Err((Answer::Occupied, held)),
        Some(Kind::Clear | Kind::Replace) if held == 0 => Err((Answer::Empty, 0)),
        Some(Kind::Put | Kind::Replace) if passes(total, held, value) => Err((
            Answer::HourFull,
            held,
        )),
        Some(Kind::Put | Kind::Replace) => Ok(value),
        Some(Kind::Clear) => Ok(0),
    }
}
