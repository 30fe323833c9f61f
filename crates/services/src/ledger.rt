//! The break ledger: the seconds booked for each hour and account, the account being the slot.

ghost use Rattle.std.specs.Prelude.{◌≡◌, true};
ghost use Rattle.services.specs.Places.{hours_within};

use crate::places::Places;

/// The bookings of a day. No hour holds more than 720 seconds.
#[derive(Clone, Copy)]
pub struct BreakLedger {
    pub(crate) places: Places,
    ghost within: { hours_within places.rows ≡ true },
}
