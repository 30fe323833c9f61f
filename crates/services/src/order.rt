//! The running order: an item in each hour and slot, 0 for an empty place.

ghost use Rattle.std.specs.Prelude.{◌≡◌};
ghost use Rattle.services.specs.Makes.{order_next, order_outcome};
ghost use Rattle.services.specs.Places.{Table, no_places, place};

use crate::places::Places;
use crate::service::Service;
use schedule::Change;

/// The items of a day.
#[derive(Clone, Copy)]
pub struct RunningOrder {
    places: Places,
}

impl RunningOrder {
    /// An order with no item in it.
    // kept: `new` and `read` stand alike in both makes, since each is one call.
    pub fn new() -> RunningOrder
        ensures { result.places.rows ≡ no_places }
    {
        RunningOrder {
            places: Places::new(),
        }
    }
}

impl Service for RunningOrder {
    ghost State = { Table };

    ghost meaning = { λ order. order.places.rows };

    ghost next = { order_next };

    ghost outcome = { order_outcome };

    ghost reads = { place };

    fn carry_out(&mut self, change: &Change) -> (u32, u32) {
        self.places.carry_out(change, None)
    }

    fn read(&self, hour: u32, slot: u32) -> u32 {
        self.places.at(hour, slot)
    }
}
