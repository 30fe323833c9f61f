//! What the break ledger does.

ghost use Rattle.std.specs.Prelude.{◌≡◌};
ghost use Rattle.services.specs.Makes.{ledger_next, ledger_outcome};
ghost use Rattle.services.specs.Places.{Table, no_places, place, hour_total};

use crate::ledger::BreakLedger;
use crate::places::Places;
use crate::service::Service;
use schedule::Change;

impl BreakLedger {
    /// A ledger with nothing booked.
    // kept: `new` and `read` stand alike in both makes, since each is one call.
    pub fn new() -> BreakLedger
        ensures { result.places.rows ≡ no_places }
    {
        BreakLedger {
            places: Places::new(),
        }
    }

    /// The seconds booked in an hour, 0 outside the day.
    pub fn booked(&self, hour: u32) -> u32
        ensures { result ≡ hour_total self.now.places.rows hour }
    {
        match self.places.rows.get(hour as usize) {
            Some(row) => row.iter().sum(),
            None => 0,
        }
    }
}

impl Service for BreakLedger {
    ghost State = { Table };

    ghost meaning = { λ ledger. ledger.places.rows };

    ghost next = { ledger_next };

    ghost outcome = { ledger_outcome };

    ghost reads = { place };

    fn carry_out(&mut self, change: &Change) -> (u32, u32) {
        let total = self.booked(change.hour);
        self.places.carry_out(change, Some(total))
    }

    fn read(&self, hour: u32, slot: u32) -> u32 {
        self.places.at(hour, slot)
    }
}
