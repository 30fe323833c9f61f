//! The change that is due, and its record once it is carried out.

ghost use Rattle.std.specs.Prelude.{◌≡◌};
ghost use Rattle.tables.specs.Tables.{due_entry, due_from, due, is_carried, carried_count, finished};

use crate::rows::Rows;
use line_format::message::PAIRS;
use ranking::{Due, first_in_rank};
use record::{Phase, Row};

/// A record as an entry of the search for the change that is due, if it is committed and not above `stable`.
fn due_entry(row: &Row, id: u32, stable: u32) -> Option<Due>
    ensures { result ≡ due_entry stable id row.now }
{
    let timestamp = row.timestamp;
    (row.phase == Phase::Commit && timestamp <= stable).then_some(Due { timestamp, id })
}

/// The records as entries of the search.
fn due_entries(rows: &[Row; PAIRS], stable: u32) -> [Option<Due>; PAIRS]
    ensures { result ≡ due_from stable 1 rows.now }
{
    let mut entries = [None; PAIRS];
    // kept: `array::from_fn` was tried and proved, but the kit cannot yet write out a closure whose bound its callers answer for.
    for (i, row) in rows.iter().enumerate() {
        entries[i] = due_entry(row, i as u32 + 1, stable);
    }
    entries
}

/// Whether the change of a record was carried out.
fn was_carried(row: &Row) -> bool
    ensures { result ≡ is_carried row.now }
{
    row.phase == Phase::CarriedOut
}

impl Rows {
    /// The place of the change that is due: of those that are committed with a timestamp of at most `stable`,
    /// the least timestamp, then the least number.
    pub fn due(&self, stable: u32) -> Option<usize>
        ensures { result ≡ due stable self.now.rows }
    {
        first_in_rank(&due_entries(&self.rows, stable))
    }

    /// How many changes were carried out.
    pub fn carried(&self) -> u32
        ensures { result ≡ carried_count self.now.rows }
    {
        // kept: `filter` and `count` were tried, and take half as much time again.
        self.rows
            .iter()
            .map(|row| u32::from(was_carried(row)))
            .sum::<u32>()
    }
}

// kept: an outcome is a pair of numbers by a rule of the project, as a service answers it.
/// A change was carried out: its record keeps the place and the outcome.
pub fn finish(row: &mut Row, place: u32, outcome: (u32, u32))
    ensures { row.new ≡ finished place outcome row.old }
{
    row.phase = Phase::CarriedOut;
    row.place = place;
    row.outcome = outcome;
}
