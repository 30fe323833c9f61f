//! A day's places: a number for each hour and slot.

ghost use Rattle.std.specs.Prelude.{◌≡◌};
ghost use Rattle.services.specs.Makes.{held_at, table_by, outcome_by};
ghost use Rattle.services.specs.Places.{no_places, place, with_place};
ghost use Rattle.services.specs.Rules.{judged};

use crate::answer::Answer;
use crate::rules::judge;
use schedule::Change;
use schedule::change::{HOURS, SLOTS};

/// Hours of a day and slots of an hour, as the lengths of tables.
pub const DAY_HOURS: usize = HOURS as usize;

pub const HOUR_SLOTS: usize = SLOTS as usize;

/// A number for each hour and slot, 0 for an empty place.
// kept: 0 for an empty place by a rule of the project, since readings and outcomes tell it.
#[derive(Clone, Copy)]
pub struct Places {
    pub rows: [[u32; HOUR_SLOTS]; DAY_HOURS],
}

impl Places {
    /// Places that are all empty.
    pub(crate) fn new() -> Places
        ensures { result.rows ≡ no_places }
    {
        Places {
            rows: [[0; HOUR_SLOTS]; DAY_HOURS],
        }
    }

    /// What the place holds, 0 outside the limits.
    pub(crate) fn at(&self, hour: u32, slot: u32) -> u32
        ensures { result ≡ place self.now.rows hour slot }
    {
        self.rows
            .get(hour as usize)
            .and_then(|row| row.get(slot as usize))
            .copied()
            .unwrap_or(0)
    }

    /// Has the place hold a value; outside the limits nothing changes.
    pub(crate) fn put(&mut self, hour: u32, slot: u32, value: u32)
        ensures { self.new.rows ≡ with_place self.old.rows hour slot value }
    {
        // kept: tried with `get_mut`, and after a write through it the proof knows no element.
        if hour < HOURS && slot < SLOTS {
            self.rows[hour as usize][slot as usize] = value;
        }
    }

    /// Carries out a change as the rules say, for a make that counts the hour's total or counts none.
    pub(crate) fn carry_out(&mut self, change: &Change, total: Option<u32>) -> (u32, u32)
        ensures moves { self.new.rows ≡ table_by (judged change.now (held_at self.old.rows change.now) total) self.old.rows change.now }
        ensures answers { result ≡ outcome_by (judged change.now (held_at self.old.rows change.now) total) (held_at self.old.rows change.now) }
    {
        let held = self.at(change.hour, change.slot);
        match judge(change, held, total) {
            Ok(value) => {
                self.put(change.hour, change.slot, value);
                (Answer::Done.into(), held)
            }
            Err((answer, told)) => (answer.into(), told),
        }
    }
}
