//! How many changes were carried out with each outcome.

ghost use Rattle.std.specs.Prelude.{◌≡◌};
ghost use Rattle.plans.specs.Days.{no_counts, noted, count_of};

/// One more than the greatest first number of an outcome.
pub const OUTCOMES: u32 = 10;

/// The same, as the length of a table.
const COUNTS: usize = OUTCOMES as usize;

/// The counts by the first number of an outcome, each up to the greatest number there is.
#[derive(Clone, Copy)]
pub struct Tally {
    counts: [u32; COUNTS],
}

impl Tally {
    /// Nothing counted.
    pub fn new() -> Tally
        ensures { result.counts ≡ no_counts }
    {
        Tally {
            counts: [0; COUNTS],
        }
    }

    /// Counts a change by the first number of its outcome.
    // kept: a number, since a service answers one by a rule of the project.
    pub fn note(&mut self, outcome: u32)
        ensures { self.new.counts ≡ noted self.old.counts outcome }
    {
        // kept: tried with `get_mut`, and after a write through it the proof knows no count.
        if outcome < OUTCOMES {
            let count = &mut self.counts[outcome as usize];
            *count = count.saturating_add(1);
        }
    }

    /// How many changes had this first number.
    // kept: a number, as in `note`.
    pub fn count(&self, outcome: u32) -> u32
        ensures { result ≡ count_of self.now.counts outcome }
    {
        self.counts.get(outcome as usize).copied().unwrap_or(0)
    }
}
