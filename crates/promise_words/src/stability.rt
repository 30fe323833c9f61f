//! The stable timestamp of a group.

ghost use Rattle.std.specs.Prelude.{◌≡◌, nat_le};
ghost use Rattle.schedule.specs.Group.{majority};
ghost use Rattle.promise_words.specs.Stability.{holders, stable_of, StableAt};

use crate::timestamps::Timestamps;
use schedule::Figures;

/// How many of these sets hold all of 1 to s.
fn holders(sets: &[Timestamps], s: u32) -> usize
    ensures { result ≡ holders s sets.now }
{
    sets.iter().filter(|set| set.run() >= s).count()
}

/// Whether a majority of the group's sets hold all of 1 to s.
fn held_by_majority(figures: &Figures, group: &[Timestamps], s: u32) -> bool
    ensures { result ≡ nat_le (majority figures.now.r) (holders s group.now) }
{
    holders(group, s) >= figures.majority() as usize
}

/// The greatest s, perhaps 0, for which the promises 1 to s of a majority are all known.
/// `known` has the promises known of each controller, in the order of their numbers.
pub fn stable(figures: &Figures, known: &[Timestamps; 7]) -> u32
    ensures value { result ≡ stable_of figures.now.r known.now }
    ensures greatest { StableAt figures.now.r known.now result }
{
    let group = &known[..figures.r as usize];
    // kept: `filter` and `max` were tried, and count a majority for every run.
    group.iter().map(Timestamps::run).fold(0, |best, run| {
        if run > best && held_by_majority(figures, group, run) {
            run
        } else {
            best
        }
    })
}
