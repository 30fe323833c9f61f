//! What a controller takes as known of another's promises.

ghost use Rattle.std.specs.Prelude.{◌≡◌, take};
ghost use Rattle.tables.specs.Tables.{settled_at, with_pair, with_pairs, learnt};

use crate::rows::Rows;
use line_format::Promises;
use line_format::message::Pair;
use promise_words::Timestamps;

/// The first so many pairs, or all if there are fewer.
fn first_pairs(pairs: &[Pair], count: u32) -> &[Pair]
    ensures { result.now ≡ take count pairs.now }
{
    pairs.get(..count as usize).unwrap_or(pairs)
}

impl Rows {
    /// Whether a change is committed here, carried out or not.
    pub fn is_settled(&self, id: u32) -> bool
        ensures { result ≡ settled_at self.now.rows id }
    {
        (id as usize)
            .checked_sub(1)
            .and_then(|place| self.rows.get(place))
            .is_some_and(|row| row.phase.is_settled())
    }

    /// Adds the own promise of a pair if its change is committed here.
    fn learn_pair(&self, known: &mut Timestamps, pair: &Pair)
        ensures { known.new.words ≡ with_pair self.now.rows known.old.words pair.now }
    {
        if self.is_settled(pair.id) {
            known.insert(pair.timestamp);
        }
    }

    /// Adds the own promises of these pairs, each if its change is committed here.
    fn learn_pairs(&self, known: &mut Timestamps, pairs: &[Pair])
        ensures { known.new.words ≡ with_pairs self.now.rows known.old.words pairs.now }
    {
        for pair in pairs {
            self.learn_pair(known, pair);
        }
    }

    /// Adds what a controller told to what is known of it: its detached promises, and an own promise only
    /// if its change is committed here.
    pub fn learn(&self, known: &mut Timestamps, told: &Promises)
        ensures { known.new.words ≡ learnt self.now.rows known.old.words told.now }
    {
        known.join(&Timestamps {
            words: told.detached,
        });
        self.learn_pairs(known, first_pairs(&told.pairs, told.count));
    }
}
