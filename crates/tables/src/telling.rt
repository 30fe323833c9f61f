//! What a controller tells of its promises.

ghost use Rattle.std.specs.Prelude.{◌≡◌, ◌≤◌, ◌++◌, length, drop};
ghost use Rattle.tables.specs.Tables.{own_promises, told};

use crate::rows::Rows;
use line_format::Promises;
use line_format::message::{PAIRS, Pair};
use promise_words::Timestamps;
use record::Row;

/// Puts each change with its own promise into the first places of a table, and answers how many there are.
fn put_promises(rows: &[Row; PAIRS], pairs: &mut [Pair; PAIRS]) -> usize
    ensures count { result ≡ length (own_promises rows.now) }
    ensures table { pairs.new ≡ own_promises rows.now ++ drop (length (own_promises rows.now)) pairs.old }
    ensures within { result ≤ 224 }
{
    let mut count = 0;
    // kept: tried with a zip of `pairs.iter_mut()`, and its proof did not close.
    for (i, row) in rows.iter().enumerate() {
        if let Some(timestamp) = row.promise {
            pairs[count] = Pair {
                id: i as u32 + 1,
                timestamp,
            };
            count += 1;
        }
    }
    count
}

impl Rows {
    /// The promises of a controller with these detached ones: they, and each change with its own promise.
    #[tactic(auto, unfolding(line_format::specs::Reading::no_pairs))]
    pub fn told(&self, detached: &Timestamps) -> Promises
        ensures { result ≡ told detached.now.words self.now.rows }
    {
        let mut pairs = [Pair::default(); PAIRS];
        let count = put_promises(&self.rows, &mut pairs);
        Promises {
            detached: detached.words,
            count: count as u32,
            pairs,
        }
    }
}
