//! A record for each change of the day.

ghost use Rattle.std.specs.Prelude.{◌≡◌};
ghost use Rattle.tables.specs.Tables.{blank_rows};

use line_format::message::PAIRS;
use record::Row;

/// A record for each number of a change: that of change n stands at n - 1.
#[derive(Clone, Copy, PartialEq, Eq, Debug)]
pub struct Rows {
    pub rows: [Row; PAIRS],
}

impl Rows {
    /// Nothing is known of any change.
    #[tactic(auto, unfolding(crate::specs::Tables::blank_rows))]
    pub fn blank() -> Rows
        ensures { result.rows ≡ blank_rows }
    {
        Rows {
            rows: [Row::blank(); PAIRS],
        }
    }
}
