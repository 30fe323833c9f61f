//! What a message, an entry and a take-over do to the record of a change and to the clock.
#![tactic(auto)]

pub mod entry;
pub mod stepping;
pub mod takeover;
mod turn;

pub use stepping::step;
