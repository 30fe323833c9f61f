//! The table of a controller's records: what it tells and learns of promises, and the change that is due.
#![tactic(auto)]

pub mod carrying;
pub mod knowing;
pub mod rows;
pub mod telling;

pub use carrying::finish;
pub use rows::Rows;
