//! The record that a controller keeps of a change: its phase, the replies gathered, its timestamps and ballots.
#![tactic(auto)]

pub mod acks;
pub mod phase;
pub mod proposals;
pub mod recoveries;
pub mod replies;
pub mod row;

pub use acks::Acks;
pub use phase::Phase;
pub use proposals::{Decision, Proposals};
pub use recoveries::{Recoveries, Recovery};
pub use replies::Replies;
pub use row::Row;
