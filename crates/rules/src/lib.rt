//! The rules of a controller: its whole state, and each of its calls as a definition.
#![tactic(auto)]

pub mod senders;
pub mod state;

pub use state::Core;
