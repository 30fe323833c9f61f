//! Messages of the line in words: as text, and read back from text.
#![tactic(auto)]

pub mod fault;
pub mod fields;
mod lists;
mod promises;
pub mod reading;
mod rest;
pub mod showing;

pub use fault::NotUnderstood;
