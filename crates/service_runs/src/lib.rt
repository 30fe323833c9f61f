//! Whole runs of changes on services, and the laws that hold of them.
#![tactic(auto)]

pub mod run;
pub mod steady;

pub use steady::Steady;

#[cfg(test)]
mod tests;
