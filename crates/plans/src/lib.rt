//! Plans: lines that ask for changes and readings, and the service that they are tried on.
#![tactic(auto)]

pub mod book;
pub mod day;
pub mod request;
pub mod tally;
mod words;

pub use book::Book;
pub use day::{Day, Reply};
pub use request::{Misread, Request};
pub use tally::Tally;
