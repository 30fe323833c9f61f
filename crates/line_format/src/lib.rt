//! The line format: the nine messages that controllers exchange, read from bytes and written as bytes.
#![tactic(auto)]

pub mod fault;
pub mod laws;
pub mod limits;
pub mod message;
pub mod reading;
pub mod writing;

pub use fault::LineFault;
pub use limits::Field;
pub use message::{Message, Pair, Promises};
pub use reading::{read, shape};
pub use writing::write;
