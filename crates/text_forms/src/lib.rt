//! The forms that text about messages is made of: names of messages, decimal numbers, bytes in hexadecimal.
#![tactic(auto)]

pub mod form;
pub mod hexadecimal;
pub mod number;

pub use form::Form;
