//! Services: what carrying out a change does. A trait says what a service is; the running order and the
//! break ledger are two makes of it, and final say is a layer over any.
#![tactic(auto)]

pub mod answer;
pub mod booking;
pub mod ledger;
pub mod order;
mod places;
mod rules;
pub mod say;
pub mod service;

pub use answer::Answer;
pub use ledger::BreakLedger;
pub use order::RunningOrder;
pub use rules::HOUR_SECONDS;
pub use say::FinalSay;
pub use service::Service;

#[cfg(test)]
mod tests;
