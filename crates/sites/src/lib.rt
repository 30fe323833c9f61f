//! The controller at a site: which numbers belong to it, whom it addresses, and why it turns down a call.
#![tactic(auto)]

pub mod numbers;
pub mod refusal;
pub mod sent;
pub mod site;

pub use refusal::Refusal;
pub use sent::Sent;
pub use site::Site;
