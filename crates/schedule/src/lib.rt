//! What every part of the product shares: the figures of a group, the numbers of changes and ballots,
//! a change with its limits and phases, and sets of controllers.
#![tactic(auto)]

pub mod change;
pub mod figures;
pub mod making;
pub mod phase;
pub mod set;
pub mod unknown;

pub use change::{Change, Department, Kind};
pub use figures::{Figures, FiguresFault};
pub use phase::Phase;
pub use set::ControllerSet;
pub use unknown::{UnknownName, UnknownNumber};
