//! How far a change has come at a controller.

pub use schedule::Phase;
