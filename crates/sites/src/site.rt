//! The controller at a site.

ghost use Rattle.std.specs.Prelude.{◌≤◌};

use schedule::Figures;

/// A controller of a group, known by its number.
#[derive(Clone, Copy, PartialEq, Eq, Debug)]
pub struct Site {
    pub figures: Figures,
    pub own: u32,
    ghost first: { 1 ≤ own },
    ghost last: { own ≤ figures.r },
}
