//! The state of a controller, without its service.

use promise_words::{Clock, Timestamps};
use record::proposals::SEATS;
use sites::Site;
use tables::Rows;

/// What a controller keeps: how many changes were entered here, its clock with the detached promises, the promises
/// known of each controller, and a record for each change.
#[derive(Clone, Copy)]
pub struct Core {
    pub site: Site,
    pub entered: u32,
    pub clock: Clock,
    pub known: [Timestamps; SEATS],
    pub table: Rows,
}
