//! The first in rank of a slice of entries, for every kind of entry that has a rank.
#![tactic(auto)]

pub mod accepted;
pub mod due;
pub mod rank;

pub use accepted::Accepted;
pub use due::Due;
pub use rank::{Ranked, first_in_rank};

#[cfg(test)]
mod tests {
    use crate::{Accepted, Due, first_in_rank};
    use std::cmp::Reverse;

    fn due(eligible: bool, timestamp: u32, id: u32) -> Option<Due> {
        eligible.then_some(Due { timestamp, id })
    }

    fn accepted(given: bool, ballot: u32, controller: u32) -> Option<Accepted> {
        given.then_some(Accepted {
            ballot: Reverse(ballot),
            controller,
        })
    }

    #[test]
    fn the_least_timestamp_then_the_least_number_is_due(rt: HostRuntime) {
        let entries = [
            due(true, 2, 1),
            due(true, 1, 65),
            due(false, 1, 2),
            due(true, 1, 33),
        ];
        assert_eq!(rt; first_in_rank(&entries), Some(3));
    }

    #[test]
    fn the_greatest_ballot_then_the_lowest_controller_counts(rt: HostRuntime) {
        let entries = [
            accepted(true, 6, 2),
            accepted(true, 10, 4),
            accepted(false, 12, 1),
            accepted(true, 10, 3),
        ];
        assert_eq!(rt; first_in_rank(&entries), Some(3));
    }

    #[test]
    fn the_lowest_place_of_equals_and_no_place_of_none(rt: HostRuntime) {
        let equals = [
            accepted(true, 0, 1),
            accepted(true, 5, 2),
            accepted(true, 5, 2),
        ];
        assert_eq!(rt; first_in_rank(&equals), Some(1));
        assert_eq!(rt;
            first_in_rank(&[accepted(true, 0, 1), accepted(false, 5, 2)]),
            None
        );
    }
}
