//! The clock of a controller, sets of timestamps, and the stable timestamp of a group.
#![tactic(auto)]

pub mod clock;
pub mod samples;
pub mod stability;
pub mod timestamps;

pub use clock::{Clock, ClockFault};
pub use stability::stable;
pub use timestamps::Timestamps;

#[cfg(test)]
mod tests {
    use crate::{Clock, Timestamps};
    use std::test::Fail;

    #[test]
    fn only_timestamps_are_put_in(rt: HostRuntime) {
        let mut set = Timestamps::none();
        set.insert(0);
        set.insert(1568);
        set.insert(1569);
        assert_eq!(rt; set.contains(0), false);
        assert_eq!(rt; set.contains(1567), false);
        assert_eq!(rt; set.contains(1568), true);
        assert_eq!(rt; set.contains(1569), false);
    }

    #[test]
    fn runs_go_on_over_words(rt: HostRuntime) {
        let mut set = Timestamps::none();
        set.insert_range(60, 130);
        assert_eq!(rt; set.run(), 0);
        let mut other = Timestamps::none();
        other.insert_range(1, 59);
        assert_eq!(rt; other.run(), 59);
        set.join(&other);
        assert_eq!(rt; set.run(), 130);
        set.insert_range(0, u32::MAX);
        assert_eq!(rt; set.run(), 1568);
    }

    #[test]
    fn the_last_timestamp_is_proposed_once(rt: HostRuntime) -> Result<(), Fail> {
        let mut clock = Clock::new();
        clock.bump(1566);
        assert_eq!(rt; clock.propose(1568)?, 1568);
        assert_eq!(rt; clock.detached.run(), 1567);
        clock.bump(1569);
        assert_eq!(rt; clock.propose(1).map_err(|fault| fault.number()), Err(19));
        assert_eq!(rt; clock.time, 1568);
        Ok(())
    }

    #[test]
    fn a_timestamp_past_the_last_is_refused(rt: HostRuntime) {
        let mut clock = Clock::new();
        assert_eq!(rt;
            clock.propose(1569).map_err(|fault| fault.number()),
            Err(19)
        );
        assert_eq!(rt; clock.time, 0);
    }
}
