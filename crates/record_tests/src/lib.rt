//! Tests of the record of a change: what replies to a proposal decide, and what replies to a take-over leave to choose.
#![tactic(auto)]

#[cfg(test)]
mod tests {
    use record::{Acks, Decision, Phase, Proposals, Recoveries, Recovery};
    use schedule::{ControllerSet, Figures};
    use std::test::Fail;

    const ONE_TO_THREE: ControllerSet = ControllerSet { bits: 0b111 };

    const ONE_TO_FOUR: ControllerSet = ControllerSet { bits: 0b1111 };

    // Replies to a proposal, of controllers 1, 2, ..
    fn proposed(timestamps: &[u32]) -> Proposals {
        let mut proposals = Proposals::none();
        for (j, t) in (1..8).zip(timestamps) {
            proposals.note_timestamp(j, *t);
        }
        proposals
    }

    // What replies to a proposal decide.
    fn decided(timestamps: &[u32], figures: &Figures, set: &ControllerSet) -> Option<Decision> {
        proposed(timestamps).decision(figures, set)
    }

    // Replies to a take-over: controller, timestamp, phase and accepted ballot.
    fn told(replies: &[(u32, u32, Phase, Option<u32>)]) -> Recoveries {
        let mut recoveries = Recoveries::none();
        for &(controller, timestamp, phase, accepted) in replies {
            let reply = Recovery {
                timestamp,
                phase,
                accepted,
            };
            recoveries.note(controller, Some(reply));
        }
        recoveries
    }

    #[test]
    fn enough_equal_replies_decide_fast(rt: HostRuntime) -> Result<(), Fail> {
        let five = Figures::new(5, 2)?;
        assert_eq!(rt;
            decided(&[6, 7, 11, 11], &five, &ONE_TO_FOUR),
            Some(Decision::Fast { timestamp: 11 })
        );
        assert_eq!(rt;
            decided(&[6, 7, 11, 6], &five, &ONE_TO_FOUR),
            Some(Decision::Slow { timestamp: 11 })
        );
        assert_eq!(rt; decided(&[6, 7, 11], &five, &ONE_TO_FOUR), None);
        let tolerant_of_one = Figures::new(5, 1)?;
        assert_eq!(rt;
            decided(&[6, 7, 11], &tolerant_of_one, &ONE_TO_THREE),
            Some(Decision::Fast { timestamp: 11 })
        );
        Ok(())
    }

    #[test]
    fn replies_are_noted_once_for_each_place(rt: HostRuntime) {
        let proposals = proposed(&[6, 7]);
        assert!(rt; !proposals.is_new(2));
        assert!(rt; proposals.is_new(3));
        assert!(rt; !proposals.is_new(0));
        assert!(rt; !proposals.is_new(8));
        let mut acks = Acks::none();
        acks.note(7);
        acks.note(7);
        acks.note(1);
        acks.note(8);
        assert_eq!(rt; acks.count(), 2);
        assert!(rt; !acks.is_new(7));
        assert!(rt; acks.is_new(2));
        let recoveries = told(&[(2, 7, Phase::RecoverP, None), (0, 9, Phase::RecoverP, None)]);
        assert_eq!(rt; recoveries.count(), 1);
        assert!(rt; !recoveries.is_new(2));
        assert!(rt; recoveries.is_new(1));
    }

    #[test]
    fn with_no_ballot_the_fast_set_chooses(rt: HostRuntime) {
        let recoveries = told(&[
            (2, 7, Phase::RecoverP, None),
            (4, 6, Phase::RecoverP, None),
            (5, 1, Phase::RecoverR, None),
        ]);
        assert_eq!(rt; recoveries.choice(1, &ONE_TO_FOUR), 7);
        let outside_is_later = told(&[
            (2, 7, Phase::RecoverP, None),
            (4, 6, Phase::RecoverP, None),
            (5, 9, Phase::RecoverR, None),
        ]);
        assert_eq!(rt; outside_is_later.choice(1, &ONE_TO_FOUR), 7);
    }

    #[test]
    fn with_the_home_or_a_late_promise_all_choose(rt: HostRuntime) {
        let with_home = told(&[
            (1, 6, Phase::RecoverP, None),
            (4, 7, Phase::RecoverP, None),
            (5, 9, Phase::RecoverR, None),
        ]);
        assert_eq!(rt; with_home.choice(1, &ONE_TO_FOUR), 9);
        let late_member = told(&[
            (2, 7, Phase::RecoverP, None),
            (4, 8, Phase::RecoverR, None),
            (5, 9, Phase::RecoverR, None),
        ]);
        assert_eq!(rt; late_member.choice(1, &ONE_TO_FOUR), 9);
    }

    #[test]
    fn the_greatest_ballot_then_the_lowest_controller_chooses(rt: HostRuntime) {
        let one_greatest = told(&[
            (1, 20, Phase::Propose, None),
            (2, 7, Phase::RecoverP, Some(6)),
            (4, 8, Phase::RecoverP, Some(9)),
        ]);
        assert_eq!(rt; one_greatest.choice(1, &ONE_TO_FOUR), 8);
        let tied = told(&[
            (2, 7, Phase::RecoverP, Some(6)),
            (3, 10, Phase::RecoverP, Some(9)),
            (5, 8, Phase::RecoverP, Some(9)),
        ]);
        assert_eq!(rt; tied.choice(1, &ONE_TO_FOUR), 10);
    }
}
