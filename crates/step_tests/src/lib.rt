//! Tests of the steps: runs of a change message by message, the refusals, and who may send what.
#![tactic(auto)]

#[cfg(test)]
mod tests {
    use line_format::Message;
    use promise_words::Clock;
    use record::{Phase, Row};
    use rules::senders::is_rightful;
    use schedule::{Change, ControllerSet, Figures};
    use sites::{Refusal, Sent, Site};
    use std::test::Fail;
    use steps::entry::begin;
    use steps::step;
    use steps::takeover::take_over;

    const SPOT: Change = Change {
        department: 1,
        kind: 1,
        hour: 0,
        slot: 0,
        value: 30,
    };

    const ONE_AND_TWO: ControllerSet = ControllerSet { bits: 0b11 };

    const ONE_TO_FOUR: ControllerSet = ControllerSet { bits: 0b1111 };

    fn clock_at(time: u32) -> Clock {
        let mut clock = Clock::new();
        clock.bump(time);
        clock
    }

    // What a step answers that hands out just this.
    fn tells(to: u32, message: Message) -> Result<Option<Sent>, Refusal> {
        Ok(Some(Sent {
            to: ControllerSet { bits: to },
            message,
        }))
    }

    // The reply of a controller to the proposal of change 1.
    fn reply(sender: u32, timestamp: u32) -> Message {
        Message::MProposeAck {
            sender,
            id: 1,
            timestamp,
        }
    }

    // kept: this run and the next begin alike and then part; each is read from its first line.
    #[test]
    fn two_that_gave_the_greatest_decide_fast(rt: HostRuntime) -> Result<(), Fail> {
        let home = Site::new(Figures::new(5, 2)?, 1)?;
        let mut row = Row::blank();
        let mut clock = clock_at(5);
        assert_eq!(rt;
            begin(&home, &mut row, &mut clock, &SPOT, &ONE_TO_FOUR),
            Ok(6)
        );
        assert_eq!(rt; step(&home, &mut row, &mut clock, &reply(2, 7)), Ok(None));
        assert_eq!(rt; step(&home, &mut row, &mut clock, &reply(3, 11)), Ok(None));
        assert_eq!(rt;
            step(&home, &mut row, &mut clock, &reply(3, 11)).map_err(|why| why.number()),
            Err(16)
        );
        let last = step(&home, &mut row, &mut clock, &reply(4, 11));
        assert_eq!(rt;
            last,
            tells(
                0b11110,
                Message::MCommit {
                    sender: 1,
                    id: 1,
                    timestamp: 11,
                }
            )
        );
        assert_eq!(rt; row.phase, Phase::Commit);
        assert_eq!(rt; clock.time, 11);
        Ok(())
    }

    #[test]
    fn one_that_gave_the_greatest_decides_slowly(rt: HostRuntime) -> Result<(), Fail> {
        let home = Site::new(Figures::new(5, 2)?, 1)?;
        let mut row = Row::blank();
        let mut clock = clock_at(5);
        assert_eq!(rt;
            begin(&home, &mut row, &mut clock, &SPOT, &ONE_TO_FOUR),
            Ok(6)
        );
        assert_eq!(rt; step(&home, &mut row, &mut clock, &reply(2, 7)), Ok(None));
        assert_eq!(rt; step(&home, &mut row, &mut clock, &reply(3, 11)), Ok(None));
        let last = step(&home, &mut row, &mut clock, &reply(4, 6));
        assert_eq!(rt;
            last,
            tells(
                0b11110,
                Message::MConsensus {
                    sender: 1,
                    id: 1,
                    timestamp: 11,
                    ballot: 1,
                }
            )
        );
        assert_eq!(rt; (row.ballot, row.accepted), (1, Some(1)));
        let second = Message::MConsensusAck {
            sender: 2,
            id: 1,
            ballot: 1,
        };
        assert_eq!(rt; step(&home, &mut row, &mut clock, &second), Ok(None));
        assert_eq!(rt;
            step(&home, &mut row, &mut clock, &second).map_err(|why| why.number()),
            Err(16)
        );
        let third = Message::MConsensusAck {
            sender: 3,
            id: 1,
            ballot: 1,
        };
        assert_eq!(rt;
            step(&home, &mut row, &mut clock, &third),
            tells(
                0b11110,
                Message::MCommit {
                    sender: 1,
                    id: 1,
                    timestamp: 11,
                }
            )
        );
        Ok(())
    }

    #[test]
    fn a_late_proposal_leaves_an_acceptance(rt: HostRuntime) -> Result<(), Fail> {
        let second = Site::new(Figures::new(3, 1)?, 2)?;
        let mut row = Row::blank();
        let mut clock = Clock::new();
        let consensus = Message::MConsensus {
            sender: 3,
            id: 1,
            timestamp: 1,
            ballot: 6,
        };
        assert_eq!(rt;
            step(&second, &mut row, &mut clock, &consensus),
            tells(
                0b100,
                Message::MConsensusAck {
                    sender: 2,
                    id: 1,
                    ballot: 6,
                }
            )
        );
        let proposal = Message::MPropose {
            sender: 1,
            id: 1,
            change: SPOT,
            set: ONE_AND_TWO,
            timestamp: 1,
        };
        assert_eq!(rt; step(&second, &mut row, &mut clock, &proposal), Ok(None));
        assert_eq!(rt; row.phase, Phase::Payload);
        assert_eq!(rt; (row.timestamp, row.ballot, row.accepted), (1, 6, Some(6)));
        Ok(())
    }

    #[test]
    fn a_late_consensus_leaves_a_commit(rt: HostRuntime) -> Result<(), Fail> {
        let third = Site::new(Figures::new(5, 2)?, 3)?;
        let mut row = Row::blank();
        let mut clock = clock_at(10);
        let proposal = Message::MPropose {
            sender: 1,
            id: 1,
            change: SPOT,
            set: ONE_TO_FOUR,
            timestamp: 6,
        };
        assert_eq!(rt;
            step(&third, &mut row, &mut clock, &proposal),
            tells(1, reply(3, 11))
        );
        let commit = Message::MCommit {
            sender: 5,
            id: 1,
            timestamp: 7,
        };
        assert_eq!(rt; step(&third, &mut row, &mut clock, &commit), Ok(None));
        let consensus = Message::MConsensus {
            sender: 1,
            id: 1,
            timestamp: 11,
            ballot: 1,
        };
        assert_eq!(rt;
            step(&third, &mut row, &mut clock, &consensus),
            tells(
                1,
                Message::MCommit {
                    sender: 3,
                    id: 1,
                    timestamp: 7,
                }
            )
        );
        assert_eq!(rt; row.phase, Phase::Commit);
        assert_eq!(rt; (row.timestamp, row.ballot, row.accepted), (7, 0, None));
        Ok(())
    }

    #[test]
    fn a_take_over_is_at_the_next_own_ballot(rt: HostRuntime) -> Result<(), Fail> {
        let second = Site::new(Figures::new(3, 1)?, 2)?;
        for (held, next) in [(0, 5), (4, 5), (5, 8)] {
            let mut row = Row::blank();
            row.phase = Phase::Payload;
            row.ballot = held;
            let mut clock = Clock::new();
            assert_eq!(rt; take_over(&second, &mut row, &mut clock), Ok(next));
            assert_eq!(rt; row.ballot, next);
            assert_eq!(rt; row.recoveries.count(), 1);
        }
        Ok(())
    }

    #[test]
    fn refusals_leave_the_record(rt: HostRuntime) -> Result<(), Fail> {
        let second = Site::new(Figures::new(3, 1)?, 2)?;
        let blank = Row::blank();
        let mut row = blank;
        let mut clock = Clock::new();
        let commit = Message::MCommit {
            sender: 1,
            id: 1,
            timestamp: 7,
        };
        assert_eq!(rt;
            step(&second, &mut row, &mut clock, &commit).map_err(|why| why.number()),
            Err(16)
        );
        assert_eq!(rt;
            take_over(&second, &mut row, &mut clock).map_err(|why| why.number()),
            Err(16)
        );
        assert_eq!(rt; row, blank);
        assert_eq!(rt; clock.time, 0);
        row.phase = Phase::Payload;
        row.ballot = 65535;
        let spent = row;
        assert_eq!(rt;
            take_over(&second, &mut row, &mut clock).map_err(|why| why.number()),
            Err(18)
        );
        assert_eq!(rt; row, spent);
        let mut late = clock_at(1568);
        row = blank;
        assert_eq!(rt;
            begin(&second, &mut row, &mut late, &SPOT, &ONE_AND_TWO).map_err(|why| why.number()),
            Err(19)
        );
        assert_eq!(rt; row, blank);
        assert_eq!(rt; late.time, 1568);
        Ok(())
    }

    #[test]
    fn only_the_home_and_the_owner_may_ask(rt: HostRuntime) -> Result<(), Fail> {
        let second = Site::new(Figures::new(3, 1)?, 2)?;
        assert_eq!(rt; Refusal::WrongSender.number(), 15);
        for sender in 1..4 {
            let payload = Message::MPayload {
                sender,
                id: 1,
                change: SPOT,
                set: ONE_AND_TWO,
            };
            assert_eq!(rt; is_rightful(&second, &payload), sender == 1);
            let consensus = Message::MConsensus {
                sender,
                id: 1,
                timestamp: 1,
                ballot: 6,
            };
            assert_eq!(rt; is_rightful(&second, &consensus), sender == 3);
            let recover = Message::MRec {
                sender,
                id: 1,
                ballot: 5,
            };
            assert!(rt; !is_rightful(&second, &recover));
            assert_eq!(rt; is_rightful(&second, &reply(sender, 7)), sender != 2);
        }
        Ok(())
    }
}
