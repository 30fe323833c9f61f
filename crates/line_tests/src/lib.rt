//! Tests of the line format: every refusal, and the first and last good value of every field.
#![tactic(auto)]

#[cfg(test)]
mod tests {
    use line_format::message::{PAIRS, WORDS};
    use line_format::writing::LEAST_BUFFER;
    use line_format::{LineFault, Message, Pair, Promises, read, write};
    use schedule::Figures;
    use std::array;
    use std::process::Abort;
    use std::test::Fail;

    const LEN: usize = LEAST_BUFFER;

    // Bytes that are read as a message are what that message is written as.
    fn judged(rt: &impl Abort, figures: &Figures, bytes: &[u8]) -> Result<(), LineFault> {
        let message = read(figures, bytes)?;
        let mut buffer = [0xee; LEN];
        let len = write(figures, &message, &mut buffer).expect(rt, "what is read is written");
        assert!(rt; buffer.get(..len) == Some(bytes));
        Ok(())
    }

    // 0, or the number of the refusal
    // kept: a number, since the tables of cases keep their values.
    fn number<T: Drop>(answer: Result<T, LineFault>) -> u32 {
        match answer {
            Ok(_) => 0,
            Err(fault) => fault.number(),
        }
    }

    // Ints as bytes at the start of a buffer, most significant byte first.
    fn lay(ints: &[u32], buffer: &mut [u8; LEN]) {
        let (places, _) = buffer.as_chunks_mut();
        for (place, n) in places.iter_mut().zip(ints) {
            *place = n.to_be_bytes();
        }
    }

    fn judged_ints(rt: &impl Abort, figures: &Figures, ints: &[u32]) -> u32 {
        let mut buffer = [0; LEN];
        lay(ints, &mut buffer);
        let len = 4 * ints.len().min(LEN / 4);
        number(judged(rt, figures, &buffer[..len]))
    }

    // every case is judged as it says
    fn all<const N: usize>(rt: &impl Abort, figures: &Figures, cases: &[([u32; N], u32)]) {
        for (ints, number) in cases {
            assert_eq!(rt; judged_ints(rt, figures, ints), *number);
        }
    }

    #[test]
    fn entries_at_the_edges_of_their_fields(rt: HostRuntime) -> Result<(), Fail> {
        let group = Figures::new(3, 1)?;
        let cases = [
            ([1, 1, 1, 1, 1, 0, 0, 0, 3], 0),
            ([1, 3, 1, 1, 1, 0, 0, 0, 3], 0),
            ([1, 0, 1, 1, 1, 0, 0, 0, 3], 14),
            ([1, 4, 1, 1, 1, 0, 0, 0, 3], 14),
            ([1, 1, 0, 1, 1, 0, 0, 0, 3], 14),
            ([1, 1, 96, 1, 1, 0, 0, 0, 6], 0),
            ([1, 1, 97, 1, 1, 0, 0, 0, 6], 14),
            ([1, 1, 1, 0, 1, 0, 0, 0, 3], 14),
            ([1, 1, 1, 2, 1, 0, 0, 0, 3], 0),
            ([1, 1, 1, 3, 1, 0, 0, 0, 3], 14),
            ([1, 1, 1, 1, 0, 0, 0, 0, 3], 14),
            ([1, 1, 1, 1, 5, 0, 0, 0, 3], 0),
            ([1, 1, 1, 1, 6, 0, 0, 0, 3], 14),
            ([1, 1, 1, 1, 1, 23, 0, 0, 3], 0),
            ([1, 1, 1, 1, 1, 24, 0, 0, 3], 14),
            ([1, 1, 1, 1, 1, 0, 11, 0, 3], 0),
            ([1, 1, 1, 1, 1, 0, 12, 0, 3], 14),
            ([1, 1, 1, 1, 1, 0, 0, 999_999, 3], 0),
            ([1, 1, 1, 1, 1, 0, 0, 1_000_000, 3], 14),
            ([1, 1, 1, 1, 1, 0, 0, 0, 5], 0),
            ([1, 1, 1, 1, 1, 0, 0, 0, 1], 14),
            ([1, 1, 1, 1, 1, 0, 0, 0, 7], 14),
            ([1, 1, 1, 1, 1, 0, 0, 0, 6], 14),
            ([1, 1, 1, 1, 1, 0, 0, 0, 9], 14),
            ([1, u32::MAX, u32::MAX, u32::MAX, 1, 0, 0, 0, u32::MAX], 14),
        ];
        all(&rt, &group, &cases);
        Ok(())
    }

    #[test]
    fn steps_at_the_edges_of_their_fields(rt: HostRuntime) -> Result<(), Fail> {
        let group = Figures::new(3, 1)?;
        let cases = [
            ([3, 1, 1, 1], 0),
            ([3, 1, 1, 1568], 0),
            ([3, 1, 1, 0], 14),
            ([3, 1, 1, 1569], 14),
            ([4, 3, 96, 1568], 0),
            ([4, 4, 96, 1568], 14),
            ([4, 3, 97, 1568], 14),
            ([4, 1, 1, 0], 14),
            ([6, 1, 1, 1], 0),
            ([6, 1, 1, 65_535], 0),
            ([6, 1, 1, 0], 14),
            ([6, 1, 1, 65_536], 14),
            ([7, 1, 1, 4], 0),
            ([7, 1, 1, 65_535], 0),
            ([7, 1, 1, 3], 14),
            ([7, 1, 1, 0], 14),
            ([7, 1, 1, 65_536], 14),
            ([0, 1, 1, 1], 13),
            ([1, 1, 1, 1], 13),
            ([9, 1, 1, 1], 13),
            ([10, 1, 1, 1], 13),
            ([0x0400_0000, 1, 1, 1], 13),
        ];
        all(&rt, &group, &cases);
        Ok(())
    }

    #[test]
    fn longer_steps_at_the_edges_of_their_fields(rt: HostRuntime) -> Result<(), Fail> {
        let group = Figures::new(5, 2)?;
        assert_eq!(rt;
            judged_ints(&rt, &group, &[2, 1, 1, 1, 1, 0, 0, 0, 15, 1]),
            0
        );
        assert_eq!(rt;
            judged_ints(&rt, &group, &[2, 1, 1, 1, 1, 0, 0, 0, 15, 1569]),
            14
        );
        assert_eq!(rt;
            judged_ints(&rt, &group, &[2, 1, 1, 1, 1, 0, 0, 0, 7, 1]),
            14
        );
        assert_eq!(rt; judged_ints(&rt, &group, &[5, 5, 160, 1568, 65_535]), 0);
        assert_eq!(rt; judged_ints(&rt, &group, &[5, 5, 160, 1568, 0]), 14);
        assert_eq!(rt; judged_ints(&rt, &group, &[5, 5, 160, 0, 1]), 14);
        let cases = [
            ([8, 1, 1, 1, 1, 0, 1], 0),
            ([8, 1, 1, 1568, 4, 65_535, 65_535], 0),
            ([8, 1, 1, 0, 1, 0, 1], 14),
            ([8, 1, 1, 1, 0, 0, 1], 14),
            ([8, 1, 1, 1, 5, 0, 1], 14),
            ([8, 1, 1, 1, 1, 65_536, 1], 14),
            ([8, 1, 1, 1, 1, 0, 0], 14),
            ([8, 1, 1, 1, 1, 0, 65_536], 14),
        ];
        all(&rt, &group, &cases);
        Ok(())
    }

    #[test]
    fn bytes_of_another_length_are_malformed(rt: HostRuntime) -> Result<(), Fail> {
        let group = Figures::new(3, 1)?;
        let mut buffer = [0; LEN];
        let lengths = [
            (1u32, 36usize),
            (2, 40),
            (3, 16),
            (4, 16),
            (5, 20),
            (6, 16),
            (7, 16),
            (8, 28),
            (9, 212),
        ];
        for (kind, len) in lengths {
            lay(&[kind, 1], &mut buffer);
            for other in 0..300usize {
                let number = number(judged(&rt, &group, &buffer[..other]));
                assert!(rt; number == 13 || other == len);
            }
        }
        Ok(())
    }

    // promises with the given last word, count and first two pairs
    fn promised(last: u64, count: u32, first: (u32, u32), second: (u32, u32)) -> Promises {
        let mut detached = [0; WORDS];
        detached[0] = u64::MAX;
        detached[WORDS - 1] = last;
        let mut pairs = [Pair::default(); PAIRS];
        pairs[0] = Pair {
            id: first.0,
            timestamp: first.1,
        };
        pairs[1] = Pair {
            id: second.0,
            timestamp: second.1,
        };
        Promises {
            detached,
            count,
            pairs,
        }
    }

    // a message of such promises from controller 1
    fn promises(last: u64, count: u32, first: (u32, u32), second: (u32, u32)) -> Message {
        Message::MPromises {
            sender: 1,
            promises: promised(last, count, first, second),
        }
    }

    // A message that is written reads back as itself.
    fn read_back(rt: &impl Abort, figures: &Figures, message: &Message) -> Result<(), LineFault> {
        let mut buffer = [0xee; LEN];
        let len = write(figures, message, &mut buffer)?;
        assert!(rt; len <= LEN && read(figures, &buffer[..len]) == Ok(*message));
        Ok(())
    }

    fn written(rt: &impl Abort, figures: &Figures, message: &Message) -> u32 {
        number(read_back(rt, figures, message))
    }

    #[test]
    fn promises_at_the_edges_of_their_fields(rt: HostRuntime) -> Result<(), Fail> {
        let group = Figures::new(3, 1)?;
        let none = (0, 0);
        assert_eq!(rt; written(&rt, &group, &promises(0, 0, none, none)), 0);
        assert_eq!(rt;
            written(&rt, &group, &promises(0xffff_ffff, 0, none, none)),
            0
        );
        assert_eq!(rt;
            written(&rt, &group, &promises(0x1_0000_0000, 0, none, none)),
            14
        );
        assert_eq!(rt;
            written(&rt, &group, &promises(0, 2, (1, 1), (96, 1568))),
            0
        );
        assert_eq!(rt; written(&rt, &group, &promises(0, 2, (1, 1), (97, 1))), 14);
        assert_eq!(rt; written(&rt, &group, &promises(0, 2, (2, 1), (2, 1))), 14);
        assert_eq!(rt; written(&rt, &group, &promises(0, 2, (2, 1), (1, 1))), 14);
        assert_eq!(rt; written(&rt, &group, &promises(0, 1, (0, 1), none)), 14);
        assert_eq!(rt; written(&rt, &group, &promises(0, 1, (1, 0), none)), 14);
        assert_eq!(rt; written(&rt, &group, &promises(0, 1, (1, 1569), none)), 14);
        assert_eq!(rt; written(&rt, &group, &promises(0, 1, (1, 1), (2, 2))), 14);
        assert_eq!(rt; written(&rt, &group, &promises(0, 225, (1, 1), none)), 13);
        assert_eq!(rt;
            written(&rt, &group, &promises(0, u32::MAX, (1, 1), none)),
            13
        );
        Ok(())
    }

    // Ints of a message of promises from controller 1 with the upper half of its last word, its count and its first two
    // pairs; the rest is zero.
    fn promise_ints(upper: u32, count: u32, pairs: [u32; 4]) -> [u32; LEN / 4] {
        let mut ints = [0; LEN / 4];
        ints[0] = 9;
        ints[1] = 1;
        ints[50] = upper;
        ints[52] = count;
        ints[53..57].copy_from_slice(&pairs);
        ints
    }

    #[test]
    fn bytes_of_promises_at_the_edges_of_their_fields(rt: HostRuntime) -> Result<(), Fail> {
        let group = Figures::new(3, 1)?;
        let rising = [1, 1, 2, 1];
        let cases = [
            (promise_ints(0, 2, rising), 228, 0),
            (promise_ints(0, 2, rising), 212, 13),
            (promise_ints(0, 2, rising), 220, 13),
            (promise_ints(0, 224, rising), 2004, 14),
            (promise_ints(0, 225, rising), 2012, 13),
            (promise_ints(0, 2, [2, 1, 2, 1]), 228, 14),
            (promise_ints(0, 2, [2, 1, 1, 1]), 228, 14),
            // bit 32 of the last word is the timestamp 1569
            (promise_ints(1, 2, rising), 228, 14),
        ];
        for (ints, len, number) in &cases {
            assert_eq!(rt; judged_ints(&rt, &group, &ints[..len / 4]), *number);
        }
        Ok(())
    }

    #[test]
    fn every_change_of_the_largest_group_promised(rt: HostRuntime) -> Result<(), Fail> {
        let group = Figures::new(7, 3)?;
        let pairs = array::from_fn(|i| Pair {
            id: i as u32 + 1,
            timestamp: 1568 - i as u32,
        });
        let full = |last: u64| {
            let mut detached = [u64::MAX; WORDS];
            detached[WORDS - 1] = last;
            Message::MPromises {
                sender: 7,
                promises: Promises {
                    detached,
                    count: 224,
                    pairs,
                },
            }
        };
        assert_eq!(rt; written(&rt, &group, &full(u64::MAX)), 14);
        assert_eq!(rt; written(&rt, &group, &full(0xffff_ffff)), 0);
        Ok(())
    }

    #[test]
    fn a_refusal_leaves_the_buffer_and_a_message_leaves_the_rest(
        rt: HostRuntime,
    ) -> Result<(), Fail> {
        let group = Figures::new(3, 1)?;
        let good = Message::MCommit {
            sender: 1,
            id: 65,
            timestamp: 1,
        };
        let bad = Message::MCommit {
            sender: 1,
            id: 65,
            timestamp: 0,
        };
        let mut buffer = [0xee; LEN];
        assert_eq!(rt; write(&group, &good, &mut buffer[0..2047]).is_err(), true);
        assert_eq!(rt; write(&group, &bad, &mut buffer).is_err(), true);
        assert!(rt; buffer.iter().all(|b| *b == 0xee));
        assert!(rt; write(&group, &good, &mut buffer).is_ok());
        assert!(rt; &buffer[0..16] == [0, 0, 0, 4, 0, 0, 0, 1, 0, 0, 0, 65, 0, 0, 0, 1].as_slice());
        assert!(rt; buffer[16] == 0xee && buffer[2047] == 0xee);
        Ok(())
    }

    #[test]
    fn writing_refuses_in_its_order(rt: HostRuntime) -> Result<(), Fail> {
        let group = Figures::new(3, 1)?;
        let commit = |timestamp: u32| Message::MCommit {
            sender: 1,
            id: 65,
            timestamp,
        };
        let crowded = |sender: u32| Message::MPromises {
            sender,
            promises: promised(0, 225, (1, 1), (0, 0)),
        };
        let mut buffer = [0xee; LEN];
        assert_eq!(rt; number(write(&group, &commit(1), &mut buffer[0..2047])), 12);
        assert_eq!(rt; number(write(&group, &commit(0), &mut buffer[0..2047])), 12);
        assert_eq!(rt;
            number(write(&group, &crowded(1), &mut buffer[0..2047])),
            12
        );
        assert_eq!(rt; number(write(&group, &crowded(0), &mut buffer)), 13);
        assert!(rt; buffer.iter().all(|b| *b == 0xee));
        Ok(())
    }

    #[test]
    fn figures_are_refused_by_their_number(rt: HostRuntime) {
        assert!(rt; Figures::new(2, 1).is_err_and(|fault| fault.number() == 11));
    }

    #[test]
    fn figures_outside_their_limits(rt: HostRuntime) {
        for r in 0..10u32 {
            for f in 0..6u32 {
                let fits = r >= 3 && r <= 7 && f >= 1 && 2 * f + 1 <= r;
                assert!(rt; Figures::new(r, f).is_ok() == fits);
            }
        }
        assert!(rt; Figures::new(u32::MAX, 1).is_err());
        assert!(rt; Figures::new(7, u32::MAX).is_err());
    }
}
