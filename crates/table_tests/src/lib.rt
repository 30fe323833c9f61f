//! Tests of the table of records: the change that is due, and what is told and learnt of promises.
#![tactic(auto)]

#[cfg(test)]
mod tests {
    use line_format::Pair;
    use promise_words::Timestamps;
    use record::{Phase, Row};
    use tables::{Rows, finish};

    // The record of a change that is committed at a timestamp.
    fn committed(timestamp: u32) -> Row {
        let mut row = Row::blank();
        row.phase = Phase::Commit;
        row.timestamp = timestamp;
        row
    }

    // Change 1 is committed at 2, and change 65 at 1.
    fn two_committed() -> Rows {
        let mut rows = Rows::blank();
        rows.rows[0] = committed(2);
        rows.rows[64] = committed(1);
        rows
    }

    // Change 1 has the own promise 5, and change 65 has 4.
    fn two_promised() -> Rows {
        let mut rows = Rows::blank();
        rows.rows[0].promise = Some(5);
        rows.rows[64].promise = Some(4);
        rows
    }

    fn pair(id: u32, timestamp: u32) -> Pair {
        Pair { id, timestamp }
    }

    #[test]
    fn changes_are_due_by_their_timestamps_and_once(rt: HostRuntime) {
        let mut rows = two_committed();
        assert_eq!(rt; rows.carried(), 0);
        assert_eq!(rt; rows.due(2), Some(64));
        finish(&mut rows.rows[64], 1, (8, 9));
        assert_eq!(rt; rows.due(2), Some(0));
        finish(&mut rows.rows[0], 2, (0, 3));
        assert_eq!(rt; rows.due(2), None);
        assert_eq!(rt; rows.carried(), 2);
        assert_eq!(rt; rows.rows[64].place, 1);
        assert_eq!(rt; rows.rows[64].outcome, (8, 9));
    }

    #[test]
    fn none_is_due_above_the_stable_timestamp(rt: HostRuntime) {
        let rows = two_committed();
        assert_eq!(rt; rows.due(0), None);
        assert_eq!(rt; rows.due(1), Some(64));
        assert_eq!(rt; Rows::blank().due(2), None);
    }

    #[test]
    fn own_promises_are_told_by_rising_numbers(rt: HostRuntime) {
        let mut detached = Timestamps::none();
        detached.insert(3);
        let told = two_promised().told(&detached);
        assert_eq!(rt; told.detached[0], 4);
        assert_eq!(rt; told.count, 2);
        assert_eq!(rt; told.pairs[0], pair(1, 5));
        assert_eq!(rt; told.pairs[1], pair(65, 4));
        assert_eq!(rt; told.pairs[2], pair(0, 0));
    }

    #[test]
    fn an_own_promise_is_learnt_once_its_change_is_committed(rt: HostRuntime) {
        let mut detached = Timestamps::none();
        detached.insert(3);
        let told = two_promised().told(&detached);
        let mut known = Timestamps::none();
        let mut rows = Rows::blank();
        rows.rows[0].phase = Phase::Propose;
        rows.learn(&mut known, &told);
        assert!(rt; known.contains(3));
        assert!(rt; !known.contains(4));
        assert!(rt; !known.contains(5));
        rows.rows[64].phase = Phase::Commit;
        rows.learn(&mut known, &told);
        assert!(rt; known.contains(4));
        assert!(rt; !known.contains(5));
        rows.rows[0].phase = Phase::CarriedOut;
        rows.learn(&mut known, &told);
        assert!(rt; known.contains(5));
        assert!(rt; !rows.is_settled(0));
        assert!(rt; rows.is_settled(65));
        assert!(rt; !rows.is_settled(225));
    }
}
