//! Outcomes at every edge of the rules.

use crate::*;
use schedule::{Change, Department};
use std::process::Abort;

/// Carries out each change and compares the outcome.
fn answers<S: Service>(rt: &impl Abort, service: &mut S, plan: &[([u32; 5], (u32, u32))]) {
    for (numbers, outcome) in plan {
        assert_eq!(rt; service.carry_out(&Change::from(*numbers)), *outcome);
    }
}

#[test]
fn limits(rt: HostRuntime) {
    let mut order = RunningOrder::new();
    answers(
        &rt,
        &mut order,
        &[
            ([0, 1, 0, 0, 5], (9, 0)),
            ([3, 1, 0, 0, 5], (9, 0)),
            ([1, 0, 0, 0, 5], (9, 0)),
            ([1, 4, 0, 0, 5], (9, 0)),
            ([1, 5, 0, 0, 5], (9, 0)),
            ([1, 6, 0, 0, 5], (9, 0)),
            ([1, 1, 24, 0, 5], (9, 0)),
            ([1, 1, 0, 12, 5], (9, 0)),
            ([1, 1, 0, 0, 1_000_000], (9, 0)),
            ([2, 1, 23, 11, 999_999], (0, 0)),
        ],
    );
    assert_eq!(rt; order.read(23, 11), 999_999);
    assert_eq!(rt; order.read(24, 11), 0);
    assert_eq!(rt; order.read(23, 12), 0);
}

#[test]
fn places(rt: HostRuntime) {
    let mut order = RunningOrder::new();
    answers(
        &rt,
        &mut order,
        &[
            ([1, 1, 3, 4, 0], (3, 0)),
            ([1, 2, 3, 4, 7], (2, 0)),
            ([1, 3, 3, 4, 7], (2, 0)),
            ([1, 1, 3, 4, 7], (0, 0)),
            ([2, 1, 3, 4, 0], (3, 7)),
            ([2, 1, 3, 4, 8], (1, 7)),
            ([2, 3, 3, 4, 0], (3, 7)),
            ([2, 3, 3, 4, 8], (0, 7)),
            ([1, 2, 3, 4, 9], (0, 8)),
        ],
    );
    assert_eq!(rt; order.read(3, 4), 0);
}

#[test]
fn seconds(rt: HostRuntime) {
    let mut ledger = BreakLedger::new();
    answers(
        &rt,
        &mut ledger,
        &[
            ([1, 1, 9, 0, 700], (0, 0)),
            ([1, 1, 9, 1, 21], (4, 0)),
            ([1, 1, 9, 1, 20], (0, 0)),
            ([1, 1, 9, 2, 1], (4, 0)),
            ([1, 3, 9, 1, 21], (4, 20)),
            ([1, 3, 9, 0, 701], (4, 700)),
            ([1, 3, 9, 0, 699], (0, 700)),
            ([1, 1, 9, 2, 1], (0, 0)),
            ([1, 1, 10, 2, 721], (4, 0)),
            ([1, 1, 10, 2, 720], (0, 0)),
            ([1, 2, 9, 0, 0], (0, 699)),
            ([1, 4, 9, 0, 0], (9, 0)),
            ([1, 5, 9, 0, 0], (9, 0)),
            ([2, 1, 9, 1, 5], (1, 20)),
            ([2, 2, 9, 3, 0], (2, 0)),
            ([2, 3, 9, 1, 0], (3, 20)),
        ],
    );
    assert_eq!(rt; ledger.booked(9), 21);
    assert_eq!(rt; ledger.booked(10), 720);
    assert_eq!(rt; ledger.booked(24), 0);
}

#[test]
fn say(rt: HostRuntime) {
    let mut layer = FinalSay::new(RunningOrder::new());
    answers(
        &rt,
        &mut layer,
        &[
            ([1, 5, 6, 0, 0], (7, 0)),
            ([1, 1, 6, 0, 5], (0, 0)),
            ([2, 4, 6, 0, 0], (0, 0)),
            ([2, 4, 6, 0, 0], (0, 2)),
            ([1, 4, 6, 0, 0], (8, 2)),
            ([1, 5, 6, 0, 0], (7, 2)),
            ([1, 2, 6, 0, 0], (8, 2)),
            ([1, 1, 24, 0, 0], (9, 0)),
            ([1, 4, 24, 0, 0], (9, 0)),
            ([2, 5, 6, 12, 0], (9, 0)),
            ([3, 4, 6, 0, 0], (9, 0)),
            ([1, 3, 6, 0, 8], (8, 2)),
            ([1, 1, 7, 0, 4], (0, 0)),
            ([2, 3, 6, 0, 8], (0, 5)),
            ([2, 5, 6, 0, 0], (0, 2)),
            ([1, 2, 6, 0, 0], (0, 8)),
        ],
    );
    assert_eq!(rt; layer.read(7, 0), 4);
    assert_eq!(rt; layer.say(6), 0);
    assert_eq!(rt; layer.holder(6), None);
    assert_eq!(rt; layer.below().read(6, 0), 0);
}

#[test]
fn say_over_say(rt: HostRuntime) {
    let mut layers = FinalSay::new(FinalSay::new(BreakLedger::new()));
    answers(
        &rt,
        &mut layers,
        &[
            ([1, 4, 6, 0, 0], (0, 0)),
            ([2, 1, 6, 0, 5], (8, 1)),
            ([1, 1, 6, 0, 721], (4, 0)),
            ([1, 1, 6, 0, 720], (0, 0)),
        ],
    );
    assert_eq!(rt; layers.say(6), 1);
    assert_eq!(rt; layers.holder(6), Some(Department::Sales));
    assert_eq!(rt; layers.say(24), 0);
    assert_eq!(rt; layers.below().say(6), 0);
}

#[test]
fn numbers(rt: HostRuntime) {
    for n in 0..11 {
        match Answer::try_from(n) {
            Ok(answer) => assert_eq!(rt; u32::from(answer), n),
            Err(_) => assert!(rt; n == 5 || n == 6 || n == 10),
        }
    }
}
