//! Runs at the edges of the rules.

use crate::run::*;
use schedule::Change;
use services::service::Service;
use services::{FinalSay, RunningOrder};

#[test]
fn attempts(rt: HostRuntime) {
    let mut order = RunningOrder::new();
    assert_eq!(rt;
        attempt(&mut order, &Change::from([1, 2, 3, 4, 0])),
        Err((2, 0))
    );
    assert_eq!(rt; attempt(&mut order, &Change::from([1, 1, 3, 4, 6])), Ok(0));
    assert_eq!(rt; order.read(3, 4), 6);
}

#[test]
fn runs(rt: HostRuntime) {
    let ledger = ledger_after(&[
        Change::from([1, 1, 9, 0, 700]),
        Change::from([1, 1, 9, 1, 21]),
        Change::from([1, 1, 9, 1, 20]),
    ]);
    assert_eq!(rt; ledger.booked(9), 720);
    assert_eq!(rt; near_the_limit(), ((0, 0), (4, 0)));
    let mut layer = FinalSay::new(RunningOrder::new());
    run_under_say(
        &mut layer,
        &[
            Change::from([1, 4, 6, 0, 0]),
            Change::from([2, 1, 6, 0, 5]),
            Change::from([1, 1, 6, 1, 5]),
        ],
    );
    assert_eq!(rt; layer.say(6), 1);
    assert_eq!(rt; layer.below().read(6, 0), 0);
    assert_eq!(rt; layer.below().read(6, 1), 5);
}
