//! Services on which a refused change leaves no trace.

ghost use Rattle.service_runs.specs.Laws.{RefusedKeeps};
ghost use Rattle.std.proofs.Common.{rules};

use services::ledger::BreakLedger;
use services::order::RunningOrder;
use services::say::FinalSay;
use services::service::Service;

/// A service that a refused change leaves as it was.
pub trait Steady: Service {
    ghost keeps: { RefusedKeeps Self.Service.next Self.Service.outcome };
}

impl Steady for RunningOrder {
    ghost keeps = { Prim.search rules };
}

impl Steady for BreakLedger {
    ghost keeps = { Prim.search rules };
}

impl<S: Steady> Steady for FinalSay<S> {
    ghost keeps = { Prim.search rules };
}
