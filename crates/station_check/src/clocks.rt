// The clocks of a plan.
ghost use Rattle.std.specs.Prelude.{◌≡◌, IfOk, IfErr};
ghost use Rattle.plan_core.specs.Plans.{IsWellFormed};
ghost use Rattle.station_check.specs.Steps.{OnlyClocks};
ghost use Rattle.station_check.specs.Halts.{ClockHalts, clock_halt};

use crate::CheckEnd;
use clock_infer::{ClockFault, ClockMap, assign};
use plan_core::Plan;
use stations::StationFault;
use std::alloc::Global;

/// Assigns the nodes of a plan to clocks; the `Err` says how a check ends where the plan can have none, or where memory
/// is refused.
pub fn find_clocks(alloc: Global, plan: &Plan) -> Result<ClockMap, CheckEnd>
    requires { IsWellFormed plan.now }
    ensures map { IfOk result (λ clocks. OnlyClocks plan.now clocks) }
    ensures fault { IfErr result (ClockHalts plan.now) }
{
    match assign(alloc, plan) {
        Ok(clocks) => Ok(clocks),
        Err(fault) => Err(halt_of(fault)),
    }
}

// How a check ends at a fault of clocks: want of memory, or a refusal of the plan.
fn halt_of(fault: ClockFault) -> CheckEnd
    ensures { result ≡ clock_halt fault }
{
    match fault {
        ClockFault::Memory => CheckEnd::Memory,
        _ => CheckEnd::Refused(StationFault::Clocks(fault)),
    }
}
