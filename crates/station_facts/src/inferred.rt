// What is inferred of a plan.
ghost use Rattle.std.specs.Prelude.{◌≡◌, IfOk};
ghost use Rattle.plan_core.specs.Plans.{IsWellFormed};
ghost use Rattle.station_facts.specs.Plans.{AreClocks, IsInferred};

use clock_infer::{ClockFault, ClockMap, assign};
use fallible_infer::infallible;
use liq_base::Memory;
use plan_core::Plan;
use std::alloc::Global;

/// What is inferred of a plan.
#[derive(Drop)]
pub struct Inferred {
    /// Of each source whether it is never silent.
    pub marks: Vec<bool>,

    /// The clocks, or why there are none, which is not want of memory.
    pub clocks: Result<ClockMap, ClockFault>,
}

/// Infers which sources of a plan are never silent, and its clocks, or why it has none: that is no `Err` here.
pub fn infer(alloc: Global, plan: &Plan) -> Result<Inferred, Memory>
    requires { IsWellFormed plan.now }
    ensures { IfOk result (IsInferred plan.now) }
{
    let clocks = clocks_of(alloc, plan)?;
    let marks = infallible(alloc, plan)?;
    Ok(Inferred { marks, clocks })
}

/// Assigns the nodes of a plan to clocks. The inner `Err` says why the plan can have none, and is told like the clocks.
/// The outer `Err` is want of memory, after which nothing is told.
fn clocks_of(alloc: Global, plan: &Plan) -> Result<Result<ClockMap, ClockFault>, Memory>
    requires { IsWellFormed plan.now }
    ensures { IfOk result (AreClocks plan.now) }
{
    match assign(alloc, plan) {
        Err(ClockFault::Memory) => Err(Memory),
        clocks => Ok(clocks),
    }
}
