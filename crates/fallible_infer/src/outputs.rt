// Outputs that need an infallible node.
ghost use Rattle.std.specs.Prelude.{◌≡◌, ℕ, ◌<◌, ◌≤◌, ◌^◌, true, false, length, All, Some, OnOk, IfErr, slice_get};
ghost use Rattle.plan_core.specs.declared.sink.SinkPlan.{SinkPlan as Sink};
ghost use Rattle.fallible_infer.specs.Infallible.{mark_at, refuses};

use plan_core::{Plan, SinkPlan};
use thiserror::Error;

/// An output whose node may offer nothing, though the script does not allow it.
#[derive(Clone, Copy, Debug, PartialEq, Eq, Hash, Error)]
#[error("sink {sink} may have gaps")]
pub struct Fallible {
    /// Its number among the sinks.
    pub sink: u32,
}

/// Refuses the first output without `fallible=true` whose node is not infallible: `Err` has its number among the sinks.
/// `marks` says of each node whether it is infallible; one without a mark is not.
/// A feed of a buffer is never refused. It takes no memory.
pub fn check_outputs(plan: &Plan, marks: &[bool]) -> Result<(), Fallible>
    requires few { length plan.now.sinks ≤ 2 ^ 32 }
    ensures accepted { OnOk result (All (λ sink. refuses (mark_at marks.now) sink ≡ false) plan.now.sinks) }
    ensures refused { IfErr result (λ fault. (sink : Sink) × (slice_get plan.now.sinks fault.sink ≡ Some sink)
        × (refuses (mark_at marks.now) sink ≡ true)) }
    ensures first { IfErr result (λ fault. (k : ℕ) (sink : Sink) → k < fault.sink
        → slice_get plan.now.sinks k ≡ Some sink
        → refuses (mark_at marks.now) sink ≡ false) }
{
    for (k, sink) in plan.sinks.as_slice().iter().enumerate() {
        if refuses(marks, sink) {
            return Err(Fallible { sink: k as u32 });
        }
    }
    Ok(())
}

// Whether a sink needs an infallible node and its node is not marked as one.
fn refuses(marks: &[bool], sink: &SinkPlan) -> bool
    ensures { result ≡ refuses (mark_at marks.now) sink.now }
{
    match sink {
        SinkPlan::Output { node, fallible, .. } => {
            !*fallible && !marks.get(*node as usize).copied().unwrap_or(false)
        }
        SinkPlan::Feed { .. } => false,
    }
}
