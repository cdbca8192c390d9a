// What leaves an output without a sound.
ghost use Rattle.std.specs.Prelude.{◌≡◌, ◌≢◌, ◌<◌, None, IfOk, IfSome, length};
ghost use Rattle.plan_core.specs.Plans.{IsWellFormed};
ghost use Rattle.script_plan.specs.Plans.{IsPlan};
ghost use Rattle.where_lines.specs.Causes.{IsCauseAt, IsCauseOf, node_named, output_named};
ghost use Rattle.where_lines.specs.Kept.{IsKept};
ghost use Rattle.where_lines.specs.Nowhere.{HasNoOutput};

use crate::kept::Kept;
use crate::sources::{nowhere, source_place};
use liq_base::Memory;
use plan_blames::cause;
use plan_core::{Plan, SinkPlan};
use script_plan::{laws, plan_of};
use std::alloc::Global;

/// For the fault that output `name` may fall silent: the byte of the script at which the source to be mended is made.
/// It is sought from the output's source down, as long as one source alone is needed, and its call is told.
/// `None` where the script has no plan or no such output. `kept` is what was read of the script before.
pub fn cause_place(
    alloc: Global,
    text: &[u8],
    kept: &mut Kept,
    name: &[u8],
) -> Result<Option<usize>, Memory>
    requires { IsKept text.now kept.old }
    ensures kept { IsKept text.now kept.new }
    ensures place { IfOk result (λ at. IfSome at (IsCauseAt text.now name.now)) }
    ensures none { IfOk result (λ at. at ≡ None → HasNoOutput text.now name.now) }
{
    laws::one_answer();
    match plan_of(alloc, text) {
        Ok(plan) => cause_in(alloc, text, kept, &plan, name),
        Err(fault) => nowhere(&fault),
    }
}

// By the plan of a script: the byte at which the call begins that makes the source to be mended, so that the output
// of this name never falls silent. `None` if there is no such output. `kept` is what was read of the script before.
fn cause_in(
    alloc: Global,
    text: &[u8],
    kept: &mut Kept,
    plan: &Plan,
    name: &[u8],
) -> Result<Option<usize>, Memory>
    requires kept { IsKept text.now kept.old }
    requires plan { IsPlan text.now plan.now }
    requires well_formed { IsWellFormed plan.now }
    ensures kept { IsKept text.now kept.new }
    ensures place { IfOk result (λ at. IfSome at (IsCauseAt text.now name.now)) }
    ensures none { IfOk result (λ at. at ≡ None → HasNoOutput text.now name.now) }
{
    laws::one_answer();
    match output_of(plan, name) {
        Some(output) => cause_of(alloc, text, kept, plan, output),
        None => Ok(None),
    }
}

// The byte at which the call begins that makes the source to be mended, so that node `output` never falls silent. Each
// node has such a call, so `None` never comes. `kept` is what was read of the script before.
fn cause_of(
    alloc: Global,
    text: &[u8],
    kept: &mut Kept,
    plan: &Plan,
    output: u32,
) -> Result<Option<usize>, Memory>
    requires kept { IsKept text.now kept.old }
    requires plan { IsPlan text.now plan.now }
    requires well_formed { IsWellFormed plan.now }
    requires there { output < length plan.now.nodes }
    ensures kept { IsKept text.now kept.new }
    ensures place { IfOk result (λ at. IfSome at (IsCauseOf text.now plan.now output)) }
    ensures some { IfOk result (λ at. at ≢ None) }
{
    let source = cause(plan.nodes.as_slice(), output);
    source_place(alloc, text, kept, source as u64)
}

// The node that the first output of this name plays, in a plan; it is one of its nodes.
fn output_of(plan: &Plan, name: &[u8]) -> Option<u32>
    requires { IsWellFormed plan.now }
    ensures named { result ≡ output_named name.now plan.now.sinks }
    ensures there { IfSome result (λ node. node < length plan.now.nodes) }
{
    output_named(name, plan.sinks.as_slice())
}

// The node that the first output of this name among these sinks plays.
fn output_named(name: &[u8], sinks: &[SinkPlan]) -> Option<u32>
    ensures { result ≡ output_named name.now sinks.now }
{
    for sink in sinks {
        if let Some(node) = node_named(name, sink) {
            return Some(node);
        }
    }
    None
}

// The node that a sink plays, if the sink is the output of this name; a feed of a buffer is none.
fn node_named(name: &[u8], sink: &SinkPlan) -> Option<u32>
    ensures { result ≡ node_named name.now sink.now }
{
    match sink {
        SinkPlan::Output {
            name: other,
            node,
            ..
        } => {
            if other.as_str().as_bytes() == name {
                Some(*node)
            } else {
                None
            }
        }
        SinkPlan::Feed { .. } => None,
    }
}
