// Nodes that a call adds to the plan, and the limits on them.
ghost use Rattle.std.specs.Prelude.{◌≡◌, ◌≤◌, ◌<◌, ◌+◌, ◌∷◌, [], All, IfOk, OnOk, length};
ghost use Rattle.liq_base.specs.declared.limits.TheConstants.{MAX_CHILDREN, MAX_CROSSFADES};
ghost use Rattle.plan_core.specs.declared.node.Node.{Node};
ghost use Rattle.script_values.specs.Gives.{Gives};
ghost use Rattle.script_values.specs.View.{view_value};
ghost use Rattle.builtin_calls.specs.Nodes.{add, add_buffer, at_most, crossfades_with, few, push};

use liq_base::limits::{MAX_CHILDREN, MAX_CROSSFADES};
use liq_base::{Kind, Memory};
use plan_core::{BufferPlan, Draft, Items, Node, Op, PlanFault};
use script_values::{Limit, Machine, Stop, Value};
use std::alloc::Global;

/// Checks a number against a limit: gives it where it is at most `most`, and else the fault that this limit was passed.
pub(crate) fn at_most(most: u32, limit: Limit, number: u64) -> Result<u32, Stop>
    ensures { Gives (λ n. n) result (at_most most limit number) }
{
    if number > u64::from(most) {
        return Err(Stop::TooLarge(limit));
    }
    Ok(number as u32)
}

/// Checks how many sources a node gets: more than 65535 children are a fault.
pub(crate) fn few(children: &[u32]) -> Result<(), Stop>
    ensures given { Gives (λ _. children.now) result (few children.now) }
    ensures short { OnOk result (length children.now ≤ MAX_CHILDREN) }
{
    if children.len() > MAX_CHILDREN as usize {
        return Err(Stop::TooLarge(Limit::Children));
    }
    Ok(())
}

/// Checks that a crossfade of node `child` may be made. Where a path down from `child` has 4 crossfades already, one
/// more is a fault.
pub(crate) fn room_over(plan: &Draft, child: u32) -> Result<(), Stop>
    ensures { Gives (λ _. crossfades_with child plan.now) result
        (at_most MAX_CROSSFADES Limit.Crossfades (crossfades_with child plan.now)) }
{
    if plan.crossfades_of(child) >= MAX_CROSSFADES {
        return Err(Stop::TooLarge(Limit::Crossfades));
    }
    Ok(())
}

/// Adds a node to the plan and gives its number. Faults: a path down from it has more than 4 crossfades, or the plan
/// has as many nodes as it may. Another fault is want of memory.
#[tactic(auto, unfolding(crate::specs::Nodes::push))]
pub(crate) fn push(machine: &mut Machine, node: Node) -> Result<u32, Stop>
    requires children { All (λ child. child < length machine.old.plan.nodes) node.children }
    requires few { length node.children ≤ MAX_CHILDREN }
    ensures given { Gives (λ n. (n, machine.new)) result (push node machine.old) }
    ensures number { IfOk result (λ n. n ≡ length machine.old.plan.nodes) }
    ensures longer { OnOk result (length machine.new.plan.nodes ≡ length machine.old.plan.nodes + 1) }
{
    if machine.plan.crossfades_from(&node) > MAX_CROSSFADES {
        return Err(Stop::TooLarge(Limit::Crossfades));
    }
    match machine.plan.push_node(node) {
        Ok(number) => Ok(number),
        Err(PlanFault::TooManySources) => Err(Stop::TooManySources),
        Err(PlanFault::Memory) => Err(Stop::Memory),
    }
}

/// Adds a node of this operator, kind and children to the plan; the value is the new node as a source of the script.
#[tactic(auto, unfolding(crate::specs::Nodes::add))]
pub(crate) fn add(
    machine: &mut Machine,
    op: Op,
    kind: Kind,
    children: Items<u32>,
) -> Result<Value, Stop>
    requires children { All (λ child. child < length machine.old.plan.nodes) children }
    requires few { length children ≤ MAX_CHILDREN }
    ensures { Gives (λ v. (view_value v, machine.new)) result (add (record {
      op = op;
      kind = kind;
      children = children;
    }) machine.old) }
{
    let number = push(machine, Node { op, kind, children })?;
    Ok(Value::Source(number))
}

/// Adds a buffer of these sizes to the plan, with a sink that feeds it from node `source` and a node that reads it. The
/// value is the reader as a source.
#[tactic(auto, unfolding(crate::specs::Nodes::add_buffer))]
pub(crate) fn add_buffer(
    alloc: Global,
    machine: &mut Machine,
    source: u32,
    kind: Kind,
    buffer: BufferPlan,
) -> Result<Value, Stop>
    ensures { Gives (λ v. (view_value v, machine.new)) result (add_buffer source kind buffer machine.old) }
{
    match machine.plan.push_buffer(alloc, source, kind, buffer) {
        Ok(number) => Ok(Value::Source(number)),
        Err(PlanFault::TooManySources) => Err(Stop::TooManySources),
        Err(PlanFault::Memory) => Err(Stop::Memory),
    }
}

/// Makes the list of children of a node that reads one source, by the number of its node.
pub(crate) fn one_child(alloc: Global, child: u32) -> Result<Items<u32>, Memory>
    ensures { IfOk result (λ children. children ≡ child ∷ []) }
{
    Ok(Items::from_vec(vec![in alloc; child]?))
}

/// Makes the list of children of a node that reads two sources, by the numbers of their nodes.
pub(crate) fn two_children(alloc: Global, first: u32, second: u32) -> Result<Items<u32>, Memory>
    ensures { IfOk result (λ children. children ≡ first ∷ second ∷ []) }
{
    Ok(Items::from_vec(vec![in alloc; first, second]?))
}
