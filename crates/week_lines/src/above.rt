// What plays in the place of a switch that has nothing to play.
ghost use Rattle.std.specs.Prelude.{◌≡◌, Some, nat_eq};
ghost use Rattle.std.specs.List.{list_any};
ghost use Rattle.plan_core.specs.Plans.{sink_node};
ghost use Rattle.week_lines.specs.Instead.{child_behind, instead_among, instead_at, instead_below, instead_by};
ghost use Rattle.week_lines.specs.Instead.{instead_of, is_written, players_of};

use plan_core::{Node, Op, Plan, SinkPlan};

/// What plays while a switch has nothing to play, as far as one source above it says so.
#[derive(Clone, Copy, Debug, PartialEq, Eq)]
pub enum Instead {
    /// Silence: a fallback goes on to a blank.
    Silence,

    /// A fallback goes on to its next source.
    Next,

    /// That is not known.
    Unknown,
}

/// What plays while source `number` has nothing to play. It is known only where no sink and one node alone plays it,
/// and that is a fallback with a child behind it: then silence if that child is a blank, and otherwise its next source.
pub fn instead_of(plan: &Plan, number: usize) -> Instead
    ensures { result ≡ instead_of plan.now number }
{
    if is_written(plan.sinks.as_slice(), number) {
        return Instead::Unknown;
    }
    instead_among(plan.nodes.as_slice(), number)
}

// Whether some sink, an output or the feed of a buffer, plays source `number`.
fn is_written(sinks: &[SinkPlan], number: usize) -> bool
    ensures { result ≡ is_written sinks.now number }
{
    for sink in sinks {
        if taken(sink) as usize == number {
            return true;
        }
    }
    false
}

// The number of the node that a sink, an output or the feed of a buffer, plays.
fn taken(sink: &SinkPlan) -> u32
    ensures { result ≡ sink_node sink.now }
{
    match sink {
        SinkPlan::Output { node, .. } => *node,
        SinkPlan::Feed { node, .. } => *node,
    }
}

// What plays in the place of source `number`, which no sink takes: known only if one node alone plays it.
fn instead_among(nodes: &[Node], number: usize) -> Instead
    ensures { result ≡ instead_among nodes.now number (players_of nodes.now number) }
{
    let mut found = false;
    let mut instead = Instead::Unknown;
    for node in nodes {
        if !plays(node.children.as_slice(), number) {
            continue;
        }
        if found {
            return Instead::Unknown;
        }
        found = true;
        instead = instead_below(nodes, number, node);
    }
    instead
}

// Whether source `number` is among these children.
fn plays(children: &[u32], number: usize) -> bool
    ensures { result ≡ list_any (λ child. nat_eq child number) children.now }
{
    for child in children {
        if *child as usize == number {
            return true;
        }
    }
    false
}

// What plays in the place of source `number`, which `player` alone plays: the next child if that is a fallback; else
// it is not known.
fn instead_below(nodes: &[Node], number: usize, player: &Node) -> Instead
    ensures { result ≡ instead_below nodes.now number player.now.op player.now.children }
{
    match &player.op {
        Op::Fallback { .. } => next_of(nodes, player.children.as_slice(), number),
        _ => Instead::Unknown,
    }
}

// What plays in the place of source `number` among the children of a fallback: the next other child behind it.
fn next_of(nodes: &[Node], children: &[u32], number: usize) -> Instead
    ensures { result ≡ instead_at nodes.now (child_behind number children.now) }
{
    match child_behind(children, number) {
        Some(child) => kind_of(nodes, child),
        None => Instead::Unknown,
    }
}

// The child to which a fallback goes on from source `number`: the first other one behind it; `None` if it is the last.
fn child_behind(children: &[u32], number: usize) -> Option<u32>
    ensures { result ≡ child_behind number children.now }
{
    let mut passed = false;
    for child in children {
        if *child as usize == number {
            passed = true;
        } else if passed {
            return Some(*child);
        }
    }
    None
}

// What a line says plays if a fallback goes on to source n: silence if that is a blank, and otherwise its next source;
// not known where there is no such source.
fn kind_of(nodes: &[Node], n: u32) -> Instead
    ensures { result ≡ instead_at nodes.now (Some n) }
{
    match nodes.get(n as usize) {
        Some(node) => kind_by(&node.op),
        None => Instead::Unknown,
    }
}

// What a line says plays if a fallback goes on to a source of this operator: silence if that is a blank, and otherwise
// its next source.
fn kind_by(op: &Op) -> Instead
    ensures { result ≡ instead_by op.now }
{
    match op {
        Op::Blank { .. } => Instead::Silence,
        _ => Instead::Next,
    }
}
