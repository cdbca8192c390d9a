// How many instants go on as the latest one of a clock did.
ghost use Rattle.std.specs.Prelude.{◌≡◌, ◌<◌, ◌≤◌, is_some, ℕ, true, Some, length, slice_get};
ghost use Rattle.liq_base.specs.declared.memory.Kind.{Kind as TheKind};
ghost use Rattle.plan_core.specs.declared.node.Node.{Node as PlanNode};
ghost use Rattle.stream_meaning.specs.Operators.{Reads, work_of};
ghost use Rattle.node_states.specs.Passing.{passes};
ghost use Rattle.node_states.specs.Stretches.{LiesAhead};
ghost use Rattle.node_states.specs.States.{Fits};
ghost use Rattle.clock_instants.specs.Held.{AllPassOn};
ghost use Rattle.clock_nodes.specs.Nodes.{AreNodesOf};
ghost use Rattle.clock_instants.specs.Resting.{MarksStay, NodeGoesOn, begins_at};
ghost use Rattle.clock_instants.specs.Stretches.{AllLieAhead, ClockGoesOn};
ghost use Rattle.clock_nodes.specs.Scenes.{IsScene};
ghost use Rattle.clock_nodes.specs.States.{AllFit};

use crate::held::title_below;
use clock_infer::NodeClock;
use clock_nodes::{ClockNodes, Scene};
use node_states::{NodeState, WeekTime, steady_seconds};
use plan_core::Op;
use stream_meaning::Part;

/// How many instants go on as the latest one of a clock did, at most `most` and no more than a second has: they are a
/// stretch with it. That instant was at `time`, and its nodes had these parts and gave `held`. A crossfade goes on for
/// the items that it has ready, or where cells pass for as long as its sub-clock does, by `rests`.
pub fn rest_of(
    scene: &Scene<'_>,
    nodes: &ClockNodes,
    clock: NodeClock,
    parts: &[Part],
    held: &[Part],
    states: &[NodeState],
    rests: &[u32],
    time: WeekTime,
    most: u32,
) -> u32
    requires scene { IsScene scene.now }
    requires rate { time.rate ≡ scene.now.plan.now.rate }
    requires frame { time.frame ≡ scene.now.plan.now.frame }
    requires chains { AreNodesOf scene.now.clocks.now nodes.now }
    requires in_parts { length parts.now ≡ length scene.now.plan.now.nodes }
    requires in_held { length held.now ≡ length scene.now.plan.now.nodes }
    requires in_rests { length rests.now ≡ length scene.now.plan.now.nodes }
    requires fit { AllFit scene.now states.now }
    ensures within { result ≤ most }
    ensures later { result ≤ time.rate }
    ensures ahead { AllLieAhead scene.now clock held.now states.now result }
    ensures through { AllPassOn scene.now clock held.now states.now rests.now result }
    ensures goes { ClockGoesOn scene.now clock time parts.now held.now states.now rests.now result }
{
    let tick = time.tick_left();
    let mut rest = most.min(time.rate);
    let mut i = nodes.first(clock);
    while i < scene.clocks.len() {
        let below_title = title_below(scene.plan.nodes.as_slice(), held, i);
        rest = node_rest(
            scene,
            parts,
            held[i],
            &states[i],
            i,
            rests[i],
            below_title,
            time,
            tick,
            rest,
        );
        i = nodes.after(i);
    }
    rest
}

// How many instants, at most `most`, node i goes on after the latest one as it did then. That one was at `time`, with
// `tick` instants left of its tick; `parts` has what each node offered, and `held` what node i gave. A crossfade's
// sub-clock goes on for `below` instants, with cells of the title `below_title`.
fn node_rest(
    scene: &Scene<'_>,
    parts: &[Part],
    held: Part,
    state: &NodeState,
    i: usize,
    below: u32,
    below_title: u32,
    time: WeekTime,
    tick: u32,
    most: u32,
) -> u32
    requires scene { IsScene scene.now }
    requires rate { time.rate ≡ scene.now.plan.now.rate }
    requires in_parts { length parts.now ≡ length scene.now.plan.now.nodes }
    requires within { i < length scene.now.plan.now.nodes }
    requires fits { (node : PlanNode) → slice_get scene.now.plan.now.nodes i ≡ Some node
        → Fits scene.now.library.now (length node.children) state.now }
    ensures within { result ≤ most }
    ensures ahead { is_some held.slot ≡ true → LiesAhead scene.now.library.now state.now result }
    ensures through { is_some held.slot ≡ true → passes state.now ≡ true → result ≤ below }
    ensures goes { NodeGoesOn scene.now i parts.now held state.now below below_title time tick result }
{
    let node = &scene.plan.nodes.as_slice()[i];
    let gave = held.slot.is_some();
    let begins = begins(parts, node.children.as_slice(), state.last());
    let bound = border(&node.op, time, tick, most).min(most);
    state.rest(
        parts[i],
        gave,
        begins,
        scene.library,
        below,
        below_title,
        bound,
    )
}

// The bound that time sets to how long a node goes on after the instant at `time`: for a switch, until its eligible
// children may change; for a reader, the `tick` instants until a tick begins; `most` for every other node.
fn border(op: &Op, time: WeekTime, tick: u32, most: u32) -> u32
    ensures marks { MarksStay op.now time result }
    ensures tick { (rate i buffer : ℕ) (kind : TheKind) → work_of rate i kind op.now ≡ Reads buffer → result ≡ tick }
{
    match op {
        Op::Switch { .. } => steady_left(op, time, most),
        Op::Buffer(_) => tick,
        _ => most,
    }
}

// For how many instants after the one at `time` the predicates of a switch choose the same children. They change at
// the start of a second only: where that of `time` lasts for `most` instants more, it is `most`, and the predicates
// are not asked.
fn steady_left(op: &Op, time: WeekTime, most: u32) -> u32
    ensures { MarksStay op.now time result }
{
    if time.seconds_left(1) >= most {
        return most;
    }
    time.seconds_left(steady_seconds(op, time.second))
}

// Whether the child at `place` in a node's list of children offers the first cell of a track. False where it offers
// nothing, or where no place is given. `parts` has what each node offers, by its number.
fn begins(parts: &[Part], children: &[u32], place: Option<u32>) -> bool
    ensures { result ≡ begins_at parts.now children.now place }
{
    let Some(place) = place else {
        return false;
    };
    let Some(child) = children.get(place as usize) else {
        return false;
    };
    let Some(part) = parts.get(*child as usize) else {
        return false;
    };
    match part.slot {
        Some(cell) => cell.first,
        None => false,
    }
}
