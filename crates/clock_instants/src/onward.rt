// Instants that go on as the latest one of a clock did, made at once.
ghost use Rattle.std.specs.Prelude.{◌≡◌, ◌<◌, ◌≤◌, is_some, ℕ, true, false, Some, length, slice_get, take};
ghost use Rattle.plan_core.specs.declared.node.Node.{Node as PlanNode};
ghost use Rattle.stream_meaning.specs.Instants.{part_at, silent};
ghost use Rattle.op_mix.specs.Stretches.{HasLane, samples_of};
ghost use Rattle.node_states.specs.Stretches.{LiesAhead};
ghost use Rattle.node_states.specs.States.{Fits};
ghost use Rattle.clock_nodes.specs.Nodes.{AreNodesOf, lies_at};
ghost use Rattle.clock_instants.specs.Sides.{both};
ghost use Rattle.clock_instants.specs.Stretches.{CanRunNode, CanRunNodes, HasKeptSamples, HasLanes, HasRoomToRun};
ghost use Rattle.clock_instants.specs.Stretches.{HasStretchRoom, IsNodeToRun, IsSpare, NodeMade, NodeRun, NodesRun};
ghost use Rattle.clock_nodes.specs.States.{AllFit};

use crate::held::title_below;
use crate::{Spare, StretchRoom};
use clock_infer::NodeClock;
use clock_nodes::{ClockNodes, Scene};
use node_states::{NodeState, gives};
use op_mix::{Before, MAX_STRETCH, Sums};
use std::mem;
use stream_meaning::Part;

/// Makes `many` instants of a clock that go on as its latest one did. The sub-clocks of its crossfades through which
/// cells pass have gone on by as many already, and left the samples of the crossfades' children in `stretch_room`. The
/// states of the clock's nodes go on, and each that gives leaves its samples there.
pub fn run_nodes(
    scene: &Scene<'_>,
    nodes: &ClockNodes,
    clock: NodeClock,
    states: &mut [NodeState],
    stretch_room: &mut StretchRoom,
    many: u32,
)
    requires ready { CanRunNodes scene.now nodes.now clock many stretch_room.old.held.items states.old }
    requires room { HasStretchRoom (length scene.now.plan.now.nodes) stretch_room.old }
    ensures fit { AllFit scene.now states.new }
    ensures room { HasStretchRoom (length scene.now.plan.now.nodes) stretch_room.new }
    ensures held { stretch_room.new.held ≡ stretch_room.old.held }
    ensures rests { stretch_room.new.rests ≡ stretch_room.old.rests }
    ensures others { (i : ℕ) → lies_at scene.now.clocks.now clock i ≡ false
        → slice_get states.new i ≡ slice_get states.old i }
    ensures left { (i : ℕ) → lies_at scene.now.clocks.now clock i ≡ false
        → samples_of stretch_room.new.left.items i many ≡ samples_of stretch_room.old.left.items i many }
    ensures right { (i : ℕ) → lies_at scene.now.clocks.now clock i ≡ false
        → samples_of stretch_room.new.right.items i many ≡ samples_of stretch_room.old.right.items i many }
    ensures laned { (i : ℕ) → HasLanes stretch_room.old.left.items stretch_room.old.right.items i
        → HasLanes stretch_room.new.left.items stretch_room.new.right.items i }
    ensures run { NodesRun scene.now clock many stretch_room.old.held.items states.old stretch_room.old.left.items
        stretch_room.old.right.items stretch_room.new.left.items stretch_room.new.right.items states.new }
{
    run_each(
        scene,
        nodes,
        clock,
        &stretch_room.held,
        &mut stretch_room.parts,
        states,
        &mut stretch_room.left,
        &mut stretch_room.right,
        &mut stretch_room.spare,
        many,
    );
    forget(scene, nodes, clock, &mut stretch_room.parts);
}

// Makes `many` instants at once of all nodes of a clock, node by node: their states go on, and each that gives leaves
// its samples in `left` and `right`, by its number. `held` has what each node gave at the latest instant. `parts` is
// silent before; afterwards it has the held parts of these nodes. `spare` is room for one node's samples.
fn run_each(
    scene: &Scene<'_>,
    nodes: &ClockNodes,
    clock: NodeClock,
    held: &[Part],
    parts: &mut [Part],
    states: &mut [NodeState],
    left: &mut [Vec<i16>],
    right: &mut [Vec<i16>],
    spare: &mut Spare,
    many: u32,
)
    requires ready { CanRunNodes scene.now nodes.now clock many held.now states.old }
    requires room { HasRoomToRun (length scene.now.plan.now.nodes) held.now parts.old left.old right.old spare.old }
    ensures fit { AllFit scene.now states.new }
    ensures outside { (j : ℕ) → lies_at scene.now.clocks.now clock j ≡ false → part_at parts.new j ≡ silent }
    ensures others { (i : ℕ) → lies_at scene.now.clocks.now clock i ≡ false
        → slice_get states.new i ≡ slice_get states.old i }
    ensures samples { (i : ℕ) → lies_at scene.now.clocks.now clock i ≡ false
        → HasKeptSamples left.old right.old left.new right.new many i }
    ensures laned { (i : ℕ) → HasLanes left.old right.old i → HasLanes left.new right.new i }
    ensures spare { IsSpare spare.new }
    ensures run { NodesRun scene.now clock many held.now states.old left.old right.old left.new right.new states.new }
{
    let mut i = nodes.first(clock);
    while i < scene.clocks.len() {
        parts[i] = held[i];
        run_node(
            scene,
            i,
            held,
            parts,
            &mut states[i],
            left,
            right,
            spare,
            many as usize,
        );
        i = nodes.after(i);
    }
}

// Makes `count` instants more of node i, over what it and the nodes before it gave; `held` is what all nodes gave. Its
// samples are made in the spare lanes, which are then exchanged with its own. A node without lanes is not of the clocks
// that the engine drives.
fn run_node(
    scene: &Scene<'_>,
    i: usize,
    held: &[Part],
    parts: &[Part],
    state: &mut NodeState,
    left: &mut [Vec<i16>],
    right: &mut [Vec<i16>],
    spare: &mut Spare,
    count: usize,
)
    requires { CanRunNode scene.now i count parts.now left.old right.old spare.old state.old }
    ensures fits { (node : PlanNode) → slice_get scene.now.plan.now.nodes i ≡ Some node
        → Fits scene.now.library.now (length node.children) state.new }
    ensures samples { (k : ℕ) → (k ≡ i → ⊥) → HasKeptSamples left.old right.old left.new right.new count k }
    ensures laned { (k : ℕ) → HasLanes left.old right.old k → HasLanes left.new right.new k }
    ensures spare { IsSpare spare.new }
    ensures run { NodeRun scene.now i count held.now parts.now state.old (both left.old right.old)
        (both left.new right.new) state.new }
{
    let part = parts[i];
    if !gives(part, true) {
        return;
    }
    if !has_lane(left, i) {
        return;
    }
    if !has_lane(right, i) {
        return;
    }
    make_samples(
        scene,
        i,
        held,
        parts,
        state,
        left,
        right,
        &mut spare.sums,
        &mut spare.left,
        &mut spare.right,
        count,
    );
    mem::swap(&mut left[i], &mut spare.left);
    mem::swap(&mut right[i], &mut spare.right);
}

// Makes `count` instants more of node i, which gave: its samples are made at the front of `own_left` and `own_right`.
// They are made of those in `left` and `right` of the nodes before it, of which `parts` tells which gave. `sums` is
// room for adding up a mix.
fn make_samples(
    scene: &Scene<'_>,
    i: usize,
    held: &[Part],
    parts: &[Part],
    state: &mut NodeState,
    left: &[Vec<i16>],
    right: &[Vec<i16>],
    sums: &mut Sums,
    own_left: &mut [i16],
    own_right: &mut [i16],
    count: usize,
)
    requires node { IsNodeToRun scene.now i count parts.now state.old }
    requires own_left { 2048 ≤ length own_left.old }
    requires own_right { 2048 ≤ length own_right.old }
    requires gave { is_some (part_at parts.now i).slot ≡ true }
    requires ahead { LiesAhead scene.now.library.now state.old count }
    ensures fits { (node : PlanNode) → slice_get scene.now.plan.now.nodes i ≡ Some node
        → Fits scene.now.library.now (length node.children) state.new }
    ensures made { NodeMade scene.now i count held.now parts.now state.old (both left.now right.now)
        (both (take count own_left.new) (take count own_right.new)) state.new }
{
    let below = title_below(scene.plan.nodes.as_slice(), held, i);
    let node = &scene.plan.nodes.as_slice()[i];
    state.run(
        node,
        parts[i].pick,
        &Before { parts, left, right },
        below,
        scene.library,
        sums,
        &mut own_left[..count],
        &mut own_right[..count],
    );
}

// Whether the lane of node i, its list of samples of one side, has room for any stretch (instants made at once). It is
// false for a node without a lane, whose list is empty.
fn has_lane(lanes: &[Vec<i16>], i: usize) -> bool
    requires within { i < length lanes.now }
    ensures there { result ≡ true → HasLane lanes.now i }
    ensures gone { result ≡ false → HasLane lanes.now i → ⊥ }
{
    lanes[i].len() >= MAX_STRETCH as usize
}

// Makes the parts of a clock's nodes silent again after a stretch; those of other nodes are so already.
fn forget(scene: &Scene<'_>, nodes: &ClockNodes, clock: NodeClock, parts: &mut [Part])
    requires chains { AreNodesOf scene.now.clocks.now nodes.now }
    requires in_parts { length parts.old ≡ length scene.now.clocks.now }
    requires outside { (j : ℕ) → lies_at scene.now.clocks.now clock j ≡ false → part_at parts.old j ≡ silent }
    ensures { (j : ℕ) → part_at parts.new j ≡ silent }
{
    let mut i = nodes.first(clock);
    while i < scene.clocks.len() {
        parts[i] = Part {
            slot: None,
            pick: None,
        };
        i = nodes.after(i);
    }
}
