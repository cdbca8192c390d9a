// What the nodes of a clock do at an instant.
ghost use Rattle.std.specs.Prelude.{◌≡◌, ◌<◌, ℕ, List, Some, true, false, length, slice_get};
ghost use Rattle.plan_core.specs.declared.node.Node.{Node as PlanNode};
ghost use Rattle.clock_infer.specs.declared.clock_map.NodeClock.{NodeClock as Clock};
ghost use Rattle.frame_core.specs.Slots.{Slot as TheSlot};
ghost use Rattle.stream_meaning.specs.Instants.{Setting, Moment, lies_in, part_at, part_in, parts_upto, second_at};
ghost use Rattle.stream_meaning.specs.Instants.{silent, work_at};
ghost use Rattle.node_states.specs.States.{AreLong, Fits, IsSettled, StateStands};
ghost use Rattle.clock_nodes.specs.Nodes.{AreNodesOf, lies_at};
ghost use Rattle.clock_nodes.specs.Scenes.{IsScene, setting_over};
ghost use Rattle.clock_nodes.specs.States.{AllFit, AreSettled, ClockStands, HasRoomFor, IsIn};

use clock_infer::NodeClock;
use clock_nodes::{ClockNodes, Scene};
use fixed_text::WeekSecond;
use node_states::{Desk, NodeState};
use stream_meaning::Part;

/// Makes the first step of an instant in second `at` of the week: writes to `parts`, where each part is silent, what
/// each node of a clock offers and which child it picks. `desk` has room for the children of a node.
pub fn make_parts(
    scene: &Scene<'_>,
    nodes: &ClockNodes,
    clock: NodeClock,
    states: &[NodeState],
    at: WeekSecond,
    parts: &mut [Part],
    desk: &mut Desk,
)
    requires scene { IsScene scene.now }
    requires chains { AreNodesOf scene.now.clocks.now nodes.now }
    requires in_parts { length parts.old ≡ length scene.now.plan.now.nodes }
    requires none { (j : ℕ) → part_at parts.old j ≡ silent }
    requires fit { AllFit scene.now states.now }
    requires room { HasRoomFor scene.now.plan.now desk.old }
    ensures room { desk.new ≡ desk.old }
    ensures others { (j : ℕ) → lies_at scene.now.clocks.now clock j ≡ false → part_at parts.new j ≡ silent }
    ensures parts { (setting : Setting) (sub : ℕ → ℕ → List TheSlot) (past : List Moment) (filled : ℕ → ℕ) →
        let setting = setting_over scene.now setting in
        at.second ≡ second_at setting (length past) → AreLong sub → ClockStands setting sub clock past filled states.now
        → AreSettled setting sub clock past filled
        → parts.new ≡ parts_upto setting sub clock past (length scene.now.plan.now.nodes) }
{
    let mut i = nodes.first(clock);
    while i < scene.clocks.len() {
        parts[i] = offer_of(scene, &states[i], i, at, &parts[..i], desk);
        i = nodes.after(i);
    }
}

// What node i offers, and which child it picks, at an instant in second `at` of the week. `parts` has the same of the
// nodes before it, among them its children. `desk` is room for what its children offer.
fn offer_of(
    scene: &Scene<'_>,
    state: &NodeState,
    i: usize,
    at: WeekSecond,
    parts: &[Part],
    desk: &mut Desk,
) -> Part
    requires scene { IsScene scene.now }
    requires within { i < length scene.now.plan.now.nodes }
    requires fits { (node : PlanNode) → slice_get scene.now.plan.now.nodes i ≡ Some node
        → Fits scene.now.library.now (length node.children) state.now }
    requires room { HasRoomFor scene.now.plan.now desk.old }
    ensures room { desk.new ≡ desk.old }
    ensures part { (setting : Setting) (sub : ℕ → ℕ → List TheSlot) (clock : Clock) (past : List Moment) (filled : ℕ) →
        let setting = setting_over scene.now setting in
        at.second ≡ second_at setting (length past) → AreLong sub → lies_in setting clock i ≡ true
        → ((node : PlanNode) → IsIn setting clock i node
        → StateStands setting sub past filled i (work_at setting i node) state.now)
        → ((node : PlanNode) → IsIn setting clock i node → IsSettled sub past filled i (work_at setting i node))
        → result ≡ part_in setting sub (lies_in setting clock i) past i (slice_get scene.now.plan.now.nodes i)
        parts.now }
{
    let node = &scene.plan.nodes.as_slice()[i];
    desk.offer(state, node, parts, scene.library, at)
}
