// The parts of a new engine.
ghost use Rattle.std.specs.Prelude.{◌≡◌, ◌<◌, ◌≤◌, ◌||◌, ℕ, Some, All, false, nat_eq, length, slice_get};
ghost use Rattle.std.specs.Prelude.{slice_index_or, IfOk};
ghost use Rattle.std.specs.List.{list_any};
ghost use Rattle.liq_base.specs.declared.limits.TheConstants.{MAX_CHILDREN, MAX_NODES};
ghost use Rattle.plan_core.specs.Plans.{AreNodes, IsInRange, IsWellFormed, sink_node};
ghost use Rattle.frame_core.specs.Library.{IsLibrary};
ghost use Rattle.stream_meaning.specs.Instants.{Setting, is_root, same_clock};
ghost use Rattle.node_states.specs.declared.state.NodeState.{NodeState as State};
ghost use Rattle.node_states.specs.declared.state.NodeState.TheVariants.{Idle};
ghost use Rattle.node_states.specs.declared.time.WeekTime.{WeekTime as Time};
ghost use Rattle.clock_instants.specs.Instants.{IsLatest};
ghost use Rattle.clock_nodes.specs.States.{HasRoomFor};
ghost use Rattle.clock_instants.specs.Takes.{IsUnder};
ghost use Rattle.nested_instants.specs.Clocks.{AreClockStates, AreOwnRoots, laned_at, rest_at};
ghost use Rattle.clock_ticks.specs.Beginnings.{AreNewStates, IsNewState};
ghost use Rattle.clock_nodes.specs.Scenes.{setting_over};

use clock_infer::NodeClock;
use clock_instants::{Latest, StretchRoom};
use clock_nodes::{ClockNodes, Scene};
use liq_base::Memory;
use nested_instants::{ClockStates, child_of};
use node_states::{Desk, NodeState, WeekTime};
use plan_core::{Node, Plan, SinkPlan};
use std::alloc::Global;
use stream_meaning::Part;

/// The states of all clocks before the first instant, which is at `time`: each node's state, the time of each
/// sub-clock's next instant, and the latest instant, at which no node offers anything. Nodes that main clock `clock`
/// does not drive have idle states.
pub fn clocks_of(
    alloc: Global,
    scene: &Scene<'_>,
    clock: u32,
    time: WeekTime,
) -> Result<ClockStates, Memory>
    requires plan { IsWellFormed scene.now.plan.now }
    requires in_clocks { length scene.now.clocks.now ≡ length scene.now.plan.now.nodes }
    requires library { IsLibrary scene.now.library.now }
    requires leaves { length scene.now.library.now.leaves ≡ length scene.now.plan.now.nodes }
    requires rate { time.rate ≡ scene.now.plan.now.rate }
    requires frame { time.frame ≡ scene.now.plan.now.frame }
    ensures clocks { IfOk result (AreClockStates scene.now) }
    ensures states { IfOk result
        (λ all. AreNewStates scene.now.plan.now scene.now.clocks.now clock (length scene.now.plan.now.nodes)
        all.states.items) }
    ensures times { IfOk result (λ all. (k : ℕ) (one : Time) → slice_get all.times.items k ≡ Some one → one ≡ time) }
    ensures none { IfOk result (λ all. (k : ℕ) → rest_at all k ≡ 0) }
    ensures laned { IfOk result (λ all. (i : ℕ) (state : State) → slice_get all.states.items i ≡ Some state
        → (state ≡ Idle → ⊥) → laned_at all i) }
{
    let states = states_of(alloc, scene, clock)?;
    let times = times_of(alloc, time, states.len())?;
    let latest = latest_of(alloc, scene, clock)?;
    let nodes = ClockNodes::new(alloc, scene.clocks)?;
    let desk = Desk::new(alloc, most_children(scene.plan))?;
    let room = StretchRoom::new(alloc, &states)?;
    Ok(ClockStates {
        states,
        times,
        latest,
        nodes,
        desk,
        room,
    })
}

// What is kept of the latest instant of main clock `clock`, before the first one. No node offers anything, and none is
// demanded.
fn latest_of(alloc: Global, scene: &Scene<'_>, clock: u32) -> Result<Latest, Memory>
    ensures { IfOk result (IsLatest scene.now.clocks.now) }
{
    let silent = Part {
        slot: None,
        pick: None,
    };
    let parts = vec![in alloc; silent; scene.clocks.len()]?;
    let demanded = vec![in alloc; false; scene.clocks.len()]?;
    Ok(Latest {
        clock: NodeClock::Main(clock),
        parts,
        demanded,
    })
}

// The states of the nodes before the first instant. Nodes that main clock `clock` does not drive have idle states.
fn states_of(alloc: Global, scene: &Scene<'_>, clock: u32) -> Result<Vec<NodeState>, Memory>
    requires rate { 0 < scene.now.plan.now.rate }
    requires nodes { AreNodes scene.now.plan.now.nodes }
    requires few { length scene.now.plan.now.nodes ≤ MAX_NODES }
    ensures { IfOk result (λ states. AreNewStates scene.now.plan.now scene.now.clocks.now clock
        (length scene.now.plan.now.nodes) states.items) }
{
    let nodes = scene.plan.nodes.as_slice();
    let mut states = Vec::with_capacity(alloc, nodes.len())?;
    for i in 0..nodes.len() {
        states.push(state_of(alloc, scene, clock, &nodes[i], i as u32)?)?;
    }
    Ok(states)
}

/// Whether `of` is main clock `clock`.
pub fn is_main(of: NodeClock, clock: u32) -> bool
    ensures { result ≡ same_clock of (NodeClock.Main clock) }
{
    match of {
        NodeClock::Main(m) => m == clock,
        NodeClock::Sub(_) => false,
    }
}

/// For each node, whether its own clock asks for it at each instant: a main clock for the nodes of its sinks, and a
/// sub-clock for the child of its crossfade.
pub fn own_roots(alloc: Global, scene: &Scene<'_>) -> Result<Vec<bool>, Memory>
    requires in_clocks { length scene.now.clocks.now ≡ length scene.now.plan.now.nodes }
    requires sinks { All (λ sink. sink_node sink < length scene.now.plan.now.nodes) scene.now.plan.now.sinks }
    ensures size { IfOk result (λ own. length own.items ≡ length scene.now.plan.now.nodes) }
    ensures roots { IfOk result (λ own. (other : Setting) → AreOwnRoots (setting_over scene.now other) own.items) }
{
    let mut own = vec![in alloc; false; scene.clocks.len()]?;
    demand_roots(scene, &mut own);
    Ok(own)
}

// The times of the next instants of `count` sub-clocks, one for each node, before any was made: all are `first`.
fn times_of(alloc: Global, first: WeekTime, count: usize) -> Result<Vec<WeekTime>, Memory>
    ensures size { IfOk result (λ times. length times.items ≡ count) }
    ensures each { IfOk result (λ times. (k : ℕ) (time : Time) → slice_get times.items k ≡ Some time → time ≡ first) }
{
    let times = vec![in alloc; first; count]?;
    Ok(times)
}

// The largest number of children that a node of the plan has: an engine keeps room for what so many offer.
fn most_children(plan: &Plan) -> usize
    ensures { HasRoomFor plan.now result }
{
    let mut most = 0;
    for node in plan.nodes.as_slice() {
        most = node.children.len().max(most);
    }
    most
}

// The state of node i before the first instant. If main clock `clock` does not drive the node, it is idle and takes no
// memory.
fn state_of(
    alloc: Global,
    scene: &Scene<'_>,
    clock: u32,
    node: &Node,
    i: u32,
) -> Result<NodeState, Memory>
    requires rate { 0 < scene.now.plan.now.rate }
    requires range { IsInRange node.now.op }
    requires few { length node.now.children ≤ MAX_CHILDREN }
    ensures { IfOk result (λ state. IsNewState scene.now.plan.now scene.now.clocks.now clock i node.now state) }
{
    if is_driven(scene.clocks, clock, i) {
        return NodeState::new(alloc, scene.plan, node, i);
    }
    Ok(NodeState::Idle)
}

// Whether main clock `clock` drives node i, which lies in it or in a sub-clock below it. From a sub-clock it goes up to
// the clock of its crossfade, at most as often as there are nodes. No plan nests so deep; where it did not end, the
// answer is true.
fn is_driven(clocks: &[NodeClock], clock: u32, i: u32) -> bool
    ensures { result ≡ false → (rank : ℕ) → IsUnder clocks.now (NodeClock.Main clock) rank i → ⊥ }
{
    let mut at = i;
    for _ in 0..clocks.len() {
        match clock_at(clocks, at) {
            NodeClock::Main(m) => return m == clock,
            NodeClock::Sub(k) => at = k,
        }
    }
    true
}

// The clock that drives node i; main clock 0 if there is no such node.
fn clock_at(clocks: &[NodeClock], i: u32) -> NodeClock
    ensures { result ≡ slice_index_or clocks.now i (NodeClock.Main 0) }
{
    match clocks.get(i as usize) {
        Some(clock) => *clock,
        None => NodeClock::Main(0),
    }
}

// The number of the node that a sink, an output or the feed of a buffer, plays.
fn node_of(sink: &SinkPlan) -> u32
    ensures { result ≡ sink_node sink.now }
{
    match sink {
        SinkPlan::Output { node, .. } => *node,
        SinkPlan::Feed { node, .. } => *node,
    }
}

// Sets in `own`, where no node is set before, each node that its own clock asks for at each instant.
fn demand_roots(scene: &Scene<'_>, own: &mut [bool])
    requires in_clocks { length scene.now.clocks.now ≡ length own.old }
    requires sinks { All (λ sink. sink_node sink < length own.old) scene.now.plan.now.sinks }
    requires none { (i : ℕ) → slice_index_or own.old i false ≡ false }
    ensures { (other : Setting) (i : ℕ) → i < length own.old
        → slice_index_or own.new i false
        ≡ is_root (setting_over scene.now other) (slice_index_or scene.now.clocks.now i (NodeClock.Main 0)) i }
{
    demand_sinks(scene.plan.sinks.as_slice(), own);
    keep_roots(scene, own);
}

// Sets in `demanded`, a mark for each node, the node that each of these sinks plays; other marks stay.
fn demand_sinks(sinks: &[SinkPlan], demanded: &mut [bool])
    requires { All (λ sink. sink_node sink < length demanded.old) sinks.now }
    ensures { (i : ℕ) → slice_index_or demanded.new i false
        ≡ (slice_index_or demanded.old i false || list_any (λ sink. nat_eq (sink_node sink) i) sinks.now) }
{
    for sink in sinks {
        demanded[node_of(sink) as usize] = true;
    }
}

// Turns `own`, which marks the nodes of sinks, into marks of the nodes that their own clock asks for at each instant.
// In a main clock these stay; in a sub-clock its crossfade's child alone is marked.
fn keep_roots(scene: &Scene<'_>, own: &mut [bool])
    requires in_clocks { length scene.now.clocks.now ≡ length own.old }
    requires demanded { (i : ℕ) → slice_index_or own.old i false
        ≡ list_any (λ sink. nat_eq (sink_node sink) i) scene.now.plan.now.sinks }
    ensures { (other : Setting) (i : ℕ) → i < length own.old
        → slice_index_or own.new i false
        ≡ is_root (setting_over scene.now other) (slice_index_or scene.now.clocks.now i (NodeClock.Main 0)) i }
{
    for i in 0..scene.clocks.len() {
        own[i] = is_own_root(scene, scene.clocks[i], i, own[i]);
    }
}

// Whether node i, in clock `of`, is one that this clock asks for at each instant: a main clock for the nodes of sinks
// (`has_sink`), and a sub-clock for its crossfade's child.
fn is_own_root(scene: &Scene<'_>, of: NodeClock, i: usize, has_sink: bool) -> bool
    requires { has_sink ≡ list_any (λ sink. nat_eq (sink_node sink) i) scene.now.plan.now.sinks }
    ensures { (other : Setting) → result ≡ is_root (setting_over scene.now other) of i }
{
    match of {
        NodeClock::Main(_) => has_sink,
        NodeClock::Sub(k) => child_of(scene.plan.nodes.as_slice(), k) as usize == i,
    }
}
