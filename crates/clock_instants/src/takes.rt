// The takes of a clock's readers at the start of a tick.
ghost use Rattle.std.specs.Prelude.{◌≡◌, ◌<◌, ℕ, false, Some, length, slice_get, OnOk, OnErr};
ghost use Rattle.plan_core.specs.declared.node.Node.{Node as PlanNode};
ghost use Rattle.node_states.specs.States.{Fits};
ghost use Rattle.clock_nodes.specs.Nodes.{AreNodesOf, lies_at};
ghost use Rattle.clock_nodes.specs.Scenes.{IsScene};
ghost use Rattle.clock_nodes.specs.States.{AllFit};
ghost use Rattle.clock_instants.specs.Takes.{HasReader, HaveBegun, HaveTakenSome, IsReader, NodeBegan, NodeTookSome};
ghost use Rattle.clock_instants.specs.Takes.{ReadersAreIn};

use clock_infer::NodeClock;
use clock_nodes::{ClockNodes, Scene};
use frame_core::Taps;
use liq_base::Memory;
use node_states::NodeState;

/// Begins a tick of a clock: lets its readers, in node order, take chunks from their buffers, the taps. Where memory
/// is refused some of these takes were made.
pub fn begin_readers<T: Taps>(
    scene: &Scene<'_>,
    nodes: &ClockNodes,
    clock: NodeClock,
    states: &mut [NodeState],
    taps: &mut T,
) -> Result<(), Memory>
    requires scene { IsScene scene.now }
    requires chains { AreNodesOf scene.now.clocks.now nodes.now }
    requires fit { AllFit scene.now states.old }
    requires readers { ReadersAreIn scene.now.plan.now (T.buffers taps.old) }
    ensures buffers { T.buffers taps.new ≡ T.buffers taps.old }
    ensures same { T.same taps.old taps.new }
    ensures fit { AllFit scene.now states.new }
    ensures others { (i : ℕ) → lies_at scene.now.clocks.now clock i ≡ false
        → slice_get states.new i ≡ slice_get states.old i }
    ensures begun { OnOk result (HaveBegun T.stands scene.now clock states.old states.new taps.old taps.new) }
    ensures stopped { OnErr result (HaveTakenSome T.stands scene.now clock states.old taps.old taps.new) }
    ensures reads { OnErr result (HasReader scene.now.plan.now scene.now.clocks.now clock) }
{
    let mut i = nodes.first(clock);
    while i < scene.clocks.len() {
        take_at(scene, i, &mut states[i], taps)?;
        i = nodes.after(i);
    }
    Ok(())
}

// Lets node i take chunks from its buffer, if it is a reader, at an instant that begins a tick; does nothing for other
// nodes. `taps` gives chunks by the number of the buffer. Where memory is refused some of them may be taken.
fn take_at<T: Taps>(
    scene: &Scene<'_>,
    i: usize,
    state: &mut NodeState,
    taps: &mut T,
) -> Result<(), Memory>
    requires within { i < length scene.now.plan.now.nodes }
    requires readers { ReadersAreIn scene.now.plan.now (T.buffers taps.old) }
    ensures buffers { T.buffers taps.new ≡ T.buffers taps.old }
    ensures same { T.same taps.old taps.new }
    ensures fits { (node : PlanNode) → slice_get scene.now.plan.now.nodes i ≡ Some node
        → Fits scene.now.library.now (length node.children) state.old
        → Fits scene.now.library.now (length node.children) state.new }
    ensures begun { OnOk result (NodeBegan T.stands scene.now i state.old state.new taps.old taps.new) }
    ensures stopped { OnErr result (NodeTookSome T.stands scene.now i state.old taps.old taps.new) }
    ensures reads { OnErr result (IsReader scene.now.plan.now i) }
{
    match scene.plan.nodes.as_slice()[i].op.buffer_read() {
        Some(buffer) => {
            state.take(buffer, taps)?;
            Ok(())
        }
        None => Ok(()),
    }
}
