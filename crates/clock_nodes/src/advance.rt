// The states of a clock's nodes go on by an instant.
ghost use Rattle.std.specs.Prelude.{◌≡◌, ℕ, List, ◌∷◌, false, length, slice_get, slice_index_or};
ghost use Rattle.frame_core.specs.Slots.{Slot as TheSlot};
ghost use Rattle.stream_meaning.specs.Instants.{Setting, Moment, parts_upto, same_clock};
ghost use Rattle.node_states.specs.States.{AreLong};
ghost use Rattle.clock_nodes.specs.Nodes.{AreNodesOf};
ghost use Rattle.clock_nodes.specs.Scenes.{IsScene, setting_over};
ghost use Rattle.clock_nodes.specs.States.{AllFit, AreSettled, ClockStands};

use crate::{ClockNodes, Scene};
use clock_infer::NodeClock;
use node_states::NodeState;
use stream_meaning::Part;

/// Moves the states of all nodes of a clock on by one instant, and leaves the states of all other nodes.
/// By a node's number, `parts` has what it offered there, and `demanded` whether something above it demanded that.
/// `nodes` has the chains of the nodes of each clock.
pub fn advance_all(
    scene: &Scene<'_>,
    nodes: &ClockNodes,
    clock: NodeClock,
    parts: &[Part],
    demanded: &[bool],
    states: &mut [NodeState],
)
    requires scene { IsScene scene.now }
    requires chains { AreNodesOf scene.now.clocks.now nodes.now }
    requires in_parts { length parts.now ≡ length scene.now.plan.now.nodes }
    requires in_demanded { length demanded.now ≡ length scene.now.plan.now.nodes }
    requires fit { AllFit scene.now states.old }
    ensures fit { AllFit scene.now states.new }
    ensures others { (i : ℕ) → same_clock (slice_index_or scene.now.clocks.now i (NodeClock.Main 0)) clock ≡ false
        → slice_get states.new i ≡ slice_get states.old i }
    ensures stand { (setting : Setting) (sub : ℕ → ℕ → List TheSlot) (past : List Moment) (moment : Moment) (filled : ℕ
        → ℕ) →
        let setting = setting_over scene.now setting in
        AreLong sub → ClockStands setting sub clock past filled states.old → AreSettled setting sub clock past filled
        → parts.now ≡ parts_upto setting sub clock past (length scene.now.plan.now.nodes)
        → moment.parts ≡ parts.now → moment.demands ≡ demanded.now
        → ClockStands setting sub clock (moment ∷ past) filled states.new }
{
    let mut i = nodes.first(clock);
    while i < scene.clocks.len() {
        let children = scene.plan.nodes.as_slice()[i].children.len();
        states[i].next(parts[i], demanded[i], scene.library, children);
        i = nodes.after(i);
    }
}
