// The latest instant of a clock: what its nodes did, and how the next one is made once its crossfades are settled.
ghost use Rattle.std.specs.Prelude.{◌≡◌, ℕ, false, length, slice_get, slice_index_or};
ghost use Rattle.stream_meaning.specs.Instants.{part_at, silent};
ghost use Rattle.clock_instants.specs.Finishing.{CanMakeNext, InstantFinished};
ghost use Rattle.clock_nodes.specs.Nodes.{AreNodesOf, lies_at};
ghost use Rattle.clock_instants.specs.Instants.{IsLatest};
ghost use Rattle.clock_nodes.specs.States.{AllFit};

use crate::demand::find_demanded;
use crate::holding::hold;
use crate::offers::make_parts;
use crate::roots::demand_roots;
use clock_infer::NodeClock;
use clock_nodes::{ClockNodes, Scene, advance_all};
use fixed_text::WeekSecond;
use node_states::{Desk, NodeState};
use stream_meaning::Part;

/// The latest instant that was made: of which clock, what each node of the plan did, and who was demanded. Nodes of
/// other clocks do nothing at it, and are not demanded.
#[derive(Drop)]
pub struct Latest {
    pub clock: NodeClock,
    pub parts: Vec<Part>,
    pub demanded: Vec<bool>,
}

impl Latest {
    /// Makes one instant of a clock, in second `at` of the week, once the items of its crossfades are settled. It
    /// becomes the latest instant, the states of the clock's nodes move on, and `held` has what they gave. `own` says
    /// of each node whether its own clock demands it of itself, and `desk` has room for the children of a node. Of
    /// nodes of other clocks only those are looked at whose clock made the latest instant before. Whatever instants the
    /// states stood for, they stand for one more.
    pub fn finish_instant(
        &mut self,
        scene: &Scene<'_>,
        nodes: &ClockNodes,
        clock: NodeClock,
        at: WeekSecond,
        own: &[bool],
        states: &mut [NodeState],
        held: &mut [Part],
        desk: &mut Desk,
    )
        requires { CanMakeNext scene.now nodes.now own.now self.old states.old held.old desk.old }
        ensures room { desk.new ≡ desk.old }
        ensures latest { IsLatest scene.now.clocks.now self.new }
        ensures fit { AllFit scene.now states.new }
        ensures others { (i : ℕ) → lies_at scene.now.clocks.now clock i ≡ false
            → slice_get states.new i ≡ slice_get states.old i }
        ensures kept { (i : ℕ) → lies_at scene.now.clocks.now clock i ≡ false
            → part_at held.new i ≡ part_at held.old i }
        ensures finished { InstantFinished scene.now own.now clock at.second states.old states.new self.new.parts.items
            held.new }
    {
        clear(
            scene,
            nodes,
            self.clock,
            &mut self.parts,
            &mut self.demanded,
        );
        self.clock = clock;
        make_parts(scene, nodes, clock, states, at, &mut self.parts, desk);
        demand_roots(scene, nodes, clock, own, &mut self.demanded);
        find_demanded(scene, nodes, clock, &self.parts, &mut self.demanded);
        hold(scene, nodes, clock, &self.parts, &self.demanded, held);
        advance_all(scene, nodes, clock, &self.parts, &self.demanded, states);
    }
}

// Forgets an instant of a clock: makes the parts of its nodes silent in `parts`, and sets in `demanded` that none of
// them is demanded. Nodes of other clocks are so already.
fn clear(
    scene: &Scene<'_>,
    nodes: &ClockNodes,
    clock: NodeClock,
    parts: &mut [Part],
    demanded: &mut [bool],
)
    requires chains { AreNodesOf scene.now.clocks.now nodes.now }
    requires in_parts { length parts.old ≡ length scene.now.clocks.now }
    requires in_demanded { length demanded.old ≡ length scene.now.clocks.now }
    requires parts { (j : ℕ) → lies_at scene.now.clocks.now clock j ≡ false → part_at parts.old j ≡ silent }
    requires demanded { (j : ℕ) → lies_at scene.now.clocks.now clock j ≡ false
        → slice_index_or demanded.old j false ≡ false }
    ensures parts { (j : ℕ) → part_at parts.new j ≡ silent }
    ensures demanded { (j : ℕ) → slice_index_or demanded.new j false ≡ false }
{
    let mut i = nodes.first(clock);
    while i < scene.clocks.len() {
        parts[i] = Part {
            slot: None,
            pick: None,
        };
        demanded[i] = false;
        i = nodes.after(i);
    }
}
