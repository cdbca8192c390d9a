// Room for the stretches of a plan's nodes.
ghost use Rattle.std.specs.Prelude.{◌≡◌, ◌≤◌, ℕ, Some, length, slice_get, slice_index_or, IfOk};
ghost use Rattle.liq_base.specs.declared.limits.TheConstants.{MAX_NODES};
ghost use Rattle.op_mix.specs.Stretches.{samples_of};
ghost use Rattle.node_states.specs.declared.state.NodeState.{NodeState as State};
ghost use Rattle.node_states.specs.declared.state.NodeState.TheVariants.{Idle};
ghost use Rattle.clock_instants.specs.Stretches.{HasLanes, HasStretchRoom, HaveLanes, IsSpare};

use liq_base::Memory;
use node_states::NodeState;
use op_mix::{MAX_STRETCH, Sums, samples_of};
use std::alloc::Global;
use stream_meaning::Part;

/// What the stretches of a plan's nodes need: the samples of each node that is driven, as many as a stretch has at
/// most; room for a sum; and what is kept from instant to instant.
#[derive(Drop)]
pub struct StretchRoom {
    /// By node: its left samples in the latest stretch; empty for a node that is idle.
    pub left: Vec<Vec<i16>>,

    /// By node: its right samples in the latest stretch; empty for a node that is idle.
    pub right: Vec<Vec<i16>>,

    /// Room for the samples of the next node.
    pub spare: Spare,

    /// By node: its part at the latest instant of its own clock, if it gave.
    pub held: Vec<Part>,

    /// By crossfade: how many instants of its sub-clock go on as the latest one did.
    pub rests: Vec<u32>,

    /// Room for what the nodes of the clock that goes on gave.
    pub parts: Vec<Part>,
}

/// Room in which the samples of a node are made, as many as a stretch has at most.
#[derive(Drop)]
pub struct Spare {
    pub left: Vec<i16>,
    pub right: Vec<i16>,
    pub sums: Sums,
}

impl Spare {
    /// Room for the samples of one node in any stretch (instants made at once). No later call takes memory.
    pub fn new(alloc: Global) -> Result<Spare, Memory>
        ensures { IfOk result IsSpare }
    {
        let left = vec![in alloc; 0; MAX_STRETCH as usize]?;
        let right = vec![in alloc; 0; MAX_STRETCH as usize]?;
        let sums = Sums::new(alloc)?;
        Ok(Spare { left, right, sums })
    }
}

impl StretchRoom {
    /// Room for the nodes of which these are the states, `4 * MAX_STRETCH` bytes for each that is not idle. No later
    /// call takes memory.
    pub fn new(alloc: Global, states: &[NodeState]) -> Result<StretchRoom, Memory>
        requires { length states.now ≤ MAX_NODES }
        ensures room { IfOk result (HasStretchRoom (length states.now)) }
        ensures laned { IfOk result (λ room. (i : ℕ) (state : State) → slice_get states.now i ≡ Some state
            → (state ≡ Idle → ⊥) → HasLanes room.left.items room.right.items i) }
        ensures none { IfOk result (λ room. (i : ℕ) → slice_index_or room.rests.items i 0 ≡ 0) }
    {
        let left = lanes_of(alloc, states)?;
        let right = lanes_of(alloc, states)?;
        let spare = Spare::new(alloc)?;
        let none = Part {
            slot: None,
            pick: None,
        };
        let held = vec![in alloc; none; states.len()]?;
        let rests = vec![in alloc; 0; states.len()]?;
        let parts = vec![in alloc; none; states.len()]?;
        Ok(StretchRoom {
            left,
            right,
            spare,
            held,
            rests,
            parts,
        })
    }

    /// The left samples of a node in the latest stretch, which had `count` instants: silence of a node that is idle.
    pub fn left_of(&self, node: u32, count: usize) -> &[i16]
        requires short { count ≤ 2048 }
        ensures is { result.now ≡ samples_of self.now.left.items node count }
        ensures long { length result.now ≡ count }
    {
        samples_of(&self.left, node, count)
    }

    /// The right samples of a node in the latest stretch, which had `count` instants: silence of a node that is idle.
    pub fn right_of(&self, node: u32, count: usize) -> &[i16]
        requires short { count ≤ 2048 }
        ensures is { result.now ≡ samples_of self.now.right.items node count }
        ensures long { length result.now ≡ count }
    {
        samples_of(&self.right, node, count)
    }
}

// Room for the samples of one side: a lane (a list of samples) for each node, with zeros for any stretch, and empty
// where the node is idle.
fn lanes_of(alloc: Global, states: &[NodeState]) -> Result<Vec<Vec<i16>>, Memory>
    ensures { IfOk result (λ lanes. HaveLanes states.now (length states.now) lanes.items) }
{
    let mut lanes = Vec::with_capacity(alloc, states.len())?;
    for i in 0..states.len() {
        lanes.push(lane_for(alloc, &states[i])?)?;
    }
    Ok(lanes)
}

// The lane of a node, its list of samples of one side: `MAX_STRETCH` samples, all of them 0; empty where the node is
// idle.
fn lane_for(alloc: Global, state: &NodeState) -> Result<Vec<i16>, Memory>
    ensures { IfOk result (λ lane. (state.now ≡ Idle → ⊥) → length lane.items ≡ 2048) }
{
    match state {
        NodeState::Idle => Ok(Vec::new(alloc)),
        _ => {
            let lane = vec![in alloc; 0; MAX_STRETCH as usize]?;
            Ok(lane)
        }
    }
}
