// What changes from instant to instant.
use clock_instants::{Latest, StretchRoom};
use clock_nodes::ClockNodes;
use node_states::{Desk, NodeState, WeekTime};

/// What changes from instant to instant in a clock and in the sub-clocks below it: for each node of the plan its state,
/// and the time of the next instant of its sub-clock, where it is a crossfade; the latest instant of any of the clocks;
/// room for the children of a node; and for stretches the samples of the latest one, and what is kept of the latest
/// instants of all clocks. With the nodes of each clock, which stay.
#[derive(Drop)]
pub struct ClockStates {
    pub states: Vec<NodeState>,
    pub times: Vec<WeekTime>,
    pub latest: Latest,
    pub nodes: ClockNodes,
    pub desk: Desk,
    pub room: StretchRoom,
}
