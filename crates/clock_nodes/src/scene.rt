// What an engine runs over.
use clock_infer::NodeClock;
use frame_core::Library;
use plan_core::Plan;

/// A plan with its files and the clock of each node.
#[derive(Clone, Copy)]
pub struct Scene<'a> {
    pub plan: &'a Plan,
    pub library: &'a Library,
    pub clocks: &'a [NodeClock],
}
