// The main clocks of nodes.
ghost use Rattle.std.specs.Prelude.{◌≡◌, slice_index_or};
ghost use Rattle.stream_meaning.specs.Instants.{Setting};
ghost use Rattle.run_records.specs.Buffers.{main_of, main_within};

use clock_infer::{ClockMap, NodeClock};
use plan_core::Plan;

/// The number of the main clock to which the clock of a node belongs. A node in a crossfade has a sub-clock, so it is
/// sought from crossfade to crossfade outwards until one has a main clock. The steps are bounded by the count of nodes,
/// past which it is 0.
pub fn main_of(plan: &Plan, clocks: &ClockMap, node: u32) -> u32
    ensures { (setting : Setting) → setting.plan ≡ plan.now → setting.clocks ≡ clocks.now.of
        → result ≡ main_of setting node }
{
    let mut clock = clock_at(clocks, node);
    let mut depth = plan.nodes.len();
    while depth > 0 {
        let NodeClock::Sub(crossfade) = clock else {
            return main_number(clock);
        };
        depth -= 1;
        clock = clock_at(clocks, crossfade);
    }
    main_number(clock)
}

// The clock of a node: a main one, or the sub-clock of the crossfade around it; main clock 0 for a node that the map
// does not have.
fn clock_at(clocks: &ClockMap, node: u32) -> NodeClock
    ensures { result ≡ slice_index_or clocks.now.of node (NodeClock.Main 0) }
{
    let clock = clocks.of.as_slice().get(node as usize).copied();
    clock.unwrap_or(NodeClock::Main(0))
}

// The number of a main clock; 0 for a sub-clock.
fn main_number(clock: NodeClock) -> u32
    ensures { (setting : Setting) → result ≡ main_within setting 0 clock }
{
    match clock {
        NodeClock::Main(number) => number,
        NodeClock::Sub(_) => 0,
    }
}
