// Which nodes of a clock are demanded of themselves.
ghost use Rattle.std.specs.Prelude.{◌≡◌, ◌<◌, ◌&&◌, ℕ, false, length, slice_index_or};
ghost use Rattle.clock_nodes.specs.Nodes.{AreNodesOf, lies_at};

use clock_infer::NodeClock;
use clock_nodes::{ClockNodes, Scene};

/// Begins the search for what is demanded: sets in `demanded`, where none is set, the nodes of a clock that are
/// demanded of themselves, by a sink or as a crossfade's child. `own` says so of each node in its own clock.
pub fn demand_roots(
    scene: &Scene<'_>,
    nodes: &ClockNodes,
    clock: NodeClock,
    own: &[bool],
    demanded: &mut [bool],
)
    requires chains { AreNodesOf scene.now.clocks.now nodes.now }
    requires in_own { length own.now ≡ length scene.now.clocks.now }
    requires in_demanded { length demanded.old ≡ length scene.now.clocks.now }
    requires none { (j : ℕ) → slice_index_or demanded.old j false ≡ false }
    ensures roots { (j : ℕ) → j < length scene.now.clocks.now
        → slice_index_or demanded.new j false ≡ (lies_at scene.now.clocks.now clock j
        && slice_index_or own.now j false) }
    ensures others { (j : ℕ) → lies_at scene.now.clocks.now clock j ≡ false
        → slice_index_or demanded.new j false ≡ false }
{
    let mut i = nodes.first(clock);
    while i < scene.clocks.len() {
        demanded[i] = own[i];
        i = nodes.after(i);
    }
}
