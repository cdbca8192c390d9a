// What the nodes of a clock gave at its latest instant.
ghost use Rattle.std.specs.Prelude.{◌≡◌, ◌<◌, ℕ, true, false, length, slice_index_or};
ghost use Rattle.stream_meaning.specs.Instants.{part_at};
ghost use Rattle.clock_instants.specs.Held.{given_by};
ghost use Rattle.clock_nodes.specs.Nodes.{AreNodesOf, lies_at};

use clock_infer::NodeClock;
use clock_nodes::{ClockNodes, Scene};
use node_states::gives;
use stream_meaning::Part;

/// Writes to `held` what each node of a clock gave at an instant: its part, what it offers and picks, if it was
/// demanded and offers a cell, and otherwise silence. Nodes of other clocks keep what is held of them.
pub fn hold(
    scene: &Scene<'_>,
    nodes: &ClockNodes,
    clock: NodeClock,
    parts: &[Part],
    demanded: &[bool],
    held: &mut [Part],
)
    requires chains { AreNodesOf scene.now.clocks.now nodes.now }
    requires in_parts { length parts.now ≡ length scene.now.clocks.now }
    requires in_demanded { length demanded.now ≡ length scene.now.clocks.now }
    requires in_held { length held.old ≡ length scene.now.clocks.now }
    ensures given { (i : ℕ) → i < length scene.now.clocks.now → lies_at scene.now.clocks.now clock i ≡ true
        → part_at held.new i ≡ given_by (slice_index_or demanded.now i false) (part_at parts.now i) }
    ensures kept { (i : ℕ) → lies_at scene.now.clocks.now clock i ≡ false → part_at held.new i ≡ part_at held.old i }
{
    let mut i = nodes.first(clock);
    while i < scene.clocks.len() {
        held[i] = given(parts[i], demanded[i]);
        i = nodes.after(i);
    }
}

// What a node gave at an instant: its part, if it was demanded and offers a cell, and otherwise silence.
fn given(part: Part, demanded: bool) -> Part
    ensures { result ≡ given_by demanded part }
{
    if gives(part, demanded) {
        return part;
    }
    Part {
        slot: None,
        pick: None,
    }
}
