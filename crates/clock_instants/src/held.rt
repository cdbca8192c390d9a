// The title of what the child of a crossfade gave last.
ghost use Rattle.std.specs.Prelude.{◌≡◌, slice_index_or};
ghost use Rattle.frame_core.specs.Slots.{title_of};
ghost use Rattle.stream_meaning.specs.Instants.{crossfaded, part_at};

use frame_core::title_of;
use plan_core::Node;
use stream_meaning::{Part, slot_of};

/// The title of the cell that the child of crossfade k gave last, by `held`, which has what each node gave; 0 if it
/// gave none.
pub fn title_below(nodes: &[Node], held: &[Part], k: usize) -> u32
    ensures { result ≡ title_of (part_at held.now (crossfaded nodes.now k)).slot }
{
    title_of(slot_of(held, child_of(nodes, k)))
}

// The number of the one child of crossfade k; 0 if it has none, or if no node has the number k.
fn child_of(nodes: &[Node], k: usize) -> u32
    ensures { result ≡ crossfaded nodes.now k }
{
    match nodes.get(k) {
        Some(node) => first_of(node.children.as_slice()),
        None => 0,
    }
}

// The first of a node's children, by their numbers, or 0 without any.
fn first_of(numbers: &[u32]) -> u32
    ensures { result ≡ slice_index_or numbers.now 0 0 }
{
    match numbers.get(0) {
        Some(number) => *number,
        None => 0,
    }
}
