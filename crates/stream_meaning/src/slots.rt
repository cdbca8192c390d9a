// The slot of a node, by what all nodes do.
ghost use Rattle.std.specs.Prelude.{◌≡◌};
ghost use Rattle.stream_meaning.specs.Instants.{part_at};

use crate::part::Part;
use frame_core::Cell;

/// What a node offers at an instant, a cell or nothing, by the parts of all nodes then; nothing where there is none of
/// this number.
pub fn slot_of(parts: &[Part], node: u32) -> Option<Cell>
    ensures { result ≡ (part_at parts.now node).slot }
{
    match parts.get(node as usize) {
        Some(part) => part.slot,
        None => None,
    }
}
