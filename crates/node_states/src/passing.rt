// A run of a crossfade through which the cells of its child pass.
ghost use Rattle.std.specs.Prelude.{◌≡◌, ◌≤◌, ◌+◌, ◌++◌, ℕ, List, Some, true, map, take, drop, length, slice_get};
ghost use Rattle.frame_core.specs.Slots.{Slot, slot_left, slot_right};
ghost use Rattle.op_cross.specs.Crossfade.{cross};
ghost use Rattle.op_cross.specs.States.{StandsFor, passes};
ghost use Rattle.node_states.specs.Passing.{cells_before};

use op_cross::CrossState;
use op_mix::{Before, samples_of};

/// Lets as many cells of a crossfade's one child pass through it as `left` is long.
/// The child's samples are taken from those of the nodes `before` it; as many items go to `left` and `right`.
/// The cells have this title and go on with the track that the crossfade holds. Without a child nothing is written.
pub fn pass_child(
    state: &mut CrossState,
    title: u32,
    children: &[u32],
    before: &Before<'_>,
    left: &mut [i16],
    right: &mut [i16],
)
    requires passes { passes state.old ≡ true }
    requires same { length right.old ≡ length left.old }
    requires short { length left.old ≤ 2048 }
    ensures overlap { (child : ℕ) → slice_get children.now 0 ≡ Some child → state.new.overlap ≡ state.old.overlap }
    ensures stands { (child p : ℕ) (slots : List Slot) → slice_get children.now 0 ≡ Some child
        → StandsFor state.old slots p
        → StandsFor state.new (slots
        ++ map Some (cells_before title before.now child (length left.old))) (p + length left.old) }
    ensures least { (child p m : ℕ) (slots : List Slot) → slice_get children.now 0 ≡ Some child
        → StandsFor state.old slots p → m ≤ length left.old
        → length (cross state.old.overlap (slots
        ++ map Some (take m (cells_before title before.now child (length left.old))))) ≡ p + m }
    ensures left { (child p : ℕ) (slots : List Slot) → slice_get children.now 0 ≡ Some child
        → StandsFor state.old slots p
        → left.new ≡ map slot_left (take (length left.old) (drop p (cross state.old.overlap (slots
        ++ map Some (cells_before title before.now child (length left.old)))))) }
    ensures right { (child p : ℕ) (slots : List Slot) → slice_get children.now 0 ≡ Some child
        → StandsFor state.old slots p
        → right.new ≡ map slot_right (take (length left.old) (drop p (cross state.old.overlap (slots
        ++ map Some (cells_before title before.now child (length left.old)))))) }
{
    let Some(child) = children.get(0) else {
        return;
    };
    let count = left.len();
    state.pass(
        title,
        samples_of(before.left, *child, count),
        samples_of(before.right, *child, count),
        left,
        right,
    );
}
