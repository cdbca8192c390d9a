// What the operators offer and how they go on.
ghost use Rattle.std.specs.Prelude.{◌≡◌, ◌<◌, ◌&&◌, ℕ, List, length, suc, true, false, Some, IsSome, is_some};
ghost use Rattle.std.specs.Prelude.{if◌then◌else◌};
ghost use Rattle.frame_core.specs.Slots.{Slot, slot_at};
ghost use Rattle.op_cross.specs.Crossfade.{cross};
ghost use Rattle.op_cross.specs.States.{position_after, StandsFor};
ghost use Rattle.op_leaf.specs.declared.leaf.Leaf.{Leaf};
ghost use Rattle.op_leaf.specs.Leaves.{leaf_slot};
ghost use Rattle.op_leaf.specs.Standing.{IsPlacedIn};
ghost use Rattle.op_leaf.specs.Readers.{after_cell};
ghost use Rattle.op_select.specs.declared.rule.Picked.{Picked as ThePicked};
ghost use Rattle.op_turn.specs.declared.turn.Turn.{Turn};
ghost use Rattle.op_turn.specs.Turns.{Past, past_given, StandsFor as TurnStandsFor};
ghost use Rattle.stream_meaning.specs.Instants.{picked_part, unpicked};
ghost use Rattle.node_states.specs.States.{LeafStands};

use frame_core::{Cell, Library};
use op_cross::CrossState;
use op_leaf::{LeafState, ReaderState};
use op_select::{Picked, SelectState};
use op_turn::TurnState;
use stream_meaning::Part;

/// Makes the part of a node that does not choose among its children: it offers this slot, and picks no child.
pub fn unpicked(slot: Option<Cell>) -> Part
    ensures { result ≡ unpicked slot }
{
    Part { slot, pick: None }
}

/// Makes the part of a node that chooses: it offers the cell of the child that it picked, and names the child.
/// If it picked none, it offers nothing.
pub fn picked(picked: Option<Picked>) -> Part
    ensures { result ≡ picked_part picked }
{
    match picked {
        None => Part {
            slot: None,
            pick: None,
        },
        Some(picked) => Part {
            slot: Some(picked.cell),
            pick: Some(picked.child),
        },
    }
}

/// Whether a node gives its cell at an instant: something above it demands it, and it offers one.
pub fn gives(part: Part, demanded: bool) -> bool
    ensures { result ≡ (demanded && is_some part.slot) }
{
    demanded && part.slot.is_some()
}

/// What a crossfade offers next, its item; `None` if that is an empty slot, or if later child slots may alter it.
pub fn item(state: &CrossState) -> Option<Cell>
    ensures { (slots : List Slot) (p : ℕ) → StandsFor state.now slots p → p < length (cross state.now.overlap slots)
        → result ≡ slot_at (cross state.now.overlap slots) p }
{
    if state.wants() {
        return None;
    }
    state.offer()
}

/// Moves the state of a leaf, which plays files or a tone, on by one cell, if it gave one.
pub fn step_leaf(state: &mut LeafState, gave: bool, library: &Library)
    requires { IsPlacedIn library.now state.old }
    ensures placed { IsPlacedIn library.now state.new }
    ensures stands { (leaf : Leaf) (given : ℕ) → LeafStands library.now leaf given state.old
        → (gave ≡ true → IsSome (leaf_slot library.now leaf given))
        → LeafStands library.now leaf (if gave then suc given else given) state.new }
{
    if gave {
        state.advance(library);
    }
}

/// Moves a fallback, a switch or a sequence on by an instant: if it `gave`, it keeps which child it used.
/// `pick` is that child's place, and `children` how many there are; without such a child nothing moves.
pub fn step_selection(state: &mut SelectState, gave: bool, pick: Option<u32>, children: usize)
    requires { state.old.children ≡ children }
    ensures children { state.new.children ≡ state.old.children }
    ensures rule { state.new.rule ≡ state.old.rule }
    ensures used { (child : ℕ) → gave ≡ true → pick ≡ Some child → child < children → state.new.last ≡ pick }
    ensures unused { gave ≡ false → state.new ≡ state.old }
{
    if gave
        && let Some(child) = pick
        && (child as usize) < children
    {
        state.advance(child);
    }
}

/// Moves a rotate or a random on, if it `gave`, by the cell that it offered and the child from which it came.
/// Both stand in its `part`; without them nothing moves. It has `children` children.
pub fn step_turn(state: &mut TurnState, gave: bool, part: Part, children: usize)
    requires { state.old.children ≡ children }
    ensures children { state.new.children ≡ state.old.children }
    ensures given { (turn : Turn) (past : Past) (pick : ThePicked) → gave ≡ true → part.pick ≡ Some pick.child
        → part.slot ≡ Some pick.cell
        → pick.child < children → TurnStandsFor turn past state.old
        → TurnStandsFor turn (past_given past pick) state.new }
    ensures stayed { gave ≡ false → state.new ≡ state.old }
{
    if gave
        && let Some(child) = part.pick
        && (child as usize) < children
        && let Some(cell) = part.slot
    {
        state.give(Picked { child, cell });
    }
}

/// Moves a crossfade to its next item, if it `gave` the one it has, or that one is an empty slot.
/// Nothing moves while later slots of the child may still change the item.
pub fn step_crossfade(state: &mut CrossState, gave: bool)
    ensures overlap { state.new.overlap ≡ state.old.overlap }
    ensures stands { (slots : List Slot) (p : ℕ) → StandsFor state.old slots p
        → p < length (cross state.old.overlap slots)
        → StandsFor state.new slots (position_after gave (slot_at (cross state.old.overlap slots) p) p) }
{
    if !state.wants() {
        state.advance(gave);
    }
}

/// Moves the state of the reader of a buffer on by one cell, if it gave one.
pub fn step_reader(state: &mut ReaderState, gave: bool)
    ensures { state.new ≡ (if gave then after_cell state.old else state.old) }
{
    if gave {
        state.advance();
    }
}
