//! What the definitions of turns imply. Each law is the contract of a function without a body.
ghost use Rattle.std.specs.Prelude.{◌≡◌, List, Some, is_some};
ghost use Rattle.std.specs.List.{list_any};
ghost use Rattle.frame_core.specs.Slots.{Slot};
ghost use Rattle.op_select.specs.declared.rule.Picked.{Picked};
ghost use Rattle.op_turn.specs.declared.turn.Turn.{Turn};
ghost use Rattle.op_turn.specs.Turns.{offered, Past, past_behind, past_given};

/// A law: a rotate or a random marks a cell as the first of a track exactly where its child was newly chosen, so what
/// it gave tells its later choices.
pub fn marked_cells_are_choices()
    ensures { (turn : Turn) (past : Past) (slots : List Slot) (pick : Picked) → Some pick ≡ offered turn past slots
        → past_behind turn past slots ≡ past_given past pick }
{}

/// A law: a rotate or a random offers nothing exactly where no child offers.
pub fn some_child_is_used()
    ensures { (turn : Turn) (past : Past) (slots : List Slot)
        → is_some (offered turn past slots) ≡ list_any is_some slots }
{}
