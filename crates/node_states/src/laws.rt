// Laws of what states stand for. Each is a contract of a function that does nothing.
ghost use Rattle.std.specs.Prelude.{ℕ, List};
ghost use Rattle.frame_core.specs.Slots.{Slot};
ghost use Rattle.stream_meaning.specs.Instants.{Setting, IsMeaning};
ghost use Rattle.node_states.specs.States.{AreLong};

/// The first m slots of a crossfade's sub-clock are a list of m: an instant adds one slot.
pub fn slots_are_as_many()
    ensures { (setting : Setting) (sub : ℕ → ℕ → List Slot) → IsMeaning setting sub → AreLong sub }
{}
