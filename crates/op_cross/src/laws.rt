// What holds of the settled items of every list of slots.
ghost use Rattle.std.specs.Prelude.{◌≡◌, ◌+◌, ◌*◌, ◌<◌, ◌≤◌, ◌++◌, ℕ, Some, List, length, map, take, drop};
ghost use Rattle.frame_core.specs.Slots.{Slot, slot_at};
ghost use Rattle.op_cross.specs.Crossfade.{cross};
ghost use Rattle.frame_core.specs.declared.cell.Cell.{Cell};
ghost use Rattle.op_cross.specs.States.{AllInner, IsTrack};
ghost use Rattle.op_cross.specs.Runs.{run_of, item_of};

/// Item p of a crossfade's output is settled (no later slot changes it) once 2p + 2 * overlap + 2 slots of its source
/// are there. The function does nothing; its contract is the law.
pub fn settled_in_time()
    ensures many { (overlap : ℕ) (slots : List Slot) (p : ℕ) → 2 * p + 2 * overlap + 2 ≤ length slots
        → p < length (cross overlap slots) }
{}

/// Slots that come later leave the settled items of a crossfade's output as they are. The function does nothing; its
/// contract is the law.
pub fn settled_items_stay()
    ensures begins { (overlap : ℕ) (slots more : List Slot)
        → take (length (cross overlap slots)) (cross overlap (slots ++ more)) ≡ cross overlap slots }
{}

/// A crossfade's source that runs only until item p is settled has run the least number of slots that settle it. The
/// function does nothing; its contract is the law.
pub fn least_run()
    ensures run { (overlap : ℕ) (slots : ℕ → List Slot) (p filled : ℕ) → ((m : ℕ) → length (slots m) ≡ m)
        → p < length (cross overlap (slots filled)) →
        ((m : ℕ) → m < filled → length (cross overlap (slots m)) ≤ p) → run_of overlap slots p ≡ filled }
    ensures item { (overlap : ℕ) (slots : ℕ → List Slot) (p filled : ℕ) → ((m : ℕ) → length (slots m) ≡ m)
        → p < length (cross overlap (slots filled)) →
        ((m : ℕ) → m < filled → length (cross overlap (slots m)) ≤ p)
        → item_of overlap slots p ≡ slot_at (cross overlap (slots filled)) p }
{}

/// Where as many cells of a track are held back as overlap, each further cell of the track settles one item of a
/// crossfade. The function does nothing; its contract is the law.
pub fn track_goes_on()
    ensures goes_on { (overlap : ℕ) (cells r : List Cell) (more : List Slot) → IsTrack r → AllInner cells
        → length r ≡ overlap → 0 < overlap →
        cross overlap (map Some (r ++ cells) ++ more)
        ≡ map Some (take (length cells) (r ++ cells))
        ++ cross overlap (map Some (drop (length cells) (r ++ cells)) ++ more) }
{}
