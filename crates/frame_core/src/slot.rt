// Slots.
ghost use Rattle.std.specs.Prelude.{◌≡◌};
ghost use Rattle.frame_core.specs.Slots.{goes_on, title_of};

use crate::Cell;

/// The title of a slot's cell, which is that of its track; 0 for an empty slot. A slot is what a source has at an
/// instant: a cell or nothing.
pub fn title_of(slot: Option<Cell>) -> u32
    ensures { result ≡ title_of slot }
{
    match slot {
        Some(cell) => cell.title,
        None => 0,
    }
}

/// Whether a slot goes on with the track of this title: it has a cell of that title, at which no track begins. False
/// for an empty slot.
pub fn goes_on(title: u32, slot: Option<Cell>) -> bool
    ensures { result ≡ goes_on title slot }
{
    match slot {
        Some(cell) => !cell.first && cell.title == title,
        None => false,
    }
}
