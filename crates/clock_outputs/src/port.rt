// An output of a clock.
ghost use Rattle.std.specs.Prelude.{◌≡◌, ◌<◌, ℕ, suc, Some, None, length, map, replicate};
ghost use Rattle.cell_ring.specs.Rings.{inner_cells};
ghost use Rattle.clock_outputs.specs.Segments.{segment_slots};
ghost use Rattle.clock_outputs.specs.Ports.{HasRoomLeft, after_slots, emptied};

use crate::Piece;
use frame_core::Cell;
use liq_base::Kind;

/// An output of a clock: its number among the sinks of the plan, its node, and the bytes of the tick so far.
#[derive(Debug, Drop)]
pub struct Port {
    pub sink: u32,
    pub node: u32,
    pub kind: Kind,

    /// Whether its samples have three bytes, and not two.
    pub wide: bool,
    pub piece: Piece,

    /// At how many instants its node offered nothing, those of the tick so far among them.
    pub gaps: u64,

    /// At how many instants of the ticks before this one its node offered nothing.
    pub gaps_before: u64,
}

impl Port {
    // Begins a tick: the output has no bytes yet, and its gaps so far are those before the tick.
    fn begin(&mut self)
        ensures { self.new ≡ emptied self.old }
    {
        self.piece.clear();
        self.gaps_before = self.gaps;
    }

    /// Takes the slots of its node in a segment, which is an instant and a run of further ones: the slot of the first
    /// instant, and then cells with these samples, which begin no track; or as many empty slots if the first is empty.
    pub fn hear(&mut self, slot: Option<Cell>, left: &[i16], right: &[i16])
        requires same { length right.now ≡ length left.now }
        requires room { HasRoomLeft (suc (length left.now)) self.old }
        ensures { self.new ≡ after_slots self.old (segment_slots slot (length left.now) left.now right.now) }
    {
        match slot {
            Some(cell) => {
                self.hear_cells(&[cell.left], &[cell.right]);
                self.hear_cells(left, right);
            }
            None => self.hear_gaps(1 + left.len()),
        }
    }

    // Takes cells with these samples, whatever their title is.
    fn hear_cells(&mut self, left: &[i16], right: &[i16])
        requires same { length right.now ≡ length left.now }
        requires room { HasRoomLeft (length left.now) self.old }
        ensures { (title : ℕ) → self.new ≡ after_slots self.old (map Some (inner_cells title left.now right.now)) }
    {
        self.piece.add_cells(self.wide, self.kind, left, right);
    }

    // Takes `count` slots without a cell, at least one: zeros are their bytes, and each counts as a gap.
    fn hear_gaps(&mut self, count: usize)
        requires some { 0 < count }
        requires room { HasRoomLeft count self.old }
        ensures { self.new ≡ after_slots self.old (replicate count None) }
    {
        self.piece.add_gaps(self.wide, self.kind, count);
        self.gaps = self.gaps.saturating_add(count as u64);
    }
}

/// Begins a tick: no output has bytes yet.
pub fn begin_tick(ports: &mut Vec<Port>)
    ensures { ports.new.items ≡ map emptied ports.old.items }
{
    for k in 0..ports.len() {
        ports[k].begin();
    }
}
