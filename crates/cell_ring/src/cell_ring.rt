// A ring of cells.
ghost use Rattle.std.specs.Prelude.{◌≡◌, ◌+◌, ◌<◌, ◌≤◌, ◌^◌, [], ◌∷◌, ◌++◌, ℕ, true, false, length, map, take, drop};
ghost use Rattle.std.specs.Prelude.{slice_get, IfOk};
ghost use Rattle.frame_core.specs.Chunks.{cells_in};
ghost use Rattle.frame_core.specs.MarkRuns.{marks_in};
ghost use Rattle.frame_core.specs.Slots.{goes_on};
ghost use Rattle.cell_ring.specs.Rings.{Ring, has_title, inner_cells};
ghost use Rattle.cell_ring.specs.Lanes.{slot_in};

use crate::mark_ring::MarkRing;
use crate::side_ring::SideRing;
use circular_buffer::HeapCircularBuffer;
use frame_core::{Cell, CellMark, MarkRun};
use liq_base::Memory;
use std::alloc::Global;
use std::marker::Model;

/// A queue of cells, which is reserved when it is made; no other call takes memory. Samples are kept apart from marks,
/// and of these runs of one title. A right side that is silent takes no room.
#[derive(Drop)]
pub struct CellRing {
    left: HeapCircularBuffer<i16>,
    right: SideRing,
    marks: MarkRing,
}

impl Model for CellRing {
    ghost use Rattle.std.specs.Prelude.{◌≡◌, ◌<◌, ◌≤◌, ◌^◌, length};
    ghost use Rattle.cell_ring.specs.Rings.{Ring};
    ghost use Rattle.frame_core.specs.Chunks.{cells_in};

    ghost Value = { Ring };

    ghost view = { λ r. record { cells = cells_in r.left.items r.right.items r.marks.items; room = r.marks.capacity } };

    ghost invariant = { λ r. (length r.left.items ≡ length r.marks.items)
        × (length r.right.items ≡ length r.marks.items)
        × (r.left.capacity ≡ r.marks.capacity) × (r.right.capacity ≡ r.marks.capacity)
        × (length r.marks.items ≤ r.marks.capacity) × (r.marks.capacity < 2 ^ 32) };
}

impl CellRing {
    /// An empty ring (a bounded queue of cells), with room for `room` cells.
    pub fn new(alloc: Global, room: u32) -> Result<CellRing, Memory>
        ensures { IfOk result (λ ring. ring ≡ record { cells = []; room = room }) }
    {
        let left = HeapCircularBuffer::with_capacity(alloc, room as usize)?;
        let right = SideRing::new(alloc, room as usize)?;
        let marks = MarkRing::new(alloc, room)?;
        Ok(CellRing { left, right, marks })
    }

    /// How many cells the ring holds.
    pub fn len(&self) -> u32
        ensures len { result ≡ length self.now.cells }
        ensures within { result ≤ self.now.room }
    {
        self.left.len() as u32
    }

    /// How many cells the ring has room for in all.
    pub fn room(&self) -> u32
        ensures { result ≡ self.now.room }
    {
        self.left.capacity() as u32
    }

    /// The cell at the front, which goes first; `None` if there is none.
    pub fn front(&self) -> Option<Cell>
        ensures { result ≡ slice_get self.now.cells 0 }
    {
        slot_in(
            self.left.front().copied(),
            self.right.front(),
            self.marks.front(),
        )
    }

    /// How many cells from cell `from` on, at most `most`, have this title and begin no track, up to the first that
    /// does not. The front cell is number 0.
    pub fn inner(&self, title: u32, from: u32, most: u32) -> u32
        ensures inner { (j : ℕ) → j < result → goes_on title (slice_get self.now.cells (from + j)) ≡ true }
        ensures ends { result < most → goes_on title (slice_get self.now.cells (from + result)) ≡ false }
        ensures within { result ≤ most }
    {
        self.marks.inner(title, from, most)
    }

    /// How many cells from cell `from` on, at most `most`, have this title, up to the first that has not. The front
    /// cell is number 0.
    pub fn titled(&self, title: u32, from: u32, most: u32) -> u32
        ensures titled { (j : ℕ) → j < result → has_title title (slice_get self.now.cells (from + j)) ≡ true }
        ensures ends { result < most → has_title title (slice_get self.now.cells (from + result)) ≡ false }
        ensures within { result ≤ most }
    {
        self.marks.titled(title, from, most)
    }

    /// Appends a cell at the back, for which there has to be room.
    pub fn push(&mut self, cell: Cell)
        requires { length self.old.cells < self.old.room }
        ensures { self.new ≡ record { cells = self.old.cells ++ cell ∷ []; room = self.old.room } }
    {
        self.left.push_back(cell.left);
        self.right.push_all(&[cell.right]);
        self.marks.push(cell.first, cell.title, 1);
    }

    /// Appends cells at the back, given as lists side by side: their left and right samples, and the runs of their
    /// marks, without the first `skip` marks.
    pub(crate) fn push_cells(&mut self, left: &[i16], right: &[i16], runs: &[MarkRun], skip: u32)
        requires same { (length left.now ≡ length (drop skip (marks_in runs.now)))
            × (length right.now ≡ length (drop skip (marks_in runs.now))) }
        requires there { length self.old.cells + length left.now ≤ self.old.room }
        ensures { self.new ≡ record {
          cells = self.old.cells ++ cells_in left.now right.now (drop skip (marks_in runs.now));
          room = self.old.room;
        } }
    {
        self.left.extend_from_slice(left);
        self.right.push_all(right);
        self.marks.push_all(runs, skip);
    }

    /// Appends cells in the middle of a track at the back, given by their samples: all have this title, and none
    /// begins a track.
    pub fn push_inner(&mut self, title: u32, left: &[i16], right: &[i16])
        requires same { length right.now ≡ length left.now }
        requires there { length self.old.cells + length left.now ≤ self.old.room }
        ensures { self.new ≡ record {
          cells = self.old.cells ++ inner_cells title left.now right.now;
          room = self.old.room;
        } }
    {
        self.left.extend_from_slice(left);
        self.right.push_all(right);
        self.marks.push(false, title, left.len() as u32);
    }

    /// Drops the cell at the front, if there is one.
    pub fn pop(&mut self)
        ensures { self.new ≡ record { cells = drop 1 self.old.cells; room = self.old.room } }
    {
        self.left.pop_front();
        self.right.pop();
        self.marks.drop_front(1);
    }

    /// Takes the cells at the front, as many as the slices are long, and writes their samples into the slices.
    pub fn take_into(&mut self, left: &mut [i16], right: &mut [i16])
        requires same { length right.old ≡ length left.old }
        requires there { length left.old ≤ length self.old.cells }
        ensures left { left.new ≡ map (λ cell. cell.left) (take (length left.old) self.old.cells) }
        ensures right { right.new ≡ map (λ cell. cell.right) (take (length left.old) self.old.cells) }
        ensures rest { self.new ≡ record { cells = drop (length left.old) self.old.cells; room = self.old.room } }
    {
        let count = left.len();
        self.left.read_into(left);
        self.right.take_into(right);
        self.marks.drop_front(count as u32);
    }
}

// The cell of a left sample, a right sample and a mark (title, and whether a track begins); `None` where one of the
// three is missing.
pub(crate) fn slot_in(left: Option<i16>, right: Option<i16>, mark: Option<CellMark>) -> Option<Cell>
    ensures { result ≡ slot_in left right mark }
{
    let left = left?;
    let right = right?;
    let mark = mark?;
    Some(Cell {
        left,
        right,
        first: mark.first,
        title: mark.title,
    })
}
