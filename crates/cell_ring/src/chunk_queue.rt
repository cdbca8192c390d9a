// Cells that come in chunks.
ghost use Rattle.std.specs.Prelude.{◌≡◌, ◌+◌, ◌<◌, ◌≤◌, [], ◌++◌, ℕ, true, false, length, map, max, take, drop};
ghost use Rattle.std.specs.Prelude.{slice_get, IfOk};
ghost use Rattle.frame_core.specs.Chunks.{cells_in};
ghost use Rattle.frame_core.specs.MarkRuns.{marks_in};
ghost use Rattle.frame_core.specs.Slots.{goes_on};
ghost use Rattle.cell_ring.specs.Rings.{Ring, spare_cells};
ghost use Rattle.liq_base.specs.declared.limits.TheConstants.{MAX_FRAME};

use crate::cell_ring::{CellRing, slot_in};
use crate::mark_ring::walk_runs;
use frame_core::{Cell, Chunk, MarkRun, mark_at};
use liq_base::Memory;
use std::alloc::Global;
use std::marker::Model;

/// A queue of cells that come in chunks: a ring, and behind it what is left of a chunk for which the ring had no room.
/// Such a chunk is kept as it came, so no call but `new` takes memory, however long a chunk is.
#[derive(Drop)]
pub struct ChunkQueue {
    ring: CellRing,
    spare: Option<Chunk>,
    // How many cells of the spare chunk have gone.
    gone: usize,
}

impl Model for ChunkQueue {
    ghost use Rattle.std.specs.Prelude.{◌++◌, ◌≤◌};
    ghost use Rattle.cell_ring.specs.Rings.{Ring, spare_cells};
    ghost use Rattle.liq_base.specs.declared.limits.TheConstants.{MAX_FRAME};

    ghost Value = { Ring };

    ghost view = { λ q. record { cells = q.ring.cells ++ spare_cells q.spare q.gone; room = q.ring.room } };

    ghost invariant = { λ q. q.gone ≤ MAX_FRAME };
}

impl ChunkQueue {
    /// An empty queue of cells that come in chunks, whose ring has room for `room` cells.
    pub fn new(alloc: Global, room: u32) -> Result<ChunkQueue, Memory>
        ensures { IfOk result (λ queue. queue ≡ record { cells = []; room = room }) }
    {
        let ring = CellRing::new(alloc, room)?;
        Ok(ChunkQueue {
            ring,
            spare: None,
            gone: 0,
        })
    }

    /// How many cells the queue holds, those of the spare chunk among them.
    pub fn len(&self) -> u64
        ensures { result ≡ length self.now.cells }
    {
        let (left, _, _, _) = spare_of(&self.spare, self.gone);
        u64::from(self.ring.len()) + left.len() as u64
    }

    /// The cell at the front, which goes first; `None` if there is none.
    pub fn front(&self) -> Option<Cell>
        ensures { result ≡ slice_get self.now.cells 0 }
    {
        if self.ring.len() > 0 {
            return self.ring.front();
        }
        let (left, right, runs, skip) = spare_of(&self.spare, self.gone);
        slot_in(
            left.first().copied(),
            right.first().copied(),
            mark_at(runs, skip),
        )
    }

    /// How many cells from cell `from` on, at most `most`, have this title and begin no track, up to the first that
    /// does not. The front cell is number 0.
    pub fn inner(&self, title: u32, from: u32, most: u32) -> u32
        ensures inner { (j : ℕ) → j < result → goes_on title (slice_get self.now.cells (from + j)) ≡ true }
        ensures ends { result < most → goes_on title (slice_get self.now.cells (from + result)) ≡ false }
        ensures within { result ≤ most }
    {
        let held = self.ring.len() as usize;
        let here = self.ring.inner(title, from, most);
        let next = from as usize + here as usize;
        if next < held {
            return here;
        }
        let (left, _, runs, skip) = spare_of(&self.spare, self.gone);
        let behind = (next - held).min(left.len()) as u32;
        here + walk_runs(false, title, runs, skip + behind, most - here).count
    }

    /// Appends the cells of a chunk. Before, the queue may hold no more cells than its ring has room for: what is
    /// left of the spare chunk goes into the ring first. A chunk for which there is then no room is kept whole as the
    /// spare one.
    pub fn push(&mut self, chunk: Chunk)
        requires { length self.old.cells ≤ self.old.room }
        ensures { self.new ≡ record { cells = self.old.cells ++ chunk; room = self.old.room } }
    {
        let (left, right, runs, skip) = spare_of(&self.spare, self.gone);
        self.ring.push_cells(left, right, runs, skip);
        self.gone = 0;
        let wanted = u64::from(self.ring.len()) + u64::from(chunk.len());
        if wanted <= u64::from(self.ring.room()) {
            self.spare = None;
            self.ring
                .push_cells(chunk.left(), chunk.right(), chunk.runs(), 0);
        } else {
            self.spare = Some(chunk);
        }
    }

    /// Drops the cell at the front, if there is one: of the ring, or where that is empty, of the spare chunk, whose
    /// cells that went are only counted.
    pub fn pop(&mut self)
        ensures { self.new ≡ record { cells = drop 1 self.old.cells; room = self.old.room } }
    {
        if self.ring.len() > 0 {
            self.ring.pop();
            return;
        }
        let (left, _, _, _) = spare_of(&self.spare, self.gone);
        if left.len() > 0 {
            self.gone += 1;
        }
    }

    /// Takes the cells at the front, as many as the slices are long, and writes their samples into the slices: first
    /// those of the ring, then those of the spare chunk behind it.
    pub fn take_into(&mut self, left: &mut [i16], right: &mut [i16])
        requires same { length right.old ≡ length left.old }
        requires there { length left.old ≤ length self.old.cells }
        ensures left { left.new ≡ map (λ cell. cell.left) (take (length left.old) self.old.cells) }
        ensures right { right.new ≡ map (λ cell. cell.right) (take (length left.old) self.old.cells) }
        ensures rest { self.new ≡ record { cells = drop (length left.old) self.old.cells; room = self.old.room } }
    {
        let first = (self.ring.len() as usize).min(left.len());
        let (left_front, left_back) = left.split_at_mut(first);
        let (right_front, right_back) = right.split_at_mut(first);
        self.ring.take_into(left_front, right_front);
        let count = left_back.len();
        let (left_spare, right_spare, _, _) = spare_of(&self.spare, self.gone);
        left_back.copy_from_slice(&left_spare[..count]);
        right_back.copy_from_slice(&right_spare[..count]);
        self.gone += count;
    }
}

// What is left of the spare chunk (the one for which the ring had no room) when `gone` of its cells were taken: its
// left and its right samples, its runs of marks, and how many marks of these have gone.
fn spare_of(spare: &Option<Chunk>, gone: usize) -> (&[i16], &[i16], &[MarkRun], u32)
    ensures cells { cells_in result.0.now result.1.now (drop result.3 (marks_in result.2.now))
        ≡ spare_cells spare.now gone }
    ensures same { (length result.0.now ≡ length (drop result.3 (marks_in result.2.now)))
        × (length result.1.now ≡ length (drop result.3 (marks_in result.2.now))) }
    ensures fits { gone + length result.0.now ≤ max gone MAX_FRAME }
    ensures few { result.3 + length result.0.now ≤ MAX_FRAME }
{
    let Some(chunk) = spare else {
        return (&[], &[], &[], 0);
    };
    let first = gone.min(chunk.len() as usize);
    (
        &chunk.left()[first..],
        &chunk.right()[first..],
        chunk.runs(),
        first as u32,
    )
}
