// The cells of a chunk, which those who hold it share.
ghost use Rattle.std.specs.Prelude.{◌≡◌, ◌<◌, ◌≤◌, length, map, slice_get, IfOk, Some};
ghost use Rattle.frame_core.specs.Frames.{some_list};
ghost use Rattle.frame_core.specs.Chunks.{mark_in};
ghost use Rattle.frame_core.specs.MarkRuns.{marks_in};

use crate::{Cell, Frame, MarkRun, mark_at};
use liq_base::Memory;
use liq_base::limits::MAX_FRAME;
use std::alloc::Global;
use std::marker::Model;

// The cells of one tick, in order: 1 to 65536 of them. Contracts see their list. Samples are kept apart from marks,
// and of these runs of one title.
#[derive(Debug, Drop)]
pub struct Block {
    left: Vec<i16>,
    right: Vec<i16>,
    runs: Vec<MarkRun>,
}

impl Model for Block {
    ghost use Rattle.std.specs.Prelude.{◌≡◌, ◌<◌, ◌≤◌, List, length};
    ghost use Rattle.frame_core.specs.declared.cell.Cell.{Cell};
    ghost use Rattle.frame_core.specs.Chunks.{cells_in};
    ghost use Rattle.frame_core.specs.MarkRuns.{marks_in};
    ghost use Rattle.liq_base.specs.declared.limits.TheConstants.{MAX_FRAME};

    ghost Value = { List Cell };

    ghost view = { λ b. cells_in b.left.items b.right.items (marks_in b.runs.items) };

    // The bounds stand for the list too, since callers go by it.
    ghost invariant = { λ b. (length b.left.items ≡ length (marks_in b.runs.items))
        × (length b.right.items ≡ length (marks_in b.runs.items))
        × (0 < length (marks_in b.runs.items)) × (length (marks_in b.runs.items) ≤ MAX_FRAME)
        × (0 < length (cells_in b.left.items b.right.items (marks_in b.runs.items)))
        × (length (cells_in b.left.items b.right.items (marks_in b.runs.items)) ≤ MAX_FRAME) };
}

impl Block {
    // The block of the cells of a frame (a tick in the making), in order. `None` comes exactly where it has none.
    pub fn from_frame(alloc: Global, frame: &Frame) -> Result<Option<Block>, Memory>
        ensures cells { IfOk result (λ block. block ≡ some_list frame.now.cells) }
    {
        let (runs, left, right) = frame.lanes();
        if left.is_empty() {
            return Ok(None);
        }
        let left = Vec::from_slice(alloc, left)?;
        let right = Vec::from_slice(alloc, right)?;
        let runs = Vec::from_slice(alloc, runs)?;
        Ok(Some(Block { left, right, runs }))
    }

    // How many cells the block has, from 1 to 65536.
    pub fn len(&self) -> u32
        ensures count { result ≡ length self.now }
        ensures some { 0 < result }
        ensures most { result ≤ MAX_FRAME }
    {
        self.left.len() as u32
    }

    // The left samples of the block's cells, in order.
    pub fn left(&self) -> &[i16]
        ensures { result.now ≡ map (λ cell. cell.left) self.now }
    {
        self.left.as_slice()
    }

    // The right samples of the block's cells, in order.
    pub fn right(&self) -> &[i16]
        ensures { result.now ≡ map (λ cell. cell.right) self.now }
    {
        self.right.as_slice()
    }

    // The marks of the block's cells (where tracks begin, and their titles), as runs of one title.
    pub fn runs(&self) -> &[MarkRun]
        ensures { marks_in result.now ≡ map mark_in self.now }
    {
        self.runs.as_slice()
    }

    // The cell at place `at` of the block, counted from 0.
    pub fn cell(&self, at: u32) -> Cell
        requires { at < length self.now }
        ensures { Some result ≡ slice_get self.now at }
    {
        let Some(mark) = mark_at(&self.runs, at) else {
            unreachable!()
        };
        let at = at as usize;
        Cell {
            left: self.left[at],
            right: self.right[at],
            first: mark.first,
            title: mark.title,
        }
    }
}
