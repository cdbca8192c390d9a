// The cells that a tick gives to a buffer.
ghost use Rattle.std.specs.Prelude.{◌≡◌, ◌<◌, ◌≤◌, length, map, slice_get, IfOk, Some};
ghost use Rattle.frame_core.specs.Frames.{some_list};
ghost use Rattle.frame_core.specs.Chunks.{mark_in};
ghost use Rattle.frame_core.specs.MarkRuns.{marks_in};

use crate::block::Block;
use crate::{Cell, Frame, MarkRun};
use liq_base::Memory;
use liq_base::limits::MAX_FRAME;
use std::alloc::Global;
use std::marker::Model;
use std::sync::Arc;

/// The cells of one tick, in order: 1 to 65536 of them. Contracts see their list. Chunks that are shared hold the same
/// cells, which are there once.
#[derive(Debug, Drop)]
pub struct Chunk {
    block: Arc<Block>,
}

impl Model for Chunk {
    ghost use Rattle.std.specs.Prelude.{◌≡◌, ◌<◌, ◌≤◌, List, length};
    ghost use Rattle.std.specs.Arc.{arc_value};
    ghost use Rattle.frame_core.specs.declared.cell.Cell.{Cell};
    ghost use Rattle.liq_base.specs.declared.limits.TheConstants.{MAX_FRAME};

    ghost Value = { List Cell };

    ghost view = { λ c. arc_value c.block };

    // The bounds of the list, since callers go by them.
    ghost invariant = { λ c. (0 < length (arc_value c.block)) × (length (arc_value c.block) ≤ MAX_FRAME) };
}

impl Chunk {
    /// The chunk of the cells of a frame (a tick in the making), in order. `None` comes exactly where it has none.
    pub fn from_frame(alloc: Global, frame: &Frame) -> Result<Option<Chunk>, Memory>
        ensures cells { IfOk result (λ chunk. chunk ≡ some_list frame.now.cells) }
    {
        let Some(block) = Block::from_frame(alloc, frame)? else {
            return Ok(None);
        };
        let block = Arc::new(alloc, block)?;
        Ok(Some(Chunk { block }))
    }

    /// A second chunk that holds the same cells, without a copy, so that they take no memory again. `Err` comes only
    /// past 2^63 holders.
    pub fn share(&self) -> Result<Chunk, Memory>
        ensures { IfOk result (λ chunk. chunk ≡ self.now) }
    {
        let block = Arc::try_clone(&self.block)?;
        Ok(Chunk { block })
    }

    /// How many cells the chunk has, from 1 to 65536.
    pub fn len(&self) -> u32
        ensures count { result ≡ length self.now }
        ensures some { 0 < result }
        ensures most { result ≤ MAX_FRAME }
    {
        self.block.len()
    }

    /// The left samples of the chunk's cells, in order.
    pub fn left(&self) -> &[i16]
        ensures { result.now ≡ map (λ cell. cell.left) self.now }
    {
        self.block.left()
    }

    /// The right samples of the chunk's cells, in order.
    pub fn right(&self) -> &[i16]
        ensures { result.now ≡ map (λ cell. cell.right) self.now }
    {
        self.block.right()
    }

    /// The marks of the chunk's cells (where tracks begin, and their titles), as runs of one title.
    pub fn runs(&self) -> &[MarkRun]
        ensures { marks_in result.now ≡ map mark_in self.now }
    {
        self.block.runs()
    }

    /// The cell at place `at` of the chunk, counted from 0.
    pub fn cell(&self, at: u32) -> Cell
        requires { at < length self.now }
        ensures { Some result ≡ slice_get self.now at }
    {
        self.block.cell(at)
    }
}

/// What a buffer answers to a chunk that is given. A full buffer gives the chunk back.
#[derive(Debug, Drop)]
pub enum Gave {
    Accepted,
    Full(Chunk),
}
