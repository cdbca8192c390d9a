// The bytes of an output in a tick.
ghost use Rattle.std.specs.Prelude.{◌≡◌, ◌+◌, ◌*◌, ◌≤◌, ◌++◌, [], length, replicate, IfOk, None};
ghost use Rattle.std.specs.List.{flat_map};
ghost use Rattle.stream_meaning.specs.Sinks.{block_length, slot_block};
ghost use Rattle.clock_outputs.specs.Blocks.{sample_blocks};

use liq_base::{Kind, Memory};
use sample_bytes::{encode, encode_wide};
use std::alloc::Global;
use std::marker::Model;

/// The bytes of an output in a tick, as they come. Contracts see them, and for how many of them there is room.
#[derive(Debug, Drop)]
pub struct Piece {
    bytes: Vec<u8>,

    // How many of them are the tick's. The others are room.
    filled: usize,
}

impl Model for Piece {
    ghost use Rattle.std.specs.Prelude.{◌≤◌, length, take};
    ghost use Rattle.clock_outputs.specs.Filled.{Filled};

    ghost Value = { Filled };

    ghost view = { λ p. record { bytes = take p.filled p.bytes.items; room = length p.bytes.items } };

    ghost invariant = { λ p. p.filled ≤ length p.bytes.items };
}

impl Piece {
    /// No bytes, with room for `room` bytes. No later call takes memory.
    pub fn new(alloc: Global, room: usize) -> Result<Piece, Memory>
        ensures { IfOk result (λ piece. piece ≡ record { bytes = []; room = room }) }
    {
        let bytes = vec![in alloc; 0; room]?;
        Ok(Piece { bytes, filled: 0 })
    }

    /// Drops the bytes, as at the start of a tick; the room stays.
    pub fn clear(&mut self)
        ensures { self.new ≡ record { bytes = []; room = self.old.room } }
    {
        self.filled = 0;
    }

    /// Adds the blocks of cells with these samples, in an output of this kind; its samples have three bytes if it is
    /// wide, and otherwise two.
    pub fn add_cells(&mut self, wide: bool, kind: Kind, left: &[i16], right: &[i16])
        requires same { length right.now ≡ length left.now }
        requires room { length self.old.bytes + length left.now * block_length wide kind ≤ self.old.room }
        ensures { self.new ≡ record {
          bytes = self.old.bytes ++ sample_blocks wide kind left.now right.now;
          room = self.old.room;
        } }
    {
        let start = self.filled;
        let end = start + left.len() * block_size(wide, kind);
        lay_samples(wide, kind, left, right, &mut self.bytes[start..end]);
        self.filled = end;
    }

    /// Adds the blocks of `count` slots without a cell, which are zeros, in an output of this kind; its samples have
    /// three bytes if it is wide, and otherwise two.
    pub fn add_gaps(&mut self, wide: bool, kind: Kind, count: usize)
        requires { length self.old.bytes + count * block_length wide kind ≤ self.old.room }
        ensures { self.new ≡ record {
          bytes = self.old.bytes ++ flat_map (slot_block wide kind) (replicate count None);
          room = self.old.room;
        } }
    {
        let start = self.filled;
        let end = start + count * block_size(wide, kind);
        self.bytes[start..end].fill(0);
        self.filled = end;
    }

    /// The bytes of the tick so far.
    pub fn bytes(&self) -> &[u8]
        ensures { result.now ≡ self.now.bytes }
    {
        &self.bytes[..self.filled]
    }
}

/// How many bytes the block of a slot has, in an output of this kind: three a sample if it is wide, and otherwise two.
pub fn block_size(wide: bool, kind: Kind) -> usize
    ensures { result ≡ block_length wide kind }
{
    let channels = usize::from(kind.channels());
    if wide { 3 * channels } else { 2 * channels }
}

// Writes the blocks of these samples, one sample of each channel to a block, into `into`, which they fill.
fn lay_samples(wide: bool, kind: Kind, left: &[i16], right: &[i16], into: &mut [u8])
    requires same { length right.now ≡ length left.now }
    requires room { length into.old ≡ length left.now * block_length wide kind }
    ensures { into.new ≡ sample_blocks wide kind left.now right.now }
{
    if wide {
        encode_wide(left, right, kind, into);
    } else {
        encode(left, right, kind, into);
    }
}
