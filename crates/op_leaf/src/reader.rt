// The reader of a buffer.
ghost use Rattle.std.specs.Prelude.{◌≡◌, ◌<◌, ◌≤◌, ◌+◌, ◌++◌, [], ℕ, true, false, length, max, IfOk, IsSome};
ghost use Rattle.frame_core.specs.Slots.{title_of, is_inner};
ghost use Rattle.op_leaf.specs.Inner.{lefts_of, rights_of, titled_stretch};
ghost use Rattle.op_leaf.specs.Lanes.{IsLane, IsOneTrack};
ghost use Rattle.op_leaf.specs.Readers.{after_cell, begun, missing, read_by, Reader, reader_slot, wants};

use cell_ring::ChunkQueue;
use frame_core::{Cell, Chunk, goes_on, title_of};
use liq_base::Memory;
use std::alloc::Global;
use std::marker::Model;

/// The state of a buffer's reader: it takes chunks at a tick's start, and plays their cells once it holds its prefill.
/// `docs/streams.md` has the rules.
#[derive(Drop)]
pub struct ReaderState {
    queue: ChunkQueue,
    prefill: u32,
    frame: u32,
    playing: bool,
    // Whether a track begins at the front cell, whatever its own mark.
    fresh: bool,
}

impl Model for ReaderState {
    ghost use Rattle.op_leaf.specs.Readers.{Reader};
    ghost use Rattle.op_leaf.specs.Stores.{IsStore, shown};

    ghost Value = { Reader };

    ghost view = { λ r. record {
      cells = shown r.fresh r.queue.cells;
      playing = r.playing;
      prefill = r.prefill;
      frame = r.frame;
    } };

    ghost invariant = { λ r. IsStore r.queue r.prefill r.frame r.playing r.fresh };
}

impl ReaderState {
    /// A reader that holds nothing and does not play, with room for what it may hold of chunks of a tick. It plays once
    /// it holds `pre` samples, and at least one; `frame` is the samples of a tick. Numbers that are too large for the
    /// room count as want of memory.
    pub fn new(alloc: Global, pre: u64, frame: u32) -> Result<ReaderState, Memory>
        ensures { IfOk result (λ reader. reader ≡ record {
          cells = [];
          playing = false;
          prefill = max 1 pre;
          frame = frame;
        }) }
    {
        let prefill = u32::try_from(pre.max(1)).map_err(|_| Memory)?;
        let most = prefill.max(frame);
        let room = most.checked_add(frame.saturating_sub(1)).ok_or(Memory)?;
        let queue = ChunkQueue::new(alloc, room)?;
        Ok(ReaderState {
            queue,
            prefill,
            frame,
            playing: false,
            fresh: false,
        })
    }

    /// Whether it is to take once more in this tick: it holds fewer cells than it needs.
    pub fn wants(&self) -> bool
        ensures wants { result ≡ wants self.now }
        ensures ends { result ≡ true → 0 < missing self.now }
    {
        let wanted = if self.playing {
            self.frame
        } else {
            self.prefill
        };
        self.queue.len() < u64::from(wanted)
    }

    /// How many cells it lacks: of a tick while it plays, else of its prefill.
    pub fn missing(&self) -> u64
        ensures { result ≡ missing self.now }
    {
        let wanted = if self.playing {
            self.frame
        } else {
            self.prefill
        };
        u64::from(wanted).saturating_sub(self.queue.len())
    }

    /// Holds the cells of a chunk behind the others. It takes no memory: a chunk that is longer than a tick may be kept
    /// as it came.
    pub fn accept(&mut self, chunk: Chunk)
        requires { wants self.old ≡ true }
        ensures accepted { self.new ≡ record self.old { cells = self.old.cells ++ chunk } }
        ensures less { missing self.new < missing self.old }
    {
        self.queue.push(chunk);
    }

    /// After the takes of a tick: begins to play if it holds its prefill, and stops if it holds nothing. Where it
    /// begins, the front cell begins a track.
    pub fn begin(&mut self)
        ensures { self.new ≡ begun self.old }
    {
        let held = self.queue.len();
        if self.playing {
            self.playing = held > 0;
        } else if held >= u64::from(self.prefill) {
            self.playing = true;
            self.fresh = true;
        }
    }

    /// The cell that it offers: the front one while it plays, else `None`.
    pub fn offer(&self) -> Option<Cell>
        ensures { result ≡ reader_slot self.now }
    {
        if !self.playing {
            return None;
        }
        let cell = self.queue.front()?;
        let first = cell.first || self.fresh;
        Some(Cell { first, ..cell })
    }

    /// How many cells, from the offered one on and at most `most`, are of one track and of one title. It is at least 1,
    /// and means nothing where none is offered.
    pub fn stretch(&self, most: u32) -> u32
        requires some { 0 < most }
        ensures stretch { IsSome (reader_slot self.now)
            → result ≡ titled_stretch (λ j. reader_slot (read_by j self.now)) 0 most }
        ensures within { result ≤ most }
        ensures some { 0 < result }
        ensures ahead { IsSome (reader_slot self.now) → IsOneTrack (λ j. reader_slot (read_by j self.now)) result }
    {
        1 + self.queue.inner(title_of(self.queue.front()), 1, most - 1)
    }

    /// How many cells, from the offered one on and at most `most`, go on with the track of this title; 0 where none is
    /// offered, or it is of another or begins one. There may be more.
    pub fn rest(&self, title: u32, most: u32) -> u32
        ensures inner { (j : ℕ) → j < result → is_inner (reader_slot (read_by j self.now)) ≡ true }
        ensures titled { (j : ℕ) → j < result → title_of (reader_slot (read_by j self.now)) ≡ title }
        ensures within { result ≤ most }
    {
        if most == 0 || !goes_on(title, self.offer()) {
            return 0;
        }
        self.stretch(most)
    }

    /// Writes as many cells as the slices are long, which are of one track, and goes on behind them.
    pub fn run(&mut self, left: &mut [i16], right: &mut [i16])
        requires same { length right.old ≡ length left.old }
        requires some { 0 < length left.old }
        requires ahead { IsOneTrack (λ j. reader_slot (read_by j self.old)) (length left.old) }
        ensures read { self.new ≡ read_by (length left.old) self.old }
        ensures left { left.new ≡ lefts_of (λ j. reader_slot (read_by j self.old)) 0 (length left.old) }
        ensures right { right.new ≡ rights_of (λ j. reader_slot (read_by j self.old)) 0 (length left.old) }
        ensures lane { is_inner (reader_slot self.old) ≡ true
            → IsLane (λ j. reader_slot (read_by j self.old)) (length left.old) left.new right.new }
    {
        self.queue.take_into(left, right);
        self.fresh = false;
    }

    /// Goes on by the cell that it offers. Where it offers nothing it stays.
    pub fn advance(&mut self)
        ensures { self.new ≡ after_cell self.old }
    {
        if self.playing {
            self.queue.pop();
            self.fresh = false;
        }
    }
}
