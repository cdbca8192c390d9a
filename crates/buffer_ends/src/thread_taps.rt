// The buffers of one clock beside other clocks.
ghost use Rattle.std.specs.Prelude.{◌≡◌, ◌++◌, ◌∷◌, [], ◌<◌, ◌⊎◌, ℕ, List, length, slice_index_or, slice_set, OnOk};
ghost use Rattle.std.specs.Prelude.{OnErr};
ghost use Rattle.buffer_ends.specs.Borders.{HaveEnds, WasClosed};
ghost use Rattle.frame_core.specs.Calls.{Call};
ghost use Rattle.buffer_ends.specs.Local.{LocalBuffer, closed};
ghost use Rattle.buffer_ends.specs.Ends.{AreNew, EndsStand, Has, ListsStand, LocalStands, PutsCounted, TakesCounted};
ghost use Rattle.buffer_ends.specs.Sides.{Falling};

use crate::counts::Counts;
use crate::ends::{
    PutEnd, TakeEnd, close_at, give_at, put_place, take_at, take_place, with_puts, with_takes,
};
use crate::local_taps::LocalTaps;
use crate::logs::WindowLog;
use frame_core::{Chunk, Gave, Taps};
use liq_base::Memory;
use std::alloc::Global;
use std::mem;
use std::sync::Wait;

/// One clock's ends of its buffers to other clocks, and its own lists.
#[derive(Drop)]
pub struct ThreadTaps<'a, R> {
    rt: &'a R,
    local: LocalTaps,
    puts: Vec<PutEnd<'a>>,
    takes: Vec<TakeEnd<'a>>,
    ghost falling: { Falling puts.items × Falling takes.items },
}

impl<'a, R> ThreadTaps<'a, R> {
    /// The buffers of one clock (its taps): those that it keeps alone, and its ends of those shared with other
    /// clocks. Each list of ends goes from the buffer with the largest number to the one with the smallest, and has
    /// each at most once.
    pub fn new(
        rt: &'a R,
        local: LocalTaps,
        puts: Vec<PutEnd<'a>>,
        takes: Vec<TakeEnd<'a>>,
    ) -> ThreadTaps<'a, R>
        requires puts { Falling puts.items }
        requires takes { Falling takes.items }
        ensures parts { (result.local ≡ local) × (result.puts ≡ puts.entry) × (result.takes ≡ takes.entry) }
        ensures stands { AreNew puts.entry.items local → AreNew takes.entry.items local → (calls : List Call)
            → LocalStands local calls
            → EndsStand result.puts.items result.takes.items result.local calls }
    {
        ThreadTaps {
            rt,
            local,
            puts,
            takes,
        }
    }

    /// Adds the end of a buffer to which the clock gives, after those of buffers with larger numbers. Where memory is
    /// refused the end is lost.
    pub fn add_put(&mut self, end: PutEnd<'a>) -> Result<(), Memory>
        requires { (k : ℕ) (d : _) → k < length self.old.puts.items
            → end.buffer < (slice_index_or self.old.puts.items k d).buffer }
        ensures added { OnOk result (self.new.puts.items ≡ self.old.puts.items ++ end.entry ∷ []) }
        ensures others { (self.new.takes ≡ self.old.takes) × (self.new.local ≡ self.old.local) }
    {
        self.puts.push(end)?;
        Ok(())
    }

    /// Adds the end of a buffer from which the clock takes, after those of buffers with larger numbers. Where memory is
    /// refused the end is lost.
    pub fn add_take(&mut self, end: TakeEnd<'a>) -> Result<(), Memory>
        requires { (k : ℕ) (d : _) → k < length self.old.takes.items
            → end.buffer < (slice_index_or self.old.takes.items k d).buffer }
        ensures added { OnOk result (self.new.takes.items ≡ self.old.takes.items ++ end.entry ∷ []) }
        ensures others { (self.new.puts ≡ self.old.puts) × (self.new.local ≡ self.old.local) }
    {
        self.takes.push(end)?;
        Ok(())
    }

    /// Gives the taps (the buffers of one clock) up, and hands out in turn the buffers that it keeps alone, its ends
    /// that put into shared ones, and its ends that take from them. All keep the answers of their calls.
    pub fn into_parts(self) -> (LocalTaps, Vec<PutEnd<'a>>, Vec<TakeEnd<'a>>)
        ensures { (result.0 ≡ self.entry.local) × (result.1 ≡ self.entry.puts) × (result.2 ≡ self.entry.takes) }
    {
        let ThreadTaps {
            rt: _,
            local,
            puts,
            takes,
        } = self;
        (local, puts, takes)
    }

    /// Closes the window (the calls since the ends last met) of a buffer into which this clock puts, and opens the
    /// next one. `takes` are the ends of the clock that takes from it. By the contract both clocks have an end of it.
    /// It returns the answers of the closed window, and takes no memory.
    pub fn close_with(
        &mut self,
        alloc: Global,
        takes: &mut Vec<TakeEnd<'_>>,
        buffer: u32,
    ) -> WindowLog
        requires ends { HaveEnds self.old.puts.items takes.old.items buffer }
        requires falling { Falling takes.old.items }
        ensures closed { WasClosed buffer self.old.puts.items self.new.puts.items takes.old.items takes.new.items
            result }
        ensures mine { (self.new.takes ≡ self.old.takes) × (self.new.local ≡ self.old.local) }
        ensures falling { Falling takes.new.items }
    {
        let Some(place) = put_place(&self.puts, buffer) else {
            unreachable!();
        };
        let Some(at) = take_place(takes, buffer) else {
            unreachable!();
        };
        close_at(alloc, &mut self.puts, place, takes, at)
    }

    /// Takes out the clock's ends that take, so that the windows of their buffers can be closed together with the
    /// clocks that put.
    pub fn lend_takes(&mut self, alloc: Global) -> Vec<TakeEnd<'a>>
        ensures lent { result.items ≡ self.old.takes.items }
        ensures falling { Falling result.items }
        ensures others { (self.new.puts ≡ self.old.puts) × (self.new.local ≡ self.old.local) }
    {
        mem::replace(&mut self.takes, Vec::new(alloc))
    }

    /// Puts the clock's ends that take back, which were taken out to close their windows.
    pub fn put_back(&mut self, takes: Vec<TakeEnd<'a>>)
        requires { Falling takes.items }
        ensures back { self.new.takes ≡ takes.entry }
        ensures others { (self.new.puts ≡ self.old.puts) × (self.new.local ≡ self.old.local) }
    {
        self.takes = takes;
    }

    /// Closes the open window of a buffer that the clock keeps alone, and opens the next one. Where memory is refused
    /// all is as before.
    pub fn close_list(&mut self, alloc: Global, buffer: u32) -> Result<(), Memory>
        requires { buffer < length self.old.local }
        ensures closed { OnOk result ((d : LocalBuffer)
            → self.new.local ≡ slice_set self.old.local buffer (closed (slice_index_or self.old.local buffer d))) }
        ensures memory { OnErr result (self.new.local ≡ self.old.local) }
        ensures ends { (self.new.puts ≡ self.old.puts) × (self.new.takes ≡ self.old.takes) }
        ensures stands { OnOk result ((calls : List Call)
            → ListsStand (λ b. Has self.old.puts.items b ⊎ Has self.old.takes.items b) self.old.local calls
            → ListsStand (λ b. Has self.old.puts.items b ⊎ Has self.old.takes.items b) self.new.local calls) }
    {
        self.local.close_one(alloc, buffer)
    }

    /// How many puts and takes of a buffer succeeded and how many failed: at this clock's ends those of the open
    /// window alone, and over all windows for a buffer that the clock keeps alone.
    pub fn counts(&self, buffer: u32) -> Counts
        requires { buffer < length self.now.local }
        ensures puts { (d : LocalBuffer)
            → PutsCounted self.now.puts.items (slice_index_or self.now.local buffer d) buffer result }
        ensures takes { (d : LocalBuffer)
            → TakesCounted self.now.takes.items (slice_index_or self.now.local buffer d) buffer result }
    {
        let counts = self.local.counts(buffer);
        let counts = with_puts(&self.puts, buffer, counts);
        with_takes(&self.takes, buffer, counts)
    }
}

impl<'a, R: Wait> Taps for ThreadTaps<'a, R> {
    ghost use Rattle.std.specs.Prelude.{length};
    ghost use Rattle.buffer_ends.specs.Sides.{SameSides, same_sides_refl, same_sides_trans};
    ghost use Rattle.buffer_ends.specs.Same.{SameBuffers, same_buffers_refl, same_buffers_trans};
    ghost use Rattle.buffer_ends.specs.Ends.{EndsStand};

    ghost stands = { λ s calls. EndsStand s.puts.items s.takes.items s.local calls };

    ghost buffers = { λ s. length s.local };

    ghost same = { λ s t. SameSides s.puts.items t.puts.items × SameSides s.takes.items t.takes.items
        × SameBuffers s.local t.local };

    ghost same_refl = { λ s. (same_sides_refl s.puts.items, same_sides_refl s.takes.items, same_buffers_refl s.local) };

    ghost same_trans = { λ s t u a b. (
      same_sides_trans s.puts.items t.puts.items u.puts.items a.0 b.0,
      same_sides_trans s.takes.items t.takes.items
          u.takes.items a.1 b.1,
      same_buffers_trans s.local t.local u.local a.2 b.2,
    ) };

    // Takes a chunk from the buffer of this number: at the clock's end, if it has one that takes, and otherwise from
    // the list that it keeps alone.
    fn take(&mut self, buffer: u32) -> Result<Option<Chunk>, Memory> {
        match take_place(&self.takes, buffer) {
            Some(place) => take_at(self.rt, &mut self.takes, place),
            None => self.local.take_of(buffer),
        }
    }

    // Puts a chunk into the buffer of this number: at the clock's end, if it has one that puts, and otherwise into
    // the list that it keeps alone. Answers `Accepted`, or `Full` with the chunk. `Err`, want of memory, hands it
    // back too.
    fn give(&mut self, buffer: u32, chunk: Chunk) -> Result<Gave, (Chunk, Memory)> {
        match put_place(&self.puts, buffer) {
            Some(place) => give_at(self.rt, &mut self.puts, place, chunk),
            None => self.local.give_to(buffer, chunk),
        }
    }
}
