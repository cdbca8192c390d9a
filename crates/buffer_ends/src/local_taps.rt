// The buffers whose both ends one clock has.
ghost use Rattle.std.specs.Prelude.{◌≡◌, ◌<◌, [], map, length, slice_index_or, slice_set, IfOk, IfErr, OnOk, OnErr};
ghost use Rattle.std.specs.Prelude.{IsOk};
ghost use Rattle.frame_core.specs.Calls.{Call, Adds, IsGive};
ghost use Rattle.frame_core.specs.Calls.Call.{Took};
ghost use Rattle.buffer_ends.specs.Local.{LocalBuffer, held, planned, closed, closed_windows, counts_of, all_answers};
ghost use Rattle.buffer_ends.specs.Local.{Step};
ghost use Rattle.buffer_ends.specs.Ends.{LocalStands};
ghost use Rattle.buffer_ends.specs.Same.{SameBuffers};

use crate::counts::Counts;
use crate::local::{LocalList, close_all, close_in, empty_lists, give_into, into_logs, take_from};
use crate::logs::BufferLog;
use frame_core::{Chunk, Gave, Taps};
use liq_base::Memory;
use plan_core::Plan;
use std::alloc::Global;
use std::marker::Model;

/// Every buffer of a plan as a list, with the answers of all calls. Contracts see the list of the buffers.
#[derive(Drop)]
pub struct LocalTaps {
    lists: Vec<LocalList>,
    logs: Vec<BufferLog>,
}

impl Model for LocalTaps {
    ghost use Rattle.std.specs.Prelude.{◌≡◌, ◌≤◌, List, [], length, vec_capacity};
    ghost use Rattle.std.specs.Coded.{coded_list};
    ghost use Rattle.buffer_ends.specs.Local.{LocalBuffer, buffer_coded};

    ghost Value = { List LocalBuffer };

    ghost coded = { coded_list buffer_coded };

    ghost view = { λ t. t.lists.items };

    ghost invariant = { λ t. (t.logs.items ≡ []) × (length t.lists.items ≤ vec_capacity t.logs) };
}

impl LocalTaps {
    /// The buffers of a plan, each empty and kept by one thread alone. Without buffers it takes no memory.
    pub fn new(alloc: Global, plan: &Plan) -> Result<LocalTaps, Memory>
        ensures empty { IfOk result (λ taps. taps ≡ map planned plan.now.buffers) }
        ensures none { plan.now.buffers ≡ [] → IsOk result }
        ensures stands { IfOk result (λ taps. LocalStands taps []) }
    {
        let logs = Vec::with_capacity(alloc, plan.buffers.len())?;
        let lists = empty_lists(alloc, plan.buffers.as_slice())?;
        Ok(LocalTaps { lists, logs })
    }

    /// How many puts and takes of a buffer succeeded and how many failed, over all windows.
    pub fn counts(&self, buffer: u32) -> Counts
        requires { buffer < length self.now }
        ensures { (d : LocalBuffer) → result ≡ counts_of (all_answers (slice_index_or self.now buffer d)) }
    {
        self.lists[buffer as usize].counted()
    }

    /// Closes the window of every buffer and opens the next. Where memory is refused all is as before; without buffers
    /// it takes none.
    pub fn end_window(&mut self, alloc: Global) -> Result<(), Memory>
        ensures closed { OnOk result (self.new ≡ map closed self.old) }
        ensures memory { OnErr result (self.new ≡ self.old) }
        ensures none { self.old ≡ [] → IsOk result }
        ensures stands { Adds LocalStands self.old self.new [] }
    {
        close_all(alloc, &mut self.lists)
    }

    /// Gives the buffers up, and hands out the answers of their closed windows, one log for each buffer. It takes no
    /// memory.
    pub fn into_logs(self) -> Vec<BufferLog>
        ensures { result.items ≡ map closed_windows self }
    {
        into_logs(self.lists, self.logs)
    }

    // Closes the open window of the buffer of this number, and opens its next one.
    pub(crate) fn close_one(&mut self, alloc: Global, buffer: u32) -> Result<(), Memory>
        requires { buffer < length self.old }
        ensures closed { OnOk result ((d : LocalBuffer)
            → self.new ≡ slice_set self.old buffer (closed (slice_index_or self.old buffer d))) }
        ensures memory { OnErr result (self.new ≡ self.old) }
    {
        close_in(alloc, &mut self.lists, buffer)
    }

    // Takes a chunk from the buffer of this number; nothing where it is empty.
    pub(crate) fn take_of(&mut self, buffer: u32) -> Result<Option<Chunk>, Memory>
        requires { buffer < length self.old }
        ensures ok { IfOk result (λ answer. (l : LocalBuffer) × (self.new ≡ slice_set self.old buffer l)
            × ((d : LocalBuffer) → Step (held (slice_index_or self.old buffer d)) (Took buffer answer) (held l))) }
        ensures memory { OnErr result (self.new ≡ self.old) }
        ensures same { SameBuffers self.old self.new }
    {
        take_from(&mut self.lists, buffer)
    }

    // Puts a chunk into the buffer of this number. Answers `Accepted`, or `Full` with the chunk. `Err` is want of
    // memory, and hands the chunk back too.
    pub(crate) fn give_to(&mut self, buffer: u32, chunk: Chunk) -> Result<Gave, (Chunk, Memory)>
        requires { buffer < length self.old }
        ensures ok { IfOk result (λ gave. (l : LocalBuffer) × (self.new ≡ slice_set self.old buffer l) × (call : Call)
            × IsGive buffer chunk gave call
            × ((d : LocalBuffer) → Step (held (slice_index_or self.old buffer d)) call (held l))) }
        ensures memory { IfErr result (λ e. (e.0 ≡ chunk) × (self.new ≡ self.old)) }
        ensures same { SameBuffers self.old self.new }
    {
        give_into(&mut self.lists, buffer, chunk)
    }
}

impl Taps for LocalTaps {
    ghost use Rattle.std.specs.Prelude.{length};
    ghost use Rattle.buffer_ends.specs.Ends.{LocalStands};
    ghost use Rattle.buffer_ends.specs.Same.{SameBuffers, same_buffers_refl, same_buffers_trans};

    ghost stands = { λ s calls. LocalStands s calls };

    ghost buffers = { λ s. length s };

    ghost same = { λ s t. SameBuffers s t };

    ghost same_refl = { λ s. same_buffers_refl s };

    ghost same_trans = { λ s t u a b. same_buffers_trans s t u a b };

    // Takes a chunk from the buffer of this number, which the clock keeps alone; nothing where it is empty.
    fn take(&mut self, buffer: u32) -> Result<Option<Chunk>, Memory> {
        self.take_of(buffer)
    }

    // Puts a chunk into the buffer of this number, which the clock keeps alone. Answers `Accepted`, or `Full` with
    // the chunk. `Err` is want of memory, and hands the chunk back too.
    fn give(&mut self, buffer: u32, chunk: Chunk) -> Result<Gave, (Chunk, Memory)> {
        self.give_to(buffer, chunk)
    }
}
