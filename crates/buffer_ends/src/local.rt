// A buffer whose both ends one clock has.
ghost use Rattle.std.specs.Prelude.{◌≡◌, ℕ, ◌<◌, ◌≤◌, List, [], ◌∷◌, map, length, slice_index_or, slice_set};
ghost use Rattle.std.specs.Prelude.{vec_capacity, IfOk, IfErr, OnOk, OnErr, IsOk};
ghost use Rattle.frame_core.specs.Calls.{Call, IsGive};
ghost use Rattle.frame_core.specs.Calls.Call.{Took};
ghost use Rattle.buffer_ends.specs.Local.{LocalBuffer, held, empty_buffer, planned, closed, closed_first};
ghost use Rattle.buffer_ends.specs.Local.{closed_windows, counts_of, all_answers, Step};
ghost use Rattle.buffer_ends.specs.Same.{SameBuffer, SameBuffers};

use crate::counts::Counts;
use crate::logs::{BufferLog, WindowLog};
use frame_core::{Chunk, Gave};
use liq_base::Memory;
use plan_core::BufferPlan;
use std::alloc::Global;
use std::collections::VecDeque;
use std::marker::Model;
use std::mem;

// A buffer as a list, with the answers of its calls.
#[derive(Drop)]
pub(crate) struct LocalList {
    capacity: u32,
    chunks: VecDeque<Chunk>,
    windows: Vec<WindowLog>,
    puts: Vec<bool>,
    takes: Vec<bool>,
    counts: Counts,
}

impl Model for LocalList {
    ghost use Rattle.std.specs.Prelude.{◌≡◌, ◌≤◌, length};
    ghost use Rattle.buffer_ends.specs.Local.{LocalBuffer, buffer_coded, counts_of, all_answers};

    ghost Value = { LocalBuffer };

    ghost coded = { buffer_coded };

    ghost view = { λ l. record {
      capacity = l.capacity;
      chunks = l.chunks.items;
      closed = l.windows.items;
      current = record { puts = l.puts.items; takes = l.takes.items };
    } };

    ghost invariant = { λ l. (length l.chunks.items ≤ l.capacity)
        × (l.counts ≡ counts_of (all_answers (record {
          capacity = l.capacity;
          chunks = l.chunks.items;
          closed = l.windows.items;
          current = record { puts = l.puts.items; takes = l.takes.items };
        }))) };
}

impl LocalList {
    // A buffer that one thread keeps as a list, empty, for at most `capacity` chunks.
    fn new(alloc: Global, capacity: u32) -> LocalList
        ensures { result ≡ empty_buffer capacity }
    {
        LocalList {
            capacity,
            chunks: VecDeque::new(alloc),
            windows: Vec::new(alloc),
            puts: Vec::new(alloc),
            takes: Vec::new(alloc),
            counts: Counts::none(),
        }
    }

    /// How many puts and takes of the buffer succeeded and how many failed, over all windows.
    pub(crate) fn counted(&self) -> Counts
        ensures { result ≡ counts_of (all_answers self.now) }
    {
        self.counts
    }

    // Takes the chunk at the buffer's front and notes the answer; `None` where the buffer is empty. Room for the note
    // is made first, so that nothing is changed where memory is refused.
    fn take(&mut self) -> Result<Option<Chunk>, Memory>
        ensures same { SameBuffer self.old self.new }
        ensures step { IfOk result (λ answer. (b : ℕ) → Step (held self.old) (Took b answer) (held self.new)) }
        ensures memory { OnErr result (self.new ≡ self.old) }
    {
        self.takes.reserve(1)?;
        let counts = self.counts.with_take(!self.chunks.is_empty())?;
        match self.chunks.pop_front() {
            Some(chunk) => {
                self.counts = counts;
                self.takes.push_reserved(true);
                Ok(Some(chunk))
            }
            None => {
                self.counts = counts;
                self.takes.push_reserved(false);
                Ok(None)
            }
        }
    }

    // Puts a chunk at the buffer's back and notes the answer: `Accepted`, or `Full` with the chunk. `Err` is want of
    // memory, and hands the chunk back too. Room for the note is made first, so that nothing is changed then.
    fn give(&mut self, chunk: Chunk) -> Result<Gave, (Chunk, Memory)>
        ensures same { SameBuffer self.old self.new }
        ensures step { IfOk result (λ gave. (b : ℕ) → (call : Call) × IsGive b chunk gave call
            × Step (held self.old) call (held self.new)) }
        ensures memory { IfErr result (λ e. (e.0 ≡ chunk) × (self.new ≡ self.old)) }
    {
        let room = self.chunks.len() < self.capacity as usize;
        if self.puts.reserve(1).is_err() {
            return Err((chunk, Memory));
        }
        let Ok(counts) = self.counts.with_put(room) else {
            return Err((chunk, Memory));
        };
        if !room {
            self.counts = counts;
            self.puts.push_reserved(false);
            return Ok(Gave::Full(chunk));
        }
        match self.chunks.push_back(chunk) {
            Ok(()) => {
                self.counts = counts;
                self.puts.push_reserved(true);
                Ok(Gave::Accepted)
            }
            Err(failed) => Err((failed.value, Memory)),
        }
    }

    // Closes the open window, so that its answers go to the closed ones, and opens the next one. Room for them is
    // made first, so that nothing is changed where memory is refused.
    fn close(&mut self, alloc: Global) -> Result<(), Memory>
        ensures closed { OnOk result (self.new ≡ closed self.old) }
        ensures memory { OnErr result (self.new ≡ self.old) }
    {
        self.windows.reserve(1)?;
        let puts = mem::replace(&mut self.puts, Vec::new(alloc));
        let takes = mem::replace(&mut self.takes, Vec::new(alloc));
        self.windows.push_reserved(WindowLog { puts, takes });
        Ok(())
    }

    // Undoes the closing of the last window, after which no call was made: its answers are those of the open window
    // again.
    fn reopen(&mut self)
        requires { (b : LocalBuffer) × (self.old ≡ closed b) }
        ensures { (b : LocalBuffer) → self.old ≡ closed b → self.new ≡ b }
    {
        if let Some(window) = self.windows.pop() {
            self.puts = window.puts;
            self.takes = window.takes;
        }
    }

    // Gives the buffer up, and hands out the answers of its closed windows.
    fn into_log(self) -> BufferLog
        ensures { result ≡ self.closed }
    {
        BufferLog {
            windows: self.windows,
        }
    }
}

// Takes a chunk from the buffer of this number; nothing where it is empty.
pub(crate) fn take_from(lists: &mut Vec<LocalList>, buffer: u32) -> Result<Option<Chunk>, Memory>
    requires { buffer < length lists.old.items }
    ensures ok { IfOk result (λ answer. (l : LocalBuffer) × (lists.new.items ≡ slice_set lists.old.items buffer l)
        × ((d : LocalBuffer) → Step (held (slice_index_or lists.old.items buffer d)) (Took buffer answer) (held l))) }
    ensures memory { OnErr result (lists.new.items ≡ lists.old.items) }
    ensures same { SameBuffers lists.old.items lists.new.items }
{
    lists[buffer as usize].take()
}

// Puts a chunk into the buffer of this number. Answers `Accepted`, or `Full` with the chunk. `Err` is want of memory,
// and hands the chunk back too.
pub(crate) fn give_into(
    lists: &mut Vec<LocalList>,
    buffer: u32,
    chunk: Chunk,
) -> Result<Gave, (Chunk, Memory)>
    requires { buffer < length lists.old.items }
    ensures ok { IfOk result (λ gave. (l : LocalBuffer) × (lists.new.items ≡ slice_set lists.old.items buffer l)
        × (call : Call) × IsGive buffer chunk gave call
        × ((d : LocalBuffer) → Step (held (slice_index_or lists.old.items buffer d)) call (held l))) }
    ensures memory { IfErr result (λ e. (e.0 ≡ chunk) × (lists.new.items ≡ lists.old.items)) }
    ensures same { SameBuffers lists.old.items lists.new.items }
{
    lists[buffer as usize].give(chunk)
}

// The buffers of a plan as lists, each empty.
pub(crate) fn empty_lists(alloc: Global, buffers: &[BufferPlan]) -> Result<Vec<LocalList>, Memory>
    ensures empty { IfOk result (λ lists. lists.items ≡ map planned buffers.now) }
    ensures none { buffers.now ≡ [] → IsOk result }
{
    let mut lists = Vec::new(alloc);
    for buffer in buffers {
        lists.push(LocalList::new(alloc, buffer.capacity))?;
    }
    Ok(lists)
}

// Closes the open window of the buffer of this number, and opens its next one.
pub(crate) fn close_in(alloc: Global, lists: &mut Vec<LocalList>, buffer: u32) -> Result<(), Memory>
    requires { buffer < length lists.old.items }
    ensures closed { OnOk result ((d : LocalBuffer)
        → lists.new.items ≡ slice_set lists.old.items buffer (closed (slice_index_or lists.old.items buffer d))) }
    ensures memory { OnErr result (lists.new.items ≡ lists.old.items) }
    ensures many { length lists.new.items ≡ length lists.old.items }
{
    lists[buffer as usize].close(alloc)
}

// Closes the open window of each buffer and opens its next one, or, where memory is refused, of none.
pub(crate) fn close_all(alloc: Global, lists: &mut Vec<LocalList>) -> Result<(), Memory>
    ensures closed { OnOk result (lists.new.items ≡ map closed lists.old.items) }
    ensures memory { OnErr result (lists.new.items ≡ lists.old.items) }
    ensures none { lists.old.items ≡ [] → IsOk result }
{
    for i in 0..lists.len() {
        if lists[i].close(alloc).is_err() {
            reopen_first(lists, i);
            return Err(Memory);
        }
    }
    Ok(())
}

// Gives the buffers up, and hands out the answers of their closed windows, one log for each. They are added to
// `logs`, which is empty and has room for them, so that no memory is taken.
pub(crate) fn into_logs(lists: Vec<LocalList>, mut logs: Vec<BufferLog>) -> Vec<BufferLog>
    requires empty { logs.items ≡ [] }
    requires room { length lists.items ≤ vec_capacity logs }
    ensures { result.items ≡ map closed_windows lists.items }
{
    for list in lists {
        logs.push_reserved(list.into_log());
    }
    logs
}

// Undoes the closing of the last window of the first `many` buffers, since it was refused for the one behind them.
fn reopen_first(lists: &mut Vec<LocalList>, many: usize)
    requires { (bs : List LocalBuffer) × (many ≤ length bs) × (lists.old.items ≡ closed_first many bs) }
    ensures { (bs : List LocalBuffer) → many ≤ length bs → lists.old.items ≡ closed_first many bs
        → lists.new.items ≡ bs }
{
    let mut left = many;
    while left > 0 {
        left -= 1;
        lists[left].reopen();
    }
}
