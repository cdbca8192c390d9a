// A clock's ends of the buffers that join it to other clocks.
ghost use Rattle.std.specs.Prelude.{◌≡◌, ◌≢◌, ◌<◌, ℕ, map, length, count_by, not, IfSome, IfNone, IfOk, IfErr, OnErr};
ghost use Rattle.std.specs.Prelude.{slice_index_or, slice_set};
ghost use Rattle.buffer_queue.specs.Window.{Puts, Takes, Closes, is_chunk};
ghost use Rattle.buffer_ends.specs.Local.{LocalBuffer, all_answers, counts_of, yes};
ghost use Rattle.buffer_ends.specs.Ends.{PutsCounted, TakesCounted};
ghost use Rattle.buffer_ends.specs.Borders.{ClosesSides};
ghost use Rattle.buffer_ends.specs.Sides.{Side, PutsSide, TakesSide, Falling, SameSide, SameSides};

use crate::counts::Counts;
use crate::logs::WindowLog;
use buffer_queue::{BufferQueue, PutPass, TakePass};
use frame_core::{Chunk, Gave};
use liq_base::Memory;
use std::alloc::Global;
use std::marker::Model;
use std::sync::Wait;

/// A clock's end of a buffer to which it gives.
#[derive(Drop)]
pub struct PutEnd<'a> {
    buffer: u32,
    queue: &'a BufferQueue,
    pass: PutPass,
}

impl<'a> Model for PutEnd<'a> {
    ghost use Rattle.std.specs.Prelude.{◌≡◌};
    ghost use Rattle.buffer_ends.specs.Sides.{Side, side_coded};

    ghost Value = { Side };

    ghost coded = { side_coded };

    ghost view = { λ e. record { buffer = e.buffer; window = e.pass } };

    ghost invariant = { λ e. e.pass.queue ≡ e.queue.now };
}

/// A clock's end of a buffer from which it takes.
#[derive(Drop)]
pub struct TakeEnd<'a> {
    buffer: u32,
    queue: &'a BufferQueue,
    pass: TakePass,
}

impl<'a> Model for TakeEnd<'a> {
    ghost use Rattle.std.specs.Prelude.{◌≡◌};
    ghost use Rattle.buffer_ends.specs.Sides.{Side, side_coded};

    ghost Value = { Side };

    ghost coded = { side_coded };

    ghost view = { λ e. record { buffer = e.buffer; window = e.pass } };

    ghost invariant = { λ e. e.pass.queue ≡ e.queue.now };
}

impl<'a> PutEnd<'a> {
    /// A clock's end of a buffer to which it gives, over the queue that both ends share. `pass` is the right to put
    /// into it, and keeps the answers.
    pub fn new(buffer: u32, queue: &'a BufferQueue, pass: PutPass) -> PutEnd<'a>
        requires { pass.queue ≡ queue.now }
        ensures { result ≡ record { buffer = buffer; window = pass } }
    {
        PutEnd {
            buffer,
            queue,
            pass,
        }
    }

    /// Gives the end up, and hands out its right to put, with the answers of the calls in the open window.
    pub fn into_pass(self) -> PutPass
        ensures { result ≡ self.entry.window }
    {
        self.pass
    }

    /// The number of the buffer to which the clock gives here.
    pub fn buffer(&self) -> u32
        ensures { result ≡ self.now.buffer }
    {
        self.buffer
    }

    // How many puts at this end were accepted in the open window, and how many found the queue full.
    fn counted(&self) -> (u64, u64)
        ensures yes { result.0 ≡ count_by yes (map is_chunk self.now.window.answers) }
        ensures no { result.1 ≡ count_by not (map is_chunk self.now.window.answers) }
    {
        counted(self.pass.answers())
    }

    // Closes the window (the calls since the ends last met) at both ends of the queue, of which `take` is the other,
    // and opens the next one. It returns the answers of the closed window. Both ends are of one queue by the
    // contract, so closing cannot fail.
    fn close(&mut self, alloc: Global, take: &mut TakeEnd<'_>) -> WindowLog
        requires { self.old.window.queue ≡ take.old.window.queue }
        ensures closes { Closes self.old.window take.old.window self.old.window.queue self.new.window take.new.window }
        ensures buffers { (self.new.buffer ≡ self.old.buffer) × (take.new.buffer ≡ take.old.buffer) }
        ensures log { (result.puts ≡ map is_chunk self.old.window.answers)
            × (result.takes ≡ map is_chunk take.old.window.answers) }
    {
        let Ok((puts, takes)) = self
            .queue
            .close_window(alloc, &mut self.pass, &mut take.pass)
        else {
            unreachable!();
        };
        WindowLog { puts, takes }
    }

    // Puts a chunk into the queue at this end. Answers `Accepted`, or `Full` with the chunk. `Err` is want of memory,
    // and hands the chunk back too.
    fn give<R: Wait>(&mut self, rt: &R, chunk: Chunk) -> Result<Gave, (Chunk, Memory)>
        ensures same { SameSide self.old self.new }
        ensures answer { IfOk result (Puts self.old.window chunk self.new.window) }
        ensures memory { IfErr result (λ e. (e.0 ≡ chunk) × (self.new ≡ self.old)) }
    {
        self.queue.put(rt, &mut self.pass, chunk)
    }
}

impl<'a> TakeEnd<'a> {
    /// A clock's end of a buffer from which it takes, over the queue that both ends share. `pass` is the right to
    /// take from it, and keeps the answers.
    pub fn new(buffer: u32, queue: &'a BufferQueue, pass: TakePass) -> TakeEnd<'a>
        requires { pass.queue ≡ queue.now }
        ensures { result ≡ record { buffer = buffer; window = pass } }
    {
        TakeEnd {
            buffer,
            queue,
            pass,
        }
    }

    /// Gives the end up, and hands out its right to take, with the answers of the calls in the open window.
    pub fn into_pass(self) -> TakePass
        ensures { result ≡ self.entry.window }
    {
        self.pass
    }

    /// The number of the buffer from which the clock takes here.
    pub fn buffer(&self) -> u32
        ensures { result ≡ self.now.buffer }
    {
        self.buffer
    }

    // How many takes at this end got a chunk in the open window, and how many found the queue empty.
    fn counted(&self) -> (u64, u64)
        ensures yes { result.0 ≡ count_by yes (map is_chunk self.now.window.answers) }
        ensures no { result.1 ≡ count_by not (map is_chunk self.now.window.answers) }
    {
        counted(self.pass.answers())
    }

    // Takes a chunk from the queue at this end; `None` where it is empty. `Err` is want of memory.
    fn take<R: Wait>(&mut self, rt: &R) -> Result<Option<Chunk>, Memory>
        ensures same { SameSide self.old self.new }
        ensures answer { IfOk result (Takes self.old.window self.new.window) }
        ensures memory { OnErr result (self.new ≡ self.old) }
    {
        self.queue.take(rt, &mut self.pass)
    }
}

// The counts of a buffer, with its puts counted at this clock's end of it; as they were where the clock has no such
// end.
pub(crate) fn with_puts(ends: &Vec<PutEnd<'_>>, buffer: u32, counts: Counts) -> Counts
    requires { Falling ends.now.items }
    ensures puts { (list : LocalBuffer) → counts ≡ counts_of (all_answers list)
        → PutsCounted ends.now.items list buffer result }
    ensures takes { (result.got ≡ counts.got) × (result.empty ≡ counts.empty) }
{
    match put_place(ends, buffer) {
        Some(place) => {
            let (accepted, full) = ends[place].counted();
            Counts {
                accepted,
                full,
                ..counts
            }
        }
        None => counts,
    }
}

// The counts of a buffer, with its takes counted at this clock's end of it; as they were where the clock has no such
// end.
pub(crate) fn with_takes(ends: &Vec<TakeEnd<'_>>, buffer: u32, counts: Counts) -> Counts
    requires { Falling ends.now.items }
    ensures takes { (list : LocalBuffer) → (counts.got ≡ count_by yes (all_answers list).takes)
        → (counts.empty ≡ count_by not (all_answers list).takes) → TakesCounted ends.now.items list buffer result }
    ensures puts { (result.accepted ≡ counts.accepted) × (result.full ≡ counts.full) }
{
    match take_place(ends, buffer) {
        Some(place) => {
            let (got, empty) = ends[place].counted();
            Counts {
                got,
                empty,
                ..counts
            }
        }
        None => counts,
    }
}

// The place of the end that puts into this buffer in a clock's list of ends, if one is there. The list is sorted by
// falling buffers and is halved at each step.
pub(crate) fn put_place(ends: &Vec<PutEnd<'_>>, buffer: u32) -> Option<usize>
    requires { Falling ends.now.items }
    ensures some { IfSome result (λ k. (k < length ends.now.items)
        × ((d : Side) → (slice_index_or ends.now.items k d).buffer ≡ buffer)) }
    ensures none { IfNone result ((k : ℕ) (d : Side) → k < length ends.now.items
        → (slice_index_or ends.now.items k d).buffer ≢ buffer) }
{
    let place = ends.partition_point(|end| end.buffer() > buffer);
    if place < ends.len() && ends[place].buffer() == buffer {
        Some(place)
    } else {
        None
    }
}

// The place of the end that takes from this buffer in a clock's list of ends, if one is there. The list is sorted by
// falling buffers and is halved at each step.
pub(crate) fn take_place(ends: &Vec<TakeEnd<'_>>, buffer: u32) -> Option<usize>
    requires { Falling ends.now.items }
    ensures some { IfSome result (λ k. (k < length ends.now.items)
        × ((d : Side) → (slice_index_or ends.now.items k d).buffer ≡ buffer)) }
    ensures none { IfNone result ((k : ℕ) (d : Side) → k < length ends.now.items
        → (slice_index_or ends.now.items k d).buffer ≢ buffer) }
{
    let place = ends.partition_point(|end| end.buffer() > buffer);
    if place < ends.len() && ends[place].buffer() == buffer {
        Some(place)
    } else {
        None
    }
}

// Puts a chunk into the buffer whose end stands at this place of the list. Answers `Accepted`, or `Full` with the
// chunk. `Err` is want of memory, and hands the chunk back too.
pub(crate) fn give_at<R: Wait>(
    rt: &R,
    ends: &mut Vec<PutEnd<'_>>,
    place: usize,
    chunk: Chunk,
) -> Result<Gave, (Chunk, Memory)>
    requires { place < length ends.old.items }
    ensures ok { IfOk result (λ gave. (s : Side) × (ends.new.items ≡ slice_set ends.old.items place s)
        × ((d : Side) → PutsSide (slice_index_or ends.old.items place d) chunk s gave)) }
    ensures memory { IfErr result (λ e. (e.0 ≡ chunk) × (ends.new.items ≡ ends.old.items)) }
    ensures same { SameSides ends.old.items ends.new.items }
    ensures falling { Falling ends.old.items → Falling ends.new.items }
{
    ends[place].give(rt, chunk)
}

// Takes a chunk from the buffer whose end stands at this place of the list; `None` where it is empty.
pub(crate) fn take_at<R: Wait>(
    rt: &R,
    ends: &mut Vec<TakeEnd<'_>>,
    place: usize,
) -> Result<Option<Chunk>, Memory>
    requires { place < length ends.old.items }
    ensures ok { IfOk result (λ answer. (s : Side) × (ends.new.items ≡ slice_set ends.old.items place s)
        × ((d : Side) → TakesSide (slice_index_or ends.old.items place d) answer s)) }
    ensures memory { OnErr result (ends.new.items ≡ ends.old.items) }
    ensures same { SameSides ends.old.items ends.new.items }
    ensures falling { Falling ends.old.items → Falling ends.new.items }
{
    ends[place].take(rt)
}

// How many of these answers are true (successes), and how many are false.
fn counted(answers: &[bool]) -> (u64, u64)
    ensures yes { result.0 ≡ count_by yes answers.now }
    ensures no { result.1 ≡ count_by not answers.now }
{
    let yes = answers.iter().filter(|answer| **answer).count() as u64;
    let no = answers.iter().filter(|answer| !**answer).count() as u64;
    (yes, no)
}

// Closes the window of a buffer whose ends stand at `place` among those that put and at `other` among those that
// take, opens the next one, and returns the answers of the closed one.
pub(crate) fn close_at(
    alloc: Global,
    puts: &mut Vec<PutEnd<'_>>,
    place: usize,
    takes: &mut Vec<TakeEnd<'_>>,
    other: usize,
) -> WindowLog
    requires within { (place < length puts.old.items) × (other < length takes.old.items) }
    requires queue { (d e : Side) → (slice_index_or puts.old.items place d).window.queue
        ≡ (slice_index_or takes.old.items other e).window.queue }
    ensures closed { (s t : Side) × (puts.new.items ≡ slice_set puts.old.items place s)
        × (takes.new.items ≡ slice_set takes.old.items other t)
        × ((d e : Side) → ClosesSides (slice_index_or puts.old.items place d) (slice_index_or takes.old.items other e) s
        t result) }
{
    puts[place].close(alloc, &mut takes[other])
}
