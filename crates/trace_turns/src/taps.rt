// The buffers of a plan in the run of one clock, which answer as a trace tells.
ghost use Rattle.std.specs.Prelude.{◌≡◌, ◌<◌, ◌∷◌, [], length, slice_index_or, slice_set, IfOk, IfErr, OnErr, Some};
ghost use Rattle.std.specs.Prelude.{None};
ghost use Rattle.frame_core.specs.Calls.{Adds, Call, IsGive};
ghost use Rattle.frame_core.specs.Calls.Call.{Took};
ghost use Rattle.trace_turns.specs.declared.course.Course.TheVariants.{Goes as IsGoing};
ghost use Rattle.trace_turns.specs.Turns.{HaveBegun};
ghost use Rattle.trace_turns.specs.Answering.{BufferState, PutsOn, SameBuffers, TakesOn};
ghost use Rattle.trace_turns.specs.Marks.{AreWithin, HaveLetGo, HaveMarked, HaveResumed, IsForgotten};
ghost use Rattle.trace_turns.specs.Thin.{TapsFollow};

use crate::course::Course;
use crate::told::{Mark, Put, Taken, ToldBuffer};
use frame_core::{Chunk, Gave, Taps};
use liq_base::Memory;

/// The buffers of a plan in the run of one clock. They answer as a trace tells as long as each call has a right answer.
/// From the first on that has none, takes are empty and chunks that are given are dropped.
#[derive(Drop)]
pub struct ToldTaps {
    pub buffers: Vec<ToldBuffer>,
    pub course: Course,
}

// Takes from buffer number `buffer` of the list, and says what the take met there. After an `Err` the buffers are as
// they were.
fn take_from(buffers: &mut Vec<ToldBuffer>, buffer: u32) -> Result<Taken, Memory>
    requires { buffer < length buffers.old.items }
    ensures taken { IfOk result (λ taken. (s : BufferState) × (buffers.new.items ≡ slice_set buffers.old.items buffer s)
        × ((d : BufferState) → TakesOn (slice_index_or buffers.old.items buffer d) taken s)) }
    ensures memory { OnErr result (buffers.new.items ≡ buffers.old.items) }
    ensures same { SameBuffers buffers.old.items buffers.new.items }
{
    buffers[buffer as usize].take()
}

// Puts a chunk to buffer number `buffer` of the list, and says what the put met there. An `Err` gives the chunk back.
fn put_into(
    buffers: &mut Vec<ToldBuffer>,
    buffer: u32,
    chunk: Chunk,
) -> Result<Put, (Chunk, Memory)>
    requires { buffer < length buffers.old.items }
    ensures put { IfOk result (λ put. (s : BufferState) × (buffers.new.items ≡ slice_set buffers.old.items buffer s)
        × ((d : BufferState) → PutsOn (slice_index_or buffers.old.items buffer d) chunk put s)) }
    ensures memory { IfErr result (λ e. (e.0 ≡ chunk) × (buffers.new.items ≡ buffers.old.items)) }
    ensures same { SameBuffers buffers.old.items buffers.new.items }
{
    buffers[buffer as usize].put(chunk)
}

/// Sets each buffer to the start of a run of main clock `clock`, from its first tick on.
/// By a buffer's number, `feeders` and `readers` have the main clocks that feed and read it.
/// A buffer that the clock feeds is emptied, since it puts all its chunks anew.
pub fn begin_run(buffers: &mut Vec<ToldBuffer>, feeders: &[u32], readers: &[u32], clock: u32)
    requires feeders { length feeders.now ≡ length buffers.old.items }
    requires readers { length readers.now ≡ length buffers.old.items }
    ensures many { length buffers.new.items ≡ length buffers.old.items }
    ensures begun { HaveBegun feeders.now readers.now clock buffers.old.items buffers.new.items }
{
    for b in 0..buffers.len() {
        buffers[b].begin(feeders[b] == clock, readers[b] == clock);
    }
}

/// Sets each buffer to where the run of main clock `clock` paused, so that it can go on; no chunk is dropped.
/// By a buffer's number, `marks` says how far the clock's calls came before.
/// By the same number, `feeders` and `readers` have the main clocks that feed and read it.
pub fn resume_run(
    buffers: &mut Vec<ToldBuffer>,
    feeders: &[u32],
    readers: &[u32],
    clock: u32,
    marks: &[Mark],
)
    requires feeders { length feeders.now ≡ length buffers.old.items }
    requires readers { length readers.now ≡ length buffers.old.items }
    requires marks { length marks.now ≡ length buffers.old.items }
    requires within { AreWithin buffers.old.items marks.now }
    ensures many { length buffers.new.items ≡ length buffers.old.items }
    ensures resumed { HaveResumed feeders.now readers.now clock marks.now buffers.old.items buffers.new.items }
{
    for b in 0..buffers.len() {
        buffers[b].resume(feeders[b] == clock, readers[b] == clock, marks[b]);
    }
}

/// Notes in `marks`, by a buffer's number, how far the calls of a run came on it; so the run can go on there later.
pub fn mark_run(buffers: &[ToldBuffer], marks: &mut Vec<Mark>)
    requires { length marks.old.items ≡ length buffers.now }
    ensures many { length marks.new.items ≡ length marks.old.items }
    ensures marked { HaveMarked buffers.now marks.new.items }
{
    for b in 0..buffers.len() {
        marks[b] = buffers[b].mark();
    }
}

/// Frees, of each buffer that the clock reads, the chunks that it got.
pub fn let_go_run(buffers: &mut Vec<ToldBuffer>)
    ensures many { length buffers.new.items ≡ length buffers.old.items }
    ensures gone { HaveLetGo buffers.old.items buffers.new.items }
{
    for b in 0..buffers.len() {
        buffers[b].let_go();
    }
}

/// Drops the chunks of all buffers, as before any run of a clock.
pub fn forget_run(buffers: &mut Vec<ToldBuffer>)
    ensures many { length buffers.new.items ≡ length buffers.old.items }
    ensures forgotten { IsForgotten buffers.old.items buffers.new.items }
{
    for b in 0..buffers.len() {
        buffers[b].forget();
    }
}

impl ToldTaps {
    // Answers a take in a run whose calls were all answered so far: a chunk, or `None` where the trace tells of none.
    // `None` is also given where no answer is right or the chunk is not there: the course then says `Fails` or `Waits`.
    fn take_told(&mut self, buffer: u32) -> Result<Option<Chunk>, Memory>
        requires known { buffer < length self.old.buffers.items }
        requires goes { self.old.course ≡ IsGoing }
        ensures call { IfOk result
            (λ answer. Adds (λ t calls. TapsFollow t.course t.buffers.items calls) self.old self.new (Took buffer answer
            ∷ [])) }
        ensures memory { OnErr result ((self.new.course ≡ self.old.course)
            × (self.new.buffers.items ≡ self.old.buffers.items)) }
        ensures same { SameBuffers self.old.buffers.items self.new.buffers.items }
    {
        match take_from(&mut self.buffers, buffer)? {
            Taken::Chunk(chunk) => Ok(Some(chunk)),
            Taken::Empty => Ok(None),
            Taken::Waits => {
                self.course = Course::Waits;
                Ok(None)
            }
            Taken::Lost => {
                self.course = Course::Waits;
                Ok(None)
            }
            Taken::Never => {
                self.course = Course::Fails;
                Ok(None)
            }
        }
    }

    // Answers a put of a chunk to a buffer in a run whose calls were all answered so far.
    // If no answer is right, the chunk is dropped as if accepted, and the course says `Fails` from here on.
    // An `Err` is want of memory, and gives the chunk back.
    fn give_told(&mut self, buffer: u32, chunk: Chunk) -> Result<Gave, (Chunk, Memory)>
        requires known { buffer < length self.old.buffers.items }
        requires goes { self.old.course ≡ IsGoing }
        ensures call { IfOk result (λ gave. (call : Call) × IsGive buffer chunk gave call
            × Adds (λ t calls. TapsFollow t.course t.buffers.items calls) self.old self.new (call ∷ [])) }
        ensures memory { IfErr result (λ e. (e.0 ≡ chunk) × (self.new.course ≡ self.old.course)
            × (self.new.buffers.items ≡ self.old.buffers.items)) }
        ensures same { SameBuffers self.old.buffers.items self.new.buffers.items }
    {
        match put_into(&mut self.buffers, buffer, chunk)? {
            Put::Accepted => Ok(Gave::Accepted),
            Put::Full(back) => Ok(Gave::Full(back)),
            Put::Never => {
                self.course = Course::Fails;
                Ok(Gave::Accepted)
            }
        }
    }
}

impl Taps for ToldTaps {
    ghost use Rattle.std.specs.Prelude.{length};
    ghost use Rattle.trace_turns.specs.Answering.{SameBuffers, same_buffers_refl, same_buffers_trans};
    ghost use Rattle.trace_turns.specs.Thin.{TapsFollow};

    ghost stands = { λ s calls. TapsFollow s.course s.buffers.items calls };

    ghost buffers = { λ s. length s.buffers.items };

    ghost same = { λ s t. SameBuffers s.buffers.items t.buffers.items };

    ghost same_refl = { λ s. same_buffers_refl s.buffers.items };

    ghost same_trans = { λ s t u a b. same_buffers_trans s.buffers.items t.buffers.items u.buffers.items a b };

    // Answers a take as the trace tells. Once a call of the run could not be answered, each take gets nothing.
    fn take(&mut self, buffer: u32) -> Result<Option<Chunk>, Memory> {
        match self.course {
            Course::Goes => self.take_told(buffer),
            Course::Waits => Ok(None),
            Course::Fails => Ok(None),
        }
    }

    // Answers a put as the trace tells. Once a call of the run could not be answered, each chunk is dropped.
    fn give(&mut self, buffer: u32, chunk: Chunk) -> Result<Gave, (Chunk, Memory)> {
        match self.course {
            Course::Goes => self.give_told(buffer, chunk),
            Course::Waits => Ok(Gave::Accepted),
            Course::Fails => Ok(Gave::Accepted),
        }
    }
}
