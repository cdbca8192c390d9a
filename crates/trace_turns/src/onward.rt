// A turn of a clock whose engine goes on where it stopped.
ghost use Rattle.std.specs.Prelude.{◌≡◌, ◌≤◌, ℕ, length, IfOk};
ghost use Rattle.trace_turns.specs.declared.onward.Reached.TheVariants.{Made as HasReached, Refused as MeetsNone};
ghost use Rattle.trace_records.specs.Passes.{IsRefused};
ghost use Rattle.trace_turns.specs.Answering.{SameBuffers};
ghost use Rattle.trace_turns.specs.Live.{FullScore, HasFlown, HasResumed, MayFlow, MayMakeMore, MayResume, MayTakeTurn};
ghost use Rattle.trace_turns.specs.Thin.{OthersStayUnlost};
ghost use Rattle.trace_turns.specs.Turns.{Score, StayFit, chunks_of};
ghost use Rattle.trace_turns.specs.Timed.{timed};

use crate::course::Course;
use crate::ends::{Ends, course_of};
use crate::live::LiveClock;
use crate::station::Sides;
use crate::taps::{ToldTaps, let_go_run, mark_run, resume_run};
use crate::told::{Mark, ToldBuffer};
use crate::turn::NoSink;
use clock_ticks::ClockEngine;
use liq_base::Memory;
use std::alloc::Global;

/// How far a turn of a clock came.
#[derive(Clone, Copy)]
pub enum Reached {
    /// So many ticks in all; the next one may have to wait, or the turn was long enough.
    Made(u64),
    /// A take is to get a chunk that is not there.
    Waits,
    /// A call has no right answer.
    Refused,
}

// How many takes of buffer b there are up to the end of window number `window`; 0 if it has no such window.
fn end_of(ends: &[Ends], b: usize, window: u64) -> usize {
    if b >= ends.len() || window >= ends[b].takes.len() as u64 {
        return 0;
    }
    ends[b].takes[window as usize]
}

// Foresees whether buffer b, which another clock feeds, holds the chunks for the takes of the reader's next tick.
// `mark` says how far its takes came; the tick lies in window number `window`, so no take behind that one counts.
// A reader in the main clock says how many cells it wants (`missing`).
// One below a crossfade does not, so the bound in `sides.reaches` counts.
fn can_serve(
    engine: &ClockEngine<'_, NoSink>,
    buffer: &ToldBuffer,
    sides: &Sides,
    ends: &[Ends],
    b: usize,
    window: u64,
    mark: Mark,
) -> bool {
    if b >= sides.nodes.len() || b >= sides.reaches.len() {
        return false;
    }
    match engine.missing(sides.nodes[b]) {
        Some(cells) => buffer.serves(mark, cells),
        None => buffer.serves_far(mark, end_of(ends, b, window), sides.reaches[b], sides.frame),
    }
}

// Foresees whether the clock whose turn it is has the chunks for its next tick, which lies in window number `window`.
// `true`: each buffer that the clock reads and another feeds holds enough. A buffer it feeds itself is not asked.
fn can_go(
    engine: &ClockEngine<'_, NoSink>,
    buffers: &[ToldBuffer],
    sides: &Sides,
    ends: &[Ends],
    window: u64,
) -> bool {
    for b in 0..buffers.len() {
        let buffer = &buffers[b];
        if buffer.read
            && !buffer.fed
            && !can_serve(engine, buffer, sides, ends, b, window, buffer.mark())
        {
            return false;
        }
    }
    true
}

// Whether main clock `clock` reads buffer b and another clock feeds it, so that the one may have to wait for the other.
fn joins(sides: &Sides, b: usize, clock: u32) -> bool {
    b < sides.readers.len()
        && b < sides.feeders.len()
        && sides.readers[b] == clock
        && sides.feeders[b] != clock
}

/// Foresees whether a clock that has made `from` of its `ticks` ticks has the chunks for one more: `true` if a turn of
/// it is worth while, `false` also if all its ticks are made. Each buffer that another clock feeds must hold enough.
/// `live.marks` says how far the clock's calls came on each buffer; `ends` has where its windows of `window` ticks end.
pub fn may_turn(
    live: &LiveClock<'_>,
    buffers: &[ToldBuffer],
    sides: &Sides,
    ends: &[Ends],
    window: u64,
    ticks: u64,
    from: u64,
) -> bool
    requires { 1 ≤ window }
{
    if from >= ticks {
        return false;
    }
    let clock = live.engine.clock();
    for b in 0..buffers.len() {
        if joins(sides, b, clock)
            && b < live.marks.len()
            && !can_serve(
                &live.engine,
                &buffers[b],
                sides,
                ends,
                b,
                from / window,
                live.marks[b],
            )
        {
            return false;
        }
    }
    true
}

/// Asks two things of a clock, over the buffers that it reads and others feed.
/// The first is `true` if some reader lies below a crossfade: then it is not known how many cells the next tick takes.
/// The second is `true` if the next take of each of these buffers can be answered.
pub fn may_try(live: &LiveClock<'_>, buffers: &[ToldBuffer], sides: &Sides) -> (bool, bool) {
    let clock = live.engine.clock();
    let mut unsure = false;
    let mut answered = true;
    for b in 0..buffers.len() {
        if joins(sides, b, clock) && b < live.marks.len() && b < sides.nodes.len() {
            unsure = unsure || live.engine.missing(sides.nodes[b]).is_none();
            answered = answered && buffers[b].serves_one(live.marks[b]);
        }
    }
    (unsure, answered)
}

// The most ticks of a turn, so that no clock comes far ahead of the others.
const TURN_TICKS: u64 = 16;

// How many ticks, of `ticks` in all, a clock has made at most after a turn that begins when it has made `from`.
// A turn has no more than `TURN_TICKS` ticks.
fn last_of(from: u64, ticks: u64) -> u64
    requires few { ticks ≤ 1000000000 }
    requires within { from ≤ ticks }
    ensures on { from ≤ result }
    ensures within { result ≤ ticks }
{
    if ticks - from <= TURN_TICKS {
        return ticks;
    }
    from + TURN_TICKS
}

/// Makes at most `TURN_TICKS` further ticks of a clock that has made `from` of its `ticks` ticks.
/// It stops with `Made` before a tick for which chunks seem to lack; if `tried`, the first tick is made in any case.
/// `Waits`: a take met no chunk after all. `Refused`: a call has no right answer, or a window ends with other calls.
pub fn go_on(
    alloc: Global,
    engine: &mut ClockEngine<'_, NoSink>,
    taps: &mut ToldTaps,
    sides: &Sides,
    ends: &[Ends],
    window: u64,
    ticks: u64,
    from: u64,
    tried: bool,
) -> Result<Reached, Memory>
    requires { MayMakeMore window ticks from engine.old.parts taps.old.course taps.old.buffers.items ends.now }
    ensures on { IfOk result (λ reached. (n : ℕ) → reached ≡ HasReached n → from ≤ n) }
    ensures within { IfOk result (λ reached. (n : ℕ) → reached ≡ HasReached n → n ≤ ticks) }
    ensures refused { IfOk result (λ reached. (score : Score) → reached ≡ MeetsNone
        → MayFlow score window ticks engine.old.parts.clock from engine.old.parts taps.old.buffers.items ends.now
        → IsRefused score.base window ticks score.text score.chunks engine.old.parts.clock) }
    ensures made { IfOk result (λ reached. (n : ℕ) (score : Score) → reached ≡ HasReached n
        → MayFlow score window ticks engine.old.parts.clock from engine.old.parts taps.old.buffers.items ends.now
        → HasFlown score.base (timed score.text window ticks) engine.old.parts.clock n score.chunks engine.new.parts
        taps.new.buffers.items) }
    ensures same { IfOk result (λ reached. SameBuffers taps.old.buffers.items taps.new.buffers.items) }
{
    let until = last_of(from, ticks);
    for tick in from..until {
        let asked = !tried || tick != from;
        if asked && !can_go(engine, &taps.buffers, sides, ends, tick / window) {
            return Ok(Reached::Made(tick));
        }
        if engine.tick(alloc, taps).is_err() {
            return Err(Memory);
        }
        match course_of(taps.course, &taps.buffers, ends, window, ticks, tick) {
            Course::Goes => continue,
            Course::Waits => return Ok(Reached::Waits),
            Course::Fails => return Ok(Reached::Refused),
        }
    }
    Ok(Reached::Made(until))
}

/// Makes a turn of a clock that has made `from` of its `ticks` ticks, with the chunks that are there.
/// If `tried`, its first tick is made even where chunks seem to lack.
/// The calls go on from the clock's marks, which are set anew; the chunks that it got are freed.
/// `Made` has its ticks in all. After `Waits` or `Refused` its engine cannot go on.
pub fn live_turn(
    alloc: Global,
    live: &mut LiveClock<'_>,
    taps: &mut ToldTaps,
    sides: &Sides,
    ends: &[Ends],
    window: u64,
    ticks: u64,
    from: u64,
    tried: bool,
) -> Result<Reached, Memory>
    requires { MayTakeTurn sides.now ends.now window ticks from live.old taps.old.buffers.items }
    ensures on { IfOk result (λ reached. (n : ℕ) → reached ≡ HasReached n → from ≤ n) }
    ensures within { IfOk result (λ reached. (n : ℕ) → reached ≡ HasReached n → n ≤ ticks) }
    ensures refused { IfOk result (λ reached. (score : FullScore) → reached ≡ MeetsNone
        → MayResume score sides.now ends.now window ticks from live.old taps.old.buffers.items
        → IsRefused score.base window ticks score.text (chunks_of score.full) live.old.engine.parts.clock) }
    ensures gone { IfOk result (λ reached. (n : ℕ) (score : FullScore) → reached ≡ HasReached n
        → MayResume score sides.now ends.now window ticks from live.old taps.old.buffers.items
        → HasResumed score sides.now window ticks live.old.engine.parts.clock n live.new taps.new.buffers.items) }
    ensures stays { IfOk result (λ reached. OthersStayUnlost sides.now.readers.items live.old.engine.parts.clock
        taps.old.buffers.items taps.new.buffers.items) }
    ensures fit { IfOk result (λ reached. StayFit ends.now window ticks taps.old.buffers.items taps.new.buffers.items) }
    ensures many { IfOk result (λ reached. length taps.new.buffers.items ≡ length taps.old.buffers.items) }
    ensures marks { IfOk result (λ reached. length live.new.marks.items ≡ length live.old.marks.items) }
{
    resume_run(
        &mut taps.buffers,
        &sides.feeders,
        &sides.readers,
        live.engine.clock(),
        &live.marks,
    );
    taps.course = Course::Goes;
    let reached = go_on(
        alloc,
        &mut live.engine,
        taps,
        sides,
        ends,
        window,
        ticks,
        from,
        tried,
    )?;
    mark_run(&taps.buffers, &mut live.marks);
    let_go_run(&mut taps.buffers);
    Ok(reached)
}
