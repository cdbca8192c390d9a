// The run of one clock, as far as it can be made.
ghost use Rattle.std.specs.Prelude.{◌≡◌, ◌≤◌, ◌<◌, ℕ, length, IfOk, Ok};
ghost use Rattle.trace_turns.specs.declared.course.Course.TheVariants.{Goes as IsGoing};
ghost use Rattle.trace_turns.specs.declared.turn.Turn.TheVariants.{Made as HasMadeTicks, Refused as IsRefusedTurn};
ghost use Rattle.trace_turns.specs.Answering.{SameBuffers};
ghost use Rattle.trace_records.specs.Passes.{HasTurned, IsRefused};
ghost use Rattle.trace_records.specs.Clocks.{Log};
ghost use Rattle.trace_turns.specs.Thin.{AreKept};
ghost use Rattle.trace_turns.specs.Searches.{MayRun, TellOn};
ghost use Rattle.trace_turns.specs.Turns.{AreFit, MayTurn, Score, base_at, chunks_of};

use crate::course::Course;
use crate::ends::{Ends, course_of};
use crate::station::{Sides, Station, sinks_of};
use crate::taps::{ToldTaps, begin_run};
use clock_ticks::ClockEngine;
use liq_base::{Failed, Memory, Sink};
use std::alloc::Global;

/// A sink that keeps nothing.
#[derive(Drop)]
pub struct NoSink;

impl Sink for NoSink {
    ghost use Rattle.liq_base.specs.Untold.{faults_alone};

    ghost told = { λ s. faults_alone 0 };

    // Drops the bytes of an output: a replay that is only judged writes no file.
    fn append(&mut self, _piece: &[u8]) -> Result<(), Failed>
        ensures sure { result ≡ Ok tt }
    {
        Ok(())
    }
}

/// How far a clock came, from its first tick on.
#[derive(Clone, Copy)]
pub enum Turn {
    /// So many ticks in all: each of them, or up to one that waits for chunks.
    Made(u64),
    /// It makes no ticks as the text tells.
    Refused,
}

/// Makes the `ticks` ticks of a clock by this new engine, as far as the chunks that are there allow.
/// `Made` has how many were made, up to one that waits for a chunk. `Refused`: a call has no right answer, or a window
/// of `window` ticks ends with more or fewer calls than `ends` tells.
pub fn run_clock(
    alloc: Global,
    engine: &mut ClockEngine<'_, NoSink>,
    taps: &mut ToldTaps,
    ends: &[Ends],
    window: u64,
    ticks: u64,
) -> Result<Turn, Memory>
    requires some { 1 ≤ window }
    requires few { ticks ≤ 1000000000 }
    requires goes { taps.old.course ≡ IsGoing }
    requires kept { AreKept taps.old.buffers.items }
    requires turn { (score : Score)
        × MayTurn score window ticks engine.old.parts.clock engine.old.parts taps.old.buffers.items ends.now }
    ensures made { IfOk result (λ turn. (n : ℕ) (score : Score) → turn ≡ HasMadeTicks n
        → MayTurn score window ticks engine.old.parts.clock engine.old.parts taps.old.buffers.items ends.now
        → HasTurned score.base window ticks score.text engine.old.parts.clock n score.chunks
        (chunks_of taps.new.buffers.items)) }
    ensures same { IfOk result (λ turn. SameBuffers taps.old.buffers.items taps.new.buffers.items) }
    ensures refused { IfOk result (λ turn. (score : Score) → turn ≡ IsRefusedTurn
        → MayTurn score window ticks engine.old.parts.clock engine.old.parts taps.old.buffers.items ends.now
        → IsRefused score.base window ticks score.text score.chunks engine.old.parts.clock) }
{
    for tick in 0..ticks {
        if engine.tick(alloc, taps).is_err() {
            return Err(Memory);
        }
        match course_of(taps.course, &taps.buffers, ends, window, ticks, tick) {
            Course::Goes => continue,
            Course::Waits => return Ok(Turn::Made(tick)),
            Course::Fails => return Ok(Turn::Refused),
        }
    }
    Ok(Turn::Made(ticks))
}

/// Runs clock number `clock` by a new engine from its first tick on, with the chunks that are there.
/// `Made` has how many of its `ticks` ticks were made; `Refused`: it cannot make them as the trace tells.
/// On a plan without buffers no tick waits, so all count as made and none is run.
pub fn run_turn(
    alloc: Global,
    station: &Station<'_>,
    taps: &mut ToldTaps,
    sides: &Sides,
    ends: &[Ends],
    clock: u32,
    window: u64,
    ticks: u64,
) -> Result<Turn, Memory>
    requires { MayRun station.now sides.now ends.now window ticks taps.old.buffers.items }
    ensures made { IfOk result (λ turn. (n : ℕ) (text : ℕ → Log) → turn ≡ HasMadeTicks n
        → AreFit (base_at station.now) window ticks text taps.old.buffers.items ends.now
        → HasTurned (base_at station.now) window ticks text clock n (chunks_of taps.old.buffers.items)
        (chunks_of taps.new.buffers.items)) }
    ensures fit { IfOk result (λ turn. TellOn station.now ends.now window ticks taps.old.buffers.items
        taps.new.buffers.items) }
    ensures kept { IfOk result (λ turn. AreKept taps.new.buffers.items) }
    ensures many { IfOk result (λ turn. length taps.new.buffers.items ≡ length taps.old.buffers.items) }
    ensures refused { IfOk result (λ turn. (text : ℕ → Log) → turn ≡ IsRefusedTurn
        → AreFit (base_at station.now) window ticks text taps.old.buffers.items ends.now
        → IsRefused (base_at station.now) window ticks text (chunks_of taps.old.buffers.items) clock) }
{
    if station.plan.buffers.as_slice().is_empty() {
        return Ok(Turn::Made(ticks));
    }
    let outs = sinks_of(alloc, station.plan, station.clocks, clock)?;
    let Ok(mut engine) = ClockEngine::new(
        alloc,
        station.plan,
        station.clocks,
        clock,
        station.library,
        outs,
        station.start,
    ) else {
        return Err(Memory);
    };
    begin_run(&mut taps.buffers, &sides.feeders, &sides.readers, clock);
    taps.course = Course::Goes;
    let turn = run_clock(alloc, &mut engine, taps, ends, window, ticks);
    drop(engine.into_outs());
    turn
}
