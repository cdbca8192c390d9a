// The record that a trace tells is found, and rendered again.
ghost use Rattle.std.specs.Prelude.{◌≡◌, IfOk, None, length, map};
ghost use Rattle.std.specs.Option.{ForSome};
ghost use Rattle.buffer_ends.specs.declared.run_end.End.TheVariants.{Done, Memory as NoMemory};
ghost use Rattle.stream_meaning.specs.Settings.{IsSetting};
ghost use Rattle.rounds_run.specs.Rounds.{AreEngines};
ghost use Rattle.trace_log.specs.Texts.{IsTrace};
ghost use Rattle.trace_replay.specs.RecordTurns.{AreAllTurns};
ghost use Rattle.trace_replay.specs.Replays.{HasReplayedAll, HasReplayedSome, counts_in};
ghost use Rattle.trace_records.specs.Traces.{IsAccepted, base_of};

use crate::engines::replay_engines;
use crate::logs::told_run;
use crate::parts::logs_of;
use buffer_ends::{BufferLog, End, RunEnd};
use clock_infer::ClockMap;
use clock_ticks::ClockEngine;
use fixed_text::WeekSecond;
use frame_core::Library;
use liq_base::{Memory, Sink};
use plan_core::Plan;
use std::alloc::Global;
use std::marker::Model;
use trace_log::Trace;
use trace_turns::{Course, Sides, Station, ToldTaps, TurnMade, judge, sides_of, told_buffers};

/// The turns in which the clocks make the record that an accepted trace tells: in each of them a clock makes some ticks
/// with the chunks that the turns before it put. `docs/buffers.md`, "A record from its text", says what they take of
/// memory.
#[derive(Drop)]
pub struct RecordTurns {
    taps: ToldTaps,
    sides: Sides,
    turns: Vec<TurnMade>,
}

impl Model for RecordTurns {
    ghost use Rattle.trace_replay.specs.RecordTurns.{HeldTurns, held_coded};

    ghost Value = { HeldTurns };

    ghost coded = { held_coded };

    ghost view = { λ t. record {
      buffers = t.taps.buffers.items;
      feeders = t.sides.feeders.items;
      readers = t.sides.readers.items;
      turns = t.turns.items;
    } };
}

/// Finds the turns in which the clocks replay a trace; `None` if it is of no lawful run of `ticks` ticks of this plan,
/// with these clocks, files and start second, whose ticks can be put in one order. Only want of memory comes in place
/// of an answer.
pub fn find_record(
    alloc: Global,
    plan: &Plan,
    clocks: &ClockMap,
    library: &Library,
    start: WeekSecond,
    ticks: u64,
    trace: &Trace,
) -> Result<Option<RecordTurns>, Memory>
    requires setting { IsSetting (base_of plan.now library.now clocks.now start.second) clocks.now }
    requires trace { IsTrace trace.now }
    ensures yes { IfOk result
        (λ found. ForSome found (λ turns. IsAccepted (base_of plan.now library.now clocks.now start.second)
        clocks.now.running ticks trace.now)) }
    ensures turns { IfOk result
        (λ found. ForSome found (λ turns. AreAllTurns (base_of plan.now library.now clocks.now start.second)
        clocks.now trace.now turns)) }
    ensures no { IfOk result (λ found. found ≡ None
        → IsAccepted (base_of plan.now library.now clocks.now start.second) clocks.now.running ticks trace.now → ⊥) }
{
    if trace.ticks != ticks || trace.buffers.len() != plan.buffers.len() {
        return Ok(None);
    }
    let station = Station {
        plan,
        clocks,
        library,
        start,
    };
    let sides = sides_of(alloc, plan, clocks)?;
    let (buffers, ends) = told_buffers(alloc, plan.buffers.as_slice(), &trace.buffers)?;
    let mut taps = ToldTaps {
        buffers,
        course: Course::Goes,
    };
    let mut turns = Vec::new(alloc);
    let fits = judge(
        alloc,
        &station,
        &mut taps,
        &mut turns,
        &sides,
        &ends,
        trace.window,
        trace.ticks,
        &trace.buffers,
    )?;
    if !fits {
        return Ok(None);
    }
    Ok(Some(RecordTurns { taps, sides, turns }))
}

// The result of a replay that made all its ticks: copies of these logs, which are the answers of each buffer, and their
// counts. Without memory for them it is an end for want of memory.
fn told_or_ended(alloc: Global, logs: &[BufferLog]) -> RunEnd
    ensures counts { result.end ≡ Done → result.counts.items ≡ map counts_in logs.now }
    ensures logs { result.end ≡ Done → result.logs.items ≡ logs.now }
    ensures ended { (result.end ≡ Done → ⊥) → result.end ≡ NoMemory }
{
    match told_run(alloc, logs) {
        Ok(run) => run,
        Err(_) => ended(alloc, End::Memory),
    }
}

// The result of a replay that ended early, for this reason: it has no counts and no logs.
fn ended(alloc: Global, end: End) -> RunEnd
    ensures { result.end ≡ end }
{
    RunEnd {
        counts: Vec::new(alloc),
        logs: Vec::new(alloc),
        end,
    }
}

/// Renders the ticks of an accepted trace again, on one thread: each output gets the bytes of the record that the trace
/// tells. The engines are in clock order, one for each clock that runs, made no tick, and are over this plan, with
/// these clocks, files and start second; the turns are those of this trace. If all ticks were made, the result has the
/// trace's logs and their counts. The run ends at the first fault: each engine has made some of its ticks then.
pub fn replay<O: Sink>(
    alloc: Global,
    plan: &Plan,
    clocks: &ClockMap,
    library: &Library,
    start: WeekSecond,
    engines: &mut [ClockEngine<'_, O>],
    trace: &Trace,
    turns: RecordTurns,
) -> RunEnd
    requires setting { IsSetting (base_of plan.now library.now clocks.now start.second) clocks.now }
    requires trace { IsTrace trace.now }
    requires accepted { IsAccepted (base_of plan.now library.now clocks.now start.second) clocks.now.running
        trace.now.ticks trace.now }
    requires engines { AreEngines O.told trace.now.ticks (base_of plan.now library.now clocks.now start.second)
        engines.old }
    requires all { length engines.old ≡ clocks.now.running }
    requires turns { AreAllTurns (base_of plan.now library.now clocks.now start.second) clocks.now trace.now turns }
    ensures done { result.end ≡ Done
        → HasReplayedAll O.told (base_of plan.now library.now clocks.now start.second) clocks.now.running trace.now
        engines.old engines.new result.counts.items result.logs.items }
    ensures part { HasReplayedSome O.told (base_of plan.now library.now clocks.now start.second) clocks.now.running
        trace.now engines.old engines.new result.end }
{
    let station = Station {
        plan,
        clocks,
        library,
        start,
    };
    let logs = logs_of(trace);
    let RecordTurns {
        mut taps,
        sides,
        turns,
    } = turns;
    match replay_engines(alloc, &station, engines, &mut taps, &sides, &turns, trace) {
        Ok(()) => told_or_ended(alloc, logs),
        Err(end) => ended(alloc, end),
    }
}
