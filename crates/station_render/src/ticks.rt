// The engines of a job make their ticks.
ghost use Rattle.std.specs.Prelude.{◌<◌};
ghost use Rattle.stations.specs.Stations.{InRounds, InWindows, Again};
ghost use Rattle.station_render.specs.Runs.{IsFitting, setting_by};
ghost use Rattle.station_render.specs.Stages.{AreReady, HaveTicked};
ghost use Rattle.trace_log.specs.Texts.{IsTrace};
ghost use Rattle.trace_replay.specs.RecordTurns.{AreAllTurns};
ghost use Rattle.trace_records.specs.Traces.{IsAccepted};

use crate::Job;
use buffer_ends::RunEnd;
use clock_threads::run_threads;
use clock_ticks::ClockEngine;
use liq_base::{Gate, Sink};
use rounds_run::run_rounds;
use std::alloc::Global;
use std::sync::Wait;
use std::thread::Threads;
use trace_log::Trace;
use trace_replay::{RecordTurns, replay};

/// Runs the engines of a job on threads, one for each clock, in windows of `window` ticks. Each clock enters the
/// `gate` before each tick. It answers the engines and how the run ended.
pub(crate) fn tick_by_threads<'a, O: Sink + Send, G: Gate + Sync, R: Threads + Wait + Sync>(
    rt: &R,
    alloc: Global,
    job: &'a Job<'_>,
    window: u64,
    gate: &G,
    engines: Vec<ClockEngine<'a, O>>,
) -> (Vec<ClockEngine<'a, O>>, RunEnd)
    requires fit { IsFitting job.now }
    requires some { 0 < window }
    requires ready { AreReady O.told job.now engines.items }
    ensures ticked { HaveTicked O.told job.now (InWindows window) engines.entry.items result.0.items result.1 }
{
    run_threads(
        rt,
        alloc,
        &job.plan,
        &job.ready.clocks,
        engines,
        job.ticks,
        window,
        gate,
    )
}

/// Runs the engines of a job on one thread, in rounds over all clocks. It answers the engines and how the run ended.
pub(crate) fn tick_in_rounds<'a, O: Sink>(
    alloc: Global,
    job: &'a Job<'_>,
    engines: Vec<ClockEngine<'a, O>>,
) -> (Vec<ClockEngine<'a, O>>, RunEnd)
    requires fit { IsFitting job.now }
    requires ready { AreReady O.told job.now engines.items }
    ensures ticked { HaveTicked O.told job.now InRounds engines.entry.items result.0.items result.1 }
{
    let mut engines = engines;
    let run = run_rounds(alloc, &job.plan, &mut engines, job.ticks);
    (engines, run)
}

/// Runs the engines of a job on one thread, in the turns of a trace's record: in each turn one clock makes some
/// ticks. It answers the engines and how the run ended.
pub(crate) fn tick_again<'a, O: Sink>(
    alloc: Global,
    job: &'a Job<'_>,
    trace: &Trace,
    turns: RecordTurns,
    engines: Vec<ClockEngine<'a, O>>,
) -> (Vec<ClockEngine<'a, O>>, RunEnd)
    requires fit { IsFitting job.now }
    requires trace { IsTrace trace.now }
    requires accepted { IsAccepted (setting_by job.now) job.now.ready.clocks.running job.now.ticks trace.now }
    requires turns { AreAllTurns (setting_by job.now) job.now.ready.clocks trace.now turns }
    requires ready { AreReady O.told job.now engines.items }
    ensures ticked { HaveTicked O.told job.now (Again trace.now) engines.entry.items result.0.items result.1 }
{
    let mut engines = engines;
    let run = replay(
        alloc,
        &job.plan,
        &job.ready.clocks,
        &job.ready.library,
        job.start,
        &mut engines,
        trace,
        turns,
    );
    (engines, run)
}
