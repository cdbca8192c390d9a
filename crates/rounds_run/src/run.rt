// A run over buffers that are lists.
ghost use Rattle.std.specs.Prelude.{◌≡◌, ◌<◌, ◌≤◌, map, length, IfOk, OnErr};
ghost use Rattle.stream_meaning.specs.Instants.{Setting};
ghost use Rattle.buffer_ends.specs.Local.{all_answers, closed, closed_windows, counts_of};
ghost use Rattle.buffer_ends.specs.declared.run_end.End.TheVariants.{Done, Memory as NoMemory};
ghost use Rattle.rounds_run.specs.Rounds.{KeepNone};
ghost use Rattle.rounds_run.specs.Runs.{AreOver, HasRunAll, HasRunSome};

use crate::rounds::make_rounds;
use buffer_ends::{Counts, End, LocalTaps, RunEnd};
use clock_ticks::ClockEngine;
use liq_base::{Memory, Sink};
use plan_core::Plan;
use std::alloc::Global;

/// Renders `ticks` ticks, at most 1000000000, of each clock, on one thread: tick r of clock 0, of clock 1 and so on,
/// then tick r + 1. The engines are in clock order, made no tick, and are over this plan. Buffers are lists. The run
/// ends at the first fault: no engine goes on after it.
pub fn run_rounds<O: Sink>(
    alloc: Global,
    plan: &Plan,
    engines: &mut [ClockEngine<'_, O>],
    ticks: u64,
) -> RunEnd
    requires engines { (setting : Setting) × AreOver O.told plan.now ticks setting engines.old }
    requires few { ticks ≤ 1000000000 }
    ensures done { result.end ≡ Done → (setting : Setting) → AreOver O.told plan.now ticks setting engines.old
        → HasRunAll O.told setting ticks engines.old engines.new result.counts.items result.logs.items }
    ensures part { (setting : Setting) → AreOver O.told plan.now ticks setting engines.old
        → HasRunSome O.told setting ticks engines.old engines.new result.end }
    ensures memory { KeepNone engines.old → result.end ≡ NoMemory → 0 < length plan.now.buffers }
{
    let Ok(mut taps) = LocalTaps::new(alloc, plan) else {
        return ended(alloc, End::Memory);
    };
    match make_rounds(alloc, engines, &mut taps, ticks) {
        Ok(()) => told_or_ended(alloc, taps, plan.buffers.len()),
        Err(end) => ended(alloc, end),
    }
}

// The result of a run that went through, with the counts and logs of its buffers, as many as `buffers` says. Where
// there is no memory for them, it is the result of a run that ended for want of memory.
fn told_or_ended(alloc: Global, taps: LocalTaps, buffers: usize) -> RunEnd
    requires { buffers ≡ length taps }
    ensures counts { result.end ≡ Done → result.counts.items ≡ map (λ list. counts_of (all_answers list)) taps }
    ensures logs { result.end ≡ Done → result.logs.items ≡ map closed_windows (map closed taps) }
    ensures ended { (result.end ≡ Done → ⊥) → result.end ≡ NoMemory }
    ensures memory { result.end ≡ NoMemory → 0 < length taps }
{
    match told(alloc, taps, buffers) {
        Ok(run) => run,
        Err(_) => ended(alloc, End::Memory),
    }
}

// The result of a run that went through, with the counts and logs of its buffers, as many as `buffers` says. `taps` are
// the ends of the buffers, which have both. `Err` is want of memory for them.
fn told(alloc: Global, mut taps: LocalTaps, buffers: usize) -> Result<RunEnd, Memory>
    requires { buffers ≡ length taps }
    ensures counts { IfOk result (λ run. run.counts.items ≡ map (λ list. counts_of (all_answers list)) taps) }
    ensures logs { IfOk result (λ run. run.logs.items ≡ map closed_windows (map closed taps)) }
    ensures end { IfOk result (λ run. run.end ≡ Done) }
    ensures memory { OnErr result (0 < length taps) }
{
    let counts = count_all(alloc, &taps, buffers)?;
    taps.end_window(alloc)?;
    Ok(RunEnd {
        counts,
        logs: taps.into_logs(),
        end: End::Done,
    })
}

// For each of so many buffers, by its number, how many of its puts and takes went well and how many found it full or
// empty. `taps` are the ends of the buffers, which count them.
fn count_all(alloc: Global, taps: &LocalTaps, buffers: usize) -> Result<Vec<Counts>, Memory>
    requires { buffers ≡ length taps.now }
    ensures counts { IfOk result (λ counts. counts.items ≡ map (λ list. counts_of (all_answers list)) taps.now) }
    ensures memory { OnErr result (0 < buffers) }
{
    let mut counts = Vec::with_capacity(alloc, buffers)?;
    for buffer in 0..buffers {
        let number = u32::try_from(buffer).map_err(|_| Memory)?;
        counts.push(taps.counts(number))?;
    }
    Ok(counts)
}

// The result of a run that was broken off, with this end: it has no counts and no logs.
fn ended(alloc: Global, end: End) -> RunEnd
    ensures { result.end ≡ end }
{
    RunEnd {
        counts: Vec::new(alloc),
        logs: Vec::new(alloc),
        end,
    }
}
