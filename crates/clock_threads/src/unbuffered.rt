// The run over a plan without buffers: of the engines themselves.
ghost use Rattle.std.specs.Prelude.{◌≡◌, ◌≢◌, ◌<◌, ◌≤◌, true, All, length};
ghost use Rattle.buffer_ends.specs.declared.run_end.End.TheVariants.{Done, Memory};
ghost use Rattle.clock_infer.specs.declared.clock_map.ClockMap.{ClockMap as Map};
ghost use Rattle.plan_core.specs.declared.plan.Plan.{Plan as ThePlan};
ghost use Rattle.stream_meaning.specs.Instants.{Setting};
ghost use Rattle.clock_threads.specs.ThreadRuns.{AreEngines, HasRunAll, HasRunSome};
ghost use Rattle.clock_threads.specs.Unbuffered.{AreUnbuffered};

use crate::unbuffered_windows::run_unbuffered_windows;
use crate::wired::ended;
use buffer_ends::RunEnd;
use clock_ticks::ClockEngine;
use liq_base::{Gate, Sink};
use std::alloc::Global;
use std::thread::Threads;

// All clocks make `ticks` ticks, in windows of `window` ticks, over a plan without buffers; the gate is entered before
// each tick. The answer is the end alone: there are no counts and logs. Where no engine keeps its marks of tracks, the
// run takes no memory.
pub(crate) fn run_unbuffered<O: Sink + Send, G: Gate + Sync, R: Threads + Sync>(
    rt: &R,
    alloc: Global,
    engines: &mut [ClockEngine<'_, O>],
    ticks: u64,
    window: u64,
    gate: &G,
) -> RunEnd
    requires some { 0 < length engines.old }
    requires engines { AreUnbuffered O.told ticks engines.old }
    requires few { ticks ≤ 1000000000 }
    requires window { 0 < window }
    ensures many { length engines.new ≡ length engines.old }
    ensures done { result.end ≡ Done → (plan : ThePlan) (setting : Setting) (clocks : Map) → length plan.buffers ≡ 0
        → AreEngines O.told plan clocks ticks setting engines.old
        → HasRunAll O.told setting clocks window ticks engines.old engines.new result.counts.items result.logs.items }
    ensures part { (plan : ThePlan) (setting : Setting) (clocks : Map) → length plan.buffers ≡ 0
        → AreEngines O.told plan clocks ticks setting engines.old
        → HasRunSome O.told setting clocks window ticks engines.old engines.new result.end }
    ensures memory { All (λ engine. engine.parts.cues.keeping ≡ true → ⊥) engines.old → result.end ≢ Memory }
{
    ended(
        alloc,
        run_unbuffered_windows(rt, alloc, engines, ticks, window, gate),
    )
}
