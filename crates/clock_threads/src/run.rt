// The run of a plan's clocks.
ghost use Rattle.std.specs.Prelude.{◌≡◌, ◌<◌, ◌≤◌, true, All, length};
ghost use Rattle.buffer_ends.specs.declared.run_end.End.TheVariants.{Done, Memory as NoMemory};
ghost use Rattle.stream_meaning.specs.Instants.{Setting};
ghost use Rattle.clock_threads.specs.ThreadRuns.{AreAlike, AreEngines, HasRunAll, HasRunSome};

use crate::unbuffered::run_unbuffered;
use crate::wired::{ended, run_wired};
use crate::wires::wires_of;
use buffer_ends::{End, RunEnd};
use clock_infer::ClockMap;
use clock_ticks::ClockEngine;
use liq_base::{Gate, Sink};
use plan_core::Plan;
use std::alloc::Global;
use std::sync::Wait;
use std::thread::Threads;

/// Renders `ticks` ticks, at most 1000000000, of each clock, by a thread for each clock, in windows of `window` ticks,
/// at least one. The engines are those of all running clocks of this plan, in clock order, and made no tick; before
/// each tick the gate is entered. A clock that stops does so at its tick; the others end their window, and no further
/// one begins. The same engines come back in the same order, whatever the end is. Where a sink refused bytes, the end
/// names the lowest clock that stopped. On a plan without buffers, where no engine keeps its marks, it takes no memory.
pub fn run_threads<'a, O: Sink + Send, G: Gate + Sync, R: Threads + Wait + Sync>(
    rt: &R,
    alloc: Global,
    plan: &'a Plan,
    clocks: &'a ClockMap,
    engines: Vec<ClockEngine<'a, O>>,
    ticks: u64,
    window: u64,
    gate: &G,
) -> (Vec<ClockEngine<'a, O>>, RunEnd)
    requires engines { AreAlike O.told plan.now clocks.now ticks engines.items }
    requires few { ticks ≤ 1000000000 }
    requires window { 0 < window }
    ensures many { length result.0.items ≡ length engines.entry.items }
    ensures done { result.1.end ≡ Done → (setting : Setting)
        → AreEngines O.told plan.now clocks.now ticks setting engines.entry.items
        → HasRunAll O.told setting clocks.now window ticks engines.entry.items result.0.items result.1.counts.items
        result.1.logs.items }
    ensures part { (setting : Setting) → AreEngines O.told plan.now clocks.now ticks setting engines.entry.items
        → HasRunSome O.told setting clocks.now window ticks engines.entry.items result.0.items result.1.end }
    ensures memory { All (λ engine. engine.parts.cues.keeping ≡ true → ⊥) engines.entry.items → result.1.end ≡ NoMemory
        → 0 < length plan.now.buffers }
{
    if engines.is_empty() {
        return (engines, ended(alloc, End::Done));
    }
    let mut engines = engines;
    if plan.buffers.len() == 0 {
        let end = run_unbuffered(rt, alloc, &mut engines, ticks, window, gate);
        return (engines, end);
    }
    let Ok(wires) = wires_of(alloc, plan, clocks) else {
        return (engines, ended(alloc, End::Memory));
    };
    let end = run_wired(
        rt,
        alloc,
        plan,
        wires.as_slice(),
        &mut engines,
        ticks,
        window,
        gate,
    );
    (engines, end)
}
