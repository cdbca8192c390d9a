// All windows of a run without buffers.
ghost use Rattle.std.specs.Prelude.{◌≡◌, ◌≢◌, ◌<◌, ◌≤◌, ℕ, [], None, true, All, length, slice_index_or, IfNone, IfSome};
ghost use Rattle.buffer_ends.specs.declared.run_end.End.TheVariants.{Done, Memory, Write};
ghost use Rattle.clock_threads.specs.UnbufferedTasks.{unbuffered_tasks};
ghost use Rattle.clock_threads.specs.WindowRuns.{IsReady, IsToldByLowest, IsWriteAt, RunDone, RunPart};

use crate::unbuffered_window::run_unbuffered_window;
use crate::windows::end_of;
use buffer_ends::End;
use clock_ticks::ClockEngine;
use liq_base::{Gate, Sink};
use std::alloc::Global;
use std::thread::Threads;

// How the run ends, if an engine stopped: by the fault of the first engine that did, which is of the clock with the
// lowest number; `None` if none did.
fn stopped_among<O>(engines: &[ClockEngine<'_, O>]) -> Option<End>
    ensures none { IfNone result ((k : ℕ) (d : _) → k < length engines.now
        → (slice_index_or engines.now k d).parts.stopped ≡ None) }
    ensures some { IfSome result (IsToldByLowest (unbuffered_tasks engines.now)) }
{
    for k in 0..engines.len() {
        if let Some(fault) = engines[k].stopped() {
            return Some(end_of(engines[k].clock(), fault));
        }
    }
    None
}

/// All engines make `ticks` ticks over a plan without buffers, in windows of `window` ticks; the gate is entered before
/// each tick. After a window in which an engine stopped, no further one begins. Where no engine keeps its marks of
/// tracks, it takes no memory.
pub fn run_unbuffered_windows<O: Sink + Send, G: Gate + Sync, R: Threads + Sync>(
    rt: &R,
    alloc: Global,
    engines: &mut [ClockEngine<'_, O>],
    ticks: u64,
    window: u64,
    gate: &G,
) -> End
    requires ready { IsReady O.told [] window ticks (unbuffered_tasks engines.old) [] }
    requires few { ticks ≤ 1000000000 }
    requires window { 0 < window }
    ensures many { length engines.new ≡ length engines.old }
    ensures done { result ≡ Done
        → RunDone O.told [] window ticks (unbuffered_tasks engines.old) (unbuffered_tasks engines.new) [] }
    ensures part { RunPart O.told [] window ticks (unbuffered_tasks engines.old) (unbuffered_tasks engines.new) }
    ensures write { (clock sink : ℕ) → result ≡ Write clock sink
        → IsWriteAt O.told clock sink (unbuffered_tasks engines.old) (unbuffered_tasks engines.new) }
    ensures memory { All (λ engine. engine.parts.cues.keeping ≡ true → ⊥) engines.old → result ≢ Memory }
{
    let mut made = 0;
    while made < ticks {
        let count = window.min(ticks - made);
        run_unbuffered_window(rt, alloc, engines, gate, count);
        if let Some(end) = stopped_among(engines) {
            return end;
        }
        made += count;
    }
    End::Done
}
