// All windows of a run.
ghost use Rattle.std.specs.Prelude.{◌≡◌, ◌<◌, ◌≤◌, ◌^◌, ℕ, None, length, slice_index_or, OnOk, OnErr, IfNone, IfSome};
ghost use Rattle.buffer_ends.specs.declared.run_end.End.TheVariants.{Done, Write};
ghost use Rattle.clock_threads.specs.Wires.{wire_at};
ghost use Rattle.run_records.specs.Records.{start};
ghost use Rattle.clock_threads.specs.Records.{Going};
ghost use Rattle.clock_threads.specs.WindowRuns.{IsReady, IsToldByLowest, IsWriteAt, RunDone, RunPart, end_by};

use crate::borders::{close_joins, close_lists};
use crate::task::Task;
use crate::window::run_window;
use crate::wires::Wire;
use buffer_ends::{BufferLog, End, ThreadTaps};
use clock_ticks::TickFault;
use liq_base::{Gate, Memory, Sink};
use std::alloc::Global;
use std::sync::Wait;
use std::thread::Threads;

// How a run ends that this fault of main clock `clock` stopped: by the clock and sink whose bytes were refused, or for
// want of memory.
pub(crate) fn end_of(clock: u32, fault: TickFault) -> End
    ensures { result ≡ end_by clock fault }
{
    match fault {
        TickFault::Write { sink } => End::Write { clock, sink },
        TickFault::Memory => End::Memory,
    }
}

// How the run ends, if the engine of a task stopped: by the fault of the clock with the lowest number that did; `None`
// if none did.
fn stopped_in<O, R>(tasks: &[Task<'_, O, ThreadTaps<'_, R>>]) -> Option<End>
    ensures none { IfNone result ((k : ℕ) (d : _) → k < length tasks.now
        → (slice_index_or tasks.now k d).engine.parts.stopped ≡ None) }
    ensures some { IfSome result (IsToldByLowest tasks.now) }
{
    for k in 0..tasks.len() {
        if let Some(fault) = tasks[k].engine.stopped() {
            return Some(end_of(tasks[k].engine.clock(), fault));
        }
    }
    None
}

// Tells the gate, which each clock enters before a tick, which pairs of clocks a buffer joins.
fn tell_joins<G: Gate>(wires: &[Wire], gate: &G) {
    for wire in wires {
        if wire.from != wire.to {
            gate.join(wire.from, wire.to);
        }
    }
}

/// All clocks make `ticks` ticks, in windows of `window` ticks; the gate is told first which clocks a buffer joins.
/// After each window the answers of the buffers go to `logs` and to the tasks' lists. It ends early where a clock
/// stopped or memory is refused.
pub fn run_windows<O: Sink + Send, G: Gate + Sync, R: Threads + Wait + Sync>(
    rt: &R,
    alloc: Global,
    wires: &[Wire],
    tasks: &mut [Task<'_, O, ThreadTaps<'_, R>>],
    logs: &mut [BufferLog],
    ticks: u64,
    window: u64,
    gate: &G,
) -> End
    requires ready { IsReady O.told wires.now window ticks tasks.old logs.old }
    requires few { ticks ≤ 1000000000 }
    requires window { 0 < window }
    ensures done { result ≡ Done → RunDone O.told wires.now window ticks tasks.old tasks.new logs.new }
    ensures part { RunPart O.told wires.now window ticks tasks.old tasks.new }
    ensures write { (clock sink : ℕ) → result ≡ Write clock sink → IsWriteAt O.told clock sink tasks.old tasks.new }
{
    tell_joins(wires, gate);
    let mut made = 0;
    while made < ticks {
        let count = window.min(ticks - made);
        run_window(rt, alloc, tasks, gate, count);
        let stopped = stopped_in(tasks);
        // At a stop the windows are closed too: so what was answered until then is known to be legal.
        let kept = close_joins(alloc, tasks, wires, logs);
        if let Some(end) = stopped {
            return end;
        }
        if let Err(Memory) = kept {
            return End::Memory;
        }
        if let Err(Memory) = close_lists(alloc, wires, tasks) {
            return End::Memory;
        }
        made += count;
    }
    End::Done
}
