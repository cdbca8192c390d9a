// One window: each task in a thread of its own.
ghost use Rattle.std.specs.Prelude.{◌<◌, ℕ, All, length, slice_index_or};
ghost use Rattle.clock_threads.specs.TaskRuns.{CanRun, WasRun};

use crate::task::Task;
use frame_core::Taps;
use liq_base::{Gate, Sink};
use std::alloc::Global;
use std::thread;
use std::thread::Threads;

/// Makes one window of a run: each task, a clock's engine with its taps, makes `count` ticks on a thread of its own,
/// at the same time as the others.
pub fn run_window<O: Sink + Send, T: Taps + Send, G: Gate + Sync, R: Threads + Sync>(
    rt: &R,
    alloc: Global,
    tasks: &mut [Task<'_, O, T>],
    gate: &G,
    count: u64,
)
    requires some { 0 < length tasks.old }
    requires can { All (CanRun O.told T.buffers count) tasks.old }
    ensures ran { (i : ℕ) (d : _) → i < length tasks.old
        → WasRun O.told T.stands T.buffers T.same count (slice_index_or tasks.old i d) (slice_index_or tasks.new i d) }
{
    thread::for_each_mut(
        rt,
        tasks,
        tasks.len(),
        &|_, task| task.run(alloc, gate, count),
    );
}
