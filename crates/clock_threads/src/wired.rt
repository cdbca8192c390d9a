// The run over wires.
ghost use Rattle.std.specs.Prelude.{◌≡◌, ◌⊎◌, ◌<◌, ◌≤◌, ℕ, [], length, map};
ghost use Rattle.buffer_ends.specs.declared.run_end.End.TheVariants.{Done, Write};
ghost use Rattle.clock_threads.specs.Logs.{AreNoLogs, counts_in};
ghost use Rattle.clock_threads.specs.Starts.{AreQueues};
ghost use Rattle.clock_threads.specs.EngineTasks.{AreTasks, engine_of};
ghost use Rattle.clock_infer.specs.declared.clock_map.ClockMap.{ClockMap as Map};
ghost use Rattle.stream_meaning.specs.Instants.{Setting};
ghost use Rattle.clock_threads.specs.ThreadRuns.{HasRunAll, HasRunSome};
ghost use Rattle.clock_threads.specs.WiredRuns.{AreFresh, AreLaid, AreSomeFresh, HasRunTasks};

use crate::counts::count_logs;
use crate::joins::join_all;
use crate::logs::no_logs;
use crate::queues::make_queues;
use crate::task::Task;
use crate::tasks::{engines_of, tasks_of};
use crate::windows::run_windows;
use crate::wires::Wire;
use buffer_ends::{BufferLog, End, RunEnd, ThreadTaps};
use buffer_queue::{BufferQueue, PutPass, TakePass};
use clock_ticks::ClockEngine;
use liq_base::{Gate, Memory, Sink};
use plan_core::Plan;
use std::alloc::Global;
use std::sync::Wait;
use std::thread::Threads;

// Runs the tasks of all clocks over `wires`, the two clocks of each buffer. It hands each task the ends of its buffers'
// queues, by `passes`, and makes all `ticks` ticks in windows of `window`. The answers go to `logs`.
fn run_tasks<'q, O: Sink + Send, G: Gate + Sync, R: Threads + Wait + Sync>(
    rt: &R,
    alloc: Global,
    plan: &Plan,
    wires: &[Wire],
    queues: &'q Vec<BufferQueue>,
    passes: Vec<(PutPass, TakePass)>,
    tasks: &mut [Task<'_, O, ThreadTaps<'q, R>>],
    logs: &mut [BufferLog],
    ticks: u64,
    window: u64,
    gate: &G,
) -> End
    requires some { 0 < length tasks.old }
    requires queues { AreQueues wires.now (length wires.now) queues.now.items passes.items }
    requires wires { AreLaid plan.now (length tasks.old) wires.now }
    requires tasks { AreTasks plan.now (map engine_of tasks.old) tasks.old }
    requires fresh { AreSomeFresh O.told plan.now wires.now ticks (map engine_of tasks.old) }
    requires logs { AreNoLogs (length wires.now) logs.old }
    requires few { ticks ≤ 1000000000 }
    requires window { 0 < window }
    ensures many { length tasks.new ≡ length tasks.old }
    ensures done { result ≡ Done → (setting : Setting) (clocks : Map)
        → AreFresh O.told plan.now wires.now ticks setting clocks (map engine_of tasks.old)
        → HasRunTasks O.told wires.now setting clocks window ticks (map engine_of tasks.old) tasks.new logs.new }
    ensures part { (setting : Setting) (clocks : Map)
        → AreFresh O.told plan.now wires.now ticks setting clocks (map engine_of tasks.old)
        → HasRunSome O.told setting clocks window ticks (map engine_of tasks.old) (map engine_of tasks.new) result }
{
    if let Err(Memory) = join_all(wires, queues, passes, tasks) {
        return End::Memory;
    }
    run_windows(rt, alloc, wires, tasks, logs, ticks, window, gate)
}

// The result of a run with this end, without counts and logs.
pub(crate) fn ended(alloc: Global, end: End) -> RunEnd
    ensures end { result.end ≡ end }
    ensures none { (result.counts.items ≡ []) × (result.logs.items ≡ []) }
{
    RunEnd {
        counts: Vec::new(alloc),
        logs: Vec::new(alloc),
        end,
    }
}

// The result of a run that ended with `end`: if it is done, its logs and the counts of their answers, and otherwise
// only its end. If memory for the counts is refused, the end is that.
fn told(alloc: Global, logs: Vec<BufferLog>, end: End) -> RunEnd
    ensures done { result.end ≡ Done → (end ≡ Done) × (result.logs.items ≡ logs.items)
        × (result.counts.items ≡ map counts_in logs.items) }
    ensures write { (clock sink : ℕ) → result.end ≡ Write clock sink → end ≡ Write clock sink }
{
    if end != End::Done {
        return ended(alloc, end);
    }
    match count_logs(alloc, logs.as_slice()) {
        Ok(counts) => RunEnd { counts, logs, end },
        Err(_) => ended(alloc, End::Memory),
    }
}

// All clocks make `ticks` ticks in windows of `window` ticks, over `wires`: for each buffer, the clock that fills it
// and the one that reads it. The engines come back in `engines`, whatever the end is.
pub(crate) fn run_wired<'a, O: Sink + Send, G: Gate + Sync, R: Threads + Wait + Sync>(
    rt: &R,
    alloc: Global,
    plan: &Plan,
    wires: &[Wire],
    engines: &mut Vec<ClockEngine<'a, O>>,
    ticks: u64,
    window: u64,
    gate: &G,
) -> RunEnd
    requires some { 0 < length engines.old.items }
    requires wires { AreLaid plan.now (length engines.old.items) wires.now }
    requires fresh { AreSomeFresh O.told plan.now wires.now ticks engines.old.items }
    requires few { ticks ≤ 1000000000 }
    requires window { 0 < window }
    ensures many { length engines.new.items ≡ length engines.old.items }
    ensures done { result.end ≡ Done → (setting : Setting) (clocks : Map)
        → AreFresh O.told plan.now wires.now ticks setting clocks engines.old.items
        → HasRunAll O.told setting clocks window ticks engines.old.items engines.new.items result.counts.items
        result.logs.items }
    ensures part { (setting : Setting) (clocks : Map)
        → AreFresh O.told plan.now wires.now ticks setting clocks engines.old.items
        → HasRunSome O.told setting clocks window ticks engines.old.items engines.new.items result.end }
{
    let Ok(mut logs) = no_logs(alloc, wires.len()) else {
        return ended(alloc, End::Memory);
    };
    let Ok((queues, passes)) = make_queues(alloc, wires) else {
        return ended(alloc, End::Memory);
    };
    let Ok(mut tasks) = tasks_of(rt, alloc, plan, engines) else {
        return ended(alloc, End::Memory);
    };
    let end = run_tasks(
        rt,
        alloc,
        plan,
        wires,
        &queues,
        passes,
        tasks.as_mut_slice(),
        logs.as_mut_slice(),
        ticks,
        window,
        gate,
    );
    engines_of(wires, tasks, logs.as_mut_slice(), engines);
    told(alloc, logs, end)
}
