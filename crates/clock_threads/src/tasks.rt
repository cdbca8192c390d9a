// Engines into tasks, and out of them.
ghost use Rattle.std.specs.Prelude.{◌≡◌, ◌≤◌, ◌+◌, ◌++◌, ℕ, [], length, map, vec_capacity, OnOk, IfOk, OnErr};
ghost use Rattle.plan_core.specs.declared.plan.Plan.{Plan as ThePlan};
ghost use Rattle.clock_threads.specs.Logs.{AreCollected};
ghost use Rattle.clock_threads.specs.EngineTasks.{AreLocals, AreTasks, engine_of};

use crate::logs::take_logs;
use crate::task::Task;
use crate::wires::Wire;
use buffer_ends::{BufferLog, LocalTaps, ThreadTaps};
use clock_ticks::ClockEngine;
use liq_base::Memory;
use plan_core::Plan;
use std::alloc::Global;

// For each of `count` clocks, a list for each buffer of the plan, with no put or take yet. A clock uses those of the
// buffers with both ends in it.
fn locals_of(alloc: Global, plan: &Plan, count: usize) -> Result<Vec<LocalTaps>, Memory>
    ensures { IfOk result (λ locals. AreLocals plan.now count locals.items) }
{
    let mut locals = Vec::new(alloc);
    for _ in 0..count {
        locals.push(LocalTaps::new(alloc, plan)?)?;
    }
    Ok(locals)
}

// Takes all engines out of `engines` and makes a task of each, in the same order: the engine with taps that have no
// ends of queues yet. If memory is refused, the engines stay where they are.
pub(crate) fn tasks_of<'a, 'q, O, R>(
    rt: &'q R,
    alloc: Global,
    plan: &Plan,
    engines: &mut Vec<ClockEngine<'a, O>>,
) -> Result<Vec<Task<'a, O, ThreadTaps<'q, R>>>, Memory>
    ensures tasks { IfOk result (λ tasks. AreTasks plan.now engines.old.items tasks.items) }
    ensures room { OnOk result ((engines.new.items ≡ []) × (length engines.old.items ≤ vec_capacity engines.new)) }
    ensures kept { OnErr result (engines.new.items ≡ engines.old.items) }
{
    let count = engines.len();
    let mut locals = locals_of(alloc, plan, count)?;
    let mut tasks = Vec::with_capacity(alloc, count)?;
    for _ in 0..count {
        let engine = engines.remove(0);
        let local = locals.remove(0);
        tasks.push_reserved(Task {
            engine,
            taps: ThreadTaps::new(rt, local, Vec::new(alloc), Vec::new(alloc)),
        });
    }
    Ok(tasks)
}

// Takes the tasks apart after a run, and puts their engines back into `engines`, in the same order. The answers of each
// buffer with both ends in one clock are moved to `logs`. `wires` has the two clocks of each buffer. The ends at queues
// are dropped.
pub(crate) fn engines_of<'a, O, R>(
    wires: &[Wire],
    tasks: Vec<Task<'a, O, ThreadTaps<'_, R>>>,
    logs: &mut [BufferLog],
    engines: &mut Vec<ClockEngine<'a, O>>,
)
    requires none { engines.old.items ≡ [] }
    requires room { length tasks.items ≤ vec_capacity engines.old }
    ensures engines { engines.new.items ≡ map engine_of tasks.entry.items }
    ensures logs { AreCollected wires.now tasks.entry.items logs.old logs.new }
{
    let mut tasks = tasks;
    let count = tasks.len();
    for k in 0..count {
        let Task { engine, taps } = tasks.remove(0);
        let (local, puts, takes) = taps.into_parts();
        drop(puts);
        drop(takes);
        take_logs(wires, k, local.into_logs(), logs);
        engines.push_reserved(engine);
    }
    tasks.destroy_empty();
}
