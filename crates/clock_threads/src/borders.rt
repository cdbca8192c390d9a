// Between two windows.
ghost use Rattle.std.specs.Prelude.{◌≡◌, ◌≢◌, ◌<◌, ◌++◌, ◌∷◌, [], length, slice_index_or, is_ok, true, OnOk};
ghost use Rattle.buffer_ends.specs.Borders.{HaveEnds};
ghost use Rattle.buffer_ends.specs.Sides.{Falling};
ghost use Rattle.clock_threads.specs.Ends.{AllClosed, AllShut, GiverClosed, JoinClosed, MayClose, WasLent, WasPutBack};
ghost use Rattle.clock_threads.specs.Records.{AllEndedTasks, HaveLists, ListClosed, SameEngines};

use crate::task::Task;
use crate::wires::Wire;
use buffer_ends::{BufferLog, TakeEnd, ThreadTaps, WindowLog};
use liq_base::Memory;
use std::alloc::Global;

// Moves out of a task the ends of buffers at which it takes, so that windows can be closed with them at the tasks that
// put. `put_back` returns them.
fn lent<'a, O, R>(alloc: Global, task: &mut Task<'_, O, ThreadTaps<'a, R>>) -> Vec<TakeEnd<'a>>
    ensures { WasLent task.old task.new result.items }
{
    task.taps.lend_takes(alloc)
}

// Moves the ends of buffers at which a task takes back into it, after windows were closed with them.
fn put_back<'a, O, R>(task: &mut Task<'_, O, ThreadTaps<'a, R>>, takes: Vec<TakeEnd<'a>>)
    requires { Falling takes.items }
    ensures { WasPutBack task.old task.new takes.entry.items }
{
    task.taps.put_back(takes);
}

// Closes the window of a buffer that two clocks share, and returns the answers of its puts and takes in it. `task` is
// of the clock that puts; `takes` are the taking ends of the other clock's task, lent for this.
fn close_giver<O, R>(
    alloc: Global,
    task: &mut Task<'_, O, ThreadTaps<'_, R>>,
    takes: &mut Vec<TakeEnd<'_>>,
    buffer: u32,
) -> WindowLog
    requires ends { HaveEnds task.old.taps.puts.items takes.old.items buffer }
    requires falling { Falling takes.old.items }
    ensures { GiverClosed buffer task.old task.new takes.old.items takes.new.items result }
{
    task.taps.close_with(alloc, takes, buffer)
}

// Closes the window of a buffer that clock `from` fills and another clock, `to`, reads; both are places in `tasks`.
// Returns the answers of the puts and takes in the window. The reader's ends are lent out for it, as only one task can
// be borrowed at a time.
fn close_join<O, R>(
    alloc: Global,
    tasks: &mut [Task<'_, O, ThreadTaps<'_, R>>],
    from: usize,
    to: usize,
    buffer: u32,
) -> WindowLog
    requires places { (from < length tasks.old) × (to < length tasks.old) × (from ≢ to) }
    requires ends { (d e : _)
        → HaveEnds (slice_index_or tasks.old from d).taps.puts.items (slice_index_or tasks.old to e).taps.takes.items
        buffer }
    ensures { JoinClosed from to buffer tasks.old tasks.new result }
{
    let mut takes = lent(alloc, &mut tasks[to]);
    let log = close_giver(alloc, &mut tasks[from], &mut takes, buffer);
    put_back(&mut tasks[to], takes);
    log
}

// Adds the answers of one window to a buffer's log. `kept` is the outcome for the buffers before it: if memory was
// refused there, nothing is added, and that refusal is answered.
fn add_window(
    kept: Result<(), Memory>,
    log: &mut BufferLog,
    window: WindowLog,
) -> Result<(), Memory>
    ensures { OnOk result ((is_ok kept ≡ true) × (log.new ≡ log.old ++ window ∷ [])) }
{
    kept?;
    log.windows.push(window)?;
    Ok(())
}

// Closes the window of each buffer between two clocks, and adds its answers to the buffer's log; `wires` and `logs`
// have one for each buffer. Once memory is refused, the windows are closed still, but no more answers are kept.
pub(crate) fn close_joins<O, R>(
    alloc: Global,
    tasks: &mut [Task<'_, O, ThreadTaps<'_, R>>],
    wires: &[Wire],
    logs: &mut [BufferLog],
) -> Result<(), Memory>
    requires may { MayClose wires.now tasks.old }
    requires logs { length logs.old ≡ length wires.now }
    ensures shut { AllShut wires.now tasks.old tasks.new }
    ensures closed { OnOk result (AllClosed wires.now tasks.old tasks.new logs.old logs.new) }
    ensures engines { SameEngines tasks.old tasks.new }
{
    let mut kept = Ok(());
    for b in 0..wires.len() {
        let wire = wires[b];
        if wire.from == wire.to {
            continue;
        }
        let window = close_join(alloc, tasks, wire.from as usize, wire.to as usize, b as u32);
        kept = add_window(kept, &mut logs[b], window);
    }
    kept
}

// Closes the window of a buffer with both ends in one clock, in that clock's task. The window's answers are kept in the
// task's list of this buffer.
fn close_list<O, R>(
    alloc: Global,
    task: &mut Task<'_, O, ThreadTaps<'_, R>>,
    buffer: u32,
) -> Result<(), Memory>
    requires { buffer < length task.old.taps.local }
    ensures closed { OnOk result (ListClosed buffer task.old task.new) }
    ensures engine { task.new.engine ≡ task.old.engine }
{
    task.taps.close_list(alloc, buffer)
}

// Closes the window of each buffer with both ends in one clock, whose answers stay in the clock's list.
pub(crate) fn close_lists<O, R>(
    alloc: Global,
    wires: &[Wire],
    tasks: &mut [Task<'_, O, ThreadTaps<'_, R>>],
) -> Result<(), Memory>
    requires { HaveLists wires.now tasks.old }
    ensures ended { OnOk result (AllEndedTasks wires.now tasks.old tasks.new) }
    ensures engines { SameEngines tasks.old tasks.new }
{
    for b in 0..wires.len() {
        let wire = wires[b];
        if wire.from != wire.to {
            continue;
        }
        close_list(alloc, &mut tasks[wire.from as usize], b as u32)?;
    }
    Ok(())
}
