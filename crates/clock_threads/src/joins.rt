// The ends are handed out to the clocks.
ghost use Rattle.std.specs.Prelude.{◌≡◌, ◌≢◌, ◌<◌, ◌^◌, ℕ, length, slice_index_or, OnOk, OnErr};
ghost use Rattle.clock_threads.specs.Wires.{wire_at};
ghost use Rattle.clock_threads.specs.Records.{SameEngines};
ghost use Rattle.clock_threads.specs.Starts.{AreQueues, AreBare, AreJoined, PutAdded, TakeAdded, BothAdded};

use crate::task::Task;
use crate::wires::Wire;
use buffer_ends::{PutEnd, TakeEnd, ThreadTaps};
use buffer_queue::{BufferQueue, PutPass, TakePass};
use liq_base::Memory;
use std::alloc::Global;

// Adds to a clock's task an end at which it puts. Its buffer has a lower number than those of the ends before, as the
// ends are handed out from the last buffer to the first.
fn add_put<'q, O, R>(
    task: &mut Task<'_, O, ThreadTaps<'q, R>>,
    end: PutEnd<'q>,
) -> Result<(), Memory>
    requires { (k : ℕ) (d : _) → k < length task.old.taps.puts.items
        → end.buffer < (slice_index_or task.old.taps.puts.items k d).buffer }
    ensures added { OnOk result (PutAdded task.old task.new end.entry) }
    ensures engine { task.new.engine ≡ task.old.engine }
{
    task.taps.add_put(end)
}

// Adds to a clock's task an end at which it takes. Its buffer has a lower number than those of the ends before, as the
// ends are handed out from the last buffer to the first.
fn add_take<'q, O, R>(
    task: &mut Task<'_, O, ThreadTaps<'q, R>>,
    end: TakeEnd<'q>,
) -> Result<(), Memory>
    requires { (k : ℕ) (d : _) → k < length task.old.taps.takes.items
        → end.buffer < (slice_index_or task.old.taps.takes.items k d).buffer }
    ensures added { OnOk result (TakeAdded task.old task.new end.entry) }
    ensures engine { task.new.engine ≡ task.old.engine }
{
    task.taps.add_take(end)
}

// Hands the ends of a buffer to two clocks: `put` to clock `from`, which fills it, and `take` to clock `to`, which
// reads it. A clock's number is its task's place in `tasks`.
fn join_one<'q, O, R>(
    tasks: &mut [Task<'_, O, ThreadTaps<'q, R>>],
    from: usize,
    to: usize,
    put: PutEnd<'q>,
    take: TakeEnd<'q>,
) -> Result<(), Memory>
    requires places { (from < length tasks.old) × (to < length tasks.old) × (from ≢ to) }
    requires put_last { (d : _) (k : ℕ) (e : _) → k < length (slice_index_or tasks.old from d).taps.puts.items
        → put.buffer < (slice_index_or (slice_index_or tasks.old from d).taps.puts.items k e).buffer }
    requires take_last { (d : _) (k : ℕ) (e : _) → k < length (slice_index_or tasks.old to d).taps.takes.items
        → take.buffer < (slice_index_or (slice_index_or tasks.old to d).taps.takes.items k e).buffer }
    ensures added { OnOk result (BothAdded from to put.entry take.entry tasks.old tasks.new) }
    ensures engines { SameEngines tasks.old tasks.new }
{
    add_put(&mut tasks[from], put)?;
    add_take(&mut tasks[to], take)?;
    Ok(())
}

// Hands both ends of the queue of each buffer that joins two clocks to the tasks of these clocks, the last buffer
// first. `passes` are the rights to put and to take at each queue. Those of a buffer within one clock are dropped: it
// is kept as a list, and its queue stays unused.
pub(crate) fn join_all<'q, O, R>(
    wires: &[Wire],
    queues: &'q Vec<BufferQueue>,
    passes: Vec<(PutPass, TakePass)>,
    tasks: &mut [Task<'_, O, ThreadTaps<'q, R>>],
) -> Result<(), Memory>
    requires queues { AreQueues wires.now (length wires.now) queues.now.items passes.items }
    requires bare { AreBare tasks.old }
    requires places { (b : ℕ) → b < length wires.now
        → (wire_at wires.now b).from < length tasks.old × ((wire_at wires.now b).to < length tasks.old) }
    requires few { length wires.now < 2 ^ 32 }
    ensures joined { OnOk result (AreJoined wires.now 0 tasks.old tasks.new) }
    ensures engines { SameEngines tasks.old tasks.new }
{
    let mut passes = passes;
    while let Some((put, take)) = passes.pop() {
        let b = passes.len();
        let wire = wires[b];
        if wire.from == wire.to {
            continue;
        }
        let queue = &queues[b];
        let put = PutEnd::new(b as u32, queue, put);
        let take = TakeEnd::new(b as u32, queue, take);
        join_one(tasks, wire.from as usize, wire.to as usize, put, take)?;
    }
    Ok(())
}
