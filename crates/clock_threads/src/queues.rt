// The queues of the buffers.
ghost use Rattle.std.specs.Prelude.{◌<◌, ℕ, length, IfOk};
ghost use Rattle.clock_threads.specs.Wires.{wire_at};
ghost use Rattle.clock_threads.specs.Starts.{AreQueues};

use crate::wires::Wire;
use buffer_queue::{BufferQueue, PutPass, TakePass};
use liq_base::Memory;
use std::alloc::Global;

// Makes an empty queue for each buffer, of the capacity that its wire tells: the queues by the buffers' numbers, and
// the two ends (passes) of each.
pub(crate) fn make_queues(
    alloc: Global,
    wires: &[Wire],
) -> Result<(Vec<BufferQueue>, Vec<(PutPass, TakePass)>), Memory>
    requires { (b : ℕ) → b < length wires.now → 0 < (wire_at wires.now b).capacity }
    ensures { IfOk result (λ r. AreQueues wires.now (length wires.now) r.0.items r.1.items) }
{
    let mut queues = Vec::new(alloc);
    let mut passes = Vec::new(alloc);
    for b in 0..wires.len() {
        let wire = wires[b];
        let (queue, put, take) = BufferQueue::new(alloc, wire.capacity)?;
        queues.push(queue)?;
        passes.push((put, take))?;
    }
    Ok((queues, passes))
}
