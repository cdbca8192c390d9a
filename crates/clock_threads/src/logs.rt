// The logs of the buffers.
ghost use Rattle.std.specs.Prelude.{◌≡◌, IfOk};
ghost use Rattle.clock_threads.specs.Logs.{AreNoLogs, TookLogs};

use crate::wires::Wire;
use buffer_ends::BufferLog;
use liq_base::Memory;
use std::alloc::Global;
use std::mem;

// Empty logs for `count` buffers: none has the answers of any window yet.
pub(crate) fn no_logs(alloc: Global, count: usize) -> Result<Vec<BufferLog>, Memory>
    ensures { IfOk result (λ logs. AreNoLogs count logs.items) }
{
    let mut logs = Vec::with_capacity(alloc, count)?;
    for _ in 0..count {
        logs.push(BufferLog {
            windows: Vec::new(alloc),
        })?;
    }
    Ok(logs)
}

// Moves the logs of the buffers with both ends in clock `clock` from `lists` to `logs`; both have one for each buffer.
// A log of any other buffer stays as it is.
pub(crate) fn take_logs(wires: &[Wire], clock: usize, lists: Vec<BufferLog>, logs: &mut [BufferLog])
    ensures { TookLogs wires.now clock lists.items logs.old logs.new }
{
    let mut lists = lists;
    for b in 0..wires.len() {
        let wire = wires[b];
        if wire.from != wire.to {
            continue;
        }
        if wire.from as usize != clock {
            continue;
        }
        if b >= lists.len() {
            continue;
        }
        if b >= logs.len() {
            continue;
        }
        exchange(&mut logs[b], &mut lists[b]);
    }
}

// Swaps a buffer's log with another one, so that a log moves without a copy.
fn exchange(log: &mut BufferLog, other: &mut BufferLog)
    ensures { log.new ≡ other.old }
{
    mem::swap(log, other);
}
