// The numbers of the answers in the logs.
ghost use Rattle.std.specs.Prelude.{◌≡◌, ◌+◌, map, count_by, not, IfOk};
ghost use Rattle.buffer_ends.specs.Local.{counts_of, yes};
ghost use Rattle.clock_threads.specs.Logs.{counts_in, more_counts};

use buffer_ends::{BufferLog, Counts, WindowLog};
use liq_base::Memory;
use std::alloc::Global;

// Of these answers of a buffer's end, how many are true, and how many are false: true where a chunk was moved.
fn counted(answers: &[bool]) -> (u64, u64)
    ensures yes { result.0 ≡ count_by yes answers.now }
    ensures no { result.1 ≡ count_by not answers.now }
{
    let yes = answers.iter().filter(|answer| **answer).count() as u64;
    let no = answers.iter().filter(|answer| !**answer).count() as u64;
    (yes, no)
}

// The sum of two numbers; above 2^64 - 1 it is refused, as memory is.
fn added(one: u64, other: u64) -> Result<u64, Memory>
    ensures { IfOk result (λ sum. sum ≡ one + other) }
{
    one.checked_add(other).ok_or(Memory)
}

// The counts of a buffer with the answers of a further window added. Puts were accepted or met a full buffer; takes got
// a chunk or met an empty one. A count above 2^64 - 1 is refused, as memory is.
fn with_window(counts: Counts, window: &WindowLog) -> Result<Counts, Memory>
    ensures { IfOk result (λ sum. sum ≡ more_counts counts (counts_of window.now)) }
{
    let puts = counted(window.puts.as_slice());
    let takes = counted(window.takes.as_slice());
    let accepted = added(counts.accepted, puts.0)?;
    let full = added(counts.full, puts.1)?;
    let got = added(counts.got, takes.0)?;
    let empty = added(counts.empty, takes.1)?;
    Ok(Counts {
        accepted,
        full,
        got,
        empty,
    })
}

// How many answers of each sort these windows of a buffer have: puts accepted or at a full buffer, takes with a chunk
// or without. A count above 2^64 - 1 is refused, as memory is.
fn count_windows(windows: &[WindowLog]) -> Result<Counts, Memory>
    ensures { IfOk result (λ counts. counts ≡ counts_in windows.now) }
{
    let mut counts = Counts::none();
    for j in 0..windows.len() {
        let next = with_window(counts, &windows[j])?;
        counts = next;
    }
    Ok(counts)
}

// How many answers of each sort a buffer's log has, over all its windows.
fn count_log(log: &BufferLog) -> Result<Counts, Memory>
    ensures { IfOk result (λ counts. counts ≡ counts_in log.now) }
{
    count_windows(log.windows.as_slice())
}

// For each buffer's log, how many answers of each sort it has: the counts that a run reports.
pub(crate) fn count_logs(alloc: Global, logs: &[BufferLog]) -> Result<Vec<Counts>, Memory>
    ensures { IfOk result (λ counts. counts.items ≡ map counts_in logs.now) }
{
    let mut counts = Vec::with_capacity(alloc, logs.len())?;
    for b in 0..logs.len() {
        counts.push(count_log(&logs[b])?)?;
    }
    Ok(counts)
}
