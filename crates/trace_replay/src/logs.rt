// The answers of a trace, as a run tells them.
ghost use Rattle.std.specs.Prelude.{◌≡◌, not, count_by, map, IfOk};
ghost use Rattle.buffer_ends.specs.declared.run_end.End.TheVariants.{Done as IsDone};
ghost use Rattle.trace_replay.specs.Replays.{counts_in};
ghost use Rattle.buffer_ends.specs.Local.{yes};

use buffer_ends::{BufferLog, Counts, End, RunEnd, WindowLog};
use liq_base::Memory;
use std::alloc::Global;
use trace_turns::flatten;

// A copy of what a buffer answered in one window of ticks: to the puts, and to the takes.
fn copy_window(alloc: Global, window: &WindowLog) -> Result<WindowLog, Memory>
    ensures { IfOk result (λ copy. copy ≡ window.now) }
{
    let mut puts = Vec::new(alloc);
    puts.extend_from_slice(&window.puts)?;
    let mut takes = Vec::new(alloc);
    takes.extend_from_slice(&window.takes)?;
    Ok(WindowLog { puts, takes })
}

// A copy of what a buffer answered, window by window.
fn copy_windows(alloc: Global, windows: &[WindowLog]) -> Result<Vec<WindowLog>, Memory>
    ensures { IfOk result (λ copies. copies.items ≡ windows.now) }
{
    let mut copies = Vec::new(alloc);
    for window in windows {
        copies.reserve(1)?;
        copies.push_reserved(copy_window(alloc, window)?);
    }
    Ok(copies)
}

// A copy of all answers of a buffer in a trace.
fn copy_log(alloc: Global, log: &BufferLog) -> Result<BufferLog, Memory>
    ensures { IfOk result (λ copy. copy ≡ log.now) }
{
    Ok(BufferLog {
        windows: copy_windows(alloc, &log.windows)?,
    })
}

// A copy of all answers of these buffers in a trace.
fn copy_logs(alloc: Global, logs: &[BufferLog]) -> Result<Vec<BufferLog>, Memory>
    ensures { IfOk result (λ copies. copies.items ≡ logs.now) }
{
    let mut copies = Vec::new(alloc);
    for log in logs {
        copies.reserve(1)?;
        copies.push_reserved(copy_log(alloc, log)?);
    }
    Ok(copies)
}

// How many of these answers of a buffer are true (a chunk was accepted or got), and behind it how many are not.
fn count_answers(answers: &[bool]) -> (u64, u64)
    ensures yes { result.0 ≡ count_by yes answers.now }
    ensures no { result.1 ≡ count_by not answers.now }
{
    let mut true_ones = 0;
    let mut others = 0;
    for answer in answers {
        if *answer {
            true_ones += 1;
        } else {
            others += 1;
        }
    }
    (true_ones, others)
}

// How often a buffer gave which answer, from its answers in each window: chunks accepted or refused as full, and got or
// missed as empty. The answers to its puts are counted apart from those to its takes.
fn count_windows(alloc: Global, windows: &[WindowLog]) -> Result<Counts, Memory>
    ensures { IfOk result (λ counts. counts ≡ counts_in windows.now) }
{
    let (puts, _put_ends) = flatten(alloc, windows, true)?;
    let (takes, _take_ends) = flatten(alloc, windows, false)?;
    let (accepted, full) = count_answers(&puts);
    let (got, empty) = count_answers(&takes);
    Ok(Counts {
        accepted,
        full,
        got,
        empty,
    })
}

// How often a buffer gave which answer in a trace: chunks accepted or refused as full, and got or missed as empty.
fn count_log(alloc: Global, log: &BufferLog) -> Result<Counts, Memory>
    ensures { IfOk result (λ counts. counts ≡ counts_in log.now) }
{
    count_windows(alloc, &log.windows)
}

// For each buffer, by its number, how often it gave which answer in a trace.
fn count_logs(alloc: Global, logs: &[BufferLog]) -> Result<Vec<Counts>, Memory>
    ensures { IfOk result (λ counts. counts.items ≡ map counts_in logs.now) }
{
    let mut counts = Vec::new(alloc);
    for log in logs {
        counts.push(count_log(alloc, log)?)?;
    }
    Ok(counts)
}

/// The result of a replay that made all its ticks: the logs of the trace, copied, and for each buffer how often it gave
/// which answer.
pub fn told_run(alloc: Global, logs: &[BufferLog]) -> Result<RunEnd, Memory>
    ensures counts { IfOk result (λ run. run.counts.items ≡ map counts_in logs.now) }
    ensures logs { IfOk result (λ run. run.logs.items ≡ logs.now) }
    ensures end { IfOk result (λ run. run.end ≡ IsDone) }
{
    let counts = count_logs(alloc, logs)?;
    let logs = copy_logs(alloc, logs)?;
    Ok(RunEnd {
        counts,
        logs,
        end: End::Done,
    })
}
