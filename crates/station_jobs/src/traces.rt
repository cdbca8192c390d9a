// The trace by which a script is rendered again.
ghost use Rattle.std.specs.Prelude.{ℕ, IfOk};
ghost use Rattle.std.specs.Option.{ForSome};
ghost use Rattle.liq_base.specs.Shelves.{OnlyRead};
ghost use Rattle.trace_log.specs.Texts.{IsTrace};
ghost use Rattle.trace_replay.specs.RecordTurns.{AreAllTurns};
ghost use Rattle.trace_records.specs.Traces.{IsAccepted};
ghost use Rattle.stream_meaning.specs.Instants.{Setting};
ghost use Rattle.station_render.specs.Runs.{IsFitting, setting_by};
ghost use Rattle.station_jobs.specs.Prepared.{IsUntold, TraceEnds};
ghost use Rattle.station_jobs.specs.Replays.{HasText, HasTrace};
ghost use Rattle.refusal_lines.specs.declared.replay_lines.ReplayFault.TheVariants.{NoTrace, TraceTooLarge};

use crate::halt::CallEnd;
use liq_base::{Fetched, Shelf, ShelfFault, Text};
use refusal_lines::{Fault, ReplayFault};
use station_render::Job;
use std::alloc::Global;
use trace_log::{Trace, TraceFault, read};
use trace_replay::{RecordTurns, find_record};

/// How many bytes a trace has at most.
const MAX_TRACE_BYTES: u64 = 268_435_456;

/// A trace by which a script is rendered again, and all the turns of its record.
#[derive(Drop)]
pub struct FoundTrace {
    pub trace: Trace,
    pub turns: RecordTurns,
}

/// Reads the trace in the file of this name, and finds the turns in which its ticks are replayed. The replay is
/// refused, in this order, if there is no file, it is too large, is no trace, or is of no lawful run of this job.
/// `docs/faults.md` has these faults.
pub fn find_trace<S: Shelf>(
    alloc: Global,
    job: &Job<'_>,
    name: &str,
    shelf: &mut S,
) -> Result<FoundTrace, CallEnd>
    requires { IsFitting job.now }
    ensures form { IfOk result (λ found. IsTrace found.trace) }
    ensures found { IfOk result
        (λ found. ForSome (S.told shelf.old).files (λ files. HasTrace files name.now found.trace)) }
    ensures fits { IfOk result
        (λ found. IsAccepted (setting_by job.now) job.now.ready.clocks.running job.now.ticks found.trace) }
    ensures turns { IfOk result
        (λ found. AreAllTurns (setting_by job.now) job.now.ready.clocks found.trace found.turns) }
    ensures ends { TraceEnds name.now (setting_by job.now) job.now.ready.clocks.running job.now.ticks
        (S.told shelf.old) (S.told shelf.new) result }
    ensures shelf { OnlyRead (S.told shelf.old) (S.told shelf.new) }
{
    let trace = read_trace(alloc, name, shelf)?;
    let found = find_record(
        alloc,
        &job.plan,
        &job.ready.clocks,
        &job.ready.library,
        job.start,
        job.ticks,
        &trace,
    )?;
    let Some(turns) = found else {
        return Err(CallEnd::Refused(Fault::Replay(ReplayFault::DoesNotFit)));
    };
    Ok(FoundTrace { trace, turns })
}

// Reads the file of this name and parses it as a trace: what the buffers between clocks answered in a run. Refuses the
// replay if it is none. A failed read and want of memory end the call.
fn read_trace<S: Shelf>(alloc: Global, name: &str, shelf: &mut S) -> Result<Trace, CallEnd>
    ensures form { IfOk result (λ trace. IsTrace trace) }
    ensures found { IfOk result (λ trace. ForSome (S.told shelf.old).files (λ files. HasTrace files name.now trace)) }
    ensures ends { (base : Setting) (clocks ticks : ℕ)
        → TraceEnds name.now base clocks ticks (S.told shelf.old) (S.told shelf.new) result }
    ensures shelf { OnlyRead (S.told shelf.old) (S.told shelf.new) }
{
    let text = read_text(alloc, name, shelf)?;
    match read(alloc, &text) {
        Ok(trace) => Ok(trace),
        Err(TraceFault::NotTrace(line)) => Err(CallEnd::Refused(Fault::Replay(
            ReplayFault::NotATrace(line),
        ))),
        Err(TraceFault::Memory) => Err(CallEnd::Memory),
    }
}

// Reads the bytes of the trace's file from the shelf. Refuses the replay if the file is missing or larger than a trace
// may be. A failed read and want of memory end the call.
fn read_text<S: Shelf>(alloc: Global, name: &str, shelf: &mut S) -> Result<Vec<u8>, CallEnd>
    ensures found { IfOk result
        (λ text. ForSome (S.told shelf.old).files (λ files. HasText files name.now text.items)) }
    ensures ends { (base : Setting) (clocks ticks : ℕ)
        → TraceEnds name.now base clocks ticks (S.told shelf.old) (S.told shelf.new) result }
    ensures shelf { OnlyRead (S.told shelf.old) (S.told shelf.new) }
{
    let mut text = Vec::new(alloc);
    match shelf.read(name, &mut text, MAX_TRACE_BYTES) {
        Ok(Fetched::Found) => Ok(text),
        Ok(Fetched::Missing) => Err(no_trace(alloc, name)),
        Ok(Fetched::TooLarge) => Err(too_large(alloc, name)),
        Err(ShelfFault::Failed) => Err(CallEnd::Read),
        Err(ShelfFault::Memory) => Err(CallEnd::Memory),
    }
}

// Why a replay ends whose trace is not there: a refusal with the name of the file, or want of memory to copy the name.
fn no_trace(alloc: Global, name: &str) -> CallEnd
    ensures { IsUntold (NoTrace name.now) result }
{
    match Text::from_str(alloc, name) {
        Ok(name) => CallEnd::Refused(Fault::Replay(ReplayFault::NoTrace(name))),
        Err(_) => CallEnd::Memory,
    }
}

// Why a replay ends whose trace is too large: a refusal with the name of the file, or want of memory to copy the name.
fn too_large(alloc: Global, name: &str) -> CallEnd
    ensures { IsUntold (TraceTooLarge name.now) result }
{
    match Text::from_str(alloc, name) {
        Ok(name) => CallEnd::Refused(Fault::Replay(ReplayFault::TraceTooLarge(name))),
        Err(_) => CallEnd::Memory,
    }
}
