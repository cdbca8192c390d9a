// The top call.
ghost use Rattle.std.specs.Prelude.{◌≡◌, ◌↔◌, None, IfSome, IsNone};
ghost use Rattle.liq_cli.specs.Call.{Ends, EndsApart, IsComplete, outside_of};
ghost use Rattle.liq_cli.specs.Telling.{Finishes, MayTell, Tells};
ghost use Rattle.station_jobs.specs.Words.{AsksToMake, NeedsThreads, texts};
ghost use Rattle.refusal_lines.specs.Lines.{line_of};

use liq_base::{Failed, Gate, Memory, Shelf, Sink};
use refusal_lines::Fault;
use station_jobs::{
    CallEnd, Form, alone_job, check_job, make_job, read_words, replay_job, threads_job,
};
use std::alloc::Global;
use std::sync::Wait;
use std::thread::Threads;

// The line for words that have no form.
const USAGE: &str =
    "usage: check FILE | render FILE N [--one-thread] [--window=W] [--start=D:HH:MM:SS] [--trace=NAME] [--cues] | \
    make SEED SIZE | replay FILE N TRACE [--start=D:HH:MM:SS]\n";

/// All was written.
const DONE: u8 = 0;

/// The script is refused, with one line on `err`.
const REFUSED: u8 = 1;

/// The words have no form; the usage line is on `err`.
const NO_FORM: u8 = 2;

/// A read failed, and nothing was written.
const READ_FAILED: u8 = 3;

/// An output, the report or the line broke off.
const WRITE_FAILED: u8 = 4;

/// Memory was refused.
const NO_MEMORY: u8 = 5;

/// Does what the words ask for, and answers the status: 0 done, 1 refused, 2 no form, 3 a read failed, 4 a write
/// failed, 5 no memory. `docs/promises.md` says what each leaves. `out` gets the report, `err` the line of a refusal. A
/// rendering without `--one-thread` and a workload run each clock on its own thread, which enters the gate before each
/// tick. A workload has a shelf of its own and leaves `shelf` as it was.
pub fn liq<S: Shelf, O: Sink, E: Sink, G: Gate + Sync, R: Threads + Wait + Sync>(
    rt: &R,
    alloc: Global,
    words: &[String],
    shelf: &mut S,
    out: &mut O,
    err: &mut E,
    gate: &G,
) -> u8
    requires out_room { (O.told out.old).room ≡ None }
    requires err_room { (E.told err.old).room ≡ None }
    ensures ends { Ends (texts words.now)
        (outside_of (S.told shelf.old) (O.told out.old) (E.told err.old))
        (outside_of (S.told shelf.new) (O.told out.new) (E.told err.new))
        result }
    ensures complete { IsComplete (texts words.now)
        (outside_of (S.told shelf.old) (O.told out.old) (E.told err.old))
        (outside_of (S.told shelf.new) (O.told out.new) (E.told err.new))
        result }
    // A workload rests on no file and no device of the shelf.
    ensures made { AsksToMake (texts words.now) → EndsApart (texts words.now)
        (outside_of (S.told shelf.old) (O.told out.old) (E.told err.old))
        (outside_of (S.told shelf.new) (O.told out.new) (E.told err.new))
        result }
    ensures untouched { AsksToMake (texts words.now) → shelf.new ≡ shelf.old }
{
    let Some(form) = read_words(words) else {
        return tell(err, USAGE, NO_FORM);
    };
    let job = match form {
        Form::Check { file } => check_job(alloc, file, shelf),
        Form::Alone(asked) => alone_job(alloc, &asked, shelf),
        Form::Threads { asked, window } => threads_job(rt, alloc, &asked, window, shelf, gate),
        Form::Make { seed, size } => make_job(rt, alloc, seed, size, gate),
        Form::Replay {
            file,
            start,
            ticks,
            trace,
        } => replay_job(alloc, file, start, ticks, trace, shelf),
    };
    finish(alloc, job, out, err)
}

/// Does what the words ask for where it takes no threads, and answers the status, as `liq`. It answers `None` exactly
/// where they ask for a rendering by threads or for a workload, and then nothing was done. It waits for nobody.
pub fn liq_alone<S: Shelf, O: Sink, E: Sink>(
    alloc: Global,
    words: &[String],
    shelf: &mut S,
    out: &mut O,
    err: &mut E,
) -> Option<u8>
    requires out_room { (O.told out.old).room ≡ None }
    requires err_room { (E.told err.old).room ≡ None }
    ensures none { IsNone result ↔ NeedsThreads (texts words.now) }
    ensures kept { IsNone result → (shelf.new ≡ shelf.old) × (out.new ≡ out.old) × (err.new ≡ err.old) }
    ensures ends { IfSome result (Ends (texts words.now)
        (outside_of (S.told shelf.old) (O.told out.old) (E.told err.old))
        (outside_of (S.told shelf.new) (O.told out.new) (E.told err.new))) }
    ensures complete { IfSome result (IsComplete (texts words.now)
        (outside_of (S.told shelf.old) (O.told out.old) (E.told err.old))
        (outside_of (S.told shelf.new) (O.told out.new) (E.told err.new))) }
{
    let Some(form) = read_words(words) else {
        return Some(tell(err, USAGE, NO_FORM));
    };
    let job = match form {
        Form::Check { file } => check_job(alloc, file, shelf),
        Form::Alone(asked) => alone_job(alloc, &asked, shelf),
        Form::Replay {
            file,
            start,
            ticks,
            trace,
        } => replay_job(alloc, file, start, ticks, trace, shelf),
        Form::Threads { .. } | Form::Make { .. } => return None,
    };
    Some(finish(alloc, job, out, err))
}

// Writes the one text of a call, by the end of its job: the report, or the line of a refusal. Returns the status.
fn finish<O: Sink, E: Sink>(
    alloc: Global,
    job: Result<String, CallEnd>,
    out: &mut O,
    err: &mut E,
) -> u8
    requires out_room { (O.told out.old).room ≡ None }
    requires err_room { (E.told err.old).room ≡ None }
    ensures { Finishes job (O.told out.old) (O.told out.new) (E.told err.old) (E.told err.new) result }
{
    match job {
        Ok(report) => tell(out, report.as_str(), DONE),
        Err(CallEnd::Refused(fault)) => refuse(alloc, &fault, err),
        Err(CallEnd::Read) => READ_FAILED,
        Err(CallEnd::Write) => WRITE_FAILED,
        Err(CallEnd::Memory) => NO_MEMORY,
    }
}

// Writes the line of a refusal to `err`, and returns the call's status: 1, or 4 if the line broke off, or 5 if memory
// for it was refused.
fn refuse<E: Sink>(alloc: Global, fault: &Fault, err: &mut E) -> u8
    requires { (E.told err.old).room ≡ None }
    ensures { MayTell (line_of fault.now) 1 (E.told err.old) (E.told err.new) result }
{
    match fault.line(alloc) {
        Ok(line) => tell(err, line.as_str(), REFUSED),
        Err(Memory) => NO_MEMORY,
    }
}

// Writes the one text of a call, a report or a line, to `sink`; returns `status` if all of it was written, and
// otherwise 4.
fn tell<W: Sink>(sink: &mut W, text: &str, status: u8) -> u8
    requires { (W.told sink.old).room ≡ None }
    ensures { Tells text.now status (W.told sink.old) (W.told sink.new) result }
{
    match sink.append(text.as_bytes()) {
        Ok(()) => status,
        Err(Failed) => WRITE_FAILED,
    }
}
