// A text becomes its trace.
ghost use Rattle.std.specs.Prelude.{◌≡◌, ◌<◌, ◌*◌, ◌^◌, ◌++◌, ◌∷◌, [], ◌↔◌, ◌≢◌, ℕ, Err, Ok, IfOk, OnOk, length};
ghost use Rattle.std.specs.Prelude.{replicate, slice_index_or, slice_set};
ghost use Rattle.trace_log.specs.Marks.{told_by};
ghost use Rattle.trace_log.specs.Stops.{HasLine, IsText, Lines, StopsAt};
ghost use Rattle.trace_log.specs.Texts.{IsTrace, line, lines_below, trace_text};
ghost use Rattle.trace_log.specs.Values.{TraceValue};
ghost use Rattle.trace_log.specs.declared.fault.TraceFault.TheVariants as faults;

use crate::checking::first_fault;
use crate::cutting::{cut_header, cut_line};
use crate::fault::TraceFault;
use crate::trace::Trace;
use buffer_ends::{BufferLog, WindowLog};
use liq_base::Memory;
use std::alloc::Global;

/// Reads the text of a trace, which `print` makes. `NotTrace` has the first line outside the form (`docs/formats.md`,
/// "Traces"), counted from 0; it takes no memory. `Memory` comes only for a text of that form, whose trace takes a
/// small multiple of it.
pub fn read(alloc: Global, text: &[u8]) -> Result<Trace, TraceFault>
    ensures ok { IfOk result (λ t. IsTrace t × (text.now ≡ trace_text t)) }
    ensures fault { (at : ℕ) → (result ≡ Err (faults.NotTrace at)) ↔ StopsAt text.now at }
    ensures only { (t : TraceValue) → IsTrace t → text.now ≡ trace_text t → result ≢ Err faults.Memory → result ≡ Ok t }
    ensures memory { result ≡ Err faults.Memory → IsText text.now }
{
    if let Some(line) = first_fault(text) {
        return Err(TraceFault::NotTrace(line));
    }
    let trace = read_whole(alloc, text)?;
    Ok(trace)
}

// Reads the trace of a text that is known to have its form, so that cutting line 0 cannot fail.
fn read_whole(alloc: Global, text: &[u8]) -> Result<Trace, Memory>
    requires { IsText text.now }
    ensures { IfOk result (λ t. IsTrace t × (text.now ≡ trace_text t)) }
{
    let (ticks, window, many, behind) = cut_header(text).unwrap();
    let windows = (ticks + (window - 1)) / window;
    let mut buffers = empty_logs(alloc, many, windows)?;
    read_lines(alloc, behind, windows, &mut buffers)?;
    Ok(Trace {
        ticks,
        window,
        buffers,
    })
}

// A log for each of `many` buffers, before its first window, with room for so many windows.
fn empty_logs(alloc: Global, many: u64, windows: u64) -> Result<Vec<BufferLog>, Memory>
    ensures { IfOk result (λ logs. logs.items ≡ replicate many []) }
{
    let mut logs = Vec::with_capacity(alloc, many as usize)?;
    for _ in 0..many {
        let windows = Vec::with_capacity(alloc, windows as usize)?;
        logs.push(BufferLog { windows })?;
    }
    Ok(logs)
}

// Adds the answers of each line of `text`, the lines after line 0, to the log of its buffer in `buffers`. The lines
// come by windows, of which there are `windows`, and in each by buffers.
fn read_lines(
    alloc: Global,
    text: &[u8],
    windows: u64,
    buffers: &mut Vec<BufferLog>,
) -> Result<(), Memory>
    requires empty { buffers.old.items ≡ replicate (length buffers.old.items) [] }
    requires fit { windows * length buffers.old.items < 2 ^ 64 }
    requires lines { Lines (length buffers.old.items) (windows * length buffers.old.items) text.now }
    ensures all { OnOk result (length buffers.new.items ≡ length buffers.old.items) }
    ensures each { OnOk result ((b : ℕ) → b < length buffers.old.items
        → length (slice_index_or buffers.new.items b []) ≡ windows) }
    ensures lines { OnOk result (text.now
        ≡ lines_below buffers.new.items (length buffers.old.items) (windows * length buffers.old.items)) }
{
    let many = buffers.len() as u64;
    let mut rest = text;
    for place in 0..windows * many {
        let (log, after) = read_line(alloc, rest, place / many, place % many)?;
        add_log(buffers, place % many, log)?;
        rest = after;
    }
    Ok(())
}

// Adds what a buffer answered in a window to the end of that buffer's log.
fn add_log(buffers: &mut Vec<BufferLog>, buffer: u64, log: WindowLog) -> Result<(), Memory>
    requires { buffer < length buffers.old.items }
    ensures { OnOk result (buffers.new.items
        ≡ slice_set buffers.old.items buffer (slice_index_or buffers.old.items buffer [] ++ log ∷ [])) }
{
    buffers[buffer as usize].windows.push(log)?;
    Ok(())
}

// The answers of the line of this window and buffer, with which the text is known to begin, and the text after it.
fn read_line(
    alloc: Global,
    text: &[u8],
    window: u64,
    buffer: u64,
) -> Result<(WindowLog, &[u8]), Memory>
    requires { HasLine window buffer text.now }
    ensures { IfOk result (λ p. text.now ≡ line window buffer p.0 ++ p.1.now) }
{
    let (put_letters, take_letters, rest) = cut_line(text, window, buffer).unwrap();
    let puts = answers_of(alloc, put_letters, b'A')?;
    let takes = answers_of(alloc, take_letters, b'G')?;
    Ok((WindowLog { puts, takes }, rest))
}

// The answers that the letters of a trace's line tell: true for the letter `one` and false for another; none for a
// stroke alone.
fn answers_of(alloc: Global, letters: &[u8], one: u8) -> Result<Vec<bool>, Memory>
    ensures { IfOk result (λ answers. answers.items ≡ told_by one letters.now) }
{
    if letters == b"-".as_slice() {
        return Ok(Vec::new(alloc));
    }
    let mut answers = Vec::with_capacity(alloc, letters.len())?;
    for letter in letters {
        answers.push(*letter == one)?;
    }
    Ok(answers)
}
