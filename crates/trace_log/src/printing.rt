// A trace becomes its text.
ghost use Rattle.std.specs.Prelude.{◌≡◌, ◌++◌, ◌<◌, ◌*◌, ◌+◌, decimal, length, map, slice_index_or, take, OnOk, OnErr};
ghost use Rattle.buffer_ends.specs.Local.{no_answers};
ghost use Rattle.trace_log.specs.Texts.{header, letter, letters, log_at, line, place_line, places_of, trace_text};
ghost use Rattle.trace_log.specs.Texts.{window_count, IsTrace};

use crate::trace::Trace;
use buffer_ends::WindowLog;
use fixed_text::write_u64;
use liq_base::Memory;

/// Appends the one text of a trace, which `read` reads back. Where memory is refused, `into` is as it was.
pub fn print(trace: &Trace, into: &mut Vec<u8>) -> Result<(), Memory>
    requires { IsTrace trace.now }
    ensures ok { OnOk result (into.new.items ≡ into.old.items ++ trace_text trace.now) }
    ensures err { OnErr result (into.new.items ≡ into.old.items) }
{
    let before = into.len();
    let done = append_trace(trace, into);
    if done.is_err() {
        into.truncate(before);
    }
    done
}

// Appends the text of a trace; where memory is refused, a prefix of it.
fn append_trace(trace: &Trace, into: &mut Vec<u8>) -> Result<(), Memory>
    requires { IsTrace trace.now }
    ensures ok { OnOk result (into.new.items ≡ into.old.items ++ trace_text trace.now) }
    ensures kept { take (length into.old.items) into.new.items ≡ into.old.items }
{
    let many = trace.buffers.len() as u64;
    append_header(into, trace.ticks, trace.window, many)?;
    let windows = (trace.ticks + (trace.window - 1)) / trace.window;
    for place in 0..windows * many {
        append_place(trace, into, place)?;
    }
    Ok(())
}

// Appends line `place`, counted from the one after line 0: lines come by windows, and in each by buffers. Where memory
// is refused, a prefix of the line is appended.
#[tactic(auto, using(crate::proofs::Joins::window_inside, crate::proofs::Joins::buffer_inside, crate::proofs::Joins::some_inside))]
fn append_place(trace: &Trace, into: &mut Vec<u8>, place: u64) -> Result<(), Memory>
    requires trace { IsTrace trace.now }
    requires inside { place < places_of trace.now }
    ensures ok { OnOk result (into.new.items
        ≡ into.old.items ++ place_line trace.now.buffers (length trace.now.buffers) place) }
    ensures kept { take (length into.old.items) into.new.items ≡ into.old.items }
{
    let many = trace.buffers.len() as u64;
    let window = place / many;
    let buffer = place % many;
    let log = log_of(trace, buffer, window);
    append_line(into, window, buffer, log)?;
    Ok(())
}

// What buffer `buffer` of a trace answered in window `window`; both are counted from 0.
fn log_of(trace: &Trace, buffer: u64, window: u64) -> &WindowLog
    requires trace { IsTrace trace.now }
    requires buffer { buffer < length trace.now.buffers }
    requires window { window < window_count trace.now.ticks trace.now.window }
    ensures { result.now ≡ log_at trace.now.buffers buffer window }
{
    let log = &trace.buffers[buffer as usize];
    window_at(&log.windows, window)
}

// The answers of a buffer in the window of this number, where there is one.
fn window_at(windows: &[WindowLog], window: u64) -> &WindowLog
    requires { window < length windows.now }
    ensures { result.now ≡ slice_index_or windows.now window no_answers }
{
    &windows[window as usize]
}

// Appends line 0 of a trace: its ticks, the ticks of a `window`, and how `many` buffers there are. Where memory is
// refused, a prefix of it is appended.
fn append_header(into: &mut Vec<u8>, ticks: u64, window: u64, many: u64) -> Result<(), Memory>
    ensures ok { OnOk result (into.new.items ≡ into.old.items ++ header ticks window many) }
    ensures kept { take (length into.old.items) into.new.items ≡ into.old.items }
{
    append_number(into, b"liq trace 1 ", ticks)?;
    append_number(into, b" ", window)?;
    append_number(into, b" ", many)?;
    into.push(b'\n')?;
    Ok(())
}

// Appends the line of a window of a buffer; where memory is refused, a prefix of it.
fn append_line(into: &mut Vec<u8>, window: u64, buffer: u64, log: &WindowLog) -> Result<(), Memory>
    ensures ok { OnOk result (into.new.items ≡ into.old.items ++ line window buffer log.now) }
    ensures kept { take (length into.old.items) into.new.items ≡ into.old.items }
{
    append_number(into, b"window ", window)?;
    append_number(into, b" buffer ", buffer)?;
    append_letters(into, b" puts ", &log.puts, b'A', b'F')?;
    append_letters(into, b" takes ", &log.takes, b'G', b'E')?;
    into.push(b'\n')?;
    Ok(())
}

// Appends a text and a number; where memory is refused, a prefix of both.
fn append_number(into: &mut Vec<u8>, text: &[u8], number: u64) -> Result<(), Memory>
    ensures ok { OnOk result (into.new.items ≡ into.old.items ++ text.now ++ decimal number) }
    ensures kept { take (length into.old.items) into.new.items ≡ into.old.items }
{
    into.extend_from_slice(text)?;
    write_u64(into, number)?;
    Ok(())
}

// Appends `text` and a letter for each of a buffer's answers, `one` for true and `other` for false, or a stroke if
// there are none. Where memory is refused, a prefix of it is appended.
fn append_letters(
    into: &mut Vec<u8>,
    text: &[u8],
    answers: &[bool],
    one: u8,
    other: u8,
) -> Result<(), Memory>
    ensures ok { OnOk result (into.new.items ≡ into.old.items ++ text.now ++ letters one other answers.now) }
    ensures kept { take (length into.old.items) into.new.items ≡ into.old.items }
{
    into.extend_from_slice(text)?;
    if answers.is_empty() {
        into.push(b'-')?;
        return Ok(());
    }
    append_each(into, answers, one, other)?;
    Ok(())
}

// Appends the letter of each answer; where memory is refused, those of the first ones.
fn append_each(into: &mut Vec<u8>, answers: &[bool], one: u8, other: u8) -> Result<(), Memory>
    ensures ok { OnOk result (into.new.items ≡ into.old.items ++ map (letter one other) answers.now) }
    ensures kept { take (length into.old.items) into.new.items ≡ into.old.items }
{
    for k in 0..answers.len() {
        let found = if answers[k] { one } else { other };
        into.push(found)?;
    }
    Ok(())
}
