// Devices that fail: each call of a rendering of two ticks in turn, and each piece after every number of its bytes.
// What is left is worked out by hand from the rules in `docs/outside.md` and `docs/formats.md`.
use crate::calls::{
    CARRIED, Failing, ONE_TWO_THREE, call, call_told, failing_sink, held, let_fail, shelf,
    shelf_of, sink,
};
use liq_base::{FreeGate, MemShelf, MemSink};
use std::alloc::{AllocError, Global};
use std::process::Abort;
use std::sync::Wait;
use std::test::Fail;
use std::thread::Threads;

/// One output. A tick has 8 samples.
const ONE: &str =
    "set(\"frame.audio.samplerate\", 8000)\nset(\"frame.duration\", 0.001)\noutput.file(%wav, \"A\", single(\"B\"))\n";

/// Two outputs in one clock.
const SHARED: &str =
    "set(\"frame.audio.samplerate\", 8000)\nset(\"frame.duration\", 0.001)\ns = single(\"B\")\n\
    output.file(%wav, \"A\", s)\noutput.file(%wav, \"C\", s)\n";

/// Two outputs, each in a clock of its own.
const APART: &str = "set(\"frame.audio.samplerate\", 8000)\nset(\"frame.duration\", 0.001)\n\
    output.file(%wav, \"A\", single(\"B\"))\noutput.file(%wav, \"C\", clock(id=\"b\", single(\"B\")))\n";

/// Each output of two ticks: the samples on both sides, again and again.
const WHOLE: &[u8; 108] =
    b"RIFF\x64\0\0\0WAVEfmt \x10\0\0\0\x01\0\x02\0\x40\x1f\0\0\0\x7d\0\0\x04\0\x10\0data\x40\0\0\0\x01\0\x01\0\x02\
    \0\x02\0\x03\0\x03\0\x01\0\x01\0\x02\0\x02\0\x03\0\x03\0\x01\0\x01\0\x02\0\x02\0\x03\0\x03\0\x01\0\x01\0\x02\0\
    \x02\0\x03\0\x03\0\x01\0\x01\0\x02\0\x02\0\x03\0\x03\0\x01\0\x01\0";

/// Bytes of its header, and of each tick.
const HEADER: usize = 44;

const TICK: usize = 32;

/// Bytes of the whole.
const ALL: usize = HEADER + 2 * TICK;

const OLD: &[u8] = b"what was there";

/// The report of two outputs, which begins with that of the first one.
const REPORT: &[u8; 54] = b"output A samples 16 gaps 0\noutput C samples 16 gaps 0\n";

/// Words of a rendering of two ticks: by threads, in windows of two lengths, and on one thread.
const LINES: &[&str] = &[
    "render f 2",
    "render f 2 --window=1",
    "render f 2 --one-thread",
];

/// What is left under the name of an output: what stood there before; or the front of the output, with a number of
/// bytes that may lie between these two.
#[derive(Clone, Copy)]
enum Left {
    Before,
    Front(usize, usize),
}

/// What is left under an output's name: its first `length` bytes.
fn front(length: usize) -> Left {
    Left::Front(length, length)
}

/// What is left under an output's name: all of its bytes.
fn whole() -> Left {
    front(ALL)
}

// Whether this is what is left under a name, by what was found there and what stood there before.
fn is_left(left: Left, found: Option<&[u8]>, before: Option<&[u8]>) -> bool {
    match left {
        Left::Before => found == before,
        Left::Front(least, most) => match found {
            Some(bytes) => {
                least <= bytes.len() && bytes.len() <= most && WHOLE.starts_with(bytes)
            }
            None => false,
        },
    }
}

/// The end of a call: its status, what is left of the two outputs, and how many bytes of the report are told.
#[derive(Clone, Copy)]
struct Ending {
    status: u8,
    first: Left,
    second: Left,
    told: usize,
}

/// The end of a call of which a write failed: status 4, these two outputs left, and no report.
fn failed(first: Left, second: Left) -> Ending {
    Ending {
        status: 4,
        first,
        second,
        told: 0,
    }
}

const AUDIO_AND_OLD: &[(&str, &[u8])] = &[("B", ONE_TWO_THREE), ("A", OLD), ("C", OLD)];

// A shelf, files in memory: a script, the audio file that it names, and where `is_old` what stood under the outputs'
// names before.
fn shelf_over(alloc: Global, script: &str, is_old: bool) -> Result<MemShelf, AllocError> {
    if is_old {
        shelf_of(alloc, script, AUDIO_AND_OLD)
    } else {
        shelf(alloc, script)
    }
}

// The sink that takes the report of a call; it fails where `failing` says that the report does.
fn report_sink(alloc: Global, failing: Failing) -> Result<MemSink, Fail> {
    match failing {
        Failing::Report(call, taken) => failing_sink(alloc, call, taken),
        _ => sink(alloc),
    }
}

// Checks what a call has left: the two outputs and the report are as `ending` says.
fn check_left(rt: &impl Abort, shelf: &MemShelf, told: &[u8], ending: Ending, is_old: bool) {
    let before = if is_old { Some(OLD) } else { None };
    assert!(rt; is_left(ending.first, shelf.get("A"), before));
    assert!(rt; is_left(ending.second, shelf.get("C"), before));
    assert!(rt; told.len() == ending.told && REPORT.starts_with(told));
}

// Runs a call of these words on a shelf, where this call of a device fails, and checks that it ends as `ending` says.
fn check_shelf<R: Abort + Threads + Wait + Sync>(
    rt: &R,
    alloc: Global,
    line: &str,
    shelf: &mut MemShelf,
    failing: Failing,
    ending: Ending,
    is_old: bool,
) -> Result<(), Fail> {
    let_fail(shelf, failing)?;
    let mut out = report_sink(alloc, failing)?;
    let found = call_told(rt, alloc, line, shelf, &mut out, &FreeGate)?;
    assert!(rt; found == (ending.status, 0), "{line}");
    check_left(rt, shelf, out.held(), ending, is_old);
    Ok(())
}

// Runs a call of these words, where this call of a device fails, over old outputs or none, and checks its end. `run`
// is a script and the words.
fn check_over<R: Abort + Threads + Wait + Sync>(
    rt: &R,
    alloc: Global,
    run: (&str, &str),
    failing: Failing,
    ending: Ending,
    is_old: bool,
) -> Result<(), Fail> {
    let (script, line) = run;
    let mut shelf = shelf_over(alloc, script, is_old)?;
    check_shelf(rt, alloc, line, &mut shelf, failing, ending, is_old)
}

// Runs a call of these words, where this call of a device fails, over old outputs and over none, and checks that it
// ends so. `run` is a script and the words.
fn check<R: Abort + Threads + Wait + Sync>(
    rt: &R,
    alloc: Global,
    run: (&str, &str),
    failing: Failing,
    ending: Ending,
) -> Result<(), Fail> {
    check_over(rt, alloc, run, failing, ending, false)?;
    check_over(rt, alloc, run, failing, ending, true)
}

// Lets each of the two reads of a call fail, that of the script and that of the audio file, and checks that nothing
// is written and the status is 3. `run` is a script and the words.
fn check_reads<R: Abort + Threads + Wait + Sync>(
    rt: &R,
    alloc: Global,
    run: (&str, &str),
) -> Result<(), Fail> {
    let ending = Ending {
        status: 3,
        first: Left::Before,
        second: Left::Before,
        told: 0,
    };
    check(rt, alloc, run, Failing::Read(0), ending)?;
    check(rt, alloc, run, Failing::Read(1), ending)
}

// Lets the report, of `length` bytes, break off at each byte, and checks that all outputs are whole. `second` is what
// is left of the second output, which may not be there.
fn check_reports<R: Abort + Threads + Wait + Sync>(
    rt: &R,
    alloc: Global,
    run: (&str, &str),
    second: Left,
    length: usize,
) -> Result<(), Fail> {
    for told in 0..length {
        let ending = Ending {
            status: 4,
            first: whole(),
            second,
            told,
        };
        check(rt, alloc, run, Failing::Report(0, told as u64), ending)?;
    }
    Ok(())
}

// Lets a call of a device fail that never comes, since there are no more, and checks that all goes well. `run` is a
// script and the words, `second` what is left of the second output, and `told` how long the report is.
fn check_no_more<R: Abort + Threads + Wait + Sync>(
    rt: &R,
    alloc: Global,
    run: (&str, &str),
    failing: Failing,
    second: Left,
    told: usize,
) -> Result<(), Fail> {
    let ending = Ending {
        status: 0,
        first: whole(),
        second,
        told,
    };
    check(rt, alloc, run, failing, ending)
}

// Lets piece number `call` of the one output, of `size` bytes, break off at each byte, in a rendering by the words
// `line`. Checks what is left: the `before` bytes written before it, and those of the piece that went through.
fn check_one_piece<R: Abort + Threads + Wait + Sync>(
    rt: &R,
    alloc: Global,
    line: &str,
    call: u64,
    before: usize,
    size: usize,
) -> Result<(), Fail> {
    assert!(rt; before <= ALL && size <= HEADER);
    for taken in 0..size + 1 {
        let failing = Failing::Piece(0, call, taken as u64);
        let ending = failed(front(before + taken), Left::Before);
        check(rt, alloc, (ONE, line), failing, ending)?;
    }
    Ok(())
}

// Lets each call of the devices of one output fail in turn, and checks the end of the rendering by the words `line`. A
// call behind the last one never comes, so that all goes well.
fn check_one<R: Abort + Threads + Wait + Sync>(
    rt: &R,
    alloc: Global,
    line: &str,
) -> Result<(), Fail> {
    let run = (ONE, line);
    let nothing = failed(Left::Before, Left::Before);
    check_reads(rt, alloc, run)?;
    check(rt, alloc, run, Failing::Creation(0), nothing)?;
    check_one_piece(rt, alloc, line, 0, 0, HEADER)?;
    check_one_piece(rt, alloc, line, 1, HEADER, TICK)?;
    check_one_piece(rt, alloc, line, 2, HEADER + TICK, TICK)?;
    check(rt, alloc, run, Failing::Closing(0), nothing)?;
    check_reports(rt, alloc, run, Left::Before, 27)?;
    check_no_more(rt, alloc, run, Failing::Read(2), Left::Before, 27)?;
    check_no_more(rt, alloc, run, Failing::Creation(1), Left::Before, 27)?;
    check_no_more(rt, alloc, run, Failing::Piece(0, 3, 0), Left::Before, 27)?;
    check_no_more(rt, alloc, run, Failing::Report(1, 0), Left::Before, 27)?;
    check_no_more(rt, alloc, run, Failing::Closing(1), Left::Before, 27)
}

// A rendering to one output, by each line of words, with each call of its devices failing in turn.
#[test]
fn each_call_of_one_output_fails(rt: HostRuntime) -> Result<(), Fail> {
    for line in LINES {
        check_one(&rt, rt.alloc(), line)?;
    }
    Ok(())
}

// Lets a piece of one of two outputs break off after each number of bytes up to a tick's, and checks both. `piece` is
// the number of the output and of its piece, `before` how many of its bytes come before, and `other` what is left of
// the other output.
fn check_piece_of_two<R: Abort + Threads + Wait + Sync>(
    rt: &R,
    alloc: Global,
    run: (&str, &str),
    piece: (u32, u64),
    before: usize,
    other: Left,
) -> Result<(), Fail> {
    let (output, call) = piece;
    assert!(rt; before <= ALL);
    for taken in 0..TICK + 1 {
        let own = front(before + taken);
        let failing = Failing::Piece(output, call, taken as u64);
        let ending = if output == 0 {
            failed(own, other)
        } else {
            failed(other, own)
        };
        check(rt, alloc, run, failing, ending)?;
    }
    Ok(())
}

// Lets each call of the devices of two outputs fail in turn, but those that write ticks, and checks the end. An output
// whose turn has not come is not created; each that was created is closed. `run` is a script and the words.
fn check_two<R: Abort + Threads + Wait + Sync>(
    rt: &R,
    alloc: Global,
    run: (&str, &str),
) -> Result<(), Fail> {
    let no_second = failed(front(HEADER), Left::Before);
    check_reads(rt, alloc, run)?;
    let nothing = failed(Left::Before, Left::Before);
    check(rt, alloc, run, Failing::Creation(0), nothing)?;
    check(rt, alloc, run, Failing::Creation(1), no_second)?;
    check_piece_of_two(rt, alloc, run, (0, 0), 0, Left::Before)?;
    check_piece_of_two(rt, alloc, run, (1, 0), 0, front(HEADER))?;
    let second = failed(Left::Before, whole());
    check(rt, alloc, run, Failing::Closing(0), second)?;
    let first = failed(whole(), Left::Before);
    check(rt, alloc, run, Failing::Closing(1), first)?;
    check_reports(rt, alloc, run, whole(), 54)?;
    check_no_more(rt, alloc, run, Failing::Creation(2), whole(), 54)?;
    check_no_more(rt, alloc, run, Failing::Piece(0, 3, 0), whole(), 54)?;
    check_no_more(rt, alloc, run, Failing::Piece(1, 3, 0), whole(), 54)?;
    check_no_more(rt, alloc, run, Failing::Closing(2), whole(), 54)
}

// Lets each piece of a tick of two outputs in one clock fail in turn, by the words `line`, and checks what is left. The
// first output gets its piece before the second one.
fn check_shared_ticks<R: Abort + Threads + Wait + Sync>(
    rt: &R,
    alloc: Global,
    line: &str,
) -> Result<(), Fail> {
    let run = (SHARED, line);
    let one_more = Left::Front(HEADER, HEADER + TICK);
    check_piece_of_two(rt, alloc, run, (0, 1), HEADER, one_more)?;
    check_piece_of_two(rt, alloc, run, (1, 1), HEADER, front(HEADER + TICK))?;
    let two_more = Left::Front(HEADER + TICK, ALL);
    check_piece_of_two(rt, alloc, run, (0, 2), HEADER + TICK, two_more)?;
    check_piece_of_two(rt, alloc, run, (1, 2), HEADER + TICK, whole())
}

// A rendering to two outputs, in one clock and in two, by each line of words, with calls of its devices failing in
// turn.
#[test]
fn each_call_of_two_outputs_fails(rt: HostRuntime) -> Result<(), Fail> {
    for line in LINES {
        check_two(&rt, rt.alloc(), (SHARED, line))?;
        check_two(&rt, rt.alloc(), (APART, line))?;
        check_shared_ticks(&rt, rt.alloc(), line)?;
    }
    Ok(())
}

// Each tick of two outputs in two clocks: what is left of the other output where a piece of the first one breaks off in
// its tick 0 and in its tick 1, and where one of the second does. `others` has these four numbers of bytes in this
// order.
fn check_apart_ticks<R: Abort + Threads + Wait + Sync>(
    rt: &R,
    alloc: Global,
    line: &str,
    others: (usize, usize, usize, usize),
) -> Result<(), Fail> {
    let run = (APART, line);
    let (first_0, first_1, second_0, second_1) = others;
    check_piece_of_two(rt, alloc, run, (0, 1), HEADER, front(first_0))?;
    check_piece_of_two(rt, alloc, run, (0, 2), HEADER + TICK, front(first_1))?;
    check_piece_of_two(rt, alloc, run, (1, 1), HEADER, front(second_0))?;
    check_piece_of_two(rt, alloc, run, (1, 2), HEADER + TICK, front(second_1))
}

// Where the output of one of two clocks fails, the other clock still ends its window of ticks by its own thread, and
// makes no more; on one thread nothing is made after the failure.
#[test]
fn the_other_clock_ends_its_window(rt: HostRuntime) -> Result<(), Fail> {
    let alloc = rt.alloc();
    check_apart_ticks(&rt, alloc, "render f 2 --window=1", (76, 108, 76, 108))?;
    check_apart_ticks(&rt, alloc, "render f 2 --window=2", (108, 108, 108, 108))?;
    check_apart_ticks(&rt, alloc, "render f 2", (108, 108, 108, 108))?;
    check_apart_ticks(&rt, alloc, "render f 2 --one-thread", (44, 76, 76, 108))
}

// Renders ten ticks in windows of two, where the output of clock `b` fails at its tick 2, after `taken` bytes. Checks
// that the other clock ends that window of ticks, and that no window follows.
fn check_third_append<R: Abort + Threads + Wait + Sync>(
    rt: &R,
    alloc: Global,
    shelf: &mut MemShelf,
    taken: usize,
) -> Result<(), Fail> {
    assert!(rt; taken <= TICK);
    let_fail(shelf, Failing::Piece(1, 3, taken as u64))?;
    let mut out = sink(alloc)?;
    let line = "render f 10 --window=2";
    let ending = call_told(rt, alloc, line, shelf, &mut out, &FreeGate)?;
    assert!(rt; ending == (4, 0) && out.held().is_empty());
    assert!(rt; held(shelf, "A").len() == HEADER + 4 * TICK);
    assert!(rt; held(shelf, "C").len() == HEADER + 2 * TICK + taken);
    Ok(())
}

// Where one of two clocks that a buffer joins stops at a failed write, the other one ends its window of ticks, and no
// window follows.
#[test]
fn one_clock_stops_and_the_other_ends_its_window(rt: HostRuntime) -> Result<(), Fail> {
    for taken in 0..TICK + 1 {
        let mut shelf = shelf(rt.alloc(), CARRIED)?;
        check_third_append(&rt, rt.alloc(), &mut shelf, taken)?;
    }
    Ok(())
}

// Runs a call of the words `line` whose error line, `told`, breaks off after `taken` bytes. Checks that these bytes
// are told, that the status is 4, that of a failed write, and that no file is changed.
fn check_front<R: Abort + Threads + Wait + Sync>(
    rt: &R,
    alloc: Global,
    line: &str,
    shelf: &mut MemShelf,
    told: &[u8],
    taken: usize,
) -> Result<(), Fail> {
    let mut out = sink(alloc)?;
    let mut err = failing_sink(alloc, 0, taken as u64)?;
    let status = call(rt, alloc, line, shelf, &mut out, &mut err, &FreeGate)?;
    assert!(rt; status == 4 && out.held().is_empty(), "{line}");
    assert!(rt; err.held().len() == taken && told.starts_with(err.held()));
    assert!(rt; held(shelf, "A") == OLD);
    Ok(())
}

// Runs a call of the words `line` again and again, with its error line `told` breaking off at each byte, and checks
// its end each time.
fn check_line<R: Abort + Threads + Wait + Sync>(
    rt: &R,
    alloc: Global,
    line: &str,
    told: &[u8],
) -> Result<(), Fail> {
    let mut shelf = shelf_over(alloc, ONE, true)?;
    for taken in 0..told.len() {
        check_front(rt, alloc, line, &mut shelf, told, taken)?;
    }
    Ok(())
}

/// Words, and their line.
const TOLD: &[(&str, &[u8])] = &[
    ("check g", b"E01 no script\n"),
    ("render g 2", b"E01 no script\n"),
    ("render g 2 --one-thread", b"E01 no script\n"),
    ("render f 1 --trace=A", b"E18 two outputs A\n"),
    ("render f 1000000000", b"E29 output too long A\n"),
];

// The line that tells an error breaks off at each of its bytes, and the call still ends with the status of a failed
// write.
#[test]
fn a_line_breaks_off_at_each_byte(rt: HostRuntime) -> Result<(), Fail> {
    for (line, told) in TOLD {
        check_line(&rt, rt.alloc(), line, told)?;
    }
    Ok(())
}
