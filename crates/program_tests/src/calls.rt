// What these tests share: shelves in memory, a call of a device that fails, and calls over both.
use liq_base::{Gate, MemShelf, MemSink};
use liq_cli::liq;
use std::alloc::{AllocError, Global};
use std::sync::Wait;
use std::test::Fail;
use std::thread::Threads;

/// Mono, 8000 Hz, the samples 1 2 3.
pub const ONE_TWO_THREE: &[u8] =
    b"RIFF\x2a\0\0\0WAVEfmt \x10\0\0\0\x01\0\x01\0\x40\x1f\0\0\x80\x3e\0\0\x02\0\x10\0data\x06\0\0\0\x01\0\x02\0\x03\0";

/// A source in the clock `main`, and a buffer that carries it to the clock `b` and waits for two chunks. A tick has 8
/// samples.
pub const CARRIED: &str =
    "set(\"frame.audio.samplerate\", 8000)\nset(\"frame.duration\", 0.001)\ns = single(\"B\")\n\
    output.file(%wav, \"A\", s)\noutput.file(%wav, \"C\", clock(id=\"b\", mksafe(buffer(buffer=0.002, max=0.01, \
    s))))\n";

// A file of a shelf, of this name and these bytes.
fn file_of(alloc: Global, name: &str, bytes: &[u8]) -> Result<(String, Vec<u8>), AllocError> {
    let name = String::from_str(alloc, name)?;
    let bytes = bytes.to_vec(alloc)?;
    Ok((name, bytes))
}

// Adds to the files of a shelf a script, which is named `f`, and files of these names and bytes.
fn put_all(
    alloc: Global,
    files: &mut Vec<(String, Vec<u8>)>,
    script: &str,
    rows: &[(&str, &[u8])],
) -> Result<(), AllocError> {
    files.push(file_of(alloc, "f", script.as_bytes())?)?;
    for row in rows {
        files.push(file_of(alloc, row.0, row.1)?)?;
    }
    Ok(())
}

/// A shelf, files in memory: this script as `f`, and files of these names and bytes.
pub fn shelf_of(
    alloc: Global,
    script: &str,
    rows: &[(&str, &[u8])],
) -> Result<MemShelf, AllocError> {
    let mut files = Vec::new(alloc);
    put_all(alloc, &mut files, script, rows)?;
    Ok(MemShelf::new(alloc, files))
}

const AUDIO: &[(&str, &[u8])] = &[("B", ONE_TWO_THREE)];

/// A shelf, files in memory: this script as `f`, and the audio file `B` that it names.
pub fn shelf(alloc: Global, script: &str) -> Result<MemShelf, AllocError> {
    shelf_of(alloc, script, AUDIO)
}

/// Which call of a device fails, each counted from 0, and for a piece of a sink of the shelf, or of `out`, after how
/// many bytes. The sinks of the shelf are counted by their creation.
#[derive(Clone, Copy)]
pub enum Failing {
    Read(u64),
    Creation(u64),
    Piece(u32, u64, u64),
    Closing(u64),
    Report(u64, u64),
}

/// Tells the shelf, files in memory, which of its calls is to fail. Where the report is to fail nothing is told: its
/// sink is no file of the shelf, and `failing_sink` makes it.
pub fn let_fail(shelf: &mut MemShelf, failing: Failing) -> Result<(), Fail> {
    match failing {
        Failing::Read(call) => shelf.fail_read(call)?,
        Failing::Creation(call) => shelf.fail_create(call)?,
        Failing::Piece(sink, call, taken) => shelf.fail_append(sink, call, taken)?,
        Failing::Closing(call) => shelf.fail_close(call)?,
        Failing::Report(_, _) => (),
    }
    Ok(())
}

/// A sink in memory with room for a report, whose piece number `call` fails after `taken` bytes.
pub fn failing_sink(alloc: Global, call: u64, taken: u64) -> Result<MemSink, Fail> {
    Ok(MemSink::new(alloc, 1000, vec![in alloc; (call, taken)]?)?)
}

/// A sink in memory with room for a report, of which no call fails.
pub fn sink(alloc: Global) -> Result<MemSink, Fail> {
    Ok(MemSink::new(alloc, 1000, Vec::new(alloc))?)
}

// Adds the words of a command line, which blanks separate.
fn push_words(alloc: Global, words: &mut Vec<String>, line: &str) -> Result<(), Fail> {
    for word in line.split(' ') {
        words.push(String::from_str(alloc, word)?)?;
    }
    Ok(())
}

/// The words of a command line, which blanks separate.
pub fn words_of(alloc: Global, line: &str) -> Result<Vec<String>, Fail> {
    let mut words = Vec::new(alloc);
    push_words(alloc, &mut words, line)?;
    Ok(words)
}

/// Runs the program on the words of a command line, over this shelf of files, and gives its status. `out` takes the
/// report, `err` the error line, and clocks enter `gate` before each tick.
pub fn call<R: Threads + Wait + Sync, G: Gate + Sync>(
    rt: &R,
    alloc: Global,
    line: &str,
    shelf: &mut MemShelf,
    out: &mut MemSink,
    err: &mut MemSink,
    gate: &G,
) -> Result<u8, Fail> {
    let words = words_of(alloc, line)?;
    Ok(liq(rt, alloc, &words, shelf, out, err, gate))
}

/// Runs the program on the words of a command line, over this shelf of files, and gives its status and how many bytes
/// its error line has. `out` takes the report, and clocks enter `gate` before each tick.
pub fn call_told<R: Threads + Wait + Sync, G: Gate + Sync>(
    rt: &R,
    alloc: Global,
    line: &str,
    shelf: &mut MemShelf,
    out: &mut MemSink,
    gate: &G,
) -> Result<(u8, usize), Fail> {
    let mut err = sink(alloc)?;
    let status = call(rt, alloc, line, shelf, out, &mut err, gate)?;
    Ok((status, err.held().len()))
}

/// The bytes of a file of the shelf, or `none` where it is not there.
pub fn held<'a>(shelf: &'a MemShelf, name: &str) -> &'a [u8] {
    shelf.get(name).unwrap_or(b"none")
}
