// Traces, replays and cue files that fail. What is left is worked out by hand from the rules in `docs/`.
use crate::calls::{
    CARRIED, Failing, ONE_TWO_THREE, call_told, held, let_fail, shelf, shelf_of, sink, words_of,
};
use liq_base::{FreeGate, MemShelf};
use liq_cli::liq_alone;
use std::alloc::Global;
use std::process::Abort;
use std::sync::Wait;
use std::test::Fail;
use std::thread::Threads;

/// Two outputs, each of one track without a name. A tick has 8 samples.
const TWO: &str =
    "set(\"frame.audio.samplerate\", 8000)\nset(\"frame.duration\", 0.001)\ns = blank()\n\
    output.file(%wav, \"A\", s)\noutput.file(%wav, \"C\", s)\n";

/// An output without a track.
const NOTHING: &str = "set(\"frame.audio.samplerate\", 8000)\nset(\"frame.duration\", 0.001)\n\
    output.file(%wav, fallible=true, \"A\", fail())\n";

/// Bytes of an output of one tick.
const OUTPUT_BYTES: usize = 76;

// The status with which the program ends, run on the words `line` over this shelf of files in memory, where the device
// call that `failing` names fails. What is left stays on the shelf.
fn status_of<R: Threads + Wait + Sync>(
    rt: &R,
    alloc: Global,
    line: &str,
    shelf: &mut MemShelf,
    failing: Failing,
) -> Result<u8, Fail> {
    let_fail(shelf, failing)?;
    let mut out = sink(alloc)?;
    let (status, _) = call_told(rt, alloc, line, shelf, &mut out, &FreeGate)?;
    Ok(status)
}

// Whether both outputs have all bytes of one tick.
fn are_whole(shelf: &MemShelf) -> bool {
    held(shelf, "A").len() == OUTPUT_BYTES && held(shelf, "C").len() == OUTPUT_BYTES
}

// Whether the trace `T` and the cue files of the outputs `A` and `C` have these bytes, in this order; `none` is for a
// file that is not there. Where `left` is shorter the last ones are not looked at.
fn hold(shelf: &MemShelf, left: &[&str]) -> bool {
    for (name, bytes) in ["T", "A.cue", "C.cue"].iter().zip(left.iter()) {
        if held(shelf, name) != bytes.as_bytes() {
            return false;
        }
    }
    true
}

/// A script, words, what fails, and what is left of the trace and of the cue files. Creations 0 and 1 are those of the
/// outputs; cue files come behind the outputs and before the trace.
type Row = (&'static str, &'static str, Failing, &'static [&'static str]);

const TRACED: &str = "render f 1 --trace=T";

const BOTH: &str = "render f 1 --cues --trace=T";

const ROWS: &[Row] = &[
    (CARRIED, TRACED, Failing::Creation(2), &["none"]),
    (CARRIED, TRACED, Failing::Piece(2, 0, 7), &["liq tra"]),
    (CARRIED, TRACED, Failing::Closing(2), &["none"]),
    (TWO, BOTH, Failing::Creation(2), &["none", "none", "none"]),
    (TWO, BOTH, Failing::Piece(2, 0, 1), &["none", "0", "none"]),
    (TWO, BOTH, Failing::Closing(2), &["none", "none", "none"]),
    (TWO, BOTH, Failing::Creation(3), &["none", "0\n", "none"]),
    (TWO, BOTH, Failing::Piece(3, 0, 1), &["none", "0\n", "0"]),
    (TWO, BOTH, Failing::Creation(4), &["none", "0\n", "0\n"]),
    (TWO, BOTH, Failing::Piece(4, 0, 1), &["l", "0\n", "0\n"]),
];

// Runs the call of a row, in which a device fails, and checks that it ends with status 4, that of a failed write, that
// both outputs are whole, and that of the trace and the cue files is left what the row tells.
fn check<R: Abort + Threads + Wait + Sync>(
    rt: &R,
    alloc: Global,
    shelf: &mut MemShelf,
    row: &Row,
) -> Result<(), Fail> {
    let (_, line, failing, left) = *row;
    let status = status_of(rt, alloc, line, shelf, failing)?;
    assert!(rt; status == 4 && are_whole(shelf) && hold(shelf, left));
    Ok(())
}

// Where a cue file or a trace cannot be written, the outputs are whole all the same.
#[test]
fn cue_files_and_traces_that_fail_leave_the_outputs_whole(rt: HostRuntime) -> Result<(), Fail> {
    for row in ROWS {
        let mut shelf = shelf(rt.alloc(), row.0)?;
        check(&rt, rt.alloc(), &mut shelf, row)?;
    }
    Ok(())
}

// The cue file of an output without a track is created, and nothing is written to it.
#[test]
fn an_empty_cue_file_gets_no_piece(rt: HostRuntime) -> Result<(), Fail> {
    let mut shelf = shelf(rt.alloc(), NOTHING)?;
    let line = "render f 1 --cues";
    let status = status_of(&rt, rt.alloc(), line, &mut shelf, Failing::Piece(1, 0, 1))?;
    assert!(rt; status == 0 && held(&shelf, "A.cue").is_empty());
    Ok(())
}

/// What fails of a replay of one tick, its status, and how many bytes its first output has then, if it is there.
const REPLAYS: &[(Failing, u8, Option<usize>)] = &[
    (Failing::Read(0), 3, None),
    (Failing::Read(1), 3, None),
    (Failing::Read(2), 3, None),
    (Failing::Read(3), 0, Some(76)),
    (Failing::Creation(0), 4, None),
    (Failing::Creation(1), 4, Some(44)),
    (Failing::Creation(2), 0, Some(76)),
    (Failing::Piece(0, 1, 5), 4, Some(49)),
    (Failing::Closing(0), 4, None),
    (Failing::Closing(1), 4, Some(76)),
    (Failing::Closing(2), 0, Some(76)),
];

/// A trace of one tick, whose reader came later than the chunk.
const TRACE: &[u8] = b"liq trace 1 1 16 1\nwindow 0 buffer 0 puts A takes GE\n";

const AUDIO_AND_TRACE: &[(&str, &[u8])] = &[("B", ONE_TWO_THREE), ("T", TRACE)];

// The status with which a replay of these words ends, run on one thread. `None` where the words are those of a call
// that takes threads, which is not run.
fn replayed(alloc: Global, words: &[String], shelf: &mut MemShelf) -> Result<Option<u8>, Fail> {
    let mut out = sink(alloc)?;
    let mut err = sink(alloc)?;
    Ok(liq_alone(alloc, words, shelf, &mut out, &mut err))
}

// Runs a replay of which a call of a device fails, and checks its status and how many bytes of its first output are
// left. `row` has what fails, the status, and that number, `None` where the output is not there.
fn check_replay(
    rt: &impl Abort,
    alloc: Global,
    words: &[String],
    row: &(Failing, u8, Option<usize>),
) -> Result<(), Fail> {
    let (failing, status, left) = *row;
    let mut shelf = shelf_of(alloc, CARRIED, AUDIO_AND_TRACE)?;
    let_fail(&mut shelf, failing)?;
    let found = replayed(alloc, words, &mut shelf)?;
    assert!(rt; found == Some(status) && shelf.get("A").map(|bytes| bytes.len()) == left);
    Ok(())
}

// A replay of a trace, with each call of its devices failing in turn.
#[test]
fn each_call_of_a_replay_fails(rt: HostRuntime) -> Result<(), Fail> {
    let words = words_of(rt.alloc(), "replay f 1 T")?;
    for row in REPLAYS {
        check_replay(&rt, rt.alloc(), &words, row)?;
    }
    Ok(())
}
