// Audio of 24 bits, written to devices that fail. Expected bytes are worked out by hand from the rules in
// `docs/formats.md`.
use crate::calls::{Failing, call_told, held, let_fail, shelf_of, sink};
use liq_base::{FreeGate, MemShelf};
use std::alloc::Global;
use std::process::Abort;
use std::sync::Wait;
use std::test::Fail;
use std::thread::Threads;

/// Stereo, 8000 Hz, one sample: 5 on the left, -2 on the right.
const PAIR: &[u8] =
    b"RIFF\x28\0\0\0WAVEfmt \x10\0\0\0\x01\0\x02\0\x40\x1f\0\0\0\x7d\0\0\x04\0\x10\0data\x04\0\0\0\x05\0\xfe\xff";

/// Mono, 8000 Hz, 24 bits, three times 1, without the zero byte that stands behind the odd data.
const ODD: &[u8] =
    b"RIFF\x2e\0\0\0WAVEfmt \x10\0\0\0\x01\0\x01\0\x40\x1f\0\0\xc0\x5d\0\0\x03\0\x18\0data\x09\0\0\0\0\x01\0\0\x01\
    \0\0\x01\0";

/// Stereo, 8000 Hz, 24 bits, the sample of `PAIR`; the data is even.
const EVEN: &[u8] =
    b"RIFF\x2a\0\0\0WAVEfmt \x10\0\0\0\x01\0\x02\0\x40\x1f\0\0\x80\xbb\0\0\x06\0\x18\0data\x06\0\0\0\0\x05\0\0\xfe\xff";

/// Scripts of one sample a tick.
const OF_MEAN: &str = "set(\"frame.audio.samplerate\", 8000)\nset(\"frame.duration\", 0.000125)\n\
    output.file(%wav(samplesize=24), \"A\", mean(single(\"S\")))\n";

const OF_PAIR: &str = "set(\"frame.audio.samplerate\", 8000)\nset(\"frame.duration\", 0.000125)\n\
    output.file(%wav(samplesize=24), \"A\", single(\"S\"))\n";

/// A script, words, the piece that fails, the status, and the output. The zero byte behind odd data is a piece of its
/// own; behind even data there is none.
type Row = (&'static str, &'static str, u64, u8, &'static [u8]);

const ROWS: &[Row] = &[
    (OF_MEAN, "render f 3", 4, 4, ODD),
    (OF_PAIR, "render f 1", 2, 0, EVEN),
];

const AUDIO: &[(&str, &[u8])] = &[("S", PAIR)];

// Runs the call of a row, where the piece of the output that the row tells fails, and checks the status and the bytes
// that are left. Where there is no such piece nothing fails.
fn check<R: Abort + Threads + Wait + Sync>(
    rt: &R,
    alloc: Global,
    shelf: &mut MemShelf,
    row: &Row,
) -> Result<(), Fail> {
    let (_, line, piece, status, output) = *row;
    let_fail(shelf, Failing::Piece(0, piece, 0))?;
    let mut out = sink(alloc)?;
    let (found, _) = call_told(rt, alloc, line, shelf, &mut out, &FreeGate)?;
    assert!(rt; found == status && held(shelf, "A") == output);
    Ok(())
}

// The zero byte behind odd data of 24-bit samples is written as a piece of its own, which can fail; behind even data
// there is none.
#[test]
fn the_last_zero_byte_is_a_piece_of_its_own(rt: HostRuntime) -> Result<(), Fail> {
    for row in ROWS {
        let mut shelf = shelf_of(rt.alloc(), row.0, AUDIO)?;
        check(&rt, rt.alloc(), &mut shelf, row)?;
    }
    Ok(())
}
