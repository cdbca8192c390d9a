// The audio files of whole plans.
ghost use Rattle.std.specs.Prelude.{◌≡◌, ◌≤◌, length, IfOk};

use frame_core::Library;
use liq_base::{Kind, Memory, SureShelf, Text};
use plan_core::{Items, Node, Op, Plan};
use std::alloc::{AllocError, Global};
use std::process::Abort;
use track_library::{LoadFault, Sizes, load};
use wav_io::{WavFault, read_head};

/// The mono file of the samples 1 2 3 at 44100 Hz, of 50 bytes.
const FILE: [u8; 50] =
    *b"RIFF\x2a\x00\x00\x00WAVEfmt \x10\x00\x00\x00\x01\x00\x01\x00\x44\xac\x00\x00\x88\x58\x01\x00\x02\x00\x10\
    \x00data\x06\x00\x00\x00\x01\x00\x02\x00\x03\x00";

/// The mono file of the samples 0 100 at 4000 Hz, of 48 bytes.
const SLOW: [u8; 48] =
    *b"RIFF\x28\x00\x00\x00WAVEfmt \x10\x00\x00\x00\x01\x00\x01\x00\xa0\x0f\x00\x00\x40\x1f\x00\x00\x02\x00\x10\
    \x00data\x04\x00\x00\x00\x00\x00\x64\x00";

/// The audio files, a file of text, and two lists: one of B, the text and a file that is not there, and one of files at
/// two rates.
const FILES: &[(&str, &[u8])] = &[
    ("B", &FILE),
    ("slow", &SLOW),
    ("list", b"none\nB\ntext\nB\n"),
    ("rates", b"slow\nB\n"),
    ("text", b"no audio file"),
];

/// A file for a shelf in memory: copies of this name and these bytes.
fn file_of(alloc: Global, name: &str, bytes: &[u8]) -> Result<(String, Vec<u8>), AllocError> {
    let name = String::from_str(alloc, name)?;
    let bytes = bytes.to_vec(alloc)?;
    Ok((name, bytes))
}

/// Appends files of these names and bytes to the list from which a shelf in memory is made.
fn add_files(
    alloc: Global,
    files: &mut Vec<(String, Vec<u8>)>,
    rows: &[(&str, &[u8])],
) -> Result<(), AllocError> {
    for row in rows {
        files.push(file_of(alloc, row.0, row.1)?)?;
    }
    Ok(())
}

/// A shelf in memory with the audio files and lists of these tests.
fn shelf(alloc: Global) -> Result<SureShelf, AllocError> {
    let mut files = Vec::new(alloc);
    add_files(alloc, &mut files, FILES)?;
    Ok(SureShelf::new(alloc, files))
}

/// A plan for these tests with one node, a leaf that plays files, at `rate` samples a second. It has no sink, since
/// loading needs none.
fn plan_of(alloc: Global, leaf: Op, rate: u32) -> Result<Plan, AllocError>
    ensures leaf { IfOk result (λ plan. length plan.nodes ≡ 1) }
    ensures rate { IfOk result (λ plan. plan.rate ≡ rate) }
{
    let node = Node {
        op: leaf,
        kind: Kind::Mono,
        children: Items::new(alloc),
    };
    Ok(Plan {
        rate,
        frame: 1764,
        nodes: Items::from_vec(vec![in alloc; node]?),
        sinks: Items::new(alloc),
        buffers: Items::new(alloc),
    })
}

/// The operator of a leaf that plays files by this name: a `playlist` of the list, or a `single` of the audio file.
fn leaf_of(alloc: Global, is_list: bool, name: &str) -> Result<Op, Memory> {
    let file = Text::from_str(alloc, name)?;
    if is_list {
        Ok(Op::Playlist { file, again: false })
    } else {
        Ok(Op::Single(file))
    }
}

/// Loads the audio files of a plan with one leaf, the operator `leaf`, from the shelf of these tests. `file` and `all`
/// are the most bytes allowed for one file and for all.
fn library_of(alloc: Global, leaf: Op, rate: u32, file: u16, all: u16) -> Result<Library, LoadFault>
    requires least { 8000 ≤ rate }
    requires most { rate ≤ 192000 }
    ensures { IfOk result (λ library. length library.leaves ≡ 1) }
{
    let plan = plan_of(alloc, leaf, rate)?;
    let mut shelf = shelf(alloc)?;
    let sizes = Sizes {
        file: u64::from(file),
        all: u64::from(all),
    };
    load(alloc, &plan, &mut shelf, sizes)
}

/// How many audio files are loaded for a plan of one leaf, or the fault of loading them. The leaf plays the list of
/// this name if `is_list` is true, else the file. `rate` is in samples a second; `file` and `all` are the most bytes
/// for one file and for all.
fn count_tracks(
    alloc: Global,
    rate: u32,
    is_list: bool,
    name: &str,
    file: u16,
    all: u16,
) -> Result<u32, LoadFault>
    requires least { 8000 ≤ rate }
    requires most { rate ≤ 192000 }
{
    let leaf = leaf_of(alloc, is_list, name)?;
    let library = library_of(alloc, leaf, rate, file, all)?;
    Ok(library.tracks(0))
}

/// The word by which the rows of these tests name a fault of loading. Bad audio has a name here only where the file is
/// no RIFF file.
fn fault_name(fault: &LoadFault) -> &'static str {
    match fault {
        LoadFault::Missing(_) => "missing",
        LoadFault::BadAudio(_, WavFault::NotRiff) => "no audio file",
        LoadFault::FileTooLarge(_) => "file too large",
        LoadFault::AllTooLarge => "all too large",
        _ => "another fault",
    }
}

/// The rate of a plan in samples a second, by whether it is slow.
fn rate_of(slow: bool) -> u32
    ensures least { 8000 ≤ result }
    ensures most { result ≤ 192000 }
{
    if slow { 8000 } else { 44_100 }
}

/// Whether the rate is 8000 and not 44100, whether it is a list, its name, the most bytes for one file and for all, and
/// how many files are played or what is wrong.
type Row = (
    bool,
    bool,
    &'static str,
    u16,
    u16,
    Result<u32, &'static str>,
);

/// At 8000 Hz the two samples at 4000 Hz are four, and the three of B are one: a file counts for what it becomes if
/// that is more.
const ROWS: &[Row] = &[
    (false, false, "B", 1000, 100, Ok(1)),
    (false, false, "B", 50, 50, Ok(1)),
    (false, false, "B", 1000, 49, Err("all too large")),
    (false, false, "B", 49, 1000, Err("file too large")),
    (false, false, "none", 1000, 100, Err("missing")),
    (false, false, "text", 1000, 100, Err("no audio file")),
    (false, false, "text", 12, 100, Err("file too large")),
    (false, true, "list", 49, 50, Ok(0)),
    (false, true, "list", 1000, 50, Ok(2)),
    (false, true, "none", 1000, 100, Err("missing")),
    (true, false, "slow", 52, 52, Ok(1)),
    (true, false, "slow", 50, 1000, Err("file too large")),
    (true, false, "slow", 51, 1000, Err("file too large")),
    (true, false, "slow", 1000, 51, Err("all too large")),
    (true, false, "B", 50, 50, Ok(1)),
    (true, false, "B", 49, 1000, Err("file too large")),
    (true, true, "rates", 51, 50, Ok(1)),
    (true, true, "rates", 52, 102, Ok(2)),
    (true, true, "rates", 52, 101, Err("all too large")),
];

/// Checks each row: loads the files of its leaf, and compares their number, or the fault, with the one that the row
/// wants.
fn check(rt: &impl Abort, alloc: Global, rows: &[Row]) {
    for row in rows {
        let (slow, is_list, name, file, all, want) = *row;
        match count_tracks(alloc, rate_of(slow), is_list, name, file, all) {
            Ok(count) => assert!(rt; Ok(count) == want),
            Err(fault) => assert!(rt; Err(fault_name(&fault)) == want),
        }
    }
}

// The loading of audio files keeps to the bounds on one file and on all, and leaves out of a list what is no audio
// file.
#[test]
fn audio_files_are_of_bounded_size_and_lists_skip_what_is_none(rt: HostRuntime) {
    check(&rt, rt.alloc(), ROWS);
}

/// How many bytes of the file of three samples are its front, how many bytes the whole file has, and what they tell:
/// the place of the first block and the bytes of all, a fault, or nothing.
const HEADS: &[(usize, u64, Option<Result<(u64, u64), WavFault>>)] = &[
    (44, 50, Some(Ok((44, 6)))),
    (44, 49, Some(Ok((44, 4)))),
    (44, 45, Some(Err(WavFault::Empty))),
    (43, 50, None),
    (11, 50, None),
    (11, 11, Some(Err(WavFault::NotRiff))),
    (36, 36, Some(Err(WavFault::NoData))),
];

/// Reads the head of a WAV file of `size` bytes from its front: gives where the samples begin and how many bytes they
/// have, a fault, or `None` where the front is too short to tell.
fn told_by(front: &[u8], size: u64) -> Option<Result<(u64, u64), WavFault>> {
    match read_head(front, size) {
        Some(Ok(head)) => Some(Ok((head.at, head.size))),
        Some(Err(fault)) => Some(Err(fault)),
        None => None,
    }
}

/// Checks each row: takes so many bytes of the test file as the front of a file of this size, and compares what its
/// head tells with the row. A row has both sizes, and then where the samples begin with their bytes, a fault, or
/// `None`.
fn check_heads(rt: &impl Abort, rows: &[(usize, u64, Option<Result<(u64, u64), WavFault>>)]) {
    for row in rows {
        let (length, size, told) = *row;
        let front = &FILE[..length.min(FILE.len())];
        assert!(rt; told_by(front, size) == told, "{length}, {size}");
    }
}

// The front of a WAV file tells where its samples are or what is wrong, and nothing where it is too short.
#[test]
fn the_front_of_a_file_tells_its_head(rt: HostRuntime) {
    check_heads(&rt, HEADS);
}
