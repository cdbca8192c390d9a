// The shelf and the sink in memory that fail where they are told to, each call once with ample memory; and the printed
// texts.
use crate::texts::check_same;
use liq_base::{Failed, Fetched, Looked, MemShelf, MemSink, Memory, Shelf, ShelfFault, Sink};
use std::alloc::{AllocError, Global};
use std::process::Abort;
use std::test::Fail;

// Each row: a piece, the answer, and what the sink holds then. A piece past the room takes nothing; a listed stop past
// the piece takes all of it.
const PIECES: &[(&str, Result<(), Failed>, &str)] = &[
    ("ab", Ok(()), "ab"),
    ("cd", Err(Failed), "abc"),
    ("def", Err(Failed), "abc"),
    ("d", Err(Failed), "abcd"),
    ("e", Ok(()), "abcde"),
    ("", Ok(()), "abcde"),
    ("f", Err(Failed), "abcde"),
];

// Appends a piece to a sink in memory, and checks that it answers `answer`, and that the sink holds the text `held`
// after it.
fn check_piece(
    rt: &impl Abort,
    sink: &mut MemSink,
    piece: &str,
    answer: Result<(), Failed>,
    held: &str,
) {
    assert!(rt; sink.append(piece.as_bytes()) == answer, "at {piece}");
    assert!(rt; sink.held() == held.as_bytes(), "after {piece}");
}

// Appends the piece of each row to a sink in memory, and checks the answer and what the sink holds.
fn check_pieces(rt: &impl Abort, sink: &mut MemSink, rows: &[(&str, Result<(), Failed>, &str)]) {
    for row in rows {
        let (piece, answer, held) = *row;
        check_piece(rt, sink, piece, answer, held);
    }
}

// A sink in memory with room for 5 bytes. Each pair is the number of an append, from 0, and after how many bytes it
// fails; of a number that stands there twice the first counts.
fn failing_sink(alloc: Global) -> Result<MemSink, Memory> {
    let fails = vec![in alloc; (1, 1), (3, 9), (3, 0)]?;
    MemSink::new(alloc, 5, fails)
}

// A sink in memory takes pieces up to its room, and fails at the appends at which it was told to.
#[test]
fn a_sink_fails_where_it_is_told_to(rt: HostRuntime) -> Result<(), Fail> {
    let mut sink = failing_sink(rt.alloc())?;
    check_pieces(&rt, &mut sink, PIECES);
    Ok(())
}

// Each row: a name, how many bytes are allowed, the answer, and how many bytes were read by then.
const READS: &[(&str, u64, Result<Fetched, ShelfFault>, usize)] = &[
    ("b", 3, Ok(Fetched::Found), 3),
    ("b", 3, Err(ShelfFault::Failed), 3),
    ("c", 3, Ok(Fetched::Missing), 3),
    ("b", 2, Ok(Fetched::TooLarge), 3),
    ("b", 3, Ok(Fetched::Found), 6),
];

// Reads a file of at most `most` bytes from a shelf in memory, behind what `into` holds: what the shelf answers, and
// how many bytes `into` has then.
fn read_one(
    shelf: &mut MemShelf,
    into: &mut Vec<u8>,
    name: &str,
    most: u64,
) -> (Result<Fetched, ShelfFault>, usize) {
    let answer = shelf.read(name, into, most);
    (answer, into.len())
}

// Reads the file of each row from a shelf in memory, and checks the answer and how many bytes were read by then.
fn check_reads(
    rt: &impl Abort,
    shelf: &mut MemShelf,
    into: &mut Vec<u8>,
    rows: &[(&str, u64, Result<Fetched, ShelfFault>, usize)],
) {
    for row in rows {
        let (name, most, answer, len) = *row;
        assert!(rt;
            read_one(shelf, into, name, most) == (answer, len),
            "{name}, {most}"
        );
    }
}

// A shelf in memory with the file `b`, whose second read, number 1 from 0, fails as by a device.
fn shelf(alloc: Global) -> Result<MemShelf, Memory> {
    let mut shelf = MemShelf::new(alloc, shelf_files(alloc)?);
    shelf.fail_read(1)?;
    Ok(shelf)
}

// A shelf in memory reads the files that it has, up to the allowed size, and fails where it was told to.
#[test]
fn a_shelf_reads_what_it_has(rt: HostRuntime) -> Result<(), Fail> {
    let mut shelf = shelf(rt.alloc())?;
    check_reads(&rt, &mut shelf, &mut Vec::new(rt.alloc()), READS);
    Ok(())
}

// Each row: a name, how many bytes are allowed, the answer, and how many bytes were read by then.
const LOOKS: &[(&str, u64, Result<Looked, ShelfFault>, usize)] = &[
    ("b", 3, Ok(Looked::Found(3)), 3),
    ("b", 3, Err(ShelfFault::Failed), 3),
    ("c", 3, Ok(Looked::Missing), 3),
    ("b", 2, Ok(Looked::TooLarge), 3),
    ("b", 3, Ok(Looked::Found(3)), 6),
];

// Looks at the first byte of a file of at most `most` bytes on a shelf in memory: what the shelf answers, and how
// many bytes `into` has then.
fn look_once(
    shelf: &mut MemShelf,
    into: &mut Vec<u8>,
    name: &str,
    most: u64,
) -> (Result<Looked, ShelfFault>, usize) {
    let answer = shelf.look(name, into, 1, most);
    (answer, into.len())
}

// Looks at the file of each row on a shelf in memory, and checks the answer and how many bytes were read by then.
fn check_looks(
    rt: &impl Abort,
    shelf: &mut MemShelf,
    into: &mut Vec<u8>,
    rows: &[(&str, u64, Result<Looked, ShelfFault>, usize)],
) {
    for row in rows {
        let (name, most, answer, len) = *row;
        assert!(rt;
            look_once(shelf, into, name, most) == (answer, len),
            "{name}, {most}"
        );
    }
}

// A look at a file on a shelf in memory answers its size as a read would, and fails where it was told to.
#[test]
fn a_shelf_in_memory_is_looked_at_by_reading(rt: HostRuntime) -> Result<(), Fail> {
    let mut shelf = shelf(rt.alloc())?;
    check_looks(&rt, &mut shelf, &mut Vec::new(rt.alloc()), LOOKS);
    Ok(())
}

/// The files of the shelf that is tested: one file, `b`, that holds `123`.
fn shelf_files(alloc: Global) -> Result<Vec<(String, Vec<u8>)>, AllocError> {
    let name = String::from_str(alloc, "b")?;
    let bytes = Vec::from_slice(alloc, b"123")?;
    Ok(vec![in alloc; (name, bytes)]?)
}

// The printed texts of want of memory and of a device that failed.
fn device_faults(alloc: Global) -> Result<String, AllocError> {
    format!(in alloc; "{Memory}, {Failed}")
}

// The printed texts of both faults of a shelf.
fn shelf_faults(alloc: Global) -> Result<String, AllocError> {
    let (memory, failed) = (ShelfFault::Memory, ShelfFault::Failed);
    format!(in alloc; "{memory}, {failed}")
}

// The faults of devices and of shelves are printed as their messages.
#[test]
fn faults_are_printed(rt: HostRuntime) -> Result<(), Fail> {
    let want = "out of memory, a device failed";
    check_same(&rt, "of devices", &device_faults(rt.alloc())?, want);
    check_same(&rt, "of shelves", &shelf_faults(rt.alloc())?, want);
    Ok(())
}
