//! How many segments ticks have, from the table of `docs/engine.md`, "Segments". No clause says it: `rest` of each node
//! and `make_run` are bounds from above. The file has the samples 1, 2 and 3 and is played again and again; a blank has
//! no end where none is told. A crossfade mixes two samples. A stereo node writes a sample as four bytes, since a mono
//! file gives its sample to both sides.
use crate::small_engines::{Want, check_rows};
use crate::small_plans::{Row, Small};
use fixed_text::TimeMark;
use std::alloc::Global;
use std::process::Abort;
use std::test::Fail;

const MIXED: &[Row] = &[
    Row::Node(Small::Single, &[]),
    Row::Node(Small::Blank(0), &[]),
    Row::Node(Small::Sum, &[0, 1]),
];

const BLANK_FADED: &[Row] = &[
    Row::Node(Small::Blank(0), &[]),
    Row::Node(Small::Crossfade, &[0]),
];

const FILE_FADED: &[Row] = &[
    Row::Node(Small::Single, &[]),
    Row::Node(Small::Crossfade, &[0]),
];

const SWITCHED: &[Row] = &[
    Row::Node(Small::Blank(0), &[]),
    Row::Node(Small::Always, &[0]),
];

// Second 0 of each minute, and second 1.
const FIRST: TimeMark = TimeMark {
    day: None,
    hour: None,
    minute: None,
    second: Some(0),
};

const NEXT: TimeMark = TimeMark {
    day: None,
    hour: None,
    minute: None,
    second: Some(1),
};

const SWITCHED_OFF: &[Row] = &[
    Row::Node(Small::Blank(0), &[]),
    Row::Node(Small::Between(FIRST, NEXT), &[0]),
];

const READ: &[Row] = &[Row::Node(Small::Blank(5), &[]), Row::Reader(0)];

// The file played once, and zeros after it.
const ONCE: &[Row] = &[
    Row::Node(Small::Once, &[]),
    Row::Node(Small::Blank(0), &[]),
    Row::Node(Small::Fallback, &[0, 1]),
];

// The bytes that `ONCE` writes in six instants.
const GONE_ON: &[u8] = &[
    1, 0, 1, 0, 2, 0, 2, 0, 3, 0, 3, 0, 0, 0, 0, 0, 0, 0, 0, 0, 0, 0, 0, 0,
];

// The file and two zeros, each again and again, by turns.
const ROTATED: &[Row] = &[
    Row::Node(Small::Single, &[]),
    Row::Node(Small::Blank(2), &[]),
    Row::Node(Small::Rotate, &[0, 1]),
];

// The file and two zeros, each again and again, by chance.
const DRAWN: &[Row] = &[
    Row::Node(Small::Single, &[]),
    Row::Node(Small::Blank(2), &[]),
    Row::Node(Small::Random(3), &[0, 1]),
];

// The bytes that `ROTATED` writes in a tick of eight instants.
const TURNS: &[u8] = &[
    1, 0, 1, 0, 2, 0, 2, 0, 3, 0, 3, 0, 0, 0, 0, 0, 0, 0, 0, 0, 1, 0, 1, 0, 2, 0, 2, 0, 3, 0, 3, 0,
];

// The bytes that `DRAWN` writes in a tick of eight instants.
const DRAWS: &[u8] = &[
    0, 0, 0, 0, 0, 0, 0, 0, 0, 0, 0, 0, 0, 0, 0, 0, 0, 0, 0, 0, 0, 0, 0, 0, 1, 0, 1, 0, 2, 0, 2, 0,
];

/// How many instants a tick has, the nodes, how many ticks are made of the last of these, how many segments all have,
/// and what is written, where it is told.
type Ticks = (u32, &'static [Row], u64, u64, Option<&'static [u8]>);

const TICKS: &[Ticks] = &[
    // Tracks of the file begin at 0, 3 and 6, and the blank has one track. So instants 0 to 2, 3 to 5, and 6 to 7.
    (8, MIXED, 1, 3, None),
    // At instant 0 the crossfade gives the cell that begins the track: two samples are held back behind it, and no
    // further item is settled. From then on it is in the middle of the track, and all that comes passes through, as
    // long as the blank goes on. So instants 0, and 1 to 7.
    (8, BLANK_FADED, 1, 2, None),
    // The items are 1, then 2 3 over 1 2 (2, and 5 halves), then 3 over 1, then again 2 3 over 1 2, and so on. Item 0
    // stands alone: behind it two samples are held back, and the track is at its end. Both items of a mix of two are
    // settled at once, and each mix begins a track. So instants 0, 1 to 2, 3, 4 to 5, 6, and 7.
    (8, FILE_FADED, 1, 6, None),
    // A tick is a second and one instant more. A segment has 2049 instants at most, an instant and a stretch of 2048,
    // and 8001 is three times 2049 and 1854 more. The predicate never changes, so the end of the second is no border.
    (8001, SWITCHED, 1, 4, None),
    // Three segments of 2049 instants end at instant 6146. The switch uses the blank in second 0 and nothing in second
    // 1, so the next segment ends with second 0, at instant 7999, and the last instant is alone.
    (8001, SWITCHED_OFF, 1, 5, None),
    // In tick 0 the reader has nothing yet, and tracks of the blank begin at instants 0 and 5: 2 segments. In tick 1
    // the blank is at its cells 8 to 15, so tracks of it begin at instants 2 and 7. The reader plays the chunk of tick
    // 0: its front cell is marked, as it begins to play, and so is cell 5. So instants 0 to 1, 2 to 4, 5 to 6, and 7: 4
    // segments more.
    (8, READ, 2, 6, None),
    // The zeros begin with the second instant of the second tick of two instants.
    (2, ONCE, 3, 4, Some(GONE_ON)),
    (8, ONCE, 1, 2, None),
    // The first words of the seed 3 are odd three times, and then even.
    (8, ROTATED, 1, 3, Some(TURNS)),
    (8, DRAWN, 1, 4, Some(DRAWS)),
];

// Checks that the ticks of each row's plan have as many segments as it says, and write its bytes, where they are told.
fn check(rt: &impl Abort, alloc: Global, table: &[Ticks]) -> Result<(), Fail> {
    for row in table {
        let (frame, rows, ticks, segments, held) = *row;
        let want = Want {
            ticks,
            segments,
            held,
        };
        check_rows(rt, alloc, frame, rows, want)?;
    }
    Ok(())
}

// Tests how many segments (parts that are rendered at once) the ticks of small plans have.
#[test]
fn ticks_have_their_segments(rt: HostRuntime) -> Result<(), Fail> {
    check(&rt, rt.alloc(), TICKS)
}
