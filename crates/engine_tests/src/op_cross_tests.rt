// Worked rows of crossfades.
ghost use Rattle.std.specs.Prelude.{◌<◌, ◌≤◌};

use frame_core::Cell;
use liq_base::{Kind, Memory};
use op_cross::CrossState;
use std::alloc::Global;
use std::process::Abort;
use std::test::Fail;

// The cell of this sample on both sides, from the track of the number `title`. `first` says that the track begins with
// it.
fn slot(sample: i16, title: u32, first: bool) -> Option<Cell> {
    Some(Cell {
        left: sample,
        right: sample,
        first,
        title,
    })
}

// Checks a crossfade with this overlap, in samples: fed with these slots, again and again where `again` is true and
// else once, it gives these items. Of each the left sample and the title (its track's number) are told, both 0 where it
// is empty.
fn check(
    rt: &impl Abort,
    alloc: Global,
    overlap: u32,
    slots: &[Option<Cell>],
    again: bool,
    items: &[(i16, u32)],
) -> Result<(), Memory>
    requires { (0 < overlap) × (overlap ≤ 4194304) }
{
    let mut state = CrossState::new(alloc, overlap, Kind::Mono)?;
    let mut at = 0;
    for want in items {
        while state.wants() {
            if again && at >= slots.len() {
                at = 0;
            }
            state.feed(slots.get(at).copied().flatten());
            if at < slots.len() {
                at += 1;
            }
        }
        let item = state.offer();
        assert_eq!(rt; item.map_or((0, 0), |cell| (cell.left, cell.title)), *want);
        state.advance(item.is_some());
    }
    Ok(())
}

// Tests that where less than the whole overlap is left of a track, that overlap is only as long as what is left.
#[test]
fn overlaps_are_as_long_as_their_tracks(rt: HostRuntime) -> Result<(), Fail> {
    let mut slots = [slot(0, 2, false); 11];
    slots[..6].fill(slot(80, 1, false));
    slots[0] = slot(80, 1, true);
    slots[6] = slot(0, 2, true);
    // What is mixed has the title of the track that comes.
    let items = [
        (80, 1),
        (80, 1),
        (80, 2),
        (60, 2),
        (40, 2),
        (20, 2),
        (0, 1),
        (80, 1),
        (80, 2),
        (60, 2),
        (40, 2),
        (20, 2),
        (0, 1),
        (80, 1),
        (80, 2),
        (60, 2),
    ];
    check(&rt, rt.alloc(), 4, &slots, true, &items)?;
    Ok(())
}

// Tests that a crossfade with an overlap of one sample gives that one the title of the track that comes, and keeps all
// other samples.
#[test]
fn an_overlap_of_one_keeps_every_other_sample(rt: HostRuntime) -> Result<(), Fail> {
    let slots = [
        slot(10, 1, true),
        slot(20, 1, false),
        slot(30, 1, false),
        slot(1, 2, true),
        slot(2, 2, false),
    ];
    let items = [(10, 1), (20, 1), (30, 2), (2, 2), (0, 0), (0, 0)];
    check(&rt, rt.alloc(), 1, &slots, false, &items)?;
    Ok(())
}
