//! Selections over an instant, from the rules of `docs/streams.md`.
use frame_core::Cell;
use op_select::{Rule, SelectState};
use std::process::Abort;

// A fallback that is track-sensitive, and one that is not.
const MINDS: Rule = Rule::First { sensitive: true };

const FREE: Rule = Rule::First { sensitive: false };

// What a child of a selection offers, from the track of the number `title`: with a positive sample a track begins, with
// a negative one it goes on, and 0 is nothing.
fn offered(left: i16, title: u32) -> Option<Cell> {
    if left == 0 {
        return None;
    }
    let first = left > 0;
    Some(Cell {
        left,
        right: 0,
        first,
        title,
    })
}

/// The rule, the child used last, if any, what the two children offer, with the titles 5 and 6, whether the first one
/// is eligible, the child that is used, and the title of its cell and whether it begins a track.
type Row = (Rule, Option<u32>, i16, i16, bool, Option<(u32, u32, bool)>);

const ROWS: &[Row] = &[
    // A child is used until its track ends.
    (MINDS, None, 0, 1, true, Some((1, 6, true))),
    (MINDS, Some(1), 7, -2, true, Some((1, 6, false))),
    (MINDS, Some(1), 7, 3, true, Some((0, 5, true))),
    (MINDS, Some(0), -7, 9, false, Some((0, 5, false))),
    (MINDS, Some(0), 7, 9, false, Some((1, 6, true))),
    (MINDS, Some(0), 7, 0, false, None),
    (FREE, Some(1), -7, -2, true, Some((0, 5, true))),
    // A sequence goes on at the end of a track.
    (Rule::Turns, None, 0, 5, true, Some((1, 6, true))),
    (Rule::Turns, None, 1, 1, true, Some((0, 5, true))),
    (Rule::Turns, Some(0), -2, -2, true, Some((0, 5, false))),
    (Rule::Turns, Some(0), 1, 1, true, Some((1, 6, true))),
    (Rule::Turns, Some(1), 4, -3, true, Some((1, 6, false))),
    (Rule::Turns, Some(1), 4, 3, true, Some((1, 6, true))),
    (Rule::Turns, Some(1), 4, 0, true, None),
];

// Checks that each row's selection uses the child that the row says, and gives its cell.
fn check(rt: &impl Abort, rows: &[Row]) {
    for row in rows {
        let (rule, last, left, right, eligible, used) = *row;
        let mut state = SelectState::new(rule, 2);
        if let Some(child) = last {
            state.advance(child.min(1));
        }
        let slots = [offered(left, 5), offered(right, 6)];
        let picked = state.offer(&slots, &[eligible, true]);
        assert!(rt; picked.map(|it| (it.child, it.cell.title, it.cell.first)) == used);
    }
}

// Tests which child a `fallback` and a `sequence` use at an instant, with the rows of the table.
#[test]
fn a_child_is_used_until_its_track_ends(rt: HostRuntime) {
    check(&rt, ROWS);
}
