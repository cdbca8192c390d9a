//! Rotates and randoms over a few instants, from the rules of `docs/streams.md`.
ghost use Rattle.std.specs.Prelude.{◌≡◌, length};

use frame_core::Cell;
use op_turn::{Turn, TurnState};
use std::process::Abort;

// What a child offers: with a positive sample a track begins, with a negative one it goes on, and 0 is nothing.
fn offered(left: i16) -> Option<Cell> {
    if left == 0 {
        return None;
    }
    let first = left > 0;
    Some(Cell {
        left,
        right: 0,
        first,
        title: 0,
    })
}

// Checks one instant of a `rotate` or `random`, whose children offer `offers`. `used` has the child that it must use,
// and whether that one's cell begins a track. Then the state goes on by what the children offered (`by_offers`), or by
// what it picked, which must come to the same.
fn check_instant(
    rt: &impl Abort,
    state: &mut TurnState,
    offers: &[Option<Cell>],
    used: (u32, bool),
    by_offers: bool,
)
    requires { length offers.now ≡ state.old.children }
    ensures { state.new.children ≡ state.old.children }
{
    let Some(pick) = state.offer(offers) else {
        panic!(rt; "no child is used");
    };
    assert!(rt; (pick.child, pick.cell.first) == used);
    if by_offers {
        state.advance(offers);
    } else {
        state.give(pick);
    }
}

// Checks a `rotate` or `random` (`turn`) over some instants, and that it picks nothing where no child offers. Each row
// has what the two children offer, the child that is used, and whether its cell begins a track.
fn check(rt: &impl Abort, turn: Turn, rows: &[(i16, i16, u32, bool)]) {
    let mut state = TurnState::new(turn, 2);
    for (at, row) in rows.iter().enumerate() {
        let (left, right, child, first) = *row;
        let offers = [offered(left), offered(right)];
        check_instant(rt, &mut state, &offers, (child, first), at % 2 == 0);
    }
    let silent = [None, None];
    assert!(rt; state.offer(&silent).is_none());
}

/// What the two children offer at each instant, the child that is used, and whether its cell begins a track.
type Rows = &'static [(i16, i16, u32, bool)];

const RUNS: &[(Turn, Rows)] = &[
    // A rotate plays each child for one track.
    (
        Turn::Rotate,
        &[
            (5, 6, 0, true),
            (5, 6, 1, true),
            (5, -7, 1, false),
            (5, 6, 0, true),
            (5, 6, 1, true),
            (5, -7, 1, false),
        ],
    ),
    // It goes past what offers nothing.
    (
        Turn::Rotate,
        &[(0, 5, 1, true), (0, 5, 1, true), (0, 5, 1, true)],
    ),
    // A random chooses by the words of its seed.
    (
        Turn::Random { seed: 3 },
        &[
            (5, 6, 1, true),
            (5, -7, 1, false),
            (5, 6, 1, true),
            (5, -7, 1, false),
            (5, 6, 1, true),
            (5, -7, 1, false),
            (5, 6, 0, true),
            (5, 6, 1, true),
        ],
    ),
    (
        Turn::Random { seed: 9 },
        &[(5, 0, 0, true), (5, 0, 0, true), (5, 0, 0, true)],
    ),
];

// Tests which child a `rotate` and a `random` use at each instant, with the rows of the tables.
#[test]
fn a_rotate_and_a_random_play_a_track_each_time(rt: HostRuntime) {
    for (turn, rows) in RUNS {
        check(&rt, *turn, rows);
    }
}
