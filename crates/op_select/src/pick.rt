// The child that a selection uses, from the child that it used last.
ghost use Rattle.std.specs.Prelude.{◌≡◌, ◌<◌, ◌≤◌, ◌^◌, length, drop};
ghost use Rattle.op_select.specs.Selection.{first_offering, first_pick, first_ready, plays_on, turn_pick};

use frame_core::Cell;

/// The child that a fallback or a switch uses: the first that is eligible and offers a cell; `None` where there is
/// none. If it is `sensitive` to tracks, child `last`, which was used last, is played on in the middle of its track,
/// eligible or not.
pub fn pick_first(
    sensitive: bool,
    offers: &[Option<Cell>],
    eligible: &[bool],
    last: Option<u32>,
) -> Option<u32>
    requires marks { length eligible.now ≡ length offers.now }
    requires children { length offers.now < 2 ^ 32 }
    ensures { result ≡ first_pick sensitive offers.now eligible.now last }
{
    if sensitive && plays_on(offers, last) {
        return last;
    }
    find_ready(offers, eligible)
}

/// The child that a sequence uses, which plays each child for one track and the last one for good. Child `last`, which
/// was used last, is played on to the end of its track. Then comes the first one behind it that offers a cell, or of
/// all if none was used. `None` where none does.
pub fn pick_turn(offers: &[Option<Cell>], last: Option<u32>) -> Option<u32>
    requires { length offers.now < 2 ^ 32 }
    ensures { result ≡ turn_pick offers.now last }
{
    let Some(child) = last else {
        return find_offering(offers, 0);
    };
    let at = child as usize;
    if at + 1 == offers.len() {
        if offers[at].is_some() { last } else { None }
    } else if plays_on(offers, last) {
        last
    } else {
        find_offering(offers, at + 1)
    }
}

/// Whether child `last`, which was used last, offers a cell in the middle of a track; false where none was used.
pub fn plays_on(offers: &[Option<Cell>], last: Option<u32>) -> bool
    ensures { result ≡ plays_on offers.now last }
{
    let Some(child) = last else {
        return false;
    };
    match offers.get(child as usize) {
        Some(Some(cell)) => !cell.first,
        _ => false,
    }
}

// The first child of a fallback or a switch that is eligible and offers a cell; `None` where there is none.
fn find_ready(offers: &[Option<Cell>], eligible: &[bool]) -> Option<u32>
    requires marks { length eligible.now ≡ length offers.now }
    requires children { length offers.now < 2 ^ 32 }
    ensures { result ≡ first_ready offers.now eligible.now 0 }
{
    for child in 0..offers.len() {
        if eligible[child] && offers[child].is_some() {
            return Some(child as u32);
        }
    }
    None
}

// The first child of a sequence, from place `start` on, that offers a cell; `None` where there is none.
fn find_offering(offers: &[Option<Cell>], start: usize) -> Option<u32>
    requires { length offers.now < 2 ^ 32 }
    ensures { result ≡ first_offering (drop start offers.now) start }
{
    for child in start..offers.len() {
        if offers[child].is_some() {
            return Some(child as u32);
        }
    }
    None
}
