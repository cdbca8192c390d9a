// The child that is used, from the one that was used last.
ghost use Rattle.std.specs.Prelude.{◌≡◌, ◌<◌, ◌+◌, ◌^◌, ℕ, suc, length, slice_get, IfSome};
ghost use Rattle.op_turn.specs.declared.turn.Turn.{Turn as TheTurn};
ghost use Rattle.op_select.specs.Selection.{picked};
ghost use Rattle.op_turn.specs.Turns.{random_pick, offering_from, rotated, words_left};

use crate::{Pick, Turn};
use frame_core::Cell;
use seed_words::SeedWords;

/// The words of random bits by which a random chooses, from the first word of its seed on. A rotate needs none.
pub fn words_of(turn: Turn) -> Option<SeedWords>
    ensures { result ≡ words_left turn 0 }
{
    match turn {
        Turn::Rotate => None,
        Turn::Random { seed } => Some(SeedWords::new(seed)),
    }
}

/// Uses up one word of random bits of a random, so that its next choice takes the next; a rotate has none.
pub fn use_word(words: &mut Option<SeedWords>)
    ensures { (turn : TheTurn) (choices : ℕ) → words.old ≡ words_left turn choices
        → words.new ≡ words_left turn (suc choices) }
{
    if let Some(words) = words {
        words.next_word();
    }
}

/// The child that a rotate chooses: the next after the child `last` that offers a cell, going on at child 0 behind the
/// last one; `None` where none offers.
pub fn rotated(offers: &[Option<Cell>], last: Option<u32>) -> Option<u32>
    requires children { length offers.now < 2 ^ 32 }
    requires last { IfSome last (λ child. child < length offers.now) }
    ensures { result ≡ rotated offers.now last }
{
    let Some(child) = last else {
        return find_offering(offers, 0, 0);
    };
    let (tried, after) = offers.split_at(child as usize + 1);
    match find_offering(after, child + 1, 0) {
        Some(next) => Some(next),
        None => find_offering(tried, 0, 0),
    }
}

/// The child that a random chooses by a word of random bits: of the children that offer a cell, the one of number
/// `word` modulo their count; `None` where none offers.
pub fn drawn(offers: &[Option<Cell>], word: u32) -> Option<u32>
    requires { length offers.now < 2 ^ 32 }
    ensures { result ≡ random_pick offers.now word }
{
    let count = count_offering(offers);
    if count == 0 {
        return None;
    }
    find_offering(offers, 0, word % count)
}

/// Puts together what a rotate or a random offers: the child `used` with its cell, which is marked as the first of a
/// track where it begins one or the child is another than `last`. `None` where no child is used.
pub fn picked(offers: &[Option<Cell>], last: Option<u32>, used: Option<u32>) -> Option<Pick>
    ensures { result ≡ picked offers.now last used }
{
    let child = used?;
    let cell = (*offers.get(child as usize)?)?;
    let first = cell.first || last != Some(child);
    Some(Pick {
        child,
        cell: Cell { first, ..cell },
    })
}

// The child of this number, from 0, among those that offer a cell, in their order. `offers` begins with what child
// `from` offers. `None` where fewer offer one.
fn find_offering(offers: &[Option<Cell>], from: u32, number: u32) -> Option<u32>
    requires { from + length offers.now < 2 ^ 32 }
    ensures { result ≡ slice_get (offering_from offers.now from) number }
{
    let mut left = number;
    for at in 0..offers.len() {
        if offers[at].is_none() {
            continue;
        }
        if left == 0 {
            return Some(from + at as u32);
        }
        left -= 1;
    }
    None
}

// How many children offer a cell at this instant.
fn count_offering(offers: &[Option<Cell>]) -> u32
    requires { length offers.now < 2 ^ 32 }
    ensures { result ≡ length (offering_from offers.now 0) }
{
    let mut count = 0;
    for at in 0..offers.len() {
        if offers[at].is_none() {
            continue;
        }
        count += 1;
    }
    count
}
