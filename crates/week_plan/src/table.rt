// Tables of the week: a word for each minute, and a bit of it for each second.
ghost use Rattle.std.specs.Prelude.{◌≡◌, ◌<◌, ◌≤◌, ◌-◌, ◌*◌, ◌^◌, ◌%◌, ℕ, Bool, true, false, get_or, length, IfOk};
ghost use Rattle.std.specs.Prelude.{◌&&◌, ◌||◌, nat_le, nat_lt};
ghost use Rattle.week_plan.specs.Tables.{IsTable, IsTableOf, how_many, is_set, is_told, joined};

use crate::stretch::WEEK;
use liq_base::Memory;
use std::alloc::Global;

/// The minutes of a week.
pub const MINUTES: usize = 10_080;

/// The seconds of a minute.
pub const MINUTE: u32 = 60;

/// The word of a minute of which each second is told.
pub const FULL: u64 = 0x0FFF_FFFF_FFFF_FFFF;

/// How two tables are joined: what both tell, what either does, or what the first tells and the other does not.
#[derive(Clone, Copy, Debug, PartialEq, Eq)]
pub enum Way {
    Both,
    Either,
    Without,
}

/// A table of the week that has each second, if `told` is true, or none: a word for each minute, and in it a bit for
/// each second.
pub fn filled(alloc: Global, told: bool) -> Result<Vec<u64>, Memory>
    ensures { IfOk result (λ words. IsTableOf (λ at. told) words.items) }
{
    repeated(alloc, word_of(told), MINUTES)
}

/// The word of a minute that has each of its 60 seconds, if `told` is true, or none.
pub fn word_of(told: bool) -> u64
    ensures small { result < 2 ^ 60 }
    ensures same { (second : ℕ) → second < 60 → is_set result second ≡ told }
{
    if told { FULL } else { 0 }
}

// A list of `count` equal words.
fn repeated(alloc: Global, word: u64, count: usize) -> Result<Vec<u64>, Memory>
    ensures size { IfOk result (λ words. length words.items ≡ count) }
    ensures same { IfOk result (λ words. (k : ℕ) → k < count → get_or words.items k 0 ≡ word) }
{
    Ok(vec![in alloc; word; count]?)
}

/// Makes one table of the week of two, in `into`: the seconds that both have, that either has, or that `into` has
/// without the other.
pub fn join(into: &mut [u64], other: &[u64], way: Way)
    requires into { IsTable into.old }
    requires other { IsTable other.now }
    ensures table { IsTable into.new }
    ensures same { (at : ℕ) → at < 604800
        → is_told into.new at ≡ joined way (is_told into.old at) (is_told other.now at) }
{
    for k in 0..MINUTES {
        into[k] = joined_words(way, into[k], other[k]);
    }
}

// The word of one minute of two joined tables: the seconds that both have, that either has, or that the first has
// without the other. A word has a bit for each of the 60 seconds of its minute.
fn joined_words(way: Way, one: u64, other: u64) -> u64
    requires one { one < 2 ^ 60 }
    requires other { other < 2 ^ 60 }
    ensures small { result < 2 ^ 60 }
    ensures same { (second : ℕ) → second < 60
        → is_set result second ≡ joined way (is_set one second) (is_set other second) }
{
    match way {
        Way::Both => one & other,
        Way::Either => one | other,
        Way::Without => one & (FULL ^ other),
    }
}

/// Whether two tables of the week have a second in common: true where in some minute the words of both have a bit in
/// common.
pub fn meet(one: &[u64], other: &[u64]) -> bool
    requires one { IsTable one.now }
    requires other { IsTable other.now }
    ensures some { result ≡ true → (at : ℕ) × (at < 604800) × ((is_told one.now at && is_told other.now at) ≡ true) }
    ensures none { result ≡ false → (at : ℕ) → at < 604800 → (is_told one.now at && is_told other.now at) ≡ false }
{
    for k in 0..MINUTES {
        if one[k] & other[k] != 0 {
            return true;
        }
    }
    false
}

/// Adds to a table of the week the seconds from `from` up to `to`, without `to`: in each minute that they touch, those
/// that lie in it.
pub fn add_span(into: &mut [u64], from: u32, to: u32)
    requires into { IsTable into.old }
    requires order { from ≤ to }
    requires week { to ≤ 604800 }
    ensures table { IsTable into.new }
    ensures same { (at : ℕ) → at < 604800
        → is_told into.new at ≡ (is_told into.old at || (nat_le from at && nat_lt at to)) }
{
    for k in from / MINUTE..to.div_ceil(MINUTE) {
        let first = k * MINUTE;
        let word = ones(from.max(first) - first, to.min(first + MINUTE) - first);
        into[k as usize] |= word;
    }
}

// The word of a minute that has its seconds from `from` up to `to`, without `to`.
fn ones(from: u32, to: u32) -> u64
    requires order { from ≤ to }
    requires minute { to ≤ 60 }
    ensures { result ≡ 2 ^ to - 2 ^ from }
{
    (1u64 << to) - (1u64 << from)
}

/// Repeats the first so many minutes of a table of the week over and over, up to its end. What stood behind them is
/// lost.
pub fn repeat(into: &mut [u64], minutes: usize)
    requires into { IsTable into.old }
    requires some { 0 < minutes }
    requires week { minutes ≤ 10080 }
    ensures table { IsTable into.new }
    ensures same { (at : ℕ) → at < 604800 → is_told into.new at ≡ is_told into.old (at % (60 * minutes)) }
{
    for k in minutes..MINUTES {
        into[k] = into[k - minutes];
    }
}

/// Whether a second of the week is in the set that a table has: the bit of the second in the word of its minute.
pub fn is_told(words: &[u64], at: u32) -> bool
    requires table { IsTable words.now }
    requires week { at < 604800 }
    ensures { result ≡ is_told words.now at }
{
    (words[(at / MINUTE) as usize] >> (at % MINUTE)) & 1 == 1
}

/// How many seconds of the week are in the set that a table has.
pub fn seconds_told(words: &[u64]) -> u32
    requires table { IsTable words.now }
    ensures { result ≡ how_many (is_told words.now) 604800 }
{
    let mut seconds = 0;
    for at in 0..WEEK {
        seconds += u32::from(is_told(words, at));
    }
    seconds
}
