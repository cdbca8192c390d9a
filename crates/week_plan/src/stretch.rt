// For how long a table tells of each second, or of none.
ghost use Rattle.std.specs.Prelude.{◌≡◌, ◌<◌, ◌≤◌, ◌+◌, ◌^◌, ℕ, false, min};
ghost use Rattle.week_plan.specs.Spans.{IsFor};
ghost use Rattle.week_plan.specs.Tables.{IsTable, is_set, is_told};

use crate::table::{FULL, MINUTE, MINUTES, is_told, word_of};

/// The seconds of a week.
pub const WEEK: u32 = 604_800;

/// Whether each second is told, or none is, from one up to another one, without it.
#[derive(Clone, Copy, Debug, PartialEq, Eq)]
pub struct Stretch {
    pub told: bool,
    pub end: u32,
}

/// Whether second `at` is in the set that a table of the week has (`told`), and up to which second (`end`), at least,
/// all are as this one.
pub fn stretch_from(words: &[u64], at: u32) -> Stretch
    requires table { IsTable words.now }
    requires week { at < 604800 }
    ensures later { at < result.end }
    ensures within { result.end ≤ 604800 }
    ensures same { IsFor (is_told words.now) at result.end result.told }
{
    let told = is_told(words, at);
    let stays = stays_in(words[(at / MINUTE) as usize], at % MINUTE, told);
    Stretch {
        told,
        end: over_minutes(words, at + stays, told),
    }
}

// Skips whole minutes of a table of the week, from the second `from` on, while all seconds of each are in it (`told`)
// or none is. Gives where they end; `from` itself inside a minute.
fn over_minutes(words: &[u64], from: u32, told: bool) -> u32
    requires table { IsTable words.now }
    requires week { from ≤ 604800 }
    ensures later { from ≤ result }
    ensures within { result ≤ 604800 }
    ensures same { IsFor (is_told words.now) from result told }
{
    if from % MINUTE != 0 {
        return from;
    }
    let word = word_of(told);
    for k in from / MINUTE..MINUTES as u32 {
        if words[k as usize] != word {
            return k * MINUTE;
        }
    }
    WEEK
}

// For how many seconds, from `second` on, those of one minute are all in its word (`told`) or all not: up to the end of
// the minute at most. It counts the zeros before the next second that is otherwise.
fn stays_in(word: u64, second: u32, told: bool) -> u32
    requires word { word < 2 ^ 60 }
    requires minute { second < 60 }
    requires here { is_set word second ≡ told }
    ensures some { 0 < result }
    ensures within { second + result ≤ 60 }
    ensures same { (later : ℕ) → second ≤ later → later < second + result → is_set word later ≡ told }
{
    let behind = others(word, told) >> second;
    if behind == 0 {
        return MINUTE - second;
    }
    behind.trailing_zeros().min(MINUTE - second)
}

// The word of a minute with the other seconds: those not in `word` if `told` is true, and else those in it.
fn others(word: u64, told: bool) -> u64
    ensures apart { (second : ℕ) → second < 60 → is_set result second ≡ false → is_set word second ≡ told }
    ensures alike { (second : ℕ) → second < 60 → is_set word second ≡ told → is_set result second ≡ false }
{
    if told { FULL ^ word } else { word }
}

/// The second of the week that comes `stays` seconds after `at`, or the end of the week if that is earlier.
pub fn end_of(at: u32, stays: u32) -> u32
    requires at { at < 604800 }
    requires some { 0 < stays }
    ensures is { result ≡ min (at + stays) 604800 }
    ensures later { at < result }
    ensures within { result ≤ 604800 }
    ensures stays { result ≤ at + stays }
{
    at + stays.min(WEEK - at)
}
