// The table of a mark, and of an interval.
ghost use Rattle.std.specs.Prelude.{◌≡◌, ◌<◌, ◌≤◌, ◌*◌, ◌%◌, ℕ, false, IfOk, ◌&&◌, ◌||◌, nat_le, nat_lt};
ghost use Rattle.time_pred.specs.Marks.{period_of};
ghost use Rattle.time_pred.specs.Predicates.{holds};
ghost use Rattle.time_pred.specs.View.{view_pred};
ghost use Rattle.week_plan.specs.Tables.{IsTable, IsTableOf, is_told};

use crate::stretch::end_of;
use crate::table::{add_span, filled, repeat};
use fixed_text::{TimeMark, WeekSecond};
use liq_base::Memory;
use std::alloc::Global;
use time_pred::Pred;

/// After how many minutes a time mark comes back: a week if it names a day, a day if an hour, an hour if a minute, and
/// else one minute.
pub fn minutes_of(mark: TimeMark) -> u32
    ensures same { 60 * result ≡ period_of mark }
    ensures some { 0 < result }
    ensures week { result ≤ 10080 }
{
    if mark.day.is_some() {
        10_080
    } else if mark.hour.is_some() {
        1440
    } else if mark.minute.is_some() {
        60
    } else {
        1
    }
}

/// The table of the seconds of the week at which a predicate holds that comes back after so many minutes. A word of it
/// is a minute, a bit a second.
pub fn repeated_table(alloc: Global, pred: &Pred, minutes: u32) -> Result<Vec<u64>, Memory>
    requires some { 0 < minutes }
    requires week { minutes ≤ 10080 }
    requires back { (at : ℕ) → holds (view_pred pred.now) (at % (60 * minutes)) ≡ holds (view_pred pred.now) at }
    ensures { IfOk result (λ words. IsTableOf (holds (view_pred pred.now)) words.items) }
{
    let mut words = filled(alloc, false)?;
    fill_period(&mut words, pred, minutes);
    Ok(words)
}

// Fills a table of the week for a predicate that comes back after so many minutes: finds the seconds at which it holds
// in these, and repeats them to the end of the week. It asks the predicate once for each stretch of seconds in which
// its answer stays.
fn fill_period(words: &mut [u64], pred: &Pred, minutes: u32)
    requires some { 0 < minutes }
    requires week { minutes ≤ 10080 }
    requires none { IsTableOf (λ at. false) words.old }
    requires back { (at : ℕ) → holds (view_pred pred.now) (at % (60 * minutes)) ≡ holds (view_pred pred.now) at }
    ensures { IsTableOf (holds (view_pred pred.now)) words.new }
{
    let end = minutes * 60;
    let mut at = 0;
    while at < end {
        let here = WeekSecond { second: at };
        let next = end_of(at, pred.steady(here)).min(end);
        add_where(words, at, next, pred.holds(here));
        at = next;
    }
    repeat(words, minutes as usize);
}

// Adds to a table of the week the seconds from `from` up to `to`, if `told` is true; else does nothing.
fn add_where(into: &mut [u64], from: u32, to: u32, told: bool)
    requires into { IsTable into.old }
    requires order { from ≤ to }
    requires week { to ≤ 604800 }
    ensures table { IsTable into.new }
    ensures same { (at : ℕ) → at < 604800
        → is_told into.new at ≡ (is_told into.old at || (nat_le from at && nat_lt at to && told)) }
{
    if told {
        add_span(into, from, to);
    }
}
