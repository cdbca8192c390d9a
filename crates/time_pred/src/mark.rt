// When a time mark and an interval of two of them hold.
ghost use Rattle.std.specs.Prelude.{◌≡◌, ◌≤◌, ◌<◌, ◌-◌, ◌%◌, ◌-ℤ◌, pos, unsigned_abs};
ghost use Rattle.std.specs.Int.{int_rem_euclid};
ghost use Rattle.time_pred.specs.Marks.{Stays, value_of, period_of, finest_of, is_at, is_between};

use fixed_text::{TimeMark, WeekSecond};

// Seconds of a minute, of an hour and of a day.
const MINUTE: u32 = 60;

const HOUR: u32 = 3600;

const DAY: u32 = 86_400;

/// Seconds of a week.
pub const WEEK: u32 = 604_800;

// Whether a time mark of a script, as `9h` or `2w`, that stands alone holds at a second of the week. In each period of
// its coarsest part it holds from the time that it names on, as long as its finest part is: `9h` for an hour each day.
pub fn is_at(mark: TimeMark, at: WeekSecond) -> bool
    ensures { result ≡ is_at mark at.second }
{
    let period = period(mark);
    let since = i64::from(at.second % period) - i64::from(value(mark));
    since.rem_euclid(i64::from(period)) < i64::from(finest(mark))
}

// Whether the interval from one time mark of a script to another, as `9h-17h`, holds at a second of the week; its end
// is left out. It comes back in the longer period of both. If it begins after its end, it runs on into the next period.
pub fn is_between(from: TimeMark, to: TimeMark, at: WeekSecond) -> bool
    ensures { result ≡ is_between from to at.second }
{
    let since = at.second % period(from).max(period(to));
    let (first, end) = (value(from), value(to));
    if first <= end {
        first <= since && since < end
    } else {
        first <= since || since < end
    }
}

// For how many seconds from this one on, at least 1 and at most a week, it stays whether a mark alone holds: up to the
// end of its finest part while it holds, and otherwise until it comes back.
pub fn steady_at(mark: TimeMark, at: WeekSecond) -> u32
    ensures stays { Stays (is_at mark) at.second result }
    ensures some { 0 < result }
    ensures most { result ≤ 604800 }
{
    let period = period(mark);
    let phase = phase(mark, at);
    let finest = finest(mark);
    let left = period - phase;
    if phase < finest {
        left.min(finest - phase)
    } else {
        left
    }
}

// How many seconds have gone by at second `at` since the time that a mark names last came, around the mark's period;
// fewer than the period has.
fn phase(mark: TimeMark, at: WeekSecond) -> u32
    ensures is { result ≡ unsigned_abs
        (int_rem_euclid (pos (at.second % period_of mark) -ℤ pos (value_of mark)) (pos (period_of mark))) }
    ensures below { result < period_of mark }
{
    let period = period(mark);
    let since = i64::from(at.second % period) - i64::from(value(mark));
    since.rem_euclid(i64::from(period)) as u32
}

// For how many seconds from this one on, at least 1 and at most a week, it stays whether the interval from one mark to
// another holds: up to the next of its two ends, or of the period's end.
pub fn steady_between(from: TimeMark, to: TimeMark, at: WeekSecond) -> u32
    ensures stays { Stays (is_between from to) at.second result }
    ensures some { 0 < result }
    ensures most { result ≤ 604800 }
{
    let period = period(from).max(period(to));
    let since = at.second % period;
    let left = until(since, value(from), period - since);
    until(since, value(to), left)
}

// The seconds from `since` to `time`, at most `most`; `most` where `time` is not ahead. Both are counted from the
// beginning of a period.
fn until(since: u32, time: u32, most: u32) -> u32
    requires { 0 < most }
    ensures some { 0 < result }
    ensures within { result ≤ most }
    ensures before { since < time → result ≤ time - since }
{
    if since < time {
        most.min(time - since)
    } else {
        most
    }
}

// The time that a mark names, in seconds since its period began: the sum of its day, hour, minute and second. A week
// begins with day 1; day 0 is its seventh, as day 7 is. A part that it does not name is 0.
fn value(mark: TimeMark) -> u32
    ensures { result ≡ value_of mark }
{
    let days = match mark.day {
        None => 0,
        Some(0) => 6,
        Some(day) => u32::from(day - 1),
    };
    let hours = u32::from(mark.hour.unwrap_or(0));
    let minutes = u32::from(mark.minute.unwrap_or(0));
    let seconds = u32::from(mark.second.unwrap_or(0));
    days * DAY + hours * HOUR + minutes * MINUTE + seconds
}

// The period in which a mark comes back, in seconds: that of its coarsest part.
fn period(mark: TimeMark) -> u32
    ensures same { result ≡ period_of mark }
    ensures some { 0 < result }
    ensures small { result ≤ 604800 }
{
    if mark.day.is_some() {
        WEEK
    } else if mark.hour.is_some() {
        DAY
    } else if mark.minute.is_some() {
        HOUR
    } else {
        MINUTE
    }
}

// How long a mark alone holds, in seconds: the length of its finest part.
fn finest(mark: TimeMark) -> u32
    ensures { result ≡ finest_of mark }
{
    if mark.second.is_some() {
        1
    } else if mark.minute.is_some() {
        MINUTE
    } else if mark.hour.is_some() {
        HOUR
    } else {
        DAY
    }
}
