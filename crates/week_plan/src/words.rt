// When a hole is, for people.
ghost use Rattle.std.specs.Prelude.{◌≡◌, ◌<◌, ◌/◌, ◌%◌, ◌++◌, OnOk, codes};
ghost use Rattle.week_plan.specs.Texts.{clock_text, daily_text, day_text, end_day, end_text, is_one_day, seconds_part};
ghost use Rattle.week_plan.specs.Texts.{span_text, two_digits, weekly_text};

use fixed_text::write_u64;
use liq_base::Memory;

const MINUTE: u32 = 60;

const HOUR: u32 = 3600;

const DAY: u32 = 86_400;

/// Appends the text of a span by its first and last second: of each day with `daily`, else of the week, with the names
/// of days. A span of the week goes round its end where the last second comes first.
pub fn push_span_text(into: &mut Vec<u8>, daily: bool, from: u32, last: u32) -> Result<(), Memory>
    requires from { from < 604800 }
    requires last { last < 604800 }
    ensures { OnOk result (into.new.items ≡ into.old.items ++ span_text daily from last) }
{
    if daily {
        push_daily(into, from, last)
    } else {
        push_weekly(into, from, last)
    }
}

// Appends the text of a span that comes back on each day, by its first and last second: `HH:MM-HH:MM`.
fn push_daily(into: &mut Vec<u8>, from: u32, last: u32) -> Result<(), Memory>
    ensures { OnOk result (into.new.items ≡ into.old.items ++ daily_text from last) }
{
    push_clock(into, from % DAY)?;
    push_dash(into)?;
    push_end(into, last)?;
    Ok(())
}

// Appends the text of a span of the week, by its first and last second: `Mon HH:MM-Tue HH:MM`, the second day only if
// it is another.
fn push_weekly(into: &mut Vec<u8>, from: u32, last: u32) -> Result<(), Memory>
    requires { last < 604800 }
    ensures { OnOk result (into.new.items ≡ into.old.items ++ weekly_text from last) }
{
    push_begin(into, from)?;
    push_dash(into)?;
    push_end_day(into, from, last)?;
    push_end(into, last)?;
    Ok(())
}

// Appends the day and the time of a second of the week, at which a span begins: `Mon HH:MM`.
fn push_begin(into: &mut Vec<u8>, from: u32) -> Result<(), Memory>
    ensures { OnOk result (into.new.items ≡ into.old.items ++ (day_text (from / 86400) ++ clock_text (from % 86400))) }
{
    push_day(into, from / DAY)?;
    push_clock(into, from % DAY)
}

// Appends the name of the day on which a span ends, by its first and last second, unless it began on that day.
fn push_end_day(into: &mut Vec<u8>, from: u32, last: u32) -> Result<(), Memory>
    requires { last < 604800 }
    ensures { OnOk result (into.new.items ≡ into.old.items ++ end_day from last) }
{
    if is_one_day(from, last) {
        Ok(())
    } else {
        push_day(into, last / DAY)
    }
}

// Whether a span of the week, by its first and last second, begins and ends on the same day. One that goes round the
// end of the week to the same day does not.
fn is_one_day(from: u32, last: u32) -> bool
    requires { last < 604800 }
    ensures { result ≡ is_one_day from last }
{
    from / DAY == last / DAY && from < last + 1
}

// Appends the time of the day at which a span ends, from its last second of the week; `24:00` at the end of a day. A
// span ends a second after its last one.
fn push_end(into: &mut Vec<u8>, last: u32) -> Result<(), Memory>
    ensures { OnOk result (into.new.items ≡ into.old.items ++ end_text last) }
{
    push_clock(into, last % DAY + 1)
}

// Appends a time of the day, told in seconds since midnight: `HH:MM`, and `:SS` where it is not on a full minute.
fn push_clock(into: &mut Vec<u8>, second: u32) -> Result<(), Memory>
    ensures { OnOk result (into.new.items ≡ into.old.items ++ clock_text second) }
{
    push_two(into, second / HOUR)?;
    push_colon(into)?;
    push_two(into, second / MINUTE % 60)?;
    push_seconds(into, second % MINUTE)?;
    Ok(())
}

// Appends a colon and the seconds of a time in two digits, unless they are 0.
fn push_seconds(into: &mut Vec<u8>, seconds: u32) -> Result<(), Memory>
    ensures { OnOk result (into.new.items ≡ into.old.items ++ seconds_part seconds) }
{
    if seconds == 0 {
        return Ok(());
    }
    push_colon(into)?;
    push_two(into, seconds)
}

// Appends a number below 100 in two digits, such as `07`.
fn push_two(into: &mut Vec<u8>, number: u32) -> Result<(), Memory>
    ensures { OnOk result (into.new.items ≡ into.old.items ++ two_digits number) }
{
    write_u64(into, u64::from(number / 10))?;
    write_u64(into, u64::from(number % 10))?;
    Ok(())
}

// Appends the colon between the parts of a time.
fn push_colon(into: &mut Vec<u8>) -> Result<(), Memory>
    ensures { OnOk result (into.new.items ≡ into.old.items ++ codes ":") }
{
    push_plain(into, b":")
}

// Appends the dash between the begin and the end of a span.
fn push_dash(into: &mut Vec<u8>) -> Result<(), Memory>
    ensures { OnOk result (into.new.items ≡ into.old.items ++ codes "-") }
{
    push_plain(into, b"-")
}

// Appends the short name of a day of the week, from 0 for Monday, and a blank.
#[tactic(auto, unfolding(crate::specs::Texts::day_text))]
fn push_day(into: &mut Vec<u8>, day: u32) -> Result<(), Memory>
    ensures { OnOk result (into.new.items ≡ into.old.items ++ day_text day) }
{
    if day == 0 {
        push_plain(into, b"Mon ")
    } else if day == 1 {
        push_plain(into, b"Tue ")
    } else if day == 2 {
        push_plain(into, b"Wed ")
    } else if day == 3 {
        push_plain(into, b"Thu ")
    } else if day == 4 {
        push_plain(into, b"Fri ")
    } else if day == 5 {
        push_plain(into, b"Sat ")
    } else {
        push_plain(into, b"Sun ")
    }
}

/// Appends the bytes of a text to a list of bytes.
pub fn push_plain(into: &mut Vec<u8>, text: &[u8]) -> Result<(), Memory>
    ensures { OnOk result (into.new.items ≡ into.old.items ++ text.now) }
{
    into.extend_from_slice(text)?;
    Ok(())
}
