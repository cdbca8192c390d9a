// The holes of a switch as one text.
ghost use Rattle.std.specs.Prelude.{◌≡◌, ◌<◌, ◌≤◌, ◌++◌, OnOk, IfOk, length};
ghost use Rattle.week_plan.specs.Listing.{comma, end_of_round, every_text, goes_round, is_whole, joined, more_text};
ghost use Rattle.week_plan.specs.Listing.{round_before, round_text, rounds_before, rounds_text, when_text};

use crate::Span;
use crate::stretch::WEEK;
use crate::words::{push_plain, push_span_text};
use fixed_text::write_u64;
use liq_base::Memory;
use std::alloc::Global;

const DAY: u32 = 86_400;

/// How many spans are told.
const MOST: usize = 8;

/// A span by its first and its last second. Where the last one comes first, it goes round the end of the day or of the
/// week.
#[derive(Clone, Copy, Debug, PartialEq, Eq)]
struct Round {
    from: u32,
    last: u32,
}

/// Appends the text that tells a user when no case of a `switch` holds, which is in these spans: `at any time`, or the
/// first 8 of them and how many more there are, on each day if `daily` says so. One over midnight or the end of the
/// week is told as one.
pub fn push_when(
    alloc: Global,
    into: &mut Vec<u8>,
    spans: &[Span],
    daily: bool,
) -> Result<(), Memory>
    ensures { OnOk result (into.new.items ≡ into.old.items ++ when_text daily spans.now) }
{
    if is_whole(spans) {
        return push_plain(into, b"at any time");
    }
    let rounds = rounds(alloc, spans, end_of_round(daily))?;
    push_rounds(into, &rounds, daily)?;
    push_every(into, daily)?;
    Ok(())
}

// Whether the first of these spans is the whole week, from second 0 to 604800.
fn is_whole(spans: &[Span]) -> bool
    ensures { result ≡ is_whole spans.now }
{
    match spans.first() {
        Some(span) => span.from == 0 && span.to >= WEEK,
        None => false,
    }
}

// The second at which what comes back ends: the end of a day with `daily`, else of the week.
fn end_of_round(daily: bool) -> u32
    ensures is { result ≡ end_of_round daily }
    ensures some { 0 < result }
{
    if daily { DAY } else { WEEK }
}

// Appends `, every day` with `daily`, else nothing.
fn push_every(into: &mut Vec<u8>, daily: bool) -> Result<(), Memory>
    ensures { OnOk result (into.new.items ≡ into.old.items ++ every_text daily) }
{
    if daily {
        push_plain(into, b", every day")
    } else {
        Ok(())
    }
}

// The spans that begin before `end`, the end of a day or of the week, by their first and last seconds. If the last one
// ends there and the first one begins at 0, the two are one, round that end.
fn rounds(alloc: Global, spans: &[Span], end: u32) -> Result<Vec<Round>, Memory>
    requires { 0 < end }
    ensures { IfOk result (λ rounds. rounds.items ≡ joined end (rounds_before end spans.now)) }
{
    let mut rounds = Vec::new(alloc);
    push_before(&mut rounds, spans, end)?;
    join(&mut rounds, end);
    Ok(rounds)
}

// Appends these spans as far as `end`, the end of the day or of the week, each by its first and last second.
fn push_before(rounds: &mut Vec<Round>, spans: &[Span], end: u32) -> Result<(), Memory>
    ensures { OnOk result (rounds.new.items ≡ rounds.old.items ++ rounds_before end spans.now) }
{
    for span in spans {
        push_round_before(rounds, span, end)?;
    }
    Ok(())
}

// Appends a span as far as `end`, the end of the day or of the week, by its first and last second; nothing if it begins
// at `end` or later.
fn push_round_before(rounds: &mut Vec<Round>, span: &Span, end: u32) -> Result<(), Memory>
    ensures { OnOk result (rounds.new.items ≡ rounds.old.items ++ round_before end span.now) }
{
    if span.from < end {
        rounds.push(Round {
            from: span.from,
            last: span.to.min(end).saturating_sub(1),
        })?;
    }
    Ok(())
}

// Makes the last and the first of these spans one, if they meet at `end`, the end of the day or of the week.
fn join(rounds: &mut Vec<Round>, end: u32)
    requires { 0 < end }
    ensures { rounds.new.items ≡ joined end rounds.old.items }
{
    if !goes_round(rounds, end) {
        return;
    }
    let at = rounds.len() - 1;
    rounds[at] = Round {
        from: rounds[at].from,
        last: rounds[0].last,
    };
    let _joined = rounds.remove(0);
}

// Whether the last of these spans goes as far as `end`, the end of the day or of the week, and another one begins at 0:
// the two then are one span round that end.
fn goes_round(rounds: &[Round], end: u32) -> bool
    requires { 0 < end }
    ensures is { result ≡ goes_round end rounds.now }
{
    let count = rounds.len();
    count >= 2 && rounds[0].from == 0 && rounds[count - 1].last == end - 1
}

// Appends the text of these spans, with commas between them: the first 8, and how many more there are. With `daily`
// they are spans of each day, and else of the week.
fn push_rounds(into: &mut Vec<u8>, rounds: &[Round], daily: bool) -> Result<(), Memory>
    ensures { OnOk result (into.new.items ≡ into.old.items ++ rounds_text daily 0 rounds.now) }
{
    for (k, round) in rounds.iter().enumerate() {
        if k == MOST {
            push_more(into, rounds.len() - k)?;
            return Ok(());
        }
        push_round(into, k, daily, round)?;
    }
    Ok(())
}

// Appends the text of span number k, from 0, by its first and last second, behind a comma unless it is the first.
// Seconds past the end of the week are told as its last one. With `daily` it is one of each day, else of the week.
fn push_round(into: &mut Vec<u8>, k: usize, daily: bool, round: &Round) -> Result<(), Memory>
    ensures { OnOk result (into.new.items ≡ into.old.items ++ (comma k ++ round_text daily round.now)) }
{
    push_comma(into, k)?;
    push_span_text(
        into,
        daily,
        round.from.min(WEEK - 1),
        round.last.min(WEEK - 1),
    )?;
    Ok(())
}

// Appends the comma and blank before span number k, unless it is number 0.
fn push_comma(into: &mut Vec<u8>, k: usize) -> Result<(), Memory>
    ensures { OnOk result (into.new.items ≡ into.old.items ++ comma k) }
{
    if k > 0 {
        push_plain(into, b", ")?;
    }
    Ok(())
}

// Appends ` and N more`, where N is how many spans are not told.
fn push_more(into: &mut Vec<u8>, count: usize) -> Result<(), Memory>
    ensures { OnOk result (into.new.items ≡ into.old.items ++ more_text count) }
{
    push_plain(into, b" and ")?;
    write_u64(into, count as u64)?;
    push_plain(into, b" more")?;
    Ok(())
}
