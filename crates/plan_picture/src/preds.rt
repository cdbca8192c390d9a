// Predicates as a script writes them.
ghost use Rattle.std.specs.Prelude.{◌≡◌, ◌≤◌, ◌++◌, OnOk, drop, false, length, map, take};
ghost use Rattle.time_pred.specs.Predicates.{parts_of};
ghost use Rattle.time_pred.specs.View.{view_pred};
ghost use Rattle.plan_picture.specs.Predicates.{before_part, closing, interval_text, joined, mark_text, opening};
ghost use Rattle.plan_picture.specs.Predicates.{part_text, pred_text, shown};

use fixed_text::{TimeMark, write_u64};
use liq_base::Memory;
use plan_blames::{push_between, push_plain};
use time_pred::Pred;

/// Appends a predicate as an edge shows it: a long one is cut, and its length told.
pub fn push_shown(into: &mut Vec<u8>, pred: &Pred) -> Result<(), Memory>
    ensures { OnOk result (into.new.items ≡ into.old.items ++ shown (pred_text false (view_pred pred.now))) }
{
    let before = into.len();
    push_pred(into, pred, false)?;
    cut(into, before)
}

// Cuts the predicate that was appended after the first `before` bytes, if it has more than 200 characters: to the
// first 200, and tells how many it has.
fn cut(into: &mut Vec<u8>, before: usize) -> Result<(), Memory>
    requires { before ≤ length into.old.items }
    ensures { OnOk result (into.new.items ≡ take before into.old.items ++ shown (drop before into.old.items)) }
{
    let count = into.len() - before;
    if count <= 200 {
        return Ok(());
    }
    into.truncate(before + 200);
    push_between(into, b".. (", count as u64, b" characters)")
}

/// Appends a predicate (a condition on the time of the week) as a script writes it. One with parts gets brackets where
/// it stands within another (`within`).
#[cycle(pred)]
fn push_pred(into: &mut Vec<u8>, pred: &Pred, within: bool) -> Result<(), Memory>
    ensures { OnOk result (into.new.items ≡ into.old.items ++ pred_text within (view_pred pred.now)) }
{
    match pred {
        Pred::Always => push_plain(into, b"true"),
        Pred::Never => push_plain(into, b"false"),
        Pred::At(mark) => push_mark(into, *mark),
        Pred::Between(from, to) => push_interval(into, *from, *to),
        Pred::Not(inner) => {
            into.extend_from_slice(b"not ")?;
            push_pred(into, inner, true)
        }
        Pred::All(parts) => push_group(into, b" and ", parts, within),
        Pred::Any(parts) => push_group(into, b" or ", parts, within),
    }
}

// Appends the parts of an `and` or `or` with this word between them, in brackets if the predicate stands within another
// (`within`).
#[cycle(pred)]
fn push_group(into: &mut Vec<u8>, word: &[u8], parts: &[Pred], within: bool) -> Result<(), Memory>
    ensures { OnOk result (into.new.items ≡ into.old.items
        ++ (opening within ++ (joined word.now 0 (parts_of (map view_pred parts.now)) ++ closing within))) }
{
    push_opening(into, within)?;
    push_parts(into, word, parts)?;
    push_closing(into, within)
}

// Appends the predicates that an `and` or `or` joins, with this word between each two.
#[cycle(pred)]
fn push_parts(into: &mut Vec<u8>, word: &[u8], parts: &[Pred]) -> Result<(), Memory>
    ensures { OnOk result (into.new.items ≡ into.old.items ++ joined word.now 0 (parts_of (map view_pred parts.now))) }
{
    for (n, part) in parts.iter().enumerate() {
        push_before(into, word, n)?;
        push_pred(into, part, true)?;
    }
    Ok(())
}

// Appends the word that joins parts of a predicate, before the part of this number, unless it is the first one.
fn push_before(into: &mut Vec<u8>, word: &[u8], number: usize) -> Result<(), Memory>
    ensures { OnOk result (into.new.items ≡ into.old.items ++ before_part word.now number) }
{
    if number == 0 {
        Ok(())
    } else {
        push_plain(into, word)
    }
}

// Appends the bracket that opens a predicate with parts, if it stands within another one.
fn push_opening(into: &mut Vec<u8>, within: bool) -> Result<(), Memory>
    ensures { OnOk result (into.new.items ≡ into.old.items ++ opening within) }
{
    if within {
        push_plain(into, b"(")
    } else {
        Ok(())
    }
}

// Appends the bracket that closes a predicate with parts, if it stands within another one.
fn push_closing(into: &mut Vec<u8>, within: bool) -> Result<(), Memory>
    ensures { OnOk result (into.new.items ≡ into.old.items ++ closing within) }
{
    if within {
        push_plain(into, b")")
    } else {
        Ok(())
    }
}

// Appends an interval of the week, from one time mark to another, as `6h-22h`.
fn push_interval(into: &mut Vec<u8>, from: TimeMark, to: TimeMark) -> Result<(), Memory>
    ensures { OnOk result (into.new.items ≡ into.old.items ++ interval_text from to) }
{
    push_mark(into, from)?;
    into.extend_from_slice(b"-")?;
    push_mark(into, to)
}

// Appends a time mark: those of its parts (day, hour, minute, second) that are written, with their units.
fn push_mark(into: &mut Vec<u8>, mark: TimeMark) -> Result<(), Memory>
    ensures { OnOk result (into.new.items ≡ into.old.items ++ mark_text mark) }
{
    push_two(into, mark.day, b"w", mark.hour, b"h")?;
    push_two(into, mark.minute, b"m", mark.second, b"s")
}

// Appends two parts of a time mark (such as day and hour), each with its unit if it is written, and nothing for `None`.
fn push_two(
    into: &mut Vec<u8>,
    one: Option<u8>,
    unit: &[u8],
    other: Option<u8>,
    other_unit: &[u8],
) -> Result<(), Memory>
    ensures { OnOk result (into.new.items ≡ into.old.items
        ++ (part_text one unit.now ++ part_text other other_unit.now)) }
{
    push_part(into, one, unit)?;
    push_part(into, other, other_unit)
}

// Appends a part of a time mark (such as the hour) as a number with its unit, if it is written.
fn push_part(into: &mut Vec<u8>, part: Option<u8>, unit: &[u8]) -> Result<(), Memory>
    ensures { OnOk result (into.new.items ≡ into.old.items ++ part_text part unit.now) }
{
    let Some(number) = part else {
        return Ok(());
    };
    write_u64(into, u64::from(number))?;
    push_plain(into, unit)
}
