// The lines of a switch.
ghost use Rattle.std.specs.Prelude.{◌≡◌, ◌++◌, OnOk, codes, decimal};
ghost use Rattle.week_lines.specs.Lines.{below_text, hole_line, instead_text, part_text, sum_line, switch_text};
ghost use Rattle.week_lines.specs.Lines.{track_text};

use crate::above::Instead;
use fixed_text::write_u64;
use liq_base::Memory;
use std::alloc::Global;
use week_plan::{Span, push_plain, push_when};

/// Appends how a line about a switch begins: the word `switch`, its number and a colon.
pub fn push_switch(into: &mut Vec<u8>, number: usize) -> Result<(), Memory>
    ensures { OnOk result (into.new.items ≡ into.old.items ++ switch_text number) }
{
    push_number(into, b"switch ", number as u64)?;
    push_plain(into, b": ")
}

/// Appends a text and then a number in decimal.
pub fn push_number(into: &mut Vec<u8>, text: &[u8], number: u64) -> Result<(), Memory>
    ensures { OnOk result (into.new.items ≡ into.old.items ++ (text.now ++ decimal number)) }
{
    push_plain(into, text)?;
    write_u64(into, number)?;
    Ok(())
}

/// Appends the line about the holes of switch `number`: the `spans` of the week in which no case of it holds, the same
/// each day if `daily`, and what plays `instead`. `sensitive`: a track that runs ends first. `below`: the times are
/// those of the crossfade's clock above.
pub fn push_hole(
    alloc: Global,
    into: &mut Vec<u8>,
    number: usize,
    spans: &[Span],
    daily: bool,
    instead: Instead,
    sensitive: bool,
    below: bool,
) -> Result<(), Memory>
    ensures { OnOk result (into.new.items ≡ into.old.items
        ++ hole_line number spans.now daily instead sensitive below) }
{
    push_switch(into, number)?;
    push_plain(into, b"nothing holds ")?;
    push_when(alloc, into, spans, daily)?;
    push_plain(into, words_of(instead))?;
    push_track(into, sensitive)?;
    push_clock(into, below)?;
    push_plain(into, b"\n")?;
    Ok(())
}

// How a line tells what plays in the place of a switch while no case of it holds.
fn words_of(instead: Instead) -> &'static [u8]
    ensures { result.now ≡ instead_text instead }
{
    match instead {
        Instead::Silence => b": silence",
        Instead::Next => b": the fallback plays its next source",
        Instead::Unknown => b": it plays nothing",
    }
}

// Appends, if the switch is track-sensitive, that its track ends first.
fn push_track(into: &mut Vec<u8>, sensitive: bool) -> Result<(), Memory>
    ensures { OnOk result (into.new.items ≡ into.old.items ++ track_text sensitive) }
{
    if sensitive {
        push_plain(into, b", once the track has ended")
    } else {
        Ok(())
    }
}

// Appends, if the switch lies below a crossfade, that its times are those of the crossfade's clock.
fn push_clock(into: &mut Vec<u8>, below: bool) -> Result<(), Memory>
    ensures { OnOk result (into.new.items ≡ into.old.items ++ below_text below) }
{
    if below {
        push_plain(into, b", by the clock of the crossfade above")
    } else {
        Ok(())
    }
}

/// Appends how long it is silent in a week, as hours, with minutes and seconds where they are not 0. Nothing is
/// appended where it is never silent.
pub fn push_sum(into: &mut Vec<u8>, seconds: u64) -> Result<(), Memory>
    ensures { OnOk result (into.new.items ≡ into.old.items ++ sum_line seconds) }
{
    if seconds == 0 {
        return Ok(());
    }
    push_number(into, b"in all up to ", seconds / 3600)?;
    push_part(into, seconds % 3600, seconds / 60 % 60)?;
    push_part(into, seconds % 60, seconds % 60)?;
    push_plain(into, b" hours of silence a week\n")?;
    Ok(())
}

// Appends a colon and `number`, minutes or seconds below 60, in two digits. Nothing is appended if `rest`, the seconds
// that are still to be told, is 0.
fn push_part(into: &mut Vec<u8>, rest: u64, number: u64) -> Result<(), Memory>
    ensures { OnOk result (into.new.items ≡ into.old.items ++ part_text rest number) }
{
    if rest == 0 {
        return Ok(());
    }
    push_number(into, b":", number / 10)?;
    write_u64(into, number % 10)?;
    Ok(())
}
