// The turns in which the clocks make the record that a text tells.
ghost use Rattle.std.specs.Prelude.{◌≡◌, ◌++◌, ◌∷◌, ℕ, true, false, [], length, IfOk, OnOk};
ghost use Rattle.trace_records.specs.Clocks.{Log};
ghost use Rattle.trace_records.specs.Passes.{IsOrderedText};
ghost use Rattle.trace_turns.specs.Turns.{AreFit, chunks_of, base_at};
ghost use Rattle.trace_turns.specs.Live.{AreNewClocks};
ghost use Rattle.trace_turns.specs.Searches.{AreFound, MaySearch, TellOn};
ghost use Rattle.trace_turns.specs.Thin.{AreKept};
ghost use Rattle.trace_turns.specs.declared.find.Search.TheVariants.{Found as HasFound, Refused as HasRefused};

use crate::course::TurnMade;
use crate::ends::Ends;
use crate::live::{LiveClock, end_clocks, make_clocks};
use crate::onward::{Reached, live_turn, may_try, may_turn};
use crate::station::{Sides, Station};
use crate::taps::{ToldTaps, forget_run};
use crate::told::ToldBuffer;
use crate::turn::{Turn, run_turn};
use liq_base::Memory;
use std::alloc::Global;

// Adds to `turns` that this clock had its turn, and has made `ticks` ticks after it, from its first one on.
fn note_turn(turns: &mut Vec<TurnMade>, clock: u32, ticks: u64) -> Result<(), Memory>
    ensures { OnOk result (turns.new.items ≡ turns.old.items ++ record { clock = clock; ticks = ticks } ∷ []) }
{
    turns.push(TurnMade { clock, ticks })?;
    Ok(())
}

// Goes over the clocks again and again, and runs each by a new engine from its first tick, as far as the chunks there
// allow; its turns are added to `turns`. `window` is how many ticks a window has.
// It answers `true` once all `ticks` ticks of each clock are made.
// It answers `false` if a pass made no tick more, or if a clock cannot make its ticks as the trace tells.
fn search_chunks(
    alloc: Global,
    station: &Station<'_>,
    taps: &mut ToldTaps,
    turns: &mut Vec<TurnMade>,
    sides: &Sides,
    ends: &[Ends],
    window: u64,
    ticks: u64,
) -> Result<bool, Memory>
    requires { MaySearch station.now sides.now ends.now window ticks turns.old.items taps.old.buffers.items }
    ensures found { IfOk result (λ found. found ≡ true
        → AreFound station.now ends.now window ticks taps.old.buffers.items turns.new.items) }
    ensures none { IfOk result (λ found. found ≡ false → (text : ℕ → Log)
        → AreFit (base_at station.now) window ticks text taps.old.buffers.items ends.now
        → IsOrderedText (base_at station.now) station.now.clocks.now.running window ticks text → ⊥) }
    ensures fit { IfOk result (λ found. TellOn station.now ends.now window ticks taps.old.buffers.items
        taps.new.buffers.items) }
{
    let running = station.clocks.running;
    let mut made = vec![in alloc; 0; running as usize]?;
    let mut left = running as u64 * ticks;
    while left > 0 {
        let before = left;
        for clock in 0..running {
            if made[clock as usize] == ticks {
                continue;
            }
            match run_turn(alloc, station, taps, sides, ends, clock, window, ticks)? {
                Turn::Made(count) => {
                    note_turn(turns, clock, count)?;
                    left -= count - made[clock as usize];
                    made[clock as usize] = count;
                }
                Turn::Refused => return Ok(false),
            }
        }
        if left == before {
            return Ok(false);
        }
    }
    Ok(true)
}

/// What a search came to.
#[derive(Clone, Copy)]
pub enum Search {
    /// All ticks were made.
    Found,
    /// No record whose ticks can be ordered has this text.
    Refused,
    /// The search cannot decide.
    Open,
}

// Picks the clock whose tick is tried when none surely has its chunks, by its number; `made` has each clock's ticks.
// Only one with a reader below a crossfade is taken, since there the cells of a tick cannot be foreseen.
// One whose next takes can be answered goes first, then one with fewer ticks.
// The count of all clocks is answered if there is none.
fn to_try(
    lives: &[LiveClock<'_>],
    buffers: &[ToldBuffer],
    sides: &Sides,
    made: &[u64],
    ticks: u64,
) -> usize {
    let mut best = lives.len();
    let mut few = ticks;
    let mut sure = false;
    for k in 0..lives.len() {
        if k >= made.len() || made[k] >= ticks {
            continue;
        }
        let (unsure, answered) = may_try(&lives[k], buffers, sides);
        if unsure && (answered && !sure || answered == sure && made[k] < few) {
            best = k;
            few = made[k];
            sure = answered;
        }
    }
    best
}

// Goes over the clocks `lives` again and again; each that seems to have its chunks goes on by a turn, added to `turns`.
// After a pass without a tick, the next one makes a clock try a tick that may lack its chunks.
// `Open` is answered if that pass makes none either, or if a take had to wait; `Refused` if a call has no right answer.
fn pass_on(
    alloc: Global,
    station: &Station<'_>,
    lives: &mut Vec<LiveClock<'_>>,
    taps: &mut ToldTaps,
    turns: &mut Vec<TurnMade>,
    sides: &Sides,
    ends: &[Ends],
    window: u64,
    ticks: u64,
) -> Result<Search, Memory>
    requires search { MaySearch station.now sides.now ends.now window ticks turns.old.items taps.old.buffers.items }
    requires lives { AreNewClocks (base_at station.now) station.now.clocks.now.running lives.old.items }
    ensures found { IfOk result (λ search. search ≡ HasFound
        → AreFound station.now ends.now window ticks taps.old.buffers.items turns.new.items) }
    ensures none { IfOk result (λ search. search ≡ HasRefused → (text : ℕ → Log)
        → AreFit (base_at station.now) window ticks text taps.old.buffers.items ends.now
        → IsOrderedText (base_at station.now) station.now.clocks.now.running window ticks text → ⊥) }
    ensures fit { IfOk result (λ search. TellOn station.now ends.now window ticks taps.old.buffers.items
        taps.new.buffers.items) }
    ensures many { IfOk result (λ search. length taps.new.buffers.items ≡ length taps.old.buffers.items) }
{
    let running = station.clocks.running;
    let mut made = vec![in alloc; 0; running as usize]?;
    let mut left = running as u64 * ticks;
    let mut tried = running as usize;
    let mut tries = 1u64;
    while left > 0 {
        let before = left;
        for clock in 0..running {
            let from = made[clock as usize];
            let live = &mut lives[clock as usize];
            let tries_it = clock as usize == tried;
            if !tries_it && !may_turn(live, &taps.buffers, sides, ends, window, ticks, from) {
                continue;
            }
            match live_turn(
                alloc, live, taps, sides, ends, window, ticks, from, tries_it,
            )? {
                Reached::Made(count) => {
                    note_turn(turns, clock, count)?;
                    left -= count - from;
                    made[clock as usize] = count;
                }
                Reached::Waits => return Ok(Search::Open),
                Reached::Refused => return Ok(Search::Refused),
            }
        }
        if left < before {
            tried = running as usize;
            tries = 1;
            continue;
        }
        if tries == 0 {
            return Ok(Search::Open);
        }
        tries = 0;
        tried = to_try(lives, &taps.buffers, sides, &made, ticks);
    }
    Ok(Search::Found)
}

// Searches the turns with one engine for each clock, which is kept from turn to turn, so no tick is made again.
// A plan without buffers is left `Open`: its clocks wait for no chunk, so the other search decides it without a tick.
fn find_live(
    alloc: Global,
    station: &Station<'_>,
    taps: &mut ToldTaps,
    turns: &mut Vec<TurnMade>,
    sides: &Sides,
    ends: &[Ends],
    window: u64,
    ticks: u64,
) -> Result<Search, Memory>
    requires { MaySearch station.now sides.now ends.now window ticks turns.old.items taps.old.buffers.items }
    ensures found { IfOk result (λ search. search ≡ HasFound
        → AreFound station.now ends.now window ticks taps.old.buffers.items turns.new.items) }
    ensures none { IfOk result (λ search. search ≡ HasRefused → (text : ℕ → Log)
        → AreFit (base_at station.now) window ticks text taps.old.buffers.items ends.now
        → IsOrderedText (base_at station.now) station.now.clocks.now.running window ticks text → ⊥) }
    ensures fit { IfOk result (λ search. TellOn station.now ends.now window ticks taps.old.buffers.items
        taps.new.buffers.items) }
    ensures many { IfOk result (λ search. length taps.new.buffers.items ≡ length taps.old.buffers.items) }
{
    if station.plan.buffers.as_slice().is_empty() {
        return Ok(Search::Open);
    }
    let mut lives = Vec::new(alloc);
    let found = match make_clocks(alloc, station, &mut lives) {
        Ok(()) => pass_on(
            alloc, station, &mut lives, taps, turns, sides, ends, window, ticks,
        ),
        Err(refused) => Err(refused),
    };
    end_clocks(lives);
    found
}

// Searches the turns in which the clocks make all their ticks as the trace tells.
// `true`: there are such turns, and `turns` has them. `false`: no record whose ticks can be ordered has this text.
// If engines that are kept from turn to turn do not decide, a search that runs each turn anew starts from nothing.
fn search_turns(
    alloc: Global,
    station: &Station<'_>,
    taps: &mut ToldTaps,
    turns: &mut Vec<TurnMade>,
    sides: &Sides,
    ends: &[Ends],
    window: u64,
    ticks: u64,
) -> Result<bool, Memory>
    requires { MaySearch station.now sides.now ends.now window ticks turns.old.items taps.old.buffers.items }
    ensures found { IfOk result (λ found. found ≡ true
        → AreFound station.now ends.now window ticks taps.old.buffers.items turns.new.items) }
    ensures none { IfOk result (λ found. found ≡ false → (text : ℕ → Log)
        → AreFit (base_at station.now) window ticks text taps.old.buffers.items ends.now
        → IsOrderedText (base_at station.now) station.now.clocks.now.running window ticks text → ⊥) }
    ensures fit { IfOk result (λ found. TellOn station.now ends.now window ticks taps.old.buffers.items
        taps.new.buffers.items) }
{
    match find_live(alloc, station, taps, turns, sides, ends, window, ticks)? {
        Search::Found => return Ok(true),
        Search::Refused => return Ok(false),
        Search::Open => {}
    }
    forget_run(&mut taps.buffers);
    turns.clear();
    search_chunks(alloc, station, taps, turns, sides, ends, window, ticks)
}

/// Searches the turns, one clock after another, in which each clock makes its `ticks` ticks as the trace tells.
/// `true`: there are such turns, and `turns` has them. `false`: no record whose ticks can be ordered has this text.
/// `ends` tells for each buffer where its windows of `window` ticks end. The buffers are empty again then.
pub fn find_turns(
    alloc: Global,
    station: &Station<'_>,
    taps: &mut ToldTaps,
    turns: &mut Vec<TurnMade>,
    sides: &Sides,
    ends: &[Ends],
    window: u64,
    ticks: u64,
) -> Result<bool, Memory>
    requires { MaySearch station.now sides.now ends.now window ticks turns.old.items taps.old.buffers.items }
    ensures found { IfOk result (λ found. found ≡ true
        → AreFound station.now ends.now window ticks taps.old.buffers.items turns.new.items) }
    ensures none { IfOk result (λ found. found ≡ false → (text : ℕ → Log)
        → AreFit (base_at station.now) window ticks text taps.old.buffers.items ends.now
        → IsOrderedText (base_at station.now) station.now.clocks.now.running window ticks text → ⊥) }
    ensures empty { IfOk result (λ found. (b : ℕ) → chunks_of taps.new.buffers.items b ≡ []) }
    ensures kept { IfOk result (λ found. AreKept taps.new.buffers.items) }
    ensures fit { IfOk result (λ found. TellOn station.now ends.now window ticks taps.old.buffers.items
        taps.new.buffers.items) }
{
    let found = search_turns(alloc, station, taps, turns, sides, ends, window, ticks)?;
    forget_run(&mut taps.buffers);
    Ok(found)
}
