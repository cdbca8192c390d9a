// The clocks of a station, whose engines go on from turn to turn.
ghost use Rattle.std.specs.Prelude.{◌≡◌, [], IfOk, OnOk};
ghost use Rattle.stream_meaning.specs.Settings.{IsSetting};
ghost use Rattle.trace_turns.specs.Turns.{base_at};
ghost use Rattle.trace_turns.specs.Live.{AreNewClocks, IsNewClock};

use crate::station::{Station, sinks_of};
use crate::told::{Mark, NO_MARK};
use crate::turn::NoSink;
use clock_ticks::ClockEngine;
use liq_base::Memory;
use std::alloc::Global;

/// A clock whose engine has made its first ticks, and how far its calls came on each buffer.
pub struct LiveClock<'a> {
    pub engine: ClockEngine<'a, NoSink>,
    pub marks: Vec<Mark>,
}

// Makes main clock `clock` before its first tick, with an engine of its own, and for each buffer the mark of no call.
// An engine is refused for want of memory alone.
fn new_clock<'a>(alloc: Global, station: &Station<'a>, clock: u32) -> Result<LiveClock<'a>, Memory>
    requires setting { IsSetting (base_at station.now) station.now.clocks.now }
    ensures new { IfOk result (λ live. IsNewClock (base_at station.now) clock live) }
{
    let outs = sinks_of(alloc, station.plan, station.clocks, clock)?;
    let marks = vec![in alloc; NO_MARK; station.plan.buffers.len()]?;
    match ClockEngine::new(
        alloc,
        station.plan,
        station.clocks,
        clock,
        station.library,
        outs,
        station.start,
    ) {
        Ok(engine) => Ok(LiveClock { engine, marks }),
        Err(_) => Err(Memory),
    }
}

/// Adds to `lives` each clock of the station that runs, before its first tick and with an engine of its own.
pub fn make_clocks<'a>(
    alloc: Global,
    station: &Station<'a>,
    lives: &mut Vec<LiveClock<'a>>,
) -> Result<(), Memory>
    requires setting { IsSetting (base_at station.now) station.now.clocks.now }
    requires none { lives.old.items ≡ [] }
    ensures made { OnOk result (AreNewClocks (base_at station.now) station.now.clocks.now.running lives.new.items) }
{
    for clock in 0..station.clocks.running {
        lives.reserve(1)?;
        let live = new_clock(alloc, station, clock)?;
        lives.push_reserved(live);
    }
    Ok(())
}

/// Frees the clocks and their engines at the end of a search.
pub fn end_clocks(lives: Vec<LiveClock<'_>>) {
    let mut lives = lives;
    while let Some(live) = lives.pop() {
        let LiveClock { engine, marks } = live;
        drop(marks);
        drop(engine.into_outs());
    }
    lives.destroy_empty();
}
