// Whether what a trace tells is the text of a lawful record, and the turns in which the clocks make it.
ghost use Rattle.std.specs.Prelude.{◌≡◌, ℕ, [], true, false, IfOk};
ghost use Rattle.trace_turns.specs.Turns.{base_at, AreTold, chunks_of};
ghost use Rattle.trace_turns.specs.Orders.{AreTurns, no_chunks, no_ticks};
ghost use Rattle.trace_records.specs.Passes.{IsOrderedText};
ghost use Rattle.trace_turns.specs.Thin.{AreKept};
ghost use Rattle.trace_turns.specs.Searches.{MayJudge};
ghost use Rattle.trace_records.specs.Traces.{text_of};

use crate::buffers::{all_legal, unread_stay};
use crate::course::TurnMade;
use crate::ends::Ends;
use crate::find::find_turns;
use crate::station::{Sides, Station};
use crate::taps::ToldTaps;
use buffer_ends::BufferLog;
use liq_base::Memory;
use std::alloc::Global;

/// Whether a trace, with as many buffers as the plan, tells a lawful record whose ticks can be ordered.
/// If it does, `turns` has the turns in which the clocks make it, and the buffers of `taps` are empty again.
/// Each clock makes `ticks` ticks, in windows of `window` ticks; `ends` tells where they end in each buffer's `logs`.
pub fn judge(
    alloc: Global,
    station: &Station<'_>,
    taps: &mut ToldTaps,
    turns: &mut Vec<TurnMade>,
    sides: &Sides,
    ends: &[Ends],
    window: u64,
    ticks: u64,
    logs: &[BufferLog],
) -> Result<bool, Memory>
    requires { MayJudge station.now sides.now ends.now window ticks logs.now turns.old.items taps.old.buffers.items }
    ensures yes { IfOk result (λ found. found ≡ true
        → IsOrderedText (base_at station.now) station.now.clocks.now.running window ticks (text_of logs.now)) }
    ensures no { IfOk result (λ found. found ≡ false
        → IsOrderedText (base_at station.now) station.now.clocks.now.running window ticks (text_of logs.now) → ⊥) }
    ensures turns { IfOk result (λ found. found ≡ true
        → AreTurns (base_at station.now) station.now.clocks.now.running window ticks (text_of logs.now) turns.new.items
        no_ticks no_chunks) }
    ensures empty { IfOk result (λ found. found ≡ true → (b : ℕ) → chunks_of taps.new.buffers.items b ≡ []) }
    ensures kept { IfOk result (λ found. found ≡ true → AreKept taps.new.buffers.items) }
    ensures told { IfOk result (λ found. found ≡ true
        → AreTold (base_at station.now) (text_of logs.now) taps.new.buffers.items) }
{
    if !all_legal(station.plan.buffers.as_slice(), logs) {
        return Ok(false);
    }
    if !unread_stay(&taps.buffers, &sides.readers, station.clocks.running) {
        return Ok(false);
    }
    find_turns(alloc, station, taps, turns, sides, ends, window, ticks)
}
