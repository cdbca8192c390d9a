// Which traces are accepted.
ghost use Rattle.std.specs.Prelude.{◌≡◌, true, false, IfOk};
ghost use Rattle.stream_meaning.specs.Settings.{IsSetting};
ghost use Rattle.trace_log.specs.Texts.{IsTrace};
ghost use Rattle.trace_records.specs.Traces.{IsAccepted, base_of};

use crate::whole::find_record;
use clock_infer::ClockMap;
use fixed_text::WeekSecond;
use frame_core::Library;
use liq_base::Memory;
use plan_core::Plan;
use std::alloc::Global;
use trace_log::Trace;

/// Whether a trace can be replayed: it tells `ticks` ticks of a lawful run of this plan, with these clocks, files and
/// start second, whose ticks can be put in one order.
pub fn accepts(
    alloc: Global,
    plan: &Plan,
    clocks: &ClockMap,
    library: &Library,
    start: WeekSecond,
    ticks: u64,
    trace: &Trace,
) -> Result<bool, Memory>
    requires setting { IsSetting (base_of plan.now library.now clocks.now start.second) clocks.now }
    requires trace { IsTrace trace.now }
    ensures yes { IfOk result (λ accepted. accepted ≡ true
        → IsAccepted (base_of plan.now library.now clocks.now start.second) clocks.now.running ticks trace.now) }
    ensures no { IfOk result (λ accepted. accepted ≡ false
        → IsAccepted (base_of plan.now library.now clocks.now start.second) clocks.now.running ticks trace.now → ⊥) }
{
    Ok(find_record(alloc, plan, clocks, library, start, ticks, trace)?.is_some())
}
