// The rounds of all clocks, one after another.
ghost use Rattle.std.specs.Prelude.{◌≡◌, ◌<◌, ◌≤◌, ℕ, IfErr, OnOk};
ghost use Rattle.frame_core.specs.Calls.{Adds};
ghost use Rattle.stream_meaning.specs.Instants.{Setting};
ghost use Rattle.clock_ticks.specs.declared.fault.TickFault.TheVariants.{Memory as OutOfMemory, Write as TickWrite};
ghost use Rattle.buffer_ends.specs.declared.run_end.End.TheVariants.{Write, Memory as NoMemory};
ghost use Rattle.rounds_run.specs.Rounds.{AreEngines, HaveBuffers, KeepNone, RoundsMade, RoundsStopped};

use buffer_ends::End;
use clock_ticks::{ClockEngine, TickFault};
use frame_core::Taps;
use liq_base::Sink;
use std::alloc::Global;

// How a run ends by the fault of a tick of this clock's engine: by a failed write, with the clock and its sink, or by
// want of memory.
fn end_of(clock: u32, fault: TickFault) -> End
    ensures write { (sink : ℕ) → fault ≡ TickWrite sink → result ≡ Write clock sink }
    ensures memory { fault ≡ OutOfMemory → result ≡ NoMemory }
{
    match fault {
        TickFault::Write { sink } => End::Write { clock, sink },
        TickFault::Memory => End::Memory,
    }
}

/// Makes `ticks` rounds, at most 1000000000: in each, every engine makes a tick, in their order. `taps` are the ends of
/// the buffers between them. It ends at the first fault, which is answered.
pub fn make_rounds<O: Sink, T: Taps>(
    alloc: Global,
    engines: &mut [ClockEngine<'_, O>],
    taps: &mut T,
    ticks: u64,
) -> Result<(), End>
    requires engines { (setting : Setting) × AreEngines O.told ticks setting engines.old }
    requires few { ticks ≤ 1000000000 }
    requires buffers { HaveBuffers (T.buffers taps.old) engines.old }
    ensures done { OnOk result ((setting : Setting) → AreEngines O.told ticks setting engines.old
        → RoundsMade O.told (Adds T.stands taps.old taps.new) setting ticks engines.old engines.new) }
    ensures stopped { IfErr result (λ end. (setting : Setting) → AreEngines O.told ticks setting engines.old
        → RoundsStopped O.told (Adds T.stands taps.old taps.new) setting ticks engines.old engines.new end) }
    ensures memory { KeepNone engines.old → IfErr result (λ end. end ≡ NoMemory → 0 < T.buffers taps.old) }
    ensures buffers { T.buffers taps.new ≡ T.buffers taps.old }
    ensures same { T.same taps.old taps.new }
{
    for _round in 0..ticks {
        for k in 0..engines.len() {
            if let Err(fault) = engines[k].tick(alloc, taps) {
                return Err(end_of(engines[k].clock(), fault));
            }
        }
    }
    Ok(())
}
