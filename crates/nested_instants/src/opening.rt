// The beginning of an instant of a clock.
ghost use Rattle.std.specs.Prelude.{◌≡◌, ℕ, false, slice_get, slice_index_or, OnOk, OnErr};
ghost use Rattle.stream_meaning.specs.Instants.{same_clock};
ghost use Rattle.clock_instants.specs.Takes.{HasReader, ReadersAreIn};
ghost use Rattle.nested_instants.specs.Clocks.{AreClockStates, ClockOpened, IsIdle, OpeningStopped};
ghost use Rattle.clock_nodes.specs.Scenes.{IsScene};

use crate::ClockStates;
use clock_infer::NodeClock;
use clock_instants::begin_readers;
use clock_nodes::Scene;
use frame_core::Taps;
use liq_base::Memory;
use node_states::WeekTime;

/// Begins an instant of a clock, at `time`: if a tick begins with it, the clock's readers take from their buffers
/// through `taps`, and otherwise nothing is done.
pub fn begin_clock<T: Taps>(
    scene: &Scene<'_>,
    clocks: &mut ClockStates,
    clock: NodeClock,
    time: WeekTime,
    taps: &mut T,
) -> Result<(), Memory>
    requires scene { IsScene scene.now }
    requires clocks { AreClockStates scene.now clocks.old }
    requires idle { IsIdle clock clocks.old }
    requires frame { time.frame ≡ scene.now.plan.now.frame }
    requires readers { ReadersAreIn scene.now.plan.now (T.buffers taps.old) }
    ensures clocks { AreClockStates scene.now clocks.new }
    ensures buffers { T.buffers taps.new ≡ T.buffers taps.old }
    ensures same { T.same taps.old taps.new }
    ensures others { (i : ℕ) → same_clock (slice_index_or scene.now.clocks.now i (NodeClock.Main 0)) clock ≡ false
        → slice_get clocks.new.states.items i ≡ slice_get clocks.old.states.items i }
    ensures times { clocks.new.times.items ≡ clocks.old.times.items }
    ensures room { clocks.new.room ≡ clocks.old.room }
    ensures opened { OnOk result
        (ClockOpened T.stands scene.now clock time clocks.old clocks.new taps.old taps.new) }
    ensures stopped { OnErr result (OpeningStopped T.stands scene.now clock time clocks.old taps.old taps.new) }
    ensures reads { OnErr result (HasReader scene.now.plan.now scene.now.clocks.now clock) }
{
    if time.begins_tick() {
        return begin_readers(scene, &clocks.nodes, clock, &mut clocks.states, taps);
    }
    Ok(())
}
