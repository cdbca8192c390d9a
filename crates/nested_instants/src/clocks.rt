// The instants of a clock and of the sub-clocks below it.
ghost use Rattle.std.specs.Prelude.{◌≡◌, ◌<◌, ℕ, length, slice_index_or, OnOk, OnErr};
ghost use Rattle.clock_infer.specs.declared.clock_map.NodeClock.{NodeClock as Clock};
ghost use Rattle.clock_instants.specs.Takes.{HasReader};
ghost use Rattle.nested_instants.specs.Clocks.{AllSettled, AreClockStates, AreLeft, CanMakeInstants, HasRanks};
ghost use Rattle.nested_instants.specs.Clocks.{InstantMade, InstantStopped, IsIdle, NodeSettled, NodeStopped};
ghost use Rattle.nested_instants.specs.Clocks.{SettlingStopped, is_in, is_node};

use crate::ClockStates;
use crate::filling::{fill_child, fill_on};
use crate::finishing::finish;
use crate::keeping::keep;
use crate::opening::begin_clock;
use clock_infer::NodeClock;
use clock_nodes::Scene;
use frame_core::Taps;
use liq_base::Memory;
use node_states::WeekTime;

/// Makes one instant of a clock, at `time`. If it begins a tick, the clock's readers take from buffers by `taps`. Then
/// each crossfade runs its sub-clock until it knows what it plays next, and no instant more. `own` marks the nodes that
/// their own clock demands of itself, and `levels` bounds how deep sub-clocks nest. If memory is refused, some takes
/// were made, from the first on.
#[cycle(clocks)]
pub fn make_instant<T: Taps>(
    scene: &Scene<'_>,
    own: &[bool],
    clocks: &mut ClockStates,
    clock: NodeClock,
    time: WeekTime,
    levels: usize,
    taps: &mut T,
) -> Result<(), Memory>
    requires ready { CanMakeInstants scene.now own.now clock levels (T.buffers taps.old) clocks.old }
    requires idle { IsIdle clock clocks.old }
    requires rate { time.rate ≡ scene.now.plan.now.rate }
    requires frame { time.frame ≡ scene.now.plan.now.frame }
    ensures clocks { AreClockStates scene.now clocks.new }
    ensures buffers { T.buffers taps.new ≡ T.buffers taps.old }
    ensures same { T.same taps.old taps.new }
    ensures left { OnOk result ((rank : Clock → ℕ) → HasRanks scene.now.clocks.now rank
        → AreLeft scene.now.clocks.now rank (rank clock) (is_in scene.now.clocks.now clock) clocks.old clocks.new) }
    ensures made { OnOk result
        (InstantMade T.stands scene.now own.now clock time clocks.old clocks.new taps.old taps.new) }
    ensures stopped { OnErr result
        (InstantStopped T.stands scene.now own.now clock time clocks.old taps.old taps.new) }
    ensures reads { OnErr result (HasReader scene.now.plan.now scene.now.clocks.now clock) }
{
    begin_clock(scene, clocks, clock, time, taps)?;
    settle_all(scene, own, clocks, clock, levels, taps)?;
    finish(scene, own, clocks, clock, time.second);
    Ok(())
}

// Feeds node k, if it is a crossfade, slots of its child until it knows what it plays next: its item is settled. For
// each slot its sub-clock makes an instant, or many at once. `levels` bounds how deep sub-clocks nest below the node's
// clock. If memory is refused, some takes from buffers were made.
#[cycle(clocks)]
fn settle<T: Taps>(
    scene: &Scene<'_>,
    own: &[bool],
    clocks: &mut ClockStates,
    k: u32,
    levels: usize,
    taps: &mut T,
) -> Result<(), Memory>
    requires ready { CanMakeInstants scene.now own.now (slice_index_or scene.now.clocks.now k (NodeClock.Main 0)) levels
        (T.buffers taps.old) clocks.old }
    requires idle { IsIdle (slice_index_or scene.now.clocks.now k (NodeClock.Main 0)) clocks.old }
    requires within { k < length scene.now.plan.now.nodes }
    ensures clocks { AreClockStates scene.now clocks.new }
    ensures buffers { T.buffers taps.new ≡ T.buffers taps.old }
    ensures same { T.same taps.old taps.new }
    ensures left { OnOk result ((rank : Clock → ℕ) → HasRanks scene.now.clocks.now rank
        → AreLeft scene.now.clocks.now rank (rank (slice_index_or scene.now.clocks.now k (NodeClock.Main 0)))
        (is_node k)
        clocks.old clocks.new) }
    ensures settled { OnOk result
        (NodeSettled T.stands scene.now own.now k clocks.old clocks.new taps.old taps.new) }
    ensures stopped { OnErr result (NodeStopped T.stands scene.now own.now k clocks.old taps.old taps.new) }
    ensures reads { OnErr result
        (HasReader scene.now.plan.now scene.now.clocks.now (slice_index_or scene.now.clocks.now k (NodeClock.Main 0))) }
{
    while clocks.states[k as usize].wants() {
        let time = clocks.times[k as usize];
        keep(scene, clocks, k, 0);
        make_instant(
            scene,
            own,
            clocks,
            NodeClock::Sub(k),
            time,
            levels - 1,
            taps,
        )?;
        fill_child(scene, clocks, k);
        fill_on(scene, clocks, k, time, levels);
    }
    Ok(())
}

// Feeds all crossfades of a clock until each knows what it plays next, which is its item. `levels` bounds how deep
// sub-clocks nest below the clock. If memory is refused, some takes from buffers were made, from the first on.
#[cycle(clocks)]
fn settle_all<T: Taps>(
    scene: &Scene<'_>,
    own: &[bool],
    clocks: &mut ClockStates,
    clock: NodeClock,
    levels: usize,
    taps: &mut T,
) -> Result<(), Memory>
    requires ready { CanMakeInstants scene.now own.now clock levels (T.buffers taps.old) clocks.old }
    requires idle { IsIdle clock clocks.old }
    ensures clocks { AreClockStates scene.now clocks.new }
    ensures buffers { T.buffers taps.new ≡ T.buffers taps.old }
    ensures same { T.same taps.old taps.new }
    ensures left { OnOk result ((rank : Clock → ℕ) → HasRanks scene.now.clocks.now rank
        → AreLeft scene.now.clocks.now rank (rank clock) (is_in scene.now.clocks.now clock) clocks.old clocks.new) }
    ensures settled { OnOk result
        (AllSettled T.stands scene.now own.now clock (length scene.now.plan.now.nodes) clocks.old clocks.new
        taps.old taps.new) }
    ensures stopped { OnErr result (SettlingStopped T.stands scene.now own.now clock clocks.old taps.old taps.new) }
    ensures reads { OnErr result (HasReader scene.now.plan.now scene.now.clocks.now clock) }
{
    let mut i = clocks.nodes.first(clock);
    while i < scene.clocks.len() {
        settle(scene, own, clocks, i as u32, levels, taps)?;
        i = clocks.nodes.after(i);
    }
    Ok(())
}
