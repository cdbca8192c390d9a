// What changes from instant to instant in a clock, and a segment of it.
ghost use Rattle.std.specs.Prelude.{◌≡◌, ◌≤◌, IfOk, OnErr};
ghost use Rattle.clock_instants.specs.Takes.{HasReader, ReadersAreIn};
ghost use Rattle.clock_ticks.specs.Standing.{CanMake, IsClockState};
ghost use Rattle.clock_ticks.specs.Hearings.{SegmentBroken, SegmentMade, tapped};

use clock_infer::NodeClock;
use clock_nodes::Scene;
use frame_core::Taps;
use liq_base::Memory;
use nested_instants::{ClockStates, make_instant, make_stretch};
use node_states::WeekTime;

/// What changes from instant to instant in a clock: the states of its nodes and of those in the sub-clocks below it,
/// and the time of its next instant.
#[derive(Drop)]
pub struct ClockState {
    pub clocks: ClockStates,
    pub time: WeekTime,

    /// How many segments were made. No contract says how many there are.
    pub segments: u64,
}

/// Makes a segment of a clock: an instant, and then at most `most` instants that go on as it did. Returns how many
/// these further ones are. `own` says of each node whether its own clock demands it of itself. If memory is refused,
/// some takes from buffers were made, from the first on.
pub fn make_segment<T: Taps>(
    scene: &Scene<'_>,
    clock: NodeClock,
    own: &[bool],
    state: &mut ClockState,
    most: u32,
    taps: &mut T,
) -> Result<u32, Memory>
    requires makes { CanMake scene.now clock own.now state.old }
    requires short { most ≤ 2048 }
    requires readers { ReadersAreIn scene.now.plan.now (T.buffers taps.old) }
    ensures state { IsClockState scene.now state.new }
    ensures buffers { T.buffers taps.new ≡ T.buffers taps.old }
    ensures same { T.same taps.old taps.new }
    ensures within { IfOk result (λ many. many ≤ most) }
    ensures run { IfOk result
        (λ many. SegmentMade T.stands scene.now clock own.now many
        (tapped state.old taps.old) (tapped state.new taps.new)) }
    ensures broken { OnErr result (SegmentBroken T.stands scene.now clock own.now state.old taps.old taps.new) }
    ensures reads { OnErr result (HasReader scene.now.plan.now scene.now.clocks.now clock) }
{
    let time = state.time;
    let levels = scene.plan.nodes.len();
    make_instant(scene, own, &mut state.clocks, clock, time, levels, taps)?;
    let many = make_stretch(scene, &mut state.clocks, clock, time, most, levels);
    state.time = time.next().later(many);
    state.segments = state.segments.saturating_add(1);
    Ok(many)
}
