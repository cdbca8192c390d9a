// Instants of a clock that go on as its latest one did, made at once.
ghost use Rattle.std.specs.Prelude.{◌≡◌, ◌≤◌};
ghost use Rattle.nested_instants.specs.Clocks.{AreClockStates, HasLevels, IsIdle};
ghost use Rattle.nested_instants.specs.Stretches.{StretchMade};
ghost use Rattle.clock_nodes.specs.Scenes.{IsScene};

use crate::ClockStates;
use crate::keeping::rest_for;
use crate::onward::run_clock;
use clock_infer::NodeClock;
use clock_nodes::Scene;
use node_states::WeekTime;

/// Makes instants of a clock that go on as its latest one did, which was at `time`, and returns how many: `most` at
/// most. They make no calls on buffers. A node that its own clock demands of itself, and that offered a cell, has left
/// its samples in `clocks.room`; one that offered nothing offers nothing. `levels` bounds how deep sub-clocks nest
/// below the clock.
pub fn make_stretch(
    scene: &Scene<'_>,
    clocks: &mut ClockStates,
    clock: NodeClock,
    time: WeekTime,
    most: u32,
    levels: usize,
) -> u32
    requires scene { IsScene scene.now }
    requires clocks { AreClockStates scene.now clocks.old }
    requires levels { HasLevels scene.now.clocks.now clock levels }
    requires idle { IsIdle clock clocks.old }
    requires rate { time.rate ≡ scene.now.plan.now.rate }
    requires frame { time.frame ≡ scene.now.plan.now.frame }
    requires short { most ≤ 2048 }
    ensures clocks { AreClockStates scene.now clocks.new }
    ensures within { result ≤ most }
    ensures later { result ≤ time.rate }
    ensures latest { clocks.new.latest ≡ clocks.old.latest }
    ensures run { StretchMade scene.now clock time result clocks.old clocks.new }
{
    let many = rest_for(scene, clocks, clock, time, most);
    if many == 0 {
        return 0;
    }
    run_clock(scene, clocks, clock, many, levels);
    many
}
