// The end of an instant of a clock whose crossfades have their items.
ghost use Rattle.std.specs.Prelude.{◌≡◌, ℕ, false, length, slice_get, slice_index_or};
ghost use Rattle.stream_meaning.specs.Instants.{part_at, same_clock};
ghost use Rattle.nested_instants.specs.Clocks.{AreClockStates, IsIdle};
ghost use Rattle.clock_instants.specs.Finishing.{InstantFinished};
ghost use Rattle.clock_nodes.specs.Scenes.{IsScene};

use crate::ClockStates;
use clock_infer::NodeClock;
use clock_nodes::Scene;
use fixed_text::WeekSecond;

/// Ends an instant of a clock, in second `at` of the week, once the items of the clock's crossfades are settled: it
/// becomes the latest instant, and the nodes of the clock get their next states. `own` says of each node whether it is
/// demanded of itself, that is, by an output, a feed or a crossfade.
pub fn finish(
    scene: &Scene<'_>,
    own: &[bool],
    clocks: &mut ClockStates,
    clock: NodeClock,
    at: WeekSecond,
)
    requires scene { IsScene scene.now }
    requires in_own { length own.now ≡ length scene.now.plan.now.nodes }
    requires clocks { AreClockStates scene.now clocks.old }
    requires idle { IsIdle clock clocks.old }
    ensures clocks { AreClockStates scene.now clocks.new }
    ensures kept { (i : ℕ) → same_clock (slice_index_or scene.now.clocks.now i (NodeClock.Main 0)) clock ≡ false
        → part_at clocks.new.room.held.items i ≡ part_at clocks.old.room.held.items i }
    ensures rests { clocks.new.room.rests ≡ clocks.old.room.rests }
    ensures left { clocks.new.room.left ≡ clocks.old.room.left }
    ensures right { clocks.new.room.right ≡ clocks.old.room.right }
    ensures others { (i : ℕ) → same_clock (slice_index_or scene.now.clocks.now i (NodeClock.Main 0)) clock ≡ false
        → slice_get clocks.new.states.items i ≡ slice_get clocks.old.states.items i }
    ensures times { clocks.new.times.items ≡ clocks.old.times.items }
    ensures finished { InstantFinished scene.now own.now clock at.second clocks.old.states.items clocks.new.states.items
        clocks.new.latest.parts.items clocks.new.room.held.items }
{
    clocks.latest.finish_instant(
        scene,
        &clocks.nodes,
        clock,
        at,
        own,
        &mut clocks.states,
        &mut clocks.room.held,
        &mut clocks.desk,
    );
}
