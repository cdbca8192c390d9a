// What is kept of a sub-clock's latest instant.
ghost use Rattle.std.specs.Prelude.{◌≡◌, ◌<◌, ◌≤◌, ◌+◌, ℕ, List, Some, length, slice_get, slice_index_or};
ghost use Rattle.clock_infer.specs.declared.clock_map.NodeClock.{NodeClock as Clock};
ghost use Rattle.frame_core.specs.Slots.{Slot};
ghost use Rattle.stream_meaning.specs.Instants.{Setting, Moment};
ghost use Rattle.node_states.specs.declared.time.WeekTime.{WeekTime as Time};
ghost use Rattle.node_states.specs.Times.{TimeStands};
ghost use Rattle.clock_instants.specs.Held.{AllPassOn};
ghost use Rattle.clock_instants.specs.Stretches.{AllLieAhead, IsBehind};
ghost use Rattle.nested_instants.specs.Clocks.{AreClockStates, AreStatesAt, GoesOnFor, HasRanks, IsIdle, rest_at};
ghost use Rattle.clock_nodes.specs.Scenes.{IsScene, setting_over};

use crate::ClockStates;
use clock_infer::NodeClock;
use clock_instants::rest_of;
use clock_nodes::Scene;
use node_states::WeekTime;

/// Notes that after the latest instant of the sub-clock of crossfade k, `rest` instants go on as it did, so that these
/// can be made at once later. 0 forgets what was noted.
pub fn keep(scene: &Scene<'_>, clocks: &mut ClockStates, k: u32, rest: u32)
    requires scene { IsScene scene.now }
    requires ranks { (rank : Clock → ℕ) × HasRanks scene.now.clocks.now rank }
    requires clocks { AreClockStates scene.now clocks.old }
    requires within { k < length scene.now.plan.now.nodes }
    requires idle { IsIdle (slice_index_or scene.now.clocks.now k (NodeClock.Main 0)) clocks.old }
    requires ahead { 0 < rest
        → AllLieAhead scene.now (NodeClock.Sub k) clocks.old.room.held.items clocks.old.states.items rest }
    requires through { 0 < rest
        → AllPassOn scene.now (NodeClock.Sub k) clocks.old.room.held.items clocks.old.states.items
        clocks.old.room.rests.items rest }
    ensures clocks { AreClockStates scene.now clocks.new }
    ensures kept { rest_at clocks.new k ≡ rest }
    ensures others { (i : ℕ) → (i ≡ k → ⊥) → rest_at clocks.new i ≡ rest_at clocks.old i }
    ensures states { clocks.new.states ≡ clocks.old.states }
    ensures times { clocks.new.times ≡ clocks.old.times }
    ensures latest { clocks.new.latest ≡ clocks.old.latest }
    ensures held { clocks.new.room.held ≡ clocks.old.room.held }
    ensures left { clocks.new.room.left ≡ clocks.old.room.left }
    ensures right { clocks.new.room.right ≡ clocks.old.room.right }
{
    clocks.room.rests[k as usize] = rest;
}

/// How many instants of a clock, at most `most`, go on as its latest one did, which was at `time`: so many can be made
/// at once. 0 where that is not known of the next one.
pub fn rest_for(
    scene: &Scene<'_>,
    clocks: &ClockStates,
    clock: NodeClock,
    time: WeekTime,
    most: u32,
) -> u32
    requires { AreStatesAt scene.now time clocks.now }
    ensures within { result ≤ most }
    ensures later { result ≤ time.rate }
    ensures ahead { AllLieAhead scene.now clock clocks.now.room.held.items clocks.now.states.items result }
    ensures through { AllPassOn scene.now clock clocks.now.room.held.items clocks.now.states.items
        clocks.now.room.rests.items result }
    ensures goes { (other : Setting) (sub : ℕ → ℕ → List Slot) (past : List Moment) (filled : ℕ → ℕ) →
        let setting = setting_over scene.now other in
        IsBehind setting sub clock past filled time clocks.now.latest.parts.items clocks.now.room.held.items
        clocks.now.states.items clocks.now.room.rests.items
        → GoesOnFor setting sub clock past result filled clocks.now.room.held.items clocks.now.states.items }
{
    rest_of(
        scene,
        &clocks.nodes,
        clock,
        &clocks.latest.parts,
        &clocks.room.held,
        &clocks.states,
        &clocks.room.rests,
        time,
        most,
    )
}

/// Moves the time of the sub-clock of crossfade k on by `many` instants, which were made at once.
pub fn take_on(scene: &Scene<'_>, clocks: &mut ClockStates, k: u32, many: u32)
    requires clocks { AreClockStates scene.now clocks.old }
    requires within { k < length scene.now.plan.now.nodes }
    requires later { many ≤ scene.now.plan.now.rate }
    ensures clocks { AreClockStates scene.now clocks.new }
    ensures states { clocks.new.states ≡ clocks.old.states }
    ensures latest { clocks.new.latest ≡ clocks.old.latest }
    ensures room { clocks.new.room ≡ clocks.old.room }
    ensures times { (i : ℕ) → (i ≡ k → ⊥) → slice_get clocks.new.times.items i ≡ slice_get clocks.old.times.items i }
    ensures time { (start n : ℕ) (before after : Time) → slice_get clocks.old.times.items k ≡ Some before
        → slice_get clocks.new.times.items k ≡ Some after → TimeStands start n before
        → TimeStands start (n + many) after }
{
    let at = k as usize;
    clocks.times[at] = clocks.times[at].later(many);
}
