// Instants of a clock that go on as its latest one did, with those of the sub-clocks below it.
ghost use Rattle.std.specs.Prelude.{◌≡◌, ◌<◌, ◌≤◌, ◌&&◌, ℕ, List, true, false, length, slice_get, slice_index_or};
ghost use Rattle.clock_infer.specs.declared.clock_map.NodeClock.{NodeClock as Clock};
ghost use Rattle.frame_core.specs.Slots.{Slot as TheSlot};
ghost use Rattle.stream_meaning.specs.Instants.{Setting, Moment, same_clock};
ghost use Rattle.op_mix.specs.Stretches.{samples_of};
ghost use Rattle.clock_instants.specs.Held.{AllPassOn, gave_at, passes_at};
ghost use Rattle.clock_instants.specs.Stretches.{AllLieAhead, HasGoneOn, IsGoing};
ghost use Rattle.nested_instants.specs.Clocks.{AreClockStates, AreLeft, HasLevels, HasRanks, is_in, is_node, is_none};
ghost use Rattle.nested_instants.specs.Clocks.{laned_at, rest_at};
ghost use Rattle.nested_instants.specs.Stretches.{AreAbove, AreSamplesLeft, CanRunClock, ClockMade, SubClocksMade};
ghost use Rattle.nested_instants.specs.Stretches.{SubClockMade};
ghost use Rattle.clock_nodes.specs.Scenes.{setting_over};

use crate::ClockStates;
use crate::keeping::{keep, take_on};
use clock_infer::NodeClock;
use clock_instants::run_nodes;
use clock_nodes::Scene;

/// Makes `many` instants of a clock at once, which go on as its latest one did. First come those of the sub-clocks of
/// its crossfades that offered a cell which passed through, and then what its own nodes do. `levels` bounds how deep
/// sub-clocks nest below the clock.
#[cycle(onward)]
pub fn run_clock(
    scene: &Scene<'_>,
    clocks: &mut ClockStates,
    clock: NodeClock,
    many: u32,
    levels: usize,
)
    requires ready { CanRunClock scene.now clock many clocks.old }
    requires levels { HasLevels scene.now.clocks.now clock levels }
    requires ahead { AllLieAhead scene.now clock clocks.old.room.held.items clocks.old.states.items many }
    requires through { AllPassOn scene.now clock clocks.old.room.held.items clocks.old.states.items
        clocks.old.room.rests.items many }
    ensures clocks { AreClockStates scene.now clocks.new }
    ensures latest { clocks.new.latest ≡ clocks.old.latest }
    ensures held { clocks.new.room.held ≡ clocks.old.room.held }
    ensures left { (rank : Clock → ℕ) → HasRanks scene.now.clocks.now rank
        → AreLeft scene.now.clocks.now rank (rank clock) (is_in scene.now.clocks.now clock) clocks.old clocks.new }
    ensures samples { (rank : Clock → ℕ) → HasRanks scene.now.clocks.now rank
        → AreSamplesLeft scene.now.clocks.now rank (rank clock) (is_in scene.now.clocks.now clock) many clocks.old
        clocks.new }
    ensures run { ClockMade scene.now clock many clocks.old clocks.new }
{
    run_subs(scene, clocks, clock, many, levels);
    run_own(scene, clocks, clock, many);
}

// Makes `many` instants of the sub-clock of each crossfade of a clock that offered a cell at the latest instant and
// through which cells pass now. `levels` bounds how deep sub-clocks nest below the clock.
#[cycle(onward)]
fn run_subs(scene: &Scene<'_>, clocks: &mut ClockStates, clock: NodeClock, many: u32, levels: usize)
    requires ready { CanRunClock scene.now clock many clocks.old }
    requires levels { HasLevels scene.now.clocks.now clock levels }
    requires through { AllPassOn scene.now clock clocks.old.room.held.items clocks.old.states.items
        clocks.old.room.rests.items many }
    ensures clocks { AreClockStates scene.now clocks.new }
    ensures latest { clocks.new.latest ≡ clocks.old.latest }
    ensures held { clocks.new.room.held ≡ clocks.old.room.held }
    ensures above { (rank : Clock → ℕ) → HasRanks scene.now.clocks.now rank
        → AreAbove scene.now.clocks.now rank (rank clock) (is_in scene.now.clocks.now clock) clocks.old clocks.new }
    ensures samples { (rank : Clock → ℕ) → HasRanks scene.now.clocks.now rank
        → AreSamplesLeft scene.now.clocks.now rank (rank clock) is_none many clocks.old clocks.new }
    ensures run { SubClocksMade scene.now clock many (length scene.now.plan.now.nodes) clocks.old clocks.new }
{
    let mut i = clocks.nodes.first(clock);
    while i < scene.clocks.len() {
        run_sub(scene, clocks, i as u32, many, levels);
        i = clocks.nodes.after(i);
    }
}

// Makes `many` instants of the sub-clock of node i and moves its time on, if the node is a crossfade that offered a
// cell at the latest instant and through which cells pass. What was noted of the sub-clock is forgotten. `levels`
// bounds how deep sub-clocks nest below the node's clock.
#[cycle(onward)]
fn run_sub(scene: &Scene<'_>, clocks: &mut ClockStates, i: u32, many: u32, levels: usize)
    requires ready { CanRunClock scene.now (slice_index_or scene.now.clocks.now i (NodeClock.Main 0)) many clocks.old }
    requires levels { HasLevels scene.now.clocks.now (slice_index_or scene.now.clocks.now i (NodeClock.Main 0)) levels }
    requires within { i < length scene.now.plan.now.nodes }
    requires through { (gave_at clocks.old.room.held.items i && passes_at clocks.old.states.items i) ≡ true
        → many ≤ rest_at clocks.old i }
    ensures clocks { AreClockStates scene.now clocks.new }
    ensures latest { clocks.new.latest ≡ clocks.old.latest }
    ensures held { clocks.new.room.held ≡ clocks.old.room.held }
    ensures above { (rank : Clock → ℕ) → HasRanks scene.now.clocks.now rank
        → AreAbove scene.now.clocks.now rank (rank (slice_index_or scene.now.clocks.now i (NodeClock.Main 0)))
        (is_node i)
        clocks.old clocks.new }
    ensures samples { (rank : Clock → ℕ) → HasRanks scene.now.clocks.now rank
        → AreSamplesLeft scene.now.clocks.now rank (rank (NodeClock.Sub i))
        (is_in scene.now.clocks.now (NodeClock.Sub i)) many
        clocks.old clocks.new }
    ensures run { SubClockMade scene.now i many clocks.old clocks.new }
{
    if !passes_on(clocks, i) {
        return;
    }
    keep(scene, clocks, i, 0);
    run_clock(scene, clocks, NodeClock::Sub(i), many, levels - 1);
    take_on(scene, clocks, i, many);
}

// Whether node i offered a cell at the latest instant of its clock, and is a crossfade through which cells pass one by
// one: then its sub-clock goes on with it.
fn passes_on(clocks: &ClockStates, i: u32) -> bool
    requires in_held { i < length clocks.now.room.held.items }
    requires in_states { i < length clocks.now.states.items }
    ensures { result ≡ (gave_at clocks.now.room.held.items i && passes_at clocks.now.states.items i) }
{
    let at = i as usize;
    let gave = clocks.room.held[at].slot.is_some();
    let through = clocks.states[at].passes();
    gave && through
}

// Lets a clock's own nodes make `many` instants at once, which go on as its latest one did; the sub-clocks have made
// theirs.
fn run_own(scene: &Scene<'_>, clocks: &mut ClockStates, clock: NodeClock, many: u32)
    requires ready { CanRunClock scene.now clock many clocks.old }
    requires ahead { AllLieAhead scene.now clock clocks.old.room.held.items clocks.old.states.items many }
    ensures clocks { AreClockStates scene.now clocks.new }
    ensures latest { clocks.new.latest ≡ clocks.old.latest }
    ensures times { clocks.new.times ≡ clocks.old.times }
    ensures held { clocks.new.room.held ≡ clocks.old.room.held }
    ensures rests { clocks.new.room.rests ≡ clocks.old.room.rests }
    ensures others { (i : ℕ) → same_clock (slice_index_or scene.now.clocks.now i (NodeClock.Main 0)) clock ≡ false
        → slice_get clocks.new.states.items i ≡ slice_get clocks.old.states.items i }
    ensures left { (i : ℕ) → same_clock (slice_index_or scene.now.clocks.now i (NodeClock.Main 0)) clock ≡ false
        → samples_of clocks.new.room.left.items i many ≡ samples_of clocks.old.room.left.items i many }
    ensures right { (i : ℕ) → same_clock (slice_index_or scene.now.clocks.now i (NodeClock.Main 0)) clock ≡ false
        → samples_of clocks.new.room.right.items i many ≡ samples_of clocks.old.room.right.items i many }
    ensures laned { (i : ℕ) → laned_at clocks.old i → laned_at clocks.new i }
    ensures run { (other : Setting) (sub : ℕ → ℕ → List TheSlot) (past : List Moment) (filled : ℕ → ℕ) →
        let setting = setting_over scene.now other in
        IsGoing setting sub clock past many filled clocks.old.room.held.items clocks.old.states.items
        clocks.old.room.left.items clocks.old.room.right.items
        → HasGoneOn setting sub clock past many filled clocks.old.states.items clocks.new.room.left.items
        clocks.new.room.right.items clocks.new.states.items }
{
    run_nodes(
        scene,
        &clocks.nodes,
        clock,
        &mut clocks.states,
        &mut clocks.room,
        many,
    );
}
