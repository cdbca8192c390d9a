// What a crossfade takes of the instants of its sub-clock.
ghost use Rattle.std.specs.Prelude.{◌≡◌, ◌<◌, ◌≤◌, ◌+◌, ◌++◌, ◌∷◌, ℕ, suc, List, [], Some, true, is_some, length};
ghost use Rattle.std.specs.Prelude.{slice_get, slice_index_or};
ghost use Rattle.clock_infer.specs.declared.clock_map.NodeClock.{NodeClock as Clock};
ghost use Rattle.frame_core.specs.Slots.{Slot, title_of};
ghost use Rattle.frame_core.specs.Library.{Sounds};
ghost use Rattle.op_leaf.specs.Lanes.{AreTitled, IsLane};
ghost use Rattle.stream_meaning.specs.Operators.{Work};
ghost use Rattle.stream_meaning.specs.Instants.{Setting, Moment, crossfaded, part_at};
ghost use Rattle.op_mix.specs.Stretches.{samples_of};
ghost use Rattle.node_states.specs.declared.state.NodeState.{NodeState as State};
ghost use Rattle.node_states.specs.declared.time.WeekTime.{WeekTime as Time};
ghost use Rattle.node_states.specs.States.{Fits, StateStands, left, room};
ghost use Rattle.node_states.specs.Times.{TimeStands};
ghost use Rattle.clock_instants.specs.Held.{AllPassOn};
ghost use Rattle.clock_instants.specs.Stretches.{AllLieAhead, IsBehind};
ghost use Rattle.nested_instants.specs.Clocks.{AreClockStates, AreLeft, AreStatesAt, GoesOnFor, HasLevels, HasRanks};
ghost use Rattle.nested_instants.specs.Clocks.{IsIdle, is_node, left_at, rest_at, room_at, wants_at};
ghost use Rattle.nested_instants.specs.Stretches.{CanFillLane, FilledOn};
ghost use Rattle.clock_nodes.specs.Scenes.{setting_over};

use crate::ClockStates;
use crate::keeping::{keep, rest_for};
use crate::onward::run_clock;
use clock_infer::NodeClock;
use clock_instants::StretchRoom;
use clock_nodes::Scene;
use frame_core::title_of;
use node_states::{NodeState, WeekTime};
use op_mix::MAX_STRETCH;
use plan_core::Node;
use stream_meaning::slot_of;

/// The number of the child of crossfade k, which is the source whose tracks it joins; 0 if there is none.
pub fn child_of(nodes: &[Node], k: u32) -> u32
    ensures { result ≡ crossfaded nodes.now k }
{
    match nodes.get(k as usize) {
        Some(node) => first_of(node.children.as_slice()),
        None => 0,
    }
}

/// Feeds crossfade k, which wants it, the slot that its child has at the latest instant of its sub-clock, and moves the
/// sub-clock's time on by one instant.
pub fn fill_child(scene: &Scene<'_>, clocks: &mut ClockStates, k: u32)
    requires clocks { AreClockStates scene.now clocks.old }
    requires within { k < length scene.now.plan.now.nodes }
    requires idle { IsIdle (slice_index_or scene.now.clocks.now k (NodeClock.Main 0)) clocks.old }
    requires wants { wants_at clocks.old.states.items k ≡ true }
    ensures clocks { AreClockStates scene.now clocks.new }
    ensures latest { clocks.new.latest ≡ clocks.old.latest }
    ensures room { clocks.new.room ≡ clocks.old.room }
    ensures states { (i : ℕ) → (i ≡ k → ⊥) → slice_get clocks.new.states.items i ≡ slice_get clocks.old.states.items i }
    ensures times { (i : ℕ) → (i ≡ k → ⊥) → slice_get clocks.new.times.items i ≡ slice_get clocks.old.times.items i }
    ensures less { left_at clocks.new.states.items k < left_at clocks.old.states.items k }
    ensures filled { (setting : Setting) (sub : ℕ → ℕ
        → List Slot) (past : List Moment) (filled : ℕ) (work : Work) (before after : State)
        → slice_get clocks.old.states.items k ≡ Some before → slice_get clocks.new.states.items k ≡ Some after
        → StateStands setting sub past filled k work before
        → sub k (suc filled) ≡ sub k filled
        ++ (part_at clocks.old.latest.parts.items (crossfaded scene.now.plan.now.nodes k)).slot ∷ []
        → StateStands setting sub past (suc filled) k work after }
    ensures time { (start n : ℕ) (before after : Time) → slice_get clocks.old.times.items k ≡ Some before
        → slice_get clocks.new.times.items k ≡ Some after → TimeStands start n before → TimeStands start (suc n) after }
{
    let child = child_of(scene.plan.nodes.as_slice(), k);
    let slot = slot_of(&clocks.latest.parts, child);
    let at = k as usize;
    clocks.states[at].feed(slot);
    clocks.times[at] = clocks.times[at].next();
}

/// Feeds crossfade k the slots of its child after the latest instant of its sub-clock, which was at `time` and is fed
/// already. If instants follow that go on as that one did, and the crossfade has room, they are made at once. Otherwise
/// it notes how many go on, for later. `levels` bounds how deep sub-clocks nest below its clock.
pub fn fill_on(scene: &Scene<'_>, clocks: &mut ClockStates, k: u32, time: WeekTime, levels: usize)
    requires ready { AreStatesAt scene.now time clocks.old }
    requires within { k < length scene.now.plan.now.nodes }
    requires levels { HasLevels scene.now.clocks.now (slice_index_or scene.now.clocks.now k (NodeClock.Main 0)) levels }
    requires idle { IsIdle (slice_index_or scene.now.clocks.now k (NodeClock.Main 0)) clocks.old }
    requires none { rest_at clocks.old k ≡ 0 }
    ensures clocks { AreClockStates scene.now clocks.new }
    ensures no_more { left_at clocks.new.states.items k ≤ left_at clocks.old.states.items k }
    ensures left { (rank : Clock → ℕ) → HasRanks scene.now.clocks.now rank
        → AreLeft scene.now.clocks.now rank (rank (slice_index_or scene.now.clocks.now k (NodeClock.Main 0)))
        (is_node k)
        clocks.old clocks.new }
    ensures filled { FilledOn scene.now k time clocks.old clocks.new }
{
    let rest = goes_for(scene, clocks, k, time);
    let many = wanted(clocks, k, rest);
    if many == 0 {
        keep(scene, clocks, k, rest);
        return;
    }
    run_clock(scene, clocks, NodeClock::Sub(k), many, levels - 1);
    fill_lane(scene, clocks, k, many);
}

// How many instants of the sub-clock of crossfade k go on as its latest one did, which was at `time`. They are no more
// than the crossfade can use, and 0 if its child offered nothing there.
fn goes_for(scene: &Scene<'_>, clocks: &ClockStates, k: u32, time: WeekTime) -> u32
    requires ready { AreStatesAt scene.now time clocks.now }
    requires within { k < length scene.now.plan.now.nodes }
    ensures later { result ≤ time.rate }
    ensures ahead { AllLieAhead scene.now (NodeClock.Sub k) clocks.now.room.held.items clocks.now.states.items result }
    ensures through { AllPassOn scene.now (NodeClock.Sub k) clocks.now.room.held.items clocks.now.states.items
        clocks.now.room.rests.items result }
    ensures gave { 0 < result
        → is_some (part_at clocks.now.latest.parts.items (crossfaded scene.now.plan.now.nodes k)).slot ≡ true }
    ensures goes { (other : Setting) (sub : ℕ → ℕ → List Slot) (past : List Moment) (filled : ℕ → ℕ) →
        let setting = setting_over scene.now other in
        IsBehind setting sub (NodeClock.Sub k) past filled time clocks.now.latest.parts.items clocks.now.room.held.items
        clocks.now.states.items clocks.now.room.rests.items
        → 0 < result → GoesOnFor setting sub (NodeClock.Sub k) past result filled clocks.now.room.held.items
        clocks.now.states.items }
{
    let child = child_of(scene.plan.nodes.as_slice(), k);
    if slot_of(&clocks.latest.parts, child).is_none() {
        return 0;
    }
    let most = most_used(clocks, k);
    rest_for(scene, clocks, NodeClock::Sub(k), time, most)
}

// How many instants of its sub-clock crossfade k can use at once, at most. Where its item is not settled, so many as
// settle it, but no more than a stretch has. Where it is, a whole stretch, which is noted for later.
fn most_used(clocks: &ClockStates, k: u32) -> u32
    requires within { k < length clocks.now.states.items }
    ensures some { 0 < result }
    ensures short { result ≤ 2048 }
{
    match clocks.states[k as usize].room() {
        0 => MAX_STRETCH,
        room => room.min(MAX_STRETCH),
    }
}

// How many of the next `rest` slots of its child crossfade k takes at once: no more than settle its item, and no more
// than a stretch has, 2048.
fn wanted(clocks: &ClockStates, k: u32, rest: u32) -> u32
    requires within { k < length clocks.now.states.items }
    ensures rest { result ≤ rest }
    ensures room { result ≤ room_at clocks.now.states.items k }
    ensures short { result ≤ 2048 }
{
    rest.min(clocks.states[k as usize].room()).min(MAX_STRETCH)
}

// Feeds crossfade k the samples of its child in the latest stretch, of `many` instants, as cells with the child's title
// at the latest instant; and moves the sub-clock's time on by as many.
fn fill_lane(scene: &Scene<'_>, clocks: &mut ClockStates, k: u32, many: u32)
    requires { CanFillLane scene.now k many clocks.old }
    ensures clocks { AreClockStates scene.now clocks.new }
    ensures stretch_room { clocks.new.room ≡ clocks.old.room }
    ensures states { (i : ℕ) → (i ≡ k → ⊥) → slice_get clocks.new.states.items i ≡ slice_get clocks.old.states.items i }
    ensures times { (i : ℕ) → (i ≡ k → ⊥) → slice_get clocks.new.times.items i ≡ slice_get clocks.old.times.items i }
    ensures no_more { left_at clocks.new.states.items k ≤ left_at clocks.old.states.items k }
    ensures filled { (setting : Setting) (sub : ℕ → ℕ
        → List Slot) (past : List Moment) (filled : ℕ) (work : Work) (slots : ℕ → Slot) (before after : State)
        → slice_get clocks.old.states.items k ≡ Some before → slice_get clocks.new.states.items k ≡ Some after
        → StateStands setting sub past filled k work before
        → IsLane slots many (samples_of clocks.old.room.left.items (crossfaded scene.now.plan.now.nodes k) many)
        (samples_of clocks.old.room.right.items (crossfaded scene.now.plan.now.nodes k) many)
        → AreTitled slots many (title_of
        (part_at clocks.old.latest.parts.items (crossfaded scene.now.plan.now.nodes k)).slot)
        → ((m : ℕ) → m < many → sub k (suc (filled + m)) ≡ sub k (filled + m) ++ slots m ∷ [])
        → StateStands setting sub past (filled + many) k work after }
    ensures time { (start n : ℕ) (before after : Time) → slice_get clocks.old.times.items k ≡ Some before
        → slice_get clocks.new.times.items k ≡ Some after → TimeStands start n before
        → TimeStands start (n + many) after }
{
    let child = child_of(scene.plan.nodes.as_slice(), k);
    let at = k as usize;
    let title = title_of(slot_of(&clocks.latest.parts, child));
    fill_samples(
        &mut clocks.states[at],
        &clocks.room,
        child,
        title,
        many as usize,
    );
    clocks.times[at] = clocks.times[at].later(many);
}

// Feeds a crossfade, whose state this is, the samples of node `child` in the latest stretch, of `count` instants, which
// `stretch_room` holds. They become cells of this title.
fn fill_samples(
    state: &mut NodeState,
    stretch_room: &StretchRoom,
    child: u32,
    title: u32,
    count: usize,
)
    requires short { count ≤ 2048 }
    requires some { 0 < count }
    requires room { count ≤ room state.old }
    ensures fits { (library : Sounds) (children : ℕ) → Fits library children state.old
        → Fits library children state.new }
    ensures less { left state.new < left state.old }
    ensures filled { (setting : Setting) (sub : ℕ → ℕ
        → List Slot) (past : List Moment) (filled i : ℕ) (work : Work) (slots : ℕ → Slot)
        → StateStands setting sub past filled i work state.old
        → IsLane slots count (samples_of stretch_room.now.left.items child count)
        (samples_of stretch_room.now.right.items child count)
        → AreTitled slots count title
        → ((m : ℕ) → m < count → sub i (suc (filled + m)) ≡ sub i (filled + m) ++ slots m ∷ [])
        → StateStands setting sub past (filled + count) i work state.new }
{
    state.fill_stretch(
        title,
        stretch_room.left_of(child, count),
        stretch_room.right_of(child, count),
    );
}

// The first of some node numbers, or 0 where there is none.
fn first_of(numbers: &[u32]) -> u32
    ensures { result ≡ slice_index_or numbers.now 0 0 }
{
    match numbers.get(0) {
        Some(number) => *number,
        None => 0,
    }
}
