// A run of a node.
ghost use Rattle.std.specs.Prelude.{◌≡◌, ◌<◌, ◌≤◌, ◌||◌, ℕ, Some, length, slice_get, suc};
ghost use Rattle.liq_base.specs.declared.limits.TheConstants.{MAX_CHILDREN};
ghost use Rattle.stream_meaning.specs.Instants.{work_at};
ghost use Rattle.op_mix.specs.Stretches.{samples_of};
ghost use Rattle.node_states.specs.Passing.{passes};
ghost use Rattle.node_states.specs.Histories.{History, IsLaneOf, StandsOn};
ghost use Rattle.node_states.specs.Stretches.{ChildrenGive, GivesOn, LiesAhead, filled_on};
ghost use Rattle.node_states.specs.States.{Fits, reads};

use crate::NodeState;
use crate::passing::pass_child;
use frame_core::Library;
use op_mix::{Before, Sums, samples_of};
use plan_core::Node;

impl NodeState {
    /// Makes as many instants as `left` is long, of a node that gave at the latest one and goes on as there.
    /// Its samples go to `left` and `right`, made from those of the nodes `before` it, and its state moves on.
    /// `pick` is the place of the child that it used at the latest instant; `sums` is room. No memory is taken.
    /// If cells pass through a crossfade one by one, those of its child have the title `below`.
    pub fn run(
        &mut self,
        node: &Node,
        pick: Option<u32>,
        before: &Before<'_>,
        below: u32,
        library: &Library,
        sums: &mut Sums,
        left: &mut [i16],
        right: &mut [i16],
    )
        requires fits { Fits library.now (length node.now.children) self.old }
        requires few { length node.now.children ≤ MAX_CHILDREN }
        requires same { length right.old ≡ length left.old }
        requires some { 0 < length left.old }
        requires short { length left.old ≤ 2048 }
        requires ahead { LiesAhead library.now self.old (length left.old) }
        ensures fits { Fits library.now (length node.now.children) self.new }
        ensures stands { (history : History) (filled i : ℕ)
            → GivesOn history (length left.old) filled i node.now library.now below before.now self.old
            → StandsOn history (suc (length left.old))
            (filled_on (passes self.old || reads (work_at history.setting i node.now)) (length left.old) filled)
            i node.now self.new }
        ensures lane { (history : History) (filled i : ℕ)
            → GivesOn history (length left.old) filled i node.now library.now below before.now self.old
            → ChildrenGive history (length left.old) i node.now pick before.now
            → IsLaneOf history i (length left.old) left.new right.new }
    {
        let children = node.children.as_slice();
        match self {
            NodeState::Leaf(state) => state.run(library, left, right),
            NodeState::Select(_) => {
                copy_picked(children, pick, before, left, right);
            }
            NodeState::Turn(_) => {
                copy_picked(children, pick, before, left, right);
            }
            NodeState::Mix(mixer) => {
                mixer.run(children, before, sums, left, right);
            }
            NodeState::Cross(state) => {
                if state.passes() {
                    pass_child(state, below, children, before, left, right);
                } else {
                    state.copy(left, right);
                }
            }
            NodeState::Read(state) => state.run(left, right),
            NodeState::Idle => {}
        }
    }
}

// Copies to `left` and `right` the samples of the child that a node used, at place `pick` among its children; without
// one nothing is written.
fn copy_picked(
    children: &[u32],
    pick: Option<u32>,
    before: &Before<'_>,
    left: &mut [i16],
    right: &mut [i16],
)
    requires same { length right.old ≡ length left.old }
    requires short { length left.old ≤ 2048 }
    ensures left { (place child : ℕ) → pick ≡ Some place → slice_get children.now place ≡ Some child
        → left.new ≡ samples_of before.now.left.now child (length left.old) }
    ensures right { (place child : ℕ) → pick ≡ Some place → slice_get children.now place ≡ Some child
        → right.new ≡ samples_of before.now.right.now child (length left.old) }
{
    let Some(place) = pick else {
        return;
    };
    let Some(child) = children.get(place as usize) else {
        return;
    };
    left.copy_from_slice(samples_of(before.left, *child, left.len()));
    right.copy_from_slice(samples_of(before.right, *child, right.len()));
}
