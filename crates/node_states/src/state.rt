// The state of a node.
ghost use Rattle.std.specs.Prelude.{◌≡◌, ◌≤◌, ◌<◌, ◌+◌, ◌++◌, ◌∷◌, ℕ, List, [], true, false, length, suc, IfOk};
ghost use Rattle.liq_base.specs.declared.limits.TheConstants.{MAX_CHILDREN};
ghost use Rattle.frame_core.specs.Library.{IsLibrary, Sounds};
ghost use Rattle.frame_core.specs.Slots.{Slot as TheSlot};
ghost use Rattle.op_cross.specs.Runs.{run_of};
ghost use Rattle.plan_core.specs.Plans.{HasChildren, IsInRange};
ghost use Rattle.op_select.specs.declared.rule.Rule.{Rule as TheRule};
ghost use Rattle.stream_meaning.specs.Operators.{Work, Eligible, Fades, Picks, Reads, Selects};
ghost use Rattle.stretch_laws.specs.Stretches.{NodeGoes, NodeKeeps};
ghost use Rattle.stream_meaning.specs.Instants.{Setting, Moment, demanded, gives, last_pick, part_at, part_by};
ghost use Rattle.stream_meaning.specs.Instants.{position, second_at, work_at};
ghost use Rattle.node_states.specs.Passing.{asked, passes};
ghost use Rattle.node_states.specs.Stretches.{HasRested, HasStood, Latest, LiesAhead};
ghost use Rattle.node_states.specs.States.{AreLong, FadesOn, Fits, IsSettled, left, StateStands, wants};

use crate::marks::mark_eligible;
use crate::steps::{
    gives, item, picked, step_crossfade, step_leaf, step_reader, step_selection, step_turn,
    unpicked,
};
use crate::task::{Task, prefill_of, task_of};
use fixed_text::WeekSecond;
use frame_core::{Cell, Library, title_of};
use liq_base::Memory;
use op_cross::CrossState;
use op_leaf::{LeafState, ReaderState};
use op_mix::Mixer;
use op_select::SelectState;
use op_turn::TurnState;
use plan_core::{Node, Plan};
use std::alloc::Global;
use stream_meaning::Part;

/// The state of a node between two instants of its clock. It takes its memory when it is made, and no other call takes
/// any.
#[derive(Drop)]
pub enum NodeState {
    /// A leaf.
    Leaf(LeafState),

    /// A fallback, a switch or a sequence.
    Select(SelectState),

    /// A rotate or a random.
    Turn(TurnState),

    /// A sum, a gain, a mean, a stereo or a clock, which keeps nothing from instant to instant.
    Mix(Mixer),

    /// A crossfade.
    Cross(CrossState),

    /// The reader of a buffer.
    Read(ReaderState),

    /// A node of a clock that the engine does not drive: nothing is kept.
    Idle,
}

impl NodeState {
    /// Makes the state of node `i` of a plan, which is `node`, before the first instant of its clock.
    /// All memory that the node needs is taken here, for a crossfade or the reader of a buffer.
    pub fn new(alloc: Global, plan: &Plan, node: &Node, i: u32) -> Result<NodeState, Memory>
        requires rate { 0 < plan.now.rate }
        requires range { IsInRange node.now.op }
        requires few { length node.now.children ≤ MAX_CHILDREN }
        ensures fits { IfOk result (λ state. (library : Sounds) → IsLibrary library → i < length library.leaves
            → Fits library (length node.now.children) state) }
        ensures stands { IfOk result (λ state. (setting : Setting) (sub : ℕ → ℕ → List TheSlot)
            → setting.plan ≡ plan.now
            → sub i 0 ≡ [] → StateStands setting sub [] 0 i (work_at setting i node.now) state) }
    {
        match task_of(node, i, plan.rate) {
            Task::Play(leaf) => Ok(NodeState::Leaf(LeafState::new(leaf))),
            Task::Pick(rule) => {
                let children = node.children.len() as u32;
                Ok(NodeState::Select(SelectState::new(rule, children)))
            }
            Task::Turn(turn) => {
                let children = node.children.len() as u32;
                Ok(NodeState::Turn(TurnState::new(turn, children)))
            }
            Task::Mix(mixer) => Ok(NodeState::Mix(mixer)),
            Task::Fade(overlap) => {
                let state = CrossState::new(alloc, overlap, node.kind)?;
                Ok(NodeState::Cross(state))
            }
            Task::Read(buffer) => {
                let pre = prefill_of(plan, buffer);
                let state = ReaderState::new(alloc, pre, plan.frame)?;
                Ok(NodeState::Read(state))
            }
        }
    }

    /// Whether the node is a crossfade that needs the next slot of its child, which may still change its next item.
    /// `false` for every other node.
    pub fn wants(&self) -> bool
        ensures wants { result ≡ wants self.now }
        ensures ends { result ≡ true → 0 < left self.now }
        ensures settled { (setting : Setting) (sub : ℕ → ℕ
            → List TheSlot) (past : List Moment) (filled i : ℕ) (work : Work)
            → StateStands setting sub past filled i work self.now → result ≡ false
            → ((buffer : ℕ) → work ≡ Reads buffer → filled ≡ suc (length past)) → IsSettled sub past filled i work }
        ensures more { (setting : Setting) (sub : ℕ → ℕ
            → List TheSlot) (past : List Moment) (filled i : ℕ) (work : Work) → AreLong sub
            → StateStands setting sub past filled i work self.now → result ≡ true → FadesOn sub past filled i work }
        ensures run { (setting : Setting) (sub : ℕ → ℕ → List TheSlot) (past : List Moment) (filled i overlap : ℕ)
            → AreLong sub
            → StateStands setting sub past filled i (Fades overlap) self.now → result ≡ false
            → run_of overlap (sub i) (position past i) ≡ filled }
    {
        match self {
            NodeState::Cross(state) => state.wants(),
            _ => false,
        }
    }

    /// Gives a crossfade that `wants` it the next slot of its child, a cell or nothing. Other nodes are left alone.
    pub fn feed(&mut self, slot: Option<Cell>)
        requires { wants self.old ≡ true }
        ensures fits { (library : Sounds) (children : ℕ) → Fits library children self.old
            → Fits library children self.new }
        ensures filled { (setting : Setting) (sub : ℕ → ℕ
            → List TheSlot) (past : List Moment) (filled i : ℕ) (work : Work)
            → StateStands setting sub past filled i work self.old → sub i (suc filled) ≡ sub i filled ++ slot ∷ []
            → StateStands setting sub past (suc filled) i work self.new }
        ensures less { left self.new < left self.old }
    {
        if let NodeState::Cross(state) = self {
            let wanting = state.wants();
            prove!(wanting);
            state.feed(slot);
        }
    }

    /// What the node offers at an instant in second `at` of the week, and if it chooses, which child it uses.
    /// `slots` has what each child offers there. Nothing of the state moves on.
    /// `marks` is room to mark the children that may be chosen; its content does not matter.
    pub fn offer(
        &self,
        node: &Node,
        slots: &[Option<Cell>],
        marks: &mut [bool],
        library: &Library,
        at: WeekSecond,
    ) -> Part
        requires fits { Fits library.now (length node.now.children) self.now }
        requires number { HasChildren node.now.op (length node.now.children) }
        requires few { length node.now.children ≤ MAX_CHILDREN }
        requires slots { length slots.now ≡ length node.now.children }
        requires marks { length marks.old ≡ length node.now.children }
        ensures part { (setting : Setting) (sub : ℕ → ℕ → List TheSlot) (past : List Moment) (filled i : ℕ)
            → setting.library ≡ library.now → at.second ≡ second_at setting (length past) → AreLong sub
            → StateStands setting sub past filled i (work_at setting i node.now) self.now
            → IsSettled sub past filled i (work_at setting i node.now)
            → result ≡ part_by setting sub past i (work_at setting i node.now) slots.now }
    {
        match self {
            NodeState::Leaf(state) => unpicked(state.offer(library)),
            NodeState::Select(state) => {
                mark_eligible(&node.op, at, marks);
                picked(state.offer(slots, marks))
            }
            NodeState::Turn(state) => picked(state.offer(slots)),
            NodeState::Mix(mixer) => unpicked(mixer.slot(slots)),
            NodeState::Cross(state) => unpicked(item(state)),
            NodeState::Read(state) => unpicked(state.offer()),
            NodeState::Idle => unpicked(None),
        }
    }

    /// The child that a selection used when it last gave, as its place among the children; `None` if it never gave, and
    /// for every other node.
    pub fn last(&self) -> Option<u32>
        ensures { (setting : Setting) (sub : ℕ → ℕ
            → List TheSlot) (past : List Moment) (filled i : ℕ) (rule : TheRule) (eligible : Eligible)
            → StateStands setting sub past filled i (Picks (Selects rule) eligible) self.now
            → result ≡ last_pick past i }
    {
        match self {
            NodeState::Select(state) => state.last(),
            _ => None,
        }
    }

    /// How many instants, at most `most`, go on as the latest one did, as far as this node alone decides.
    /// There it had this part, and gave its cell if `gave`; `begins`: the child it used last begins a track there.
    /// `below` is how many instants of a crossfade's sub-clock go on with a track, under the title `below_title`.
    /// 0 where a selection that offers nothing has such a child, since it may change, or a crossfade offers nothing.
    pub fn rest(
        &self,
        part: Part,
        gave: bool,
        begins: bool,
        library: &Library,
        below: u32,
        below_title: u32,
        most: u32,
    ) -> u32
        requires fits { (children : ℕ) × Fits library.now children self.now }
        ensures within { result ≤ most }
        ensures ahead { gave ≡ true → LiesAhead library.now self.now result }
        ensures through { gave ≡ true → passes self.now ≡ true → result ≤ below }
        ensures goes { (latest : Latest) (work : Work)
            → HasRested latest work library.now part gave below below_title self.now
            → NodeGoes latest.setting latest.sub latest.past latest.moment latest.i work begins result }
        ensures keeps { (latest : Latest) (work : Work)
            → HasRested latest work library.now part gave below below_title self.now
            → NodeKeeps latest.setting latest.sub latest.past latest.moment latest.i work result }
        ensures asks { (latest : Latest) (overlap j : ℕ)
            → HasStood latest (Fades overlap) gave below below_title self.now → gave ≡ true → j < result
            → run_of overlap (latest.sub latest.i) (suc (position latest.past latest.i) + j)
            ≡ latest.filled + asked (passes self.now) j }
    {
        match self {
            NodeState::Leaf(state) => {
                if gave {
                    state.rest(library, title_of(part.slot), most)
                } else {
                    most
                }
            }
            NodeState::Select(_) => {
                if begins && part.slot.is_none() {
                    0
                } else {
                    most
                }
            }
            NodeState::Turn(_) => most,
            NodeState::Mix(_) => most,
            NodeState::Cross(state) => {
                if part.slot.is_none() {
                    0
                } else if gave {
                    state.rest(title_of(part.slot), below, below_title, most)
                } else {
                    most
                }
            }
            NodeState::Read(state) => {
                if gave {
                    state.rest(title_of(part.slot), most)
                } else {
                    most
                }
            }
            NodeState::Idle => most,
        }
    }

    /// Moves the state of a node on by one instant, at which it had this part; it has `children` children.
    /// `is_demanded` says whether a node above it, or a sink, demanded it there: only then did it give its cell.
    pub fn next(&mut self, part: Part, is_demanded: bool, library: &Library, children: usize)
        requires fits { Fits library.now children self.old }
        ensures fits { Fits library.now children self.new }
        ensures stands { (setting : Setting) (sub : ℕ → ℕ
            → List TheSlot) (past : List Moment) (moment : Moment) (filled i : ℕ)
            (work : Work) (slots : List TheSlot) → setting.library ≡ library.now → AreLong sub
            → StateStands setting sub past filled i work self.old → IsSettled sub past filled i work
            → length slots ≡ children → part ≡ part_by setting sub past i work slots
            → part_at moment.parts i ≡ part → demanded moment i ≡ is_demanded
            → StateStands setting sub (moment ∷ past) filled i work self.new }
    {
        let gave = gives(part, is_demanded);
        match self {
            NodeState::Leaf(state) => step_leaf(state, gave, library),
            NodeState::Select(state) => step_selection(state, gave, part.pick, children),
            NodeState::Turn(state) => step_turn(state, gave, part, children),
            NodeState::Mix(_) => {}
            NodeState::Cross(state) => step_crossfade(state, gave),
            NodeState::Read(state) => step_reader(state, gave),
            NodeState::Idle => {}
        }
    }
}
