// Room for the slots of a node's children.
ghost use Rattle.std.specs.Prelude.{◌≡◌, ◌≤◌, ℕ, List, length, IfOk};
ghost use Rattle.liq_base.specs.declared.limits.TheConstants.{MAX_CHILDREN};
ghost use Rattle.frame_core.specs.Slots.{Slot};
ghost use Rattle.plan_core.specs.Plans.{HasChildren};
ghost use Rattle.stream_meaning.specs.Instants.{Setting, Moment, part_at, part_by, second_at, slots_at, work_at};
ghost use Rattle.node_states.specs.States.{AreLong, Fits, IsSettled, StateStands};

use crate::NodeState;
use fixed_text::WeekSecond;
use frame_core::{Cell, Library};
use liq_base::Memory;
use plan_core::Node;
use std::alloc::Global;
use std::marker::Model;
use stream_meaning::{Part, slot_of};

/// Room for the slots of a node's children, and for a mark of each. Contracts see for how many children.
#[derive(Drop)]
pub struct Desk {
    slots: Vec<Option<Cell>>,
    marks: Vec<bool>,
}

impl Model for Desk {
    ghost use Rattle.std.specs.Prelude.{◌≡◌, ℕ, length};

    ghost Value = { ℕ };

    ghost view = { λ d. length d.slots.items };

    ghost invariant = { λ d. length d.marks.items ≡ length d.slots.items };
}

impl Desk {
    /// Makes room for the slots and marks of up to `children` children of a node. No later call takes memory.
    pub fn new(alloc: Global, children: usize) -> Result<Desk, Memory>
        ensures { IfOk result (λ desk. desk ≡ children) }
    {
        let slots = vec![in alloc; None; children]?;
        let marks = vec![in alloc; false; children]?;
        Ok(Desk { slots, marks })
    }

    /// What a node in this state offers at an instant in second `at` of the week; if it chooses, which child it uses.
    /// `parts` has, by a node's number, what each node before it offered; its children are among these.
    pub fn offer(
        &mut self,
        state: &NodeState,
        node: &Node,
        parts: &[Part],
        library: &Library,
        at: WeekSecond,
    ) -> Part
        requires room { length node.now.children ≤ self.old }
        requires fits { Fits library.now (length node.now.children) state.now }
        requires number { HasChildren node.now.op (length node.now.children) }
        requires few { length node.now.children ≤ MAX_CHILDREN }
        ensures room { self.new ≡ self.old }
        ensures part { (setting : Setting) (sub : ℕ → ℕ → List Slot) (past : List Moment) (filled i : ℕ)
            → setting.library ≡ library.now → at.second ≡ second_at setting (length past) → AreLong sub
            → StateStands setting sub past filled i (work_at setting i node.now) state.now
            → IsSettled sub past filled i (work_at setting i node.now)
            → result ≡ part_by setting sub past i (work_at setting i node.now) (slots_at parts.now node.now.children) }
    {
        offer_over(
            state,
            node,
            parts,
            library,
            at,
            &mut self.slots,
            &mut self.marks,
        )
    }
}

// What a node in this state offers at an instant in second `at` of the week, and which child it uses.
// `parts` has, by a node's number, what each node before it offered; its children are among these.
// `slots` and `marks` are room for its children; their content does not matter.
fn offer_over(
    state: &NodeState,
    node: &Node,
    parts: &[Part],
    library: &Library,
    at: WeekSecond,
    slots: &mut [Option<Cell>],
    marks: &mut [bool],
) -> Part
    requires slots { length node.now.children ≤ length slots.old }
    requires marks { length node.now.children ≤ length marks.old }
    requires fits { Fits library.now (length node.now.children) state.now }
    requires number { HasChildren node.now.op (length node.now.children) }
    requires few { length node.now.children ≤ MAX_CHILDREN }
    ensures { (setting : Setting) (sub : ℕ → ℕ → List Slot) (past : List Moment) (filled i : ℕ)
        → setting.library ≡ library.now → at.second ≡ second_at setting (length past) → AreLong sub
        → StateStands setting sub past filled i (work_at setting i node.now) state.now
        → IsSettled sub past filled i (work_at setting i node.now)
        → result ≡ part_by setting sub past i (work_at setting i node.now) (slots_at parts.now node.now.children) }
{
    let children = node.children.as_slice();
    let (slots, _) = slots.split_at_mut(children.len());
    let (marks, _) = marks.split_at_mut(children.len());
    gather(parts, children, slots);
    state.offer(node, slots, marks, library, at)
}

// Copies the slot of each child of a node, a cell or nothing, from the parts of all nodes to `slots`; a child without
// a part has an empty slot.
fn gather(parts: &[Part], children: &[u32], slots: &mut [Option<Cell>])
    requires { length slots.old ≡ length children.now }
    ensures { slots.new ≡ slots_at parts.now children.now }
{
    for at in 0..children.len() {
        slots[at] = slot_of(parts, children[at]);
    }
}
