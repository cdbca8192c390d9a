// What a node does at an instant.
use frame_core::Cell;

/// What a node offers at an instant: its slot, and the place of the child that it uses, where it selects.
#[derive(Clone, Copy, Debug, PartialEq, Eq, Hash)]
pub struct Part {
    /// A cell or nothing.
    pub slot: Option<Cell>,

    /// A place among the children, from 0; `None` where the node uses none or does not select.
    pub pick: Option<u32>,
}
