// How a selection chooses, and what it answers.

use frame_core::Cell;

/// How a selection chooses among its children.
#[derive(Clone, Copy, Debug, PartialEq, Eq, Hash)]
pub enum Rule {
    /// A fallback or a switch: the first eligible child that offers. Where it is `sensitive` to tracks, a child that
    /// is in the middle of a track is played on, eligible or not.
    First { sensitive: bool },

    /// A sequence: each child for one track, in their order, and the last one for good.
    Turns,
}

/// The child that a selection uses at an instant, and the cell that it offers with it.
#[derive(Clone, Copy, Debug, PartialEq, Eq, Hash)]
pub struct Picked {
    /// A place among the children, from 0.
    pub child: u32,

    /// The child's cell, which begins a track also where another child was used last, or none.
    pub cell: Cell,
}
