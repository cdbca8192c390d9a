//! Leaves, which make their own cells, and the readers of buffers.
#![tactic(auto)]

mod blank;
mod files;
mod leaf;
mod reader;
mod square;

pub use leaf::{Leaf, LeafState};
pub use reader::ReaderState;
