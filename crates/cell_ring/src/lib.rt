//! Queues of cells.
#![tactic(auto)]

mod cell_ring;
mod chunk_queue;
mod mark_ring;
mod side_ring;

pub use cell_ring::CellRing;
pub use chunk_queue::ChunkQueue;
