//! Cells, slots and chunks, the audio files that leaves play, and the buffers as a clock sees them.
#![tactic(auto)]

mod block;
mod cell;
mod chunk;
mod frame;
mod library;
mod runs;
mod slot;
mod taps;
mod track;

pub use cell::{Cell, CellMark, MarkRun};
pub use chunk::{Chunk, Gave};
pub use frame::Frame;
pub use library::Library;
pub use runs::mark_at;
pub use slot::{goes_on, title_of};
pub use taps::Taps;
pub use track::Track;
