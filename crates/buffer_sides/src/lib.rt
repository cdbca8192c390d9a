//! The two sides of a plan's buffers: the nodes that feed and read them, and the main clocks in which these lie.
#![tactic(auto)]

mod mains;
mod sides;

pub use mains::main_of;
pub use sides::{feeders, readers};
