//! The replay of a trace: which traces tell a lawful record whose ticks can be ordered, and the rendering of such a
//! record again, on one thread.
#![tactic(auto)]

mod accept;
mod engines;
pub mod laws;
mod logs;
mod parts;
mod whole;

pub use accept::accepts;
pub use whole::{RecordTurns, find_record, replay};
