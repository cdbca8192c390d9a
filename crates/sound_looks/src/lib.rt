//! What audio files and lists are, told of each by itself: without a walk, and without their sound being kept.
#![tactic(auto)]

mod laws;
mod list;
mod look;

pub use laws::looks_tell_uses;
pub use list::{ListLook, look_at_list};
pub use look::{Facts, Look, look_at};
