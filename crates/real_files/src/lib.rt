//! Real files as the shelf of `liq_base`: the edge to the system.
#![tactic(auto)]

mod call;
mod files;
mod names;
mod places;
mod system;

pub use call::words;
pub use file_sinks::{OutSink, look_at_front, look_at_whole, read_rest};
pub use files::FileShelf;
