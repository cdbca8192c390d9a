//! The outputs of a clock: the bytes of a tick, its gaps, and how they are appended to byte sinks.
#![tactic(auto)]

mod appends;
mod feed;
mod piece;
mod port;

pub use appends::append_all;
pub use feed::{FeedPort, begin_feeds, give_all};
pub use piece::{Piece, block_size};
pub use port::{Port, begin_tick};
