//! A bounded queue of chunks with one end that puts and one that takes. Each window of its use is one legal history,
//! whatever two threads do.
#![tactic(auto)]

mod queue;
mod rule;

pub use queue::{BufferQueue, PutPass, TakePass};
