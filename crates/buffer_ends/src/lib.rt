//! The ends of one clock's buffers: those that it keeps as lists of its own, and those that it shares with other
//! clocks.
#![tactic(auto)]

mod counts;
mod ends;
mod local;
mod local_taps;
mod logs;
mod run_end;
mod thread_taps;

pub use counts::Counts;
pub use ends::{PutEnd, TakeEnd};
pub use local_taps::LocalTaps;
pub use logs::{BufferLog, WindowLog};
pub use run_end::{End, RunEnd};
pub use thread_taps::ThreadTaps;
