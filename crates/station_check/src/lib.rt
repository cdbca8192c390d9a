//! Whether a plan is rendered: its audio files and its clocks, or its first fault. `docs/faults.md` has the order.
#![tactic(auto)]

mod buffers;
mod check;
mod clocks;
mod files;
mod gaps;
mod halt;
mod lengths;
mod report;

pub use check::{check_clocks, check_plan};
pub use halt::CheckEnd;
pub use report::check_report;
