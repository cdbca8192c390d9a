//! A station is rendered into its files: outputs are created in sink order, the clocks' ticks are made by threads in
//! windows, or on one thread, in rounds or again as a trace tells, and all outputs are closed, also after a fault; then
//! cue files and a trace are left, where they are wanted.
#![tactic(auto)]

mod close;
mod create;
mod cues;
mod engines;
mod fault;
mod files;
mod headers;
mod job;
mod opened;
mod output_sink;
mod rendered;
mod rendering;
mod reports;
mod sinks;
mod ticks;
mod traces;

pub use cues::cue_file_name;
pub use fault::RenderFault;
pub use job::Job;
pub use rendered::Rendered;
pub use rendering::{render, render_again, render_alone};
pub use reports::{push_counts, report};
