//! The engine of one clock: tick by tick it appends the bytes of its outputs to their sinks.
#![tactic(auto)]

mod clock_state;
mod cues;
mod engine;
mod fault;
mod heard;
mod outputs;
mod parts;
mod run;

pub use cues::CueMark;
pub use engine::ClockEngine;
pub use fault::TickFault;
