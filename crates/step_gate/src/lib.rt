//! A gate at which clocks that a buffer joins keep step.
#![tactic(auto)]

mod begun;
mod step;

pub use step::StepGate;
