//! Evaluation: the plan of a typed script, or its first fault; and the calls that make its sources.
#![tactic(auto)]

mod script;

pub use script::{Sources, eval, eval_with_calls};
