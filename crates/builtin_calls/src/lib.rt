//! The builtin calls: what each makes of its arguments, its open kinds and the state of an evaluation.
#![tactic(auto)]

mod calls;
mod children;
pub mod laws;
mod leaves;
mod nodes;
mod outputs;
mod parts;
mod settings;
mod single_source;
mod sources;
mod times;

pub use calls::builtin;
