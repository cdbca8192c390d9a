//! Values of a script, what its operators make of them, and the state of an evaluation.
#![tactic(auto)]

mod fault;
mod machine;
mod numbers;
mod slots;
mod value;

pub use fault::{EvalFault, Limit, Stop, fault_in};
pub use machine::{Machine, Settings, count, count_value, note, sources_made};
pub use numbers::{
    added, both, compared, either, literal, multiplied, negative, opposite, truth_of,
};
pub use slots::{Given, Slot, argument, copy_label, slot_at};
pub use value::{Value, copy, listed, size, tuple};
