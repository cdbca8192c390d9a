//! Evaluation of expressions: the value of each, or its first fault; and whether one holds a call.
#![tactic(auto)]

mod arguments;
mod arithmetic;
mod atoms;
mod bodies;
mod calls;
mod conditionals;
mod held;
mod logic;
mod operands;
mod preds;
mod steps;
mod values;

pub use calls::call;
pub use conditionals::choice;
pub use held::is_setting;
pub use values::full;
