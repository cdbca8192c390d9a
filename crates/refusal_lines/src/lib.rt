//! The line that is printed of each refusal. `docs/faults.md` has the table.
#![tactic(auto)]

mod clock_lines;
mod fault;
mod file_lines;
mod forms;
mod plan_lines;
mod replay_lines;
mod text_lines;
mod type_lines;

pub use fault::Fault;
pub use replay_lines::ReplayFault;
