//! A workload from a number: valid audio files, a list of them and a script, the same for the same two numbers.
#![tactic(auto)]

mod laws;
mod script;
mod track;
mod workload;

pub use laws::made_files_are_read;
pub use workload::make;
