//! What is told about a script, by a word for each question.
#![tactic(auto)]

mod call;
mod told;
mod verb;

pub use call::about;
