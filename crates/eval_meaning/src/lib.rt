//! What a script means: the plan that its evaluation ends with, or the first fault; and what holds of that for all
//! scripts. `docs/evaluation.md` has it in words.
#![tactic(auto)]

pub mod laws;
