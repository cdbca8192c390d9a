//! Predicates of a script on the time of the week: `docs/language.md`, "Predicates and time", has the rules.
#![tactic(auto)]

mod mark;
mod pred;
mod shared;

pub use pred::Pred;
pub use shared::SharedPred;
