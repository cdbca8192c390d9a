//! Which child a fallback, a switch or a sequence uses.
#![tactic(auto)]

mod pick;
mod rule;
mod state;

pub use pick::plays_on;
pub use rule::{Picked, Rule};
pub use state::SelectState;
