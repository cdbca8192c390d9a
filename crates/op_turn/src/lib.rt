//! Which child a rotate or a random uses.
#![tactic(auto)]

mod choice;
pub mod laws;
mod state;
mod turn;

pub use op_select::Picked as Pick;
pub use state::TurnState;
pub use turn::Turn;
