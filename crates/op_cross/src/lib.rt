//! Crossfades: the settled items of a list of slots, one slot at a time.
#![tactic(auto)]

pub mod laws;
mod state;

pub use state::CrossState;
