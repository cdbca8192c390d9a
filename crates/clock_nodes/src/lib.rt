//! The nodes of each clock, and how their states go on by an instant.
#![tactic(auto)]

mod advance;
mod nodes;
mod scene;

pub use advance::advance_all;
pub use nodes::ClockNodes;
pub use scene::Scene;
