//! The state of one node of a plan, and what it offers and does at an instant of its clock. `docs/engine.md`, "The
//! state of a node", has the rules.
#![tactic(auto)]

mod desk;
mod filling;
pub mod laws;
mod marks;
mod passing;
mod run;
mod state;
mod steps;
mod takes;
mod task;
mod time;

pub use desk::Desk;
pub use marks::steady_seconds;
pub use state::NodeState;
pub use steps::gives;
pub use time::WeekTime;
