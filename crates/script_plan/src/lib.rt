//! From the bytes of a script to its plan, or to its first fault; and to the calls that make the plan's sources.
#![tactic(auto)]

mod fault;
pub mod laws;
mod plan;
mod sources;

pub use fault::ScriptFault;
pub use plan::plan_of;
pub use sources::sources_of;
