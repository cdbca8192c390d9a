//! The script that tokens spell, or the first place that rules one out.
#![tactic(auto)]

mod fault;
pub mod laws;
mod script;

pub use fault::ParseFault;
pub use script::parse;
