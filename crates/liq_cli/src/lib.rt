//! The top call: words and a shelf of files in; outputs, a report or a line, and a status out.
#![tactic(auto)]

mod call;
pub mod laws;

pub use call::{liq, liq_alone};
