//! When in the week a switch chooses which of its cases, and for how long without a gap. `docs/language.md`,
//! "Predicates and time", says when a predicate holds.
#![tactic(auto)]

mod cases;
mod known;
pub mod laws;
mod told;
mod windows;

pub use cases::{Hours, hours_of};
pub use known::{Known, hours_again, known_holes, unknown, windows_again};
pub use told::ToldCases;
pub use windows::Windows;
