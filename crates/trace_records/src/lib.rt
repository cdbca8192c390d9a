//! The record that a trace tells: which windows are legal by their answers alone, which traces tell a lawful record
//! whose ticks can be ordered, and that each of them tells one.
#![tactic(auto)]

mod windows;

pub use windows::{are_legal, is_legal};
