//! Reading values: recursive descent over tokens.
#![tactic(auto)]

mod arguments;
mod arithmetic;
mod at;
mod atoms;
mod conditionals;
mod entry;
mod items;
mod logic;
mod number;
mod operands;
mod values;

pub use entry::{call, choice, result, value};
