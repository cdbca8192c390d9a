//! Reading statements: bindings, defs, calls and `if`s.
#![tactic(auto)]

mod binding;
mod definition;
mod parameter;
mod statement;
mod tokens;

pub use statement::statements;
