//! What the parsers share: why tokens are not read, reading one token at the front, and reading a predicate.
#![tactic(auto)]

mod fault;
mod predicates;
pub mod token;

pub use fault::Fault;
pub use predicates::predicate;
