//! The grammar: the tree of a script, the one list of tokens that spells it, and what reading a list of tokens has to
//! do with spelling: what is read is a spelling, and a fault stands at the first token that none goes on with.
#![tactic(auto)]

pub mod laws;
mod lone;
pub mod make;
pub mod predicate;
mod predicate_tokens;
mod script_tokens;
pub mod tree;
mod value_tokens;

pub use lone::lone_operand;
pub use script_tokens::spell;
