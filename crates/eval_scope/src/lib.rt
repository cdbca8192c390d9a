//! Where an expression stands: what names stand for there, by tables, and the values of bindings.
#![tactic(auto)]

mod defs;
mod globals;
mod places;
mod scope;
mod uses;

pub use defs::Defs;
pub use globals::Globals;
pub use scope::{Scope, format, kinds_of, named};
pub use uses::Uses;
