//! The types of values, expressions, calls and `if`: the inference of one expression, by its tree, and what it sees and
//! finds (names, uses, and the beginning of a call).
#![tactic(auto)]

mod arithmetic;
mod bindings;
mod callees;
mod calls;
mod defs;
mod environment;
mod leaves;
mod logic;
mod targets;
mod values;

pub use bindings::Bindings;
pub use calls::type_call;
pub use defs::Defs;
pub use environment::{FoundUse, Known, KnownDef, Names, TextKind, TextUse, TypedName};
pub use logic::type_expr;
pub use targets::target_table;
pub use values::{type_choice, type_full};
