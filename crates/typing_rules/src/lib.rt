//! What typing says of each name of a script: the rules, as definitions, and what follows from them.
#![tactic(auto)]

mod builtins;
mod fault;
mod form;
pub mod laws;
mod parameter;
mod use_kinds;
mod uses;

pub use builtins::{Row, RowType, builtin_named, builtin_row, is_same_name};
pub use fault::{NameFault, TypeFault};
pub use form::Form;
pub use parameter::Parameter;
pub use use_kinds::UseKinds;
pub use uses::{Builtin, KindOf, Target, Use};
