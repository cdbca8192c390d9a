//! What the names of a tree stand for, and the faults of names and arguments.
#![tactic(auto)]

mod arguments;
mod builtins;
mod labels;
mod notes;
mod parameter;
mod scope;
mod script;
mod statements;
mod values;

pub use arguments::{is_label, is_needed, label_of, parameters};
pub use builtins::builtin_params;
pub use labels::Labels;
pub use notes::{Notes, Resolved};
pub use parameter::Given;
pub use scope::{Binding, Bound, Scope, Scopes};
pub use script::resolve_statement;
pub use statements::note_def;
pub use typing_rules::{Parameter, builtin_named};
pub use values::{note_call, note_choice, note_expr, note_full};
