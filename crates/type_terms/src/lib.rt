//! Types over variables, and a most general unifier.
#![tactic(auto)]

mod agenda;
mod differ;
mod free_counts;
mod naming;
mod occurs;
mod resolving;
mod subst;
mod table;
mod ty;
mod type_variable;
mod unifier;

pub use naming::{VariableNumbers, places, renamed, variables};
pub use subst::{Subst, resolved, resolved_kind, unify};
pub use ty::{Base, KindTerm, Ty};
