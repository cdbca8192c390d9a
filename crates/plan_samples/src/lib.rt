//! Well-formed plans of many nodes, a plan that is made node by node, and a sink that drops its bytes, for tests and
//! benchmarks.
#![tactic(auto)]

mod checked;
mod dropping;
mod nodes;
mod plans;

pub use checked::CheckedDraft;
pub use dropping::DroppingSink;
pub use plans::{plan_of_nested_crossfades, plan_over};
