//! Plans: the graph of sources that a script stands for, with its sinks and its buffers. `docs/plans.md` has the rules.
#![tactic(auto)]

mod draft;
mod items;
pub mod laws;
mod node;
mod plan;
mod preds;
mod sink;

pub use draft::Draft;
pub use items::Items;
pub use node::{Node, Op};
pub use plan::{Plan, PlanFault};
pub use preds::Preds;
pub use sink::{BufferPlan, SinkPlan};
