//! What a node makes of the slots of its children, at an instant or over a run of them: a sum, a gain, a mean of both
//! sides, or one side on both. `docs/streams.md`, "Arithmetic", has the rules.
#![tactic(auto)]

mod before;
mod change;
mod lane;
mod mixer;
mod room;
mod sum;
mod walk;

pub use before::Before;
pub use mixer::Mixer;
pub use room::{MAX_STRETCH, Sums};
pub use walk::samples_of;
