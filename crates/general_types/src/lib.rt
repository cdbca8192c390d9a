//! The general types of defs.
#![tactic(auto)]

mod generalising;
mod holding;
mod numbering;
mod renewing;
mod walking;

pub use generalising::{DefType, TextKind, generalise};
pub use holding::Held;
