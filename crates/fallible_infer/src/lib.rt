//! Which nodes of a plan always offer a cell, and whether each output may be written so. `docs/fallible.md` has the
//! rules.
#![tactic(auto)]

mod laws;
mod nodes;
mod outputs;

pub use laws::one_marking;
pub use nodes::infallible;
pub use outputs::{Fallible, check_outputs};
