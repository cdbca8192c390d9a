//! Files of one rate changed to another, by linear interpolation in whole numbers. `docs/formats.md` has the rule.
#![tactic(auto)]

mod changed;
mod laws;
mod midway;
mod place;
mod rates;

pub use changed::{Blocks, Changed};
pub use laws::changes_lie_between;
pub use rates::length;
