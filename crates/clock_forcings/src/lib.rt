//! In which clocks nodes must lie, and what is found of groups of them. `docs/clocks.md` has the rules.
#![tactic(auto)]

mod conflicts;
mod forcings;
mod ids;

pub use conflicts::{Found, first_conflict, found_of};
pub use forcings::{Forced, Forcing, fades, forcings_of, node_of};
pub use ids::id_at;
