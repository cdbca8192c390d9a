//! Why a plan is refused for a silence or for its clocks: which of its sources are to blame, and how that is told.
//! `docs/fallible.md` and `docs/clocks.md` have the rules.
#![tactic(auto)]

mod blames;
mod causes;
mod faults;
mod ids;
pub mod laws;
mod needs;
mod red_nodes;
mod texts;

pub use blames::{is_edge_red, is_red, mark, push_red_words, refused_node};
pub use causes::cause;
pub use faults::push_fault;
pub use ids::id_of;
pub use needs::only_needed;
pub use red_nodes::reds;
pub use texts::{push_between, push_escaped, push_named, push_number, push_plain};
