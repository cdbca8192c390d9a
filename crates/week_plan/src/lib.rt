//! When in the week no case of a switch holds, and which of its cases is never chosen. `docs/language.md`, "Predicates
//! and time", says when a predicate holds.
#![tactic(auto)]

mod cases;
mod days;
pub mod laws;
mod leaves;
mod listing;
mod looked;
mod preds;
mod same;
mod span;
mod spans;
mod stretch;
mod table;
mod words;

pub use cases::{Fate, Seen, look};
pub use days::is_daily;
pub use listing::push_when;
pub use looked::{Looked, look_kept};
pub use preds::table_of;
pub use same::{same_pred, same_preds};
pub use span::Span;
pub use spans::spans_of;
pub use table::{Way, filled, join, seconds_told};
pub use words::push_plain;
