//! The picture of a plan, as a text that graphviz draws. `docs/formats.md`, "The picture of a station", has the form.
#![tactic(auto)]

mod boxes;
mod drawing;
mod edges;
pub mod laws;
mod numbers;
mod preds;
mod regions;
mod words;

pub use drawing::picture;
