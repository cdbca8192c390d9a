//! The meaning of a plan's streams: the slot that each node offers at each instant of its clock, and the laws that hold
//! of it. The definitions stand in `specs/`, and `docs/streams.md` tells them.
#![tactic(auto)]

pub mod laws;
mod part;
mod slots;

pub use part::Part;
pub use slots::slot_of;
