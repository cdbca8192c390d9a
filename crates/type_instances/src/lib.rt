//! General types, and what a call makes of one.
#![tactic(auto)]

mod builtin_types;
mod general;
mod instances;

pub use builtin_types::instantiate_builtin;
pub use general::{General, KindParameter, TypeParameter};
pub use instances::{Instance, instantiate};
