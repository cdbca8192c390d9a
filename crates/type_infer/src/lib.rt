//! Inference: what typing says of each name of a script, or the first fault; and the typings of one def on the way.
#![tactic(auto)]

mod defs;
mod front;
mod parts;
mod script;
mod settling;
mod statements;
mod steps;
mod texts;
mod values;

pub use script::infer;
pub use typing_rules::{Builtin, KindOf, Target, TypeFault, Use, UseKinds};
