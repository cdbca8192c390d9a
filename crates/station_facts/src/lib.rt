//! What a script is, for other programs: its tokens; its plan; and what becomes of each file that it plays.
#![tactic(auto)]

mod fault;
mod files;
mod hours;
mod inferred;
mod leaves;
mod members;
mod plans;
mod sounds;
mod tokens;

pub use files::tell_files;
pub use hours::tell_hours;
pub use inferred::{Inferred, infer};
pub use tokens::{tell_tokens, tell_too_long};
