//! All clocks of a plan on one thread: in each round every clock makes a tick.
#![tactic(auto)]

mod rounds;
mod run;

pub use rounds::make_rounds;
pub use run::run_rounds;
