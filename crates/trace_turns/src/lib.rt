//! The turns in which clocks make their ticks as a trace tells: buffers that answer so, and the search of the turns.
#![tactic(auto)]

mod buffers;
mod course;
mod ends;
mod find;
mod flat;
mod judging;
mod live;
mod onward;
mod station;
mod taps;
mod told;
mod turn;

pub use buffers::{sides_of, told_buffers};
pub use course::{Course, TurnMade};
pub use ends::Ends;
pub use flat::flatten;
pub use judging::judge;
pub use station::{Sides, Station};
pub use taps::{ToldTaps, let_go_run, mark_run, resume_run};
pub use told::{Mark, NO_MARK, ToldBuffer};
