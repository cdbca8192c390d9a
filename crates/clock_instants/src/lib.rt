//! One instant of a clock: what each of its nodes offers, which nodes are demanded, and how their states go on.
#![tactic(auto)]

mod demand;
mod held;
mod holding;
mod latest;
mod offers;
mod onward;
mod resting;
mod roots;
mod stretch_room;
mod takes;

pub use latest::Latest;
pub use onward::run_nodes;
pub use resting::rest_of;
pub use stretch_room::{Spare, StretchRoom};
pub use takes::begin_readers;
