//! The instants of a clock with the sub-clocks of its crossfades, however deep they nest.
#![tactic(auto)]

mod clock_states;
mod clocks;
mod filling;
mod finishing;
mod keeping;
mod onward;
mod opening;
mod stretch;

pub use clock_states::ClockStates;
pub use clocks::make_instant;
pub use filling::child_of;
pub use stretch::make_stretch;
