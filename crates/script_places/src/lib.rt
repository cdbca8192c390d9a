//! From the line of a fault to the place in the script: its line and column, and the two lines that show it.
#![tactic(auto)]

mod counting;
mod forms;
mod named;
mod numbers;
mod place;
mod pointing;
mod showing;
mod starts;

pub use named::{Named, named_in};
pub use pointing::pointer;
pub use starts::{first_token, start};
