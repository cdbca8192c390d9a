//! Laws over two crates: what the lines of faults name, and that `liq` and `about` say one thing.
#![tactic(auto)]

mod laws;

pub use laws::{both_say_one_thing, lines_name_their_places};
