//! What stays as it is over a stretch of instants of a clock. No code runs here.
#![tactic(auto)]

mod laws;

pub use laws::{
    cells_pass_through, stretches_have_lanes, stretches_keep_titles, stretches_make_no_calls,
    stretches_stay_alike, sub_clocks_give_cells,
};
