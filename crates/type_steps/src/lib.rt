//! What inference says of one expression and of each statement, the steps that it takes, and how the typings of a
//! script go on, statement by statement, as the solutions of a substitution.
#![tactic(auto)]

mod arguments;
pub mod laws;
mod steps;

pub use arguments::{Argument, fit};
pub use steps::{
    is_number, is_number_of_many, is_truth, is_truth_of_many, is_type, new_list, new_tuple,
    new_type, new_var, same,
};
