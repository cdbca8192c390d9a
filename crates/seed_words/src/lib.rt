//! The words of a seed, on which everything that is drawn by chance rests.
#![tactic(auto)]

mod words;

pub use words::SeedWords;
