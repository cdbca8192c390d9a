//! What a clock's calls rest on, and what the buffers of a plan answer in a run: lawful records of clocks in windows,
//! and rounds on one thread. The definitions stand in `specs/`; no code runs here.
#![tactic(auto)]

pub mod laws;
