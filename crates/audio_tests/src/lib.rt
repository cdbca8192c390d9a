//! Tests of the loading of audio files, whose sizes no whole run can choose.
#![tactic(auto)]

#[cfg(test)]
mod loading_tests;
