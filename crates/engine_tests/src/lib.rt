//! Tests of the public calls of operators, of the engine and of its buffers: each once with ample memory against its
//! answer, worked rows.
#![tactic(auto)]

#[cfg(test)]
mod buffers_tests;
#[cfg(test)]
mod chunks;
#[cfg(test)]
mod ends_tests;
#[cfg(test)]
mod frames_tests;
#[cfg(test)]
mod node_states_tests;
#[cfg(test)]
mod op_cross_tests;
#[cfg(test)]
mod op_select_tests;
#[cfg(test)]
mod op_turn_tests;
#[cfg(test)]
mod seed_words_tests;
#[cfg(test)]
mod segments_tests;
#[cfg(test)]
mod small_engines;
#[cfg(test)]
mod small_plans;
