//! Tests of whole calls over shelves in memory that fail, of the real adapters over writers and readers that fail, and
//! of the gate at which clocks keep step.
#![tactic(auto)]

#[cfg(test)]
mod calls;
#[cfg(test)]
mod devices_tests;
#[cfg(test)]
mod real_files_tests;
#[cfg(test)]
mod step_gate_tests;
#[cfg(test)]
mod threads_tests;
#[cfg(test)]
mod traces_tests;
#[cfg(test)]
mod wide_tests;
