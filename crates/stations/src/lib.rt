//! Stations: what an accepted script renders, the bytes of its outputs, its report, and why a plan is refused. The
//! definitions stand in `specs/`, and laws of them in `laws`; the program over them stands in `station_check`,
//! `station_render`, `station_jobs` and `liq_cli`.
#![tactic(auto)]

mod fault;
pub mod laws;
mod ready;

pub use fault::StationFault;
pub use ready::Ready;
