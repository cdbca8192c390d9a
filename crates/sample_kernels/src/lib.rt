//! Arithmetic on samples, eight at a time by lanes and the rest one by one. `docs/streams.md` has the rules.
#![tactic(auto)]

mod fading;
mod gain;
mod loading;
mod mixing;
mod signs;
mod silence;
mod sums;

pub use fading::{fade_eight, inverse_of};
pub use gain::{halves, scale};
pub use loading::load_samples;
pub use mixing::{mix, mixed_sample};
pub use silence::are_silent;
pub use sums::{add_into, clamp_all, divide};
