//! Samples as the bytes of a file, and back, eight at a time by lanes and the rest one by one.
#![tactic(auto)]

mod bytes;
mod wide;

pub use bytes::{decode, encode};
pub use wide::{decode_wide, encode_wide};
