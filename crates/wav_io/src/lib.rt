//! WAV files: the header that is written, and the files that are read.
#![tactic(auto)]

mod chunks;
mod fault;
mod fields;
mod format;
mod head;
mod laws;
mod read;

pub use fault::WavFault;
pub use fields::{header, header_wide};
pub use head::{Head, head_of, read_head};
pub use laws::{chunks_are_all, own_files_are_read};
pub use read::{Wav, read_wav};
