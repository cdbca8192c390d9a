//! The audio files that a plan plays.
#![tactic(auto)]

mod audio;
mod fault;
mod laws;
mod leaf_lists;
mod list;
mod plan_files;
mod read_lists;
mod reading;
mod recording;
mod rules;
mod samples;
mod undecoded;
mod walk;

pub use fault::{LoadFault, Unusable};
pub use laws::own_rate_changes_nothing;
pub use list::{cut_cr, cut_line, cut_mark, read_list};
pub use plan_files::PlanFiles;
pub use reading::{block_count, find_head, written_bytes};
pub use rules::{Rules, Sizes};
pub use samples::read_samples;
pub use walk::{find_files, load, try_files};
