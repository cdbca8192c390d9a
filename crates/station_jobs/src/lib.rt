//! What words ask for: they are read, and each job of them is done, to its report or to why there is none. `liq_cli`
//! calls these and writes the one text of a call.
#![tactic(auto)]

mod clash;
mod form;
mod halt;
mod jobs;
mod laws;
mod making;
mod options;
mod prepare;
mod replaying;
mod samples;
mod size;
mod summary;
mod ticks;
mod traces;
mod window;
mod words;

pub use form::{Form, Rendering};
pub use halt::CallEnd;
pub use jobs::{alone_job, check_job, threads_job};
pub use making::make_job;
pub use replaying::replay_job;
pub use words::read_words;
