//! The clocks of a plan by threads: queues, ends and tasks are made, run window by window, and taken apart. In a window
//! each clock makes its ticks on a thread of its own, and between two windows those of the buffers that join two clocks
//! are closed.
#![tactic(auto)]

mod borders;
mod counts;
mod joins;
mod logs;
mod queues;
mod run;
mod task;
mod tasks;
mod unbuffered;
mod unbuffered_window;
mod unbuffered_windows;
mod window;
mod windows;
mod wired;
mod wires;

pub use run::run_threads;
