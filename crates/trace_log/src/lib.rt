//! The text of a trace: what the ends of the buffers answered, window by window. `docs/formats.md`, "Traces", has the
//! form.
#![tactic(auto)]

mod checking;
mod cutting;
mod fault;
pub mod laws;
mod printing;
mod reading;
mod trace;

pub use fault::TraceFault;
pub use printing::print;
pub use reading::read;
pub use trace::Trace;
