// Why a tick ended.
use thiserror::Error;

/// Why a tick ended early. It stops its engine.
#[derive(Clone, Copy, Debug, Error, PartialEq, Eq, Hash)]
pub enum TickFault {
    /// The sink of this number, among the sinks of the plan, failed.
    #[error("sink {sink} refused bytes")]
    Write { sink: u32 },

    /// Memory was refused.
    #[error("out of memory")]
    Memory,
}
