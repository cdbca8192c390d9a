// Why a text is not read as a trace.
ghost use Rattle.std.specs.Prelude.{◌≡◌};
ghost use Rattle.trace_log.specs.declared.fault.TraceFault.TheVariants as faults;

use liq_base::Memory;
use thiserror::Error;

/// Why a text is not read as a trace. The faults are numbered as they stand.
#[derive(Clone, Copy, Debug, Error, PartialEq, Eq)]
pub enum TraceFault {
    /// Fault 1: this line, counted from 0, is the first that is outside the form of a trace.
    #[error("not a trace: line {0}")]
    NotTrace(u64),

    /// Memory was refused.
    #[error("out of memory")]
    Memory,
}

impl From<Memory> for TraceFault {
    ghost from_gives = { λ _ e. e ≡ faults.Memory };

    // Refused memory, as a fault of reading a trace.
    fn from(_refused: Memory) -> TraceFault {
        TraceFault::Memory
    }
}
