// Why tokens do not spell what is read.
ghost use Rattle.std.specs.Prelude.{◌≡◌};
ghost use Rattle.parse_base.specs.declared.fault.Fault.TheVariants as faults;

use std::alloc::{AllocError, AllocFailed};

/// Why there is no tree.
#[derive(Clone, Copy, Debug, PartialEq, Eq)]
pub enum Fault {
    /// Memory was refused.
    Memory,

    /// Reading stops at a token: the tokens from there on are so many.
    Syntax(usize),
}

impl From<liq_base::Memory> for Fault {
    ghost from_gives = { λ _ e. e ≡ faults.Memory };

    // Turns a refusal of memory into the fault of a parser.
    fn from(_refused: liq_base::Memory) -> Fault {
        Fault::Memory
    }
}

impl From<AllocError> for Fault {
    ghost from_gives = { λ _ e. e ≡ faults.Memory };

    // Turns a refusal of memory by the allocator into the fault of a parser.
    fn from(_refused: AllocError) -> Fault {
        Fault::Memory
    }
}

impl<T: Drop> From<AllocFailed<T>> for Fault {
    ghost from_gives = { λ _ e. e ≡ faults.Memory };

    // Turns a refusal of memory by the allocator into the fault of a parser; the value that found no room is dropped.
    fn from(_refused: AllocFailed<T>) -> Fault {
        Fault::Memory
    }
}
