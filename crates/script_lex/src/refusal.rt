// Why no token was read at a place.
ghost use Rattle.std.specs.Prelude.{◌≡◌};
ghost use Rattle.script_lex.specs.declared.refusal.Refusal.TheVariants as refusals;

use liq_base::Memory;
use std::alloc::{AllocError, AllocFailed};

/// Why no token was read; the number is how many bytes stand from the fault on.
#[derive(Clone, Copy)]
pub enum Refusal {
    BadByte(usize),
    UnclosedString(usize),
    NumberTooLarge(usize),
    Memory,
}

impl From<Memory> for Refusal {
    ghost from_gives = { λ _ e. e ≡ refusals.Memory };

    // Refused memory is the cause that no token is read.
    fn from(_refused: Memory) -> Refusal {
        Refusal::Memory
    }
}

impl From<AllocError> for Refusal {
    ghost from_gives = { λ _ e. e ≡ refusals.Memory };

    // An allocation that failed is want of memory, and the cause that no token is read.
    fn from(_refused: AllocError) -> Refusal {
        Refusal::Memory
    }
}

impl<T: Drop> From<AllocFailed<T>> for Refusal {
    ghost from_gives = { λ _ e. e ≡ refusals.Memory };

    // A value for which there was no memory is dropped: want of memory is the cause that no token is read.
    fn from(_refused: AllocFailed<T>) -> Refusal {
        Refusal::Memory
    }
}
