// Want of memory, and how many channels a source has.
ghost use Rattle.std.specs.Prelude.{◌≡◌};

use std::alloc::{AllocError, AllocFailed};
use std::fmt;

/// Memory was refused. What a call that answers it leaves is said by its contract.
#[derive(Clone, Copy, Debug, PartialEq, Eq, Hash)]
pub struct Memory;

impl fmt::Display for Memory {
    // Writes in words that memory was refused.
    fn fmt<W: fmt::Write>(&self, f: &mut fmt::Formatter<W>) -> fmt::Result {
        write!(f, "out of memory")
    }
}

impl std::error::Error for Memory {}

impl From<AllocError> for Memory {
    // Makes an allocation that was refused want of memory.
    fn from(_refused: AllocError) -> Memory {
        Memory
    }
}

impl<T: Drop> From<AllocFailed<T>> for Memory {
    // Makes an allocation that was refused want of memory; the value that it hands back is dropped.
    fn from(_refused: AllocFailed<T>) -> Memory {
        Memory
    }
}

/// How many channels a source has: one, or a left and a right one.
#[derive(Clone, Copy, Debug, PartialEq, Eq, Hash)]
pub enum Kind {
    Mono,
    Stereo,
}

impl Kind {
    ghost use Rattle.liq_base.specs.Kinds.{channels_of};

    /// How many channels the sound of a source of this kind has: one for mono, two for stereo.
    pub fn channels(self) -> u16
        ensures count { result ≡ channels_of self }
    {
        match self {
            Kind::Mono => 1,
            Kind::Stereo => 2,
        }
    }
}
