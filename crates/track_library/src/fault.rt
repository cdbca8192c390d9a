// Why the audio files of a plan are not loaded.
ghost use Rattle.std.specs.Prelude.{◌≡◌, IfOk};
ghost use Rattle.track_library.specs.Walk.{told_fault};
ghost use Rattle.track_library.specs.declared.fault.LoadFault.TheVariants as faults;

use liq_base::{Memory, Text};
use std::alloc::{AllocError, AllocFailed, Global};
use thiserror::Error;
use wav_io::WavFault;

/// Why the audio files of a plan are not loaded. Most faults carry the name of a file. No fault has the number 3 any
/// more: a file of another rate than the script's is changed to it.
#[derive(Debug, Drop, Error)]
pub enum LoadFault {
    /// Fault 1: the file is not there.
    #[error("missing file {}", .0.as_str())]
    Missing(Text),

    /// Fault 2: the file is no WAV file that can be read.
    #[error("bad audio {}: {}", .0.as_str(), .1)]
    BadAudio(Text, WavFault),

    /// Fault 4: the file counts for more bytes than one may, or the list has more.
    #[error("too large {}", .0.as_str())]
    FileTooLarge(Text),

    /// Fault 5: the file does not fit beside the others.
    #[error("too many bytes in all audio files")]
    AllTooLarge,

    /// The file could not be read.
    #[error("failed to read {}", .0.as_str())]
    ReadFault(Text),

    /// Memory was refused.
    #[error("out of memory")]
    Memory,
}

/// Why one audio file cannot be used.
#[derive(Clone, Copy, Debug)]
pub enum Unusable {
    /// It is not there.
    NotThere,

    /// It counts for more bytes than one audio file may.
    TooLong,

    /// It is no WAV file that can be read.
    NotWav(WavFault),
}

impl From<Memory> for LoadFault {
    ghost from_gives = { λ _ e. e ≡ faults.Memory };

    // Refused memory as the fault of a load, so that `?` hands it on.
    fn from(_refused: Memory) -> LoadFault {
        LoadFault::Memory
    }
}

/// The fault of a plan that needs the file of this name, made from why the file cannot be used.
pub fn fault_of(alloc: Global, name: &str, fault: Unusable) -> Result<LoadFault, Memory>
    ensures { IfOk result (λ told. told ≡ told_fault name.now fault) }
{
    let name = Text::from_str(alloc, name)?;
    Ok(match fault {
        Unusable::NotThere => LoadFault::Missing(name),
        Unusable::TooLong => LoadFault::FileTooLarge(name),
        Unusable::NotWav(fault) => LoadFault::BadAudio(name, fault),
    })
}

impl From<AllocError> for LoadFault {
    ghost from_gives = { λ _ e. e ≡ faults.Memory };

    // Refused memory as the fault of a load, so that `?` hands it on.
    fn from(_refused: AllocError) -> LoadFault {
        LoadFault::Memory
    }
}

impl<T: Drop> From<AllocFailed<T>> for LoadFault {
    ghost from_gives = { λ _ e. e ≡ faults.Memory };

    // Refused memory as the fault of a load, so that `?` hands it on.
    fn from(_refused: AllocFailed<T>) -> LoadFault {
        LoadFault::Memory
    }
}
