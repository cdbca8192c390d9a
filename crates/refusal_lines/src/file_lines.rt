// The lines of scripts whose files cannot be played.
ghost use Rattle.std.specs.Prelude.{◌≡◌, IfOk, string_bytes};
ghost use Rattle.refusal_lines.specs.Lines.{file_line, wav_number};

use crate::forms::{of_audio, of_name, plain};
use liq_base::Memory;
use std::alloc::Global;
use track_library::LoadFault;
use wav_io::WavFault;

/// The line that is printed for a plan whose audio files cannot be played.
/// A read that failed and want of memory are no refusals, so their line is empty.
pub fn file_line(alloc: Global, fault: &LoadFault) -> Result<String, Memory>
    ensures { IfOk result (λ line. string_bytes line ≡ file_line fault.now) }
{
    match fault {
        LoadFault::Missing(name) => of_name(alloc, "E20 missing file", name.as_str()),
        LoadFault::BadAudio(name, fault) => {
            of_audio(alloc, "E21 bad audio", name.as_str(), wav_number(*fault))
        }
        LoadFault::FileTooLarge(name) => of_name(alloc, "E23 file too large", name.as_str()),
        LoadFault::AllTooLarge => plain(alloc, "E24 files too large"),
        LoadFault::ReadFault(_) => Ok(String::new(alloc)),
        LoadFault::Memory => Ok(String::new(alloc)),
    }
}

// The number that a printed line gives for what is wrong with a WAV file.
fn wav_number(fault: WavFault) -> u32
    ensures { result ≡ wav_number fault }
{
    match fault {
        WavFault::NotRiff => 1,
        WavFault::NoFormat => 2,
        WavFault::BadFormat => 3,
        WavFault::NotPcm => 4,
        WavFault::NoData => 5,
        WavFault::Empty => 6,
    }
}
