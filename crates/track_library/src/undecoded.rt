// Audio files that are used, as they were read.
ghost use Rattle.std.specs.Prelude.{◌≡◌, IfOk};
ghost use Rattle.frame_core.specs.Sounds.{IsSound};
ghost use Rattle.wav_io.specs.Fronts.{IsHeadOf};
ghost use Rattle.wav_io.specs.Reading.{read_of};
ghost use Rattle.track_library.specs.Files.{IsUsed, sound_in};

use crate::recording::track_of;
use frame_core::Track;
use liq_base::Memory;
use std::alloc::Global;
use std::marker::Model;
use wav_io::Head;

/// An audio file that is used, as its sound at the rate of the script. Its bytes are kept as they were read, and no
/// memory is taken for its samples.
#[derive(Drop)]
pub struct Undecoded {
    bytes: Vec<u8>,
    head: Head,
    rate: u32,
}

impl Model for Undecoded {
    ghost use Rattle.frame_core.specs.Sounds.{Sound};
    ghost use Rattle.wav_io.specs.Fronts.{IsHeadOf};
    ghost use Rattle.wav_io.specs.Reading.{read_of};
    ghost use Rattle.track_library.specs.Files.{IsUsed, sound_in};

    ghost Value = { Sound };

    ghost view = { λ f. sound_in f.rate (read_of f.bytes.items) };

    ghost invariant = { λ f. IsUsed f.rate f.bytes.items × IsHeadOf f.bytes.items f.head };
}

impl Undecoded {
    /// The audio file with these bytes and this head, kept as it was read, to be played at this rate, from 8000 to
    /// 192000 samples a second.
    pub fn new(bytes: Vec<u8>, head: Head, rate: u32) -> Undecoded
        requires used { IsUsed rate bytes.items }
        requires head { IsHeadOf bytes.items head }
        ensures file { result ≡ sound_in rate (read_of bytes.items) }
        ensures sound { IsSound result }
    {
        Undecoded { bytes, head, rate }
    }

    /// The track of the file. Its samples stay in its bytes, but for those of 24 bits at the rate of the script.
    pub fn decode(self, alloc: Global) -> Result<Track, Memory>
        ensures track { IfOk result (λ track. track ≡ self) }
    {
        let Undecoded { bytes, head, rate } = self;
        track_of(alloc, bytes, head, rate)
    }
}
