// The numbers of what is wrong with a WAV file.
ghost use Rattle.std.specs.Prelude.{◌≡◌};
ghost use Rattle.station_facts.specs.Files.{wav_number};

use wav_io::WavFault;

/// The number that stands for a fault of a WAV file, the same as in the printed line E21.
pub fn wav_number(fault: WavFault) -> u64
    ensures { result ≡ wav_number fault }
{
    match fault {
        WavFault::NotRiff => 1,
        WavFault::NoFormat => 2,
        WavFault::BadFormat => 3,
        WavFault::NotPcm => 4,
        WavFault::NoData => 5,
        WavFault::Empty => 6,
    }
}
