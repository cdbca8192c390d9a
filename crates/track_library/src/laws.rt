// Laws of loading, for whatever rests on it. Each is a contract of a function that does nothing.
ghost use Rattle.std.specs.Prelude.{◌≡◌, ◌≤◌, ℕ, List, length, Ok};
ghost use Rattle.wav_io.specs.Reading.{Wav, read_of};
ghost use Rattle.track_library.specs.Walk.{counted_bytes, samples_at, sound_of};

/// A law of loading: a file at the rate of the script is loaded as it is, and counts for its own bytes.
pub fn own_rate_changes_nothing()
    ensures sound { (bytes : List ℕ) (wav : Wav) → length bytes ≤ 268435456 → read_of bytes ≡ Ok wav
        → sound_of wav.rate wav ≡ record { kind = wav.kind; samples = samples_at wav.wide wav.body } }
    ensures bytes { (bytes : List ℕ) (wav : Wav) → length bytes ≤ 268435456 → read_of bytes ≡ Ok wav
        → counted_bytes (length bytes) (sound_of wav.rate wav) ≡ length bytes }
{}
