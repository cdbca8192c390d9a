// A law of the files, for whatever rests on it: a contract of a function that does nothing.
ghost use Rattle.std.specs.Prelude.{◌≤◌, ℕ, slice_get, IsSomeAnd};
ghost use Rattle.workload_gen.specs.Files.{workload};
ghost use Rattle.workload_gen.specs.Read.{IsTrack};

use wav_io::own_files_are_read;

/// The first files of a workload are its audio files, in their order, and `read_wav` reads each as the samples that
/// were drawn for it: one channel, 8000 samples a second, of 16 bits.
pub fn made_files_are_read()
    ensures { (seed n i : ℕ) → i ≤ n → IsSomeAnd (slice_get (workload seed n) i) (IsTrack seed i) }
{
    own_files_are_read();
}
