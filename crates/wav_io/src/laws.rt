// Laws of reading, for whatever rests on it. Each is a contract of a function that does nothing.
ghost use Rattle.liq_base.specs.declared.memory.Kind.{Kind};
ghost use Rattle.std.specs.Prelude.{◌≡◌, ◌<◌, ◌≤◌, ◌*◌, ◌%◌, ◌++◌, ℕ, Bool, List, length, Some, Ok};
ghost use Rattle.wav_io.specs.Chunks.{AreChunks, chunks_of};
ghost use Rattle.wav_io.specs.Header.{block_align, header_at};
ghost use Rattle.wav_io.specs.Reading.{read_of};

use liq_base::limits::MAX_RATE;

/// The chunks of a file are all those that stand in it, one after the other.
pub fn chunks_are_all()
    ensures { (bytes : List ℕ) → AreChunks bytes 12 (chunks_of bytes) }
{}

/// A header of ours of either width, for a rate above 0 and at least one sample, its data and, if these are odd, one
/// byte more, are read as what they were written for.
pub fn own_files_are_read()
    ensures { (wide : Bool) (kind : Kind) (rate samples : ℕ) (header data_bytes pad : List ℕ) → 0 < rate
        → rate ≤ MAX_RATE → 0 < samples
        → header_at wide kind rate samples ≡ Some header → length data_bytes ≡ samples * block_align wide kind
        → length pad ≡ length data_bytes % 2
        → read_of (header ++ (data_bytes ++ pad)) ≡ Ok (record {
          kind = kind;
          rate = rate;
          wide = wide;
          body = data_bytes;
        }) }
{}
