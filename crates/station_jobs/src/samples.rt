// Sums of samples.
ghost use Rattle.std.specs.Prelude.{◌≡◌, ◌+ℤ◌, pos, drop, fold, unwrap_or, [], IfOk};
ghost use Rattle.liq_base.specs.Files.{file_at};
ghost use Rattle.station_jobs.specs.Summary.{sum_at};

use liq_base::{Memory, SureShelf};
use std::alloc::Global;
use track_library::read_samples;

/// How many bytes the header of an output has.
const HEADER_BYTES: usize = 44;

/// The sum of all samples of a WAV file of 16 bits, left and right, by its name in the shelf; 0 if there is no such
/// file.
pub fn sum_at(alloc: Global, shelf: &SureShelf, name: &str) -> Result<i128, Memory>
    ensures { IfOk result (λ sum. sum ≡ sum_at shelf.now name.now) }
{
    let samples = read_samples(alloc, behind_header(file_bytes(shelf, name)))?;
    Ok(sum_of(&samples))
}

// The bytes of the file of this name in the shelf; none where there is no file.
fn file_bytes<'a>(shelf: &'a SureShelf, name: &str) -> &'a [u8]
    ensures { result.now ≡ unwrap_or (file_at shelf.now name.now) [] }
{
    match shelf.get(name) {
        Some(bytes) => bytes,
        None => &[],
    }
}

// The bytes of a WAV file after its header of 44 bytes, which are its samples; none where it is shorter.
fn behind_header(bytes: &[u8]) -> &[u8]
    ensures { result.now ≡ drop 44 bytes.now }
{
    if bytes.len() < HEADER_BYTES {
        return &[];
    }
    let (_, body) = bytes.split_at(HEADER_BYTES);
    body
}

// Adds up samples of 16 bits. A slice is never so long that the sum does not fit.
fn sum_of(samples: &[i16]) -> i128
    ensures { result ≡ fold ◌+ℤ◌ (pos 0) samples.now }
{
    let mut sum = 0;
    for sample in samples {
        sum += i128::from(*sample);
    }
    sum
}
