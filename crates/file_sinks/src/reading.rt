// The rest of a reader.
ghost use Rattle.std.specs.Prelude.{◌≡◌, ◌≢◌, ◌<◌, ◌≤◌, ◌+◌, ◌↔◌, ◌⊎◌, length, vec_len, Ok, Err};
ghost use Rattle.std.specs.Option.{ForSome};
ghost use Rattle.file_sinks.specs.Reading.{Extends, ReadsWhole, Reads};

use liq_base::{Fetched, ShelfFault};
use std::alloc::Global;
use std::io::{ErrorKind, Read};

/// Bytes that one read asks for: they are cleared for each file, and a short file is not to wait for that.
pub(crate) const CHUNK: usize = 16_384;

/// Reads all that a reader (an open file) has left and adds it to `into`; if it is more than `most` bytes, the answer
/// is `TooLarge`. A read that gives nothing is the end, and one that was interrupted is made again. Any other failure
/// is `Failed`, never taken for the end.
pub fn read_rest<R: Read>(
    file: &mut R,
    into: &mut Vec<u8>,
    most: u64,
) -> Result<Fetched, ShelfFault>
    ensures extends { Extends into.old.items into.new.items }
    ensures fits { result ≡ Ok Fetched.Found → vec_len into.new ≤ vec_len into.old + most }
    ensures whole { result ≡ Ok Fetched.Found → ReadsWhole (R.remaining file.old) into.old.items into.new.items }
    ensures too_large { result ≡ Ok Fetched.TooLarge → ForSome (R.remaining file.old) (λ bytes. most < length bytes) }
    ensures there { result ≢ Ok Fetched.Missing }
{
    let mut left = most;
    let mut chunk = [0_u8; CHUNK];
    for _ in 0..u64::MAX {
        let count = match file.read(&mut chunk) {
            Ok(0) => return Ok(Fetched::Found),
            Ok(count) => count,
            Err(error) if error.kind() == ErrorKind::Interrupted => continue,
            Err(_) => return Err(ShelfFault::Failed),
        };
        if count as u64 > left {
            return Ok(Fetched::TooLarge);
        }
        left -= count as u64;
        if into.extend_from_slice(&chunk[..count]).is_err() {
            return Err(ShelfFault::Memory);
        }
    }
    Err(ShelfFault::Failed)
}

/// Turns the error of a failed opening into the answer to a reading: the file is missing only where the system did not
/// find it. Any other error is a failure.
pub fn unopened(kind: ErrorKind) -> Result<Fetched, ShelfFault>
    ensures missing { result ≡ Ok Fetched.Missing ↔ kind ≡ ErrorKind.NotFound }
    ensures failed { (result ≡ Ok Fetched.Missing) ⊎ (result ≡ Err ShelfFault.Failed) }
{
    if kind == ErrorKind::NotFound {
        return Ok(Fetched::Missing);
    }
    Err(ShelfFault::Failed)
}
