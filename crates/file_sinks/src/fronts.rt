// The first bytes of a reader.
ghost use Rattle.std.specs.Prelude.{◌≡◌, ◌≢◌, ◌<◌, ◌+◌, ℕ, List, length, vec_len, true, None, Ok};
ghost use Rattle.std.specs.Option.{ForSome};
ghost use Rattle.liq_base.specs.Files.{FrontFound};
ghost use Rattle.file_sinks.specs.Reading.{Extends, ReadsFront, ReadsWhole};

use crate::reading::{CHUNK, read_rest};
use liq_base::{Fetched, Looked, ShelfFault};
use std::alloc::Global;
use std::io::{ErrorKind, Read};

/// Looks at an open file of `size` bytes, more than `front`: adds its first `front` bytes to `into`, and answers its
/// size. If it has more than `most` bytes, that is answered and none is read. Where it turns out to be shorter than
/// `front`, it is `Failed`.
pub fn look_at_front<R: Read>(
    file: &mut R,
    into: &mut Vec<u8>,
    front: u64,
    size: u64,
    most: u64,
) -> Result<Looked, ShelfFault>
    requires { front < size }
    ensures extends { Extends into.old.items into.new.items }
    ensures found { (name : List ℕ) (told : ℕ) → result ≡ Ok (Looked.Found told)
        → FrontFound None name front most told into.old.items into.new.items }
    ensures first { (told : ℕ) → result ≡ Ok (Looked.Found told)
        → (told ≡ size) × ReadsFront front (R.remaining file.old) into.old.items into.new.items }
    ensures too_large { result ≡ Ok Looked.TooLarge → most < size }
    ensures there { result ≢ Ok Looked.Missing }
{
    if size > most {
        return Ok(Looked::TooLarge);
    }
    if read_front(file, into, front)? {
        Ok(Looked::Found(size))
    } else {
        Err(ShelfFault::Failed)
    }
}

/// Looks at an open file by reading it whole: adds all bytes that its reader has left to `into`, and answers how many
/// they are. If they are more than `most`, that is answered. `front`, how many first bytes were asked for, stands for
/// the contract alone.
pub fn look_at_whole<R: Read>(
    file: &mut R,
    into: &mut Vec<u8>,
    front: u64,
    most: u64,
) -> Result<Looked, ShelfFault>
    ensures extends { Extends into.old.items into.new.items }
    ensures found { (name : List ℕ) (told : ℕ) → result ≡ Ok (Looked.Found told)
        → FrontFound None name front most told into.old.items into.new.items }
    ensures whole { (told : ℕ) → result ≡ Ok (Looked.Found told)
        → (vec_len into.new ≡ vec_len into.old + told)
        × ReadsWhole (R.remaining file.old) into.old.items into.new.items }
    ensures too_large { result ≡ Ok Looked.TooLarge
        → ForSome (R.remaining file.old) (λ bytes. most < length bytes) }
    ensures there { result ≢ Ok Looked.Missing }
{
    let before = into.len();
    match read_rest(file, into, most)? {
        Fetched::Found => Ok(Looked::Found((into.len() - before) as u64)),
        Fetched::Missing => Ok(Looked::Missing),
        Fetched::TooLarge => Ok(Looked::TooLarge),
    }
}

/// Reads the next `front` bytes of a reader and adds them to `into`. False says that the reader ended before. A read
/// that was interrupted is made again, and any other failure is `Failed`.
fn read_front<R: Read>(file: &mut R, into: &mut Vec<u8>, front: u64) -> Result<bool, ShelfFault>
    ensures extends { Extends into.old.items into.new.items }
    ensures exact { result ≡ Ok true → vec_len into.new ≡ vec_len into.old + front }
    ensures first { result ≡ Ok true → ReadsFront front (R.remaining file.old) into.old.items into.new.items }
{
    let mut left = front;
    let mut chunk = [0_u8; CHUNK];
    for _ in 0..u64::MAX {
        if left == 0 {
            return Ok(true);
        }
        let ask = left.min(CHUNK as u64) as usize;
        let count = match file.read(&mut chunk[..ask]) {
            Ok(0) => return Ok(false),
            Ok(count) => count,
            Err(error) if error.kind() == ErrorKind::Interrupted => continue,
            Err(_) => return Err(ShelfFault::Failed),
        };
        left -= count as u64;
        if into.extend_from_slice(&chunk[..count]).is_err() {
            return Err(ShelfFault::Memory);
        }
    }
    Err(ShelfFault::Failed)
}
