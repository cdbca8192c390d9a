// What the first bytes of a WAV file tell of it.
ghost use Rattle.std.specs.Prelude.{◌≡◌, ◌≤◌, ◌<◌, ◌+◌, length, codes, true, Some, IfSome, IsSome};
ghost use Rattle.wav_io.specs.Chunks.{chunks_of, first_named};
ghost use Rattle.wav_io.specs.Fronts.{blocks_size, IsToldBy, IsToldOf};
ghost use Rattle.wav_io.specs.Reading.{is_riff};

use crate::WavFault;
use crate::chunks::{Chunk, chunk_body, find_data, find_format};
use crate::fields::block_len;
use crate::format::read_format;
use crate::read::{is_riff, read_wav};
use liq_base::Kind;

/// How many bytes are read for `RIFF`, the file's size and `WAVE`.
const RIFF_BYTES: usize = 12;

/// What the head of a WAV file tells.
#[derive(Clone, Copy, Debug)]
pub struct Head {
    pub kind: Kind,

    /// Samples a second, above 0.
    pub rate: u32,

    /// Whether its samples have 24 bits; else they have 16.
    pub wide: bool,

    /// The place of its first block in the file.
    pub at: u64,

    /// The bytes of its whole blocks.
    pub size: u64,
}

/// The head of a file of `size` bytes that begins with `front`, as `read_wav` would tell it of the whole file. The
/// inner error is the fault for which that file is no WAV file to be played. `None` where `front` does not tell either;
/// it does where the head of a `data` chunk is in it. It takes no memory.
pub fn read_head(front: &[u8], size: u64) -> Option<Result<Head, WavFault>>
    ensures told { IfSome result (λ told. IsToldBy front.now size told) }
    ensures tells { IsSome (first_named (codes "data") (chunks_of front.now)) → IsSome result }
{
    if front.len() as u64 >= size {
        return Some(head_of(front));
    }
    if front.len() < RIFF_BYTES {
        return None;
    }
    if !is_riff(front) {
        return Some(Err(WavFault::NotRiff));
    }
    let data = find_data(front)?;
    Some(head_before(front, size, &data))
}

/// The head of the file that these bytes are, whole, or its fault. It takes no memory.
pub fn head_of(bytes: &[u8]) -> Result<Head, WavFault>
    ensures { IsToldOf bytes.now result }
{
    let wav = read_wav(bytes)?;
    Ok(Head {
        kind: wav.kind,
        rate: wav.rate,
        wide: wav.wide,
        at: wav.at as u64,
        size: wav.body.len() as u64,
    })
}

/// The head of a file of `size` bytes, more than these or as many, which begins with these; its first data chunk is
/// `data`, whose head is among them.
fn head_before(front: &[u8], size: u64, data: &Chunk) -> Result<Head, WavFault>
    requires riff { is_riff front.now ≡ true }
    requires first { first_named (codes "data") (chunks_of front.now) ≡ Some data.now }
    requires there { data.now.place + 8 ≤ length front.now }
    requires longer { length front.now ≤ size }
    ensures { IsToldBy front.now size result }
{
    let Some(chunk) = find_format(front) else {
        return Err(WavFault::NoFormat);
    };
    let format = read_format(chunk_body(front, &chunk), chunk.size)?;
    let blocks = held_blocks(format.wide, format.kind, size, data);
    if blocks == 0 {
        return Err(WavFault::Empty);
    }
    Ok(Head {
        kind: format.kind,
        rate: format.rate,
        wide: format.wide,
        at: data.place as u64 + 8,
        size: blocks,
    })
}

/// How many bytes the whole blocks have that a data chunk holds in a file of `size` bytes: the end of the file may cut
/// the chunk. A block is one sample of each channel, of 24 bits where it is wide, and else of 16.
fn held_blocks(wide: bool, kind: Kind, size: u64, data: &Chunk) -> u64
    requires { data.now.place + 8 ≤ size }
    ensures { result ≡ blocks_size wide kind size data.now }
{
    let block = u64::from(block_len(wide, kind));
    let held = u64::from(data.size).min(size - (data.place as u64 + 8));
    held / block * block
}
