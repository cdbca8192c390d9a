// WAV files that others wrote.
ghost use Rattle.std.specs.Prelude.{◌≡◌, ◌≤◌, ◌<◌, ◌+◌, length, take, drop, Ok, Err, IfOk, MatchResult};
ghost use Rattle.wav_io.specs.Reading.{read_of, is_riff, place_of, whole_blocks, AreBlocks};

use crate::WavFault;
use crate::chunks::{chunk_body, find_data, find_format};
use crate::fields::block_len;
use crate::format::read_format;
use liq_base::Kind;

/// A WAV file, whose blocks lie in the bytes that were read.
#[derive(Clone, Copy, Debug)]
pub struct Wav<'a> {
    pub kind: Kind,

    /// Samples a second, above 0.
    pub rate: u32,

    /// Whether its samples have 24 bits; else they have 16.
    pub wide: bool,

    /// Whole blocks: of each channel one signed sample, the lowest byte first, left before right.
    pub body: &'a [u8],

    /// The place of the first block in the file.
    pub at: usize,
}

/// The kind, the rate in samples a second, the width of samples and the whole blocks of a WAV file, or the first fault
/// of the table in `docs/formats.md`. It takes no memory, and what comes after the first `data` chunk is not looked at.
pub fn read_wav(bytes: &[u8]) -> Result<Wav<'_>, WavFault>
    ensures read { MatchResult result (λ wav. read_of bytes.now ≡ Ok (record {
      kind = wav.kind;
      rate = wav.rate;
      wide = wav.wide;
      body = wav.body.now;
    }))
        (λ fault. read_of bytes.now ≡ Err fault) }
    ensures blocks { IfOk result (λ wav. AreBlocks wav.wide wav.kind wav.body.now) }
    ensures rate { IfOk result (λ wav. 0 < wav.rate) }
    ensures at { IfOk result (λ wav. wav.at ≡ place_of bytes.now) }
    ensures place { IfOk result (λ wav. (wav.body.now ≡ take (length wav.body.now) (drop wav.at bytes.now))
        × (wav.at + length wav.body.now ≤ length bytes.now)) }
    // The heads of the file and of the two chunks, and the format, stand beside the blocks.
    ensures heads { IfOk result (λ wav. 44 + length wav.body.now ≤ length bytes.now) }
{
    if !is_riff(bytes) {
        return Err(WavFault::NotRiff);
    }
    let chunk = find_format(bytes).ok_or(WavFault::NoFormat)?;
    let format = read_format(chunk_body(bytes, &chunk), chunk.size)?;
    let data = find_data(bytes).ok_or(WavFault::NoData)?;
    let body = cut_blocks(format.wide, format.kind, chunk_body(bytes, &data));
    if body.is_empty() {
        return Err(WavFault::Empty);
    }
    Ok(Wav {
        kind: format.kind,
        rate: format.rate,
        wide: format.wide,
        body,
        at: data.place + 8,
    })
}

/// Whether a file begins with `RIFF`, four bytes that are not looked at, and `WAVE`.
pub(crate) fn is_riff(bytes: &[u8]) -> bool
    ensures { result ≡ is_riff bytes.now }
{
    bytes.len() >= 12 && &bytes[..4] == b"RIFF".as_slice() && &bytes[8..12] == b"WAVE".as_slice()
}

/// The whole blocks at the front of the body of a `data` chunk; bytes of a cut block behind them are left out. A block
/// is one sample of each channel, of 24 bits where it is wide, and else of 16.
fn cut_blocks(wide: bool, kind: Kind, body: &[u8]) -> &[u8]
    ensures cut { result.now ≡ whole_blocks wide kind body.now }
    ensures blocks { 0 < length result.now → AreBlocks wide kind result.now }
{
    let block = usize::from(block_len(wide, kind));
    &body[..body.len() / block * block]
}
