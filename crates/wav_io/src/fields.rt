// The header of a WAV file with samples of 16 bits or 24.
ghost use Rattle.std.specs.Option.{SomeIff};
ghost use Rattle.std.specs.Prelude.{◌≡◌, ◌≤◌, ◌<◌, ◌+◌, ◌*◌, ◌^◌, ◌++◌, codes};
ghost use Rattle.liq_base.specs.Kinds.{channels_of};
ghost use Rattle.wav_io.specs.Header.{header_of, wide_header_of, block_align, block_size, wide_block, padded};
ghost use Rattle.wav_io.specs.Header.{four_bytes, two_bytes};

use byteorder::{ByteOrder, LittleEndian};
use liq_base::Kind;
use liq_base::limits::MAX_RATE;

/// The header before `samples` samples of each channel, of 16 bits, at `rate` samples a second, of at most 192000.
/// `None` exactly where the file's size no longer fits in its field. The fields stand in `docs/formats.md`.
pub fn header(kind: Kind, rate: u32, samples: u64) -> Option<[u8; 44]>
    requires { rate ≤ MAX_RATE }
    ensures header { result ≡ header_of kind rate samples }
{
    let size = data_len(kind, samples)?;
    let channels = kind.channels();
    let block = block_len(false, kind);
    Some(field_bytes(channels, rate, block, 16, 36 + size, size))
}

/// The header before `samples` samples of 24 bits of each channel, at `rate` samples a second, of at most 192000. Where
/// its data are odd, a byte stands behind them, which the file's size counts. `None` exactly where this size no longer
/// fits in its field.
pub fn header_wide(kind: Kind, rate: u32, samples: u64) -> Option<[u8; 44]>
    requires { rate ≤ MAX_RATE }
    ensures header { result ≡ wide_header_of kind rate samples }
{
    let size = wide_len(kind, samples)?;
    let whole = 36 + size + size % 2;
    let channels = kind.channels();
    let block = block_len(true, kind);
    Some(field_bytes(channels, rate, block, 24, whole, size))
}

/// How many bytes a block has, which is one sample of each channel: of 24 bits where it is wide, and else of 16.
pub(crate) fn block_len(wide: bool, kind: Kind) -> u16
    ensures { result ≡ block_align wide kind }
{
    if wide {
        3 * kind.channels()
    } else {
        2 * kind.channels()
    }
}

/// How many bytes so many samples of 16 bits of each channel have, if the file's size fits in its field.
fn data_len(kind: Kind, samples: u64) -> Option<u32>
    ensures { SomeIff result (36 + samples * block_size kind < 2 ^ 32) (samples * block_size kind) }
{
    let size = u128::from(samples) * u128::from(block_len(false, kind));
    let file_size = u32::try_from(36 + size).ok()?;
    Some(file_size - 36)
}

/// How many bytes so many samples of 24 bits of each channel have, if the file's size fits in its field.
fn wide_len(kind: Kind, samples: u64) -> Option<u32>
    ensures { SomeIff result (36 + padded (samples * wide_block kind) < 2 ^ 32) (samples * wide_block kind) }
{
    let size = u128::from(samples) * u128::from(block_len(true, kind));
    u32::try_from(36 + size + size % 2).ok()?;
    u32::try_from(size).ok()
}

/// The header of a file of this many channels, with samples of `bits` bits, `rate` a second, and blocks of `block`
/// bytes; `whole` bytes follow the field of the file's size, and `size` are samples.
fn field_bytes(channels: u16, rate: u32, block: u16, bits: u16, whole: u32, size: u32) -> [u8; 44]
    requires block { block ≤ 6 }
    requires rate { rate ≤ MAX_RATE }
    ensures { result ≡ codes "RIFF" ++ four_bytes whole ++ codes "WAVE"
        ++ codes "fmt " ++ four_bytes 16 ++ two_bytes 1 ++ two_bytes channels
        ++ four_bytes rate ++ four_bytes (rate * block) ++ two_bytes block ++ two_bytes bits
        ++ codes "data" ++ four_bytes size }
{
    let mut bytes = *b"RIFF    WAVEfmt                     data    ";
    LittleEndian::write_u32(&mut bytes[4..], whole);
    LittleEndian::write_u32(&mut bytes[16..], 16);
    LittleEndian::write_u16(&mut bytes[20..], 1);
    LittleEndian::write_u16(&mut bytes[22..], channels);
    LittleEndian::write_u32(&mut bytes[24..], rate);
    LittleEndian::write_u32(&mut bytes[28..], rate * u32::from(block));
    LittleEndian::write_u16(&mut bytes[32..], block);
    LittleEndian::write_u16(&mut bytes[34..], bits);
    LittleEndian::write_u32(&mut bytes[40..], size);
    bytes
}
