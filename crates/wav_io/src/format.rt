// The body of a `fmt ` chunk.
ghost use Rattle.std.specs.Prelude.{◌≡◌, ◌≤◌, length, IsTrue};
ghost use Rattle.wav_io.specs.Reading.{format_in, is_pcm, has_pcm_guid, is_width, kind_by_channels, checked_format};
ghost use Rattle.wav_io.specs.Reading.{is_format_body};

use crate::WavFault;
use crate::fields::block_len;
use byteorder::{ByteOrder, LittleEndian};
use liq_base::Kind;

/// How many bytes a body of the extensible form has.
const EXTENSIBLE_BYTES: usize = 40;

/// The tag of a format whose samples are whole numbers.
const PCM_TAG: u16 = 1;

/// The tag of the extensible form.
const EXTENSIBLE_TAG: u16 = 0xFFFE;

/// The bytes of an extensible body that say that its samples are whole numbers.
const PCM_GUID: [u8; 16] = [
    0x01, 0x00, 0x00, 0x00, 0x00, 0x00, 0x10, 0x00, 0x80, 0x00, 0x00, 0xaa, 0x00, 0x38, 0x9b, 0x71,
];

/// Where these 16 bytes begin in an extensible body.
const GUID_PLACE: usize = 24;

/// What a `fmt ` chunk says: how many channels there are, the samples a second, and whether these have 24 bits.
#[derive(Clone, Copy, Debug)]
pub struct Format {
    pub kind: Kind,
    pub rate: u32,
    pub wide: bool,
}

/// The format that the body of a `fmt ` chunk gives, whose size field states `size`. The fault is `NotPcm` for samples
/// of another form, and `BadFormat` for a body that is cut or contradicts itself.
pub fn read_format(body: &[u8], size: u32) -> Result<Format, WavFault>
    ensures { result ≡ format_in body.now size }
{
    if !is_sized(body, size) {
        return Err(WavFault::BadFormat);
    }
    let bits = LittleEndian::read_u16(&body[14..]);
    if !is_width(bits) || !is_whole_numbers(body) {
        return Err(WavFault::NotPcm);
    }
    let channels = LittleEndian::read_u16(&body[2..]);
    let rate = LittleEndian::read_u32(&body[4..]);
    let block = LittleEndian::read_u16(&body[12..]);
    checked(bits == 24, kind_from(channels), rate, block)
}

/// Whether a body of this size, as the chunk states it, is read and is not cut: it has 16, 18 or 40 bytes.
fn is_sized(body: &[u8], size: u32) -> bool
    ensures sized { result ≡ is_format_body body.now size }
    ensures long { IsTrue result → 16 ≤ length body.now }
{
    (size == 16 || size == 18 || size == 40) && body.len() == size as usize
}

/// Whether samples of so many bits are read.
fn is_width(bits: u16) -> bool
    ensures { result ≡ is_width bits }
{
    bits == 16 || bits == 24
}

/// Whether a body has the tag of whole numbers, or that of the extensible form with the GUID of whole numbers.
fn is_whole_numbers(body: &[u8]) -> bool
    requires { 16 ≤ length body.now }
    ensures { result ≡ is_pcm body.now }
{
    let tag = LittleEndian::read_u16(body);
    tag == PCM_TAG || (tag == EXTENSIBLE_TAG && has_guid(body))
}

/// Whether a body is of the extensible form with the GUID of whole numbers.
fn has_guid(body: &[u8]) -> bool
    ensures { result ≡ has_pcm_guid body.now }
{
    if body.len() != EXTENSIBLE_BYTES {
        return false;
    }
    let (_, guid) = body.split_at(GUID_PLACE);
    guid == PCM_GUID.as_slice()
}

/// The kind of so many channels; nothing where they are neither one nor two.
fn kind_from(channels: u16) -> Option<Kind>
    ensures { result ≡ kind_by_channels channels }
{
    match channels {
        1 => Some(Kind::Mono),
        2 => Some(Kind::Stereo),
        _ => None,
    }
}

/// The format of these fields if they fit each other: there is a kind, the rate is above 0, and a block of `block`
/// bytes is one sample for each channel, of 24 bits where it is wide, and else of 16. Otherwise the fault is
/// `BadFormat`.
fn checked(wide: bool, kind: Option<Kind>, rate: u32, block: u16) -> Result<Format, WavFault>
    ensures { result ≡ checked_format wide kind rate block }
{
    match kind {
        Some(kind) if rate > 0 && block == block_len(wide, kind) => Ok(Format { kind, rate, wide }),
        _ => Err(WavFault::BadFormat),
    }
}
