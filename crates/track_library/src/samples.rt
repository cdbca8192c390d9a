// The samples of an audio file.
ghost use Rattle.frame_core.specs.Bytes.{samples_from};
ghost use Rattle.sample_bytes.specs.Wide.{wide_samples_in};
ghost use Rattle.std.specs.Prelude.{◌≡◌, IfOk};

use liq_base::Memory;
use sample_bytes::{decode, decode_wide};
use std::alloc::Global;

/// The samples of whole blocks of 16 bits, in the order in which they stand: signed, the lower byte first. An odd byte
/// at the end is left out. They are the only copy that it makes.
pub fn read_samples(alloc: Global, blocks: &[u8]) -> Result<Vec<i16>, Memory>
    ensures samples { IfOk result (λ samples. samples.items ≡ samples_from blocks.now) }
{
    let count = blocks.len() / 2;
    let mut samples = vec![in alloc; 0i16; count]?;
    let (whole, _) = blocks.split_at(2 * count);
    decode(whole, &mut samples);
    Ok(samples)
}

/// The samples of whole blocks of 24 bits, of which the lowest byte is dropped. One or two bytes at the end are left
/// out. They are the only copy that it makes.
pub fn read_wide(alloc: Global, blocks: &[u8]) -> Result<Vec<i16>, Memory>
    ensures samples { IfOk result (λ samples. samples.items ≡ wide_samples_in blocks.now) }
{
    let count = blocks.len() / 3;
    let mut samples = vec![in alloc; 0i16; count]?;
    let (whole, _) = blocks.split_at(3 * count);
    decode_wide(whole, &mut samples);
    Ok(samples)
}
