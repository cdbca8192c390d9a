// Eight numbers between two samples each.
ghost use Rattle.std.specs.Prelude.{◌≡◌, ◌<◌, ◌≤◌, ◌+◌, length};
ghost use Rattle.std.specs.Simd.Lanes.{put_chunk, Each1};
ghost use Rattle.sample_kernels.specs.Mixing.{faded_each};
ghost use Rattle.sample_kernels.specs.Reciprocals.{inverse_of};

use crate::loading::load_samples;
use crate::mixing::quotients;
use std::simd::prelude::*;

/// 2^47 divided by `whole`, the number of samples of a mix, and up to 1 more. Kernels take a product with it, without
/// its lowest 47 bits, in place of a division by `whole`.
pub fn inverse_of(whole: u32) -> u64
    requires { 0 < whole }
    ensures { result ≡ inverse_of whole }
{
    140_737_488_355_328 / u64::from(whole) + 1
}

/// Writes eight numbers into `into` from index `at` on: each lies its own part of `whole` behind a sample of `from` on
/// the way to that of `to`, rounded toward zero. `inverse` is `inverse_of(whole)`.
pub fn fade_eight(
    from: &[i16],
    to: &[i16],
    parts: &[u16],
    whole: u32,
    inverse: u64,
    into: &mut [i16],
    at: usize,
)
    requires eight { (length from.now ≡ 8) × (length to.now ≡ 8) × (length parts.now ≡ 8) }
    requires room { at + 8 ≤ length into.old }
    requires within { Each1 (λ part. part < whole) parts.now }
    requires short { whole < 65536 }
    requires inverse { inverse ≡ inverse_of whole }
    ensures { into.new ≡ put_chunk at into.old (faded_each from.now to.now parts.now whole) }
{
    let froms = load_samples(from, 0).cast::<i32>();
    let tos = load_samples(to, 0).cast::<i32>();
    let rising = u16x8::from_slice(parts).cast::<i32>();
    let falling = i32x8::splat(whole as i32) - rising;
    let faded = quotients(froms * falling + tos * rising, inverse, whole);
    faded.cast::<i16>().copy_to_slice(&mut into[at..]);
}
