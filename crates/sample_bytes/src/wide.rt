// Samples of three bytes.
ghost use Rattle.std.specs.Prelude.{◌≡◌, ◌≤◌, ◌+◌, ◌*◌, length, FitsSigned};
ghost use Rattle.std.specs.Int.{w16};
ghost use Rattle.std.specs.List.{flat_map};
ghost use Rattle.std.specs.Simd.Lanes.{chunk, put_chunk, Each1};
ghost use Rattle.liq_base.specs.declared.memory.Kind.TheVariants.{Stereo};
ghost use Rattle.liq_base.specs.Kinds.{channels_of};
ghost use Rattle.sample_bytes.specs.Wide.{wide_bytes, encoded_wide, wide_samples_in};

use liq_base::Kind;
use sample_kernels::load_samples;
use std::simd::prelude::*;

/// Writes the samples as signed numbers of three bytes, the lower ones first, of which the lowest is 0: in mono the
/// left ones alone, in stereo the left one of each instant before the right one.
pub fn encode_wide(left: &[i16], right: &[i16], kind: Kind, into: &mut [u8])
    requires same { length right.now ≡ length left.now }
    requires room { length into.old ≡ 3 * channels_of kind * length left.now }
    ensures { into.new ≡ encoded_wide kind left.now right.now }
{
    match kind {
        Kind::Mono => encode_wide_mono(left, into),
        Kind::Stereo => encode_wide_stereo(left, right, into),
    }
}

/// Reads samples that stand as signed numbers of three bytes, the lower ones first. The lowest byte is dropped. `bytes`
/// has three for each of `into`.
pub fn decode_wide(bytes: &[u8], into: &mut [i16])
    requires room { length bytes.now ≡ 3 * length into.old }
    ensures { into.new ≡ wide_samples_in bytes.now }
{
    let mut done = 0;
    while into.len() - done >= 8 {
        decode_wide_eight(bytes, into, done);
        done += 8;
    }
    for at in done..into.len() {
        into[at] = i16::from_le_bytes([bytes[3 * at + 1], bytes[3 * at + 2]]);
    }
}

// Writes the samples of one side as numbers of three bytes, one behind another: eight at a time, and the rest one by
// one.
fn encode_wide_mono(samples: &[i16], into: &mut [u8])
    requires { length into.old ≡ 3 * length samples.now }
    ensures { into.new ≡ flat_map wide_bytes samples.now }
{
    let mut done = 0;
    while samples.len() - done >= 8 {
        let eight = load_samples(samples, done);
        lay_wide_eight(eight, 3 * done, into);
        done += 8;
    }
    for at in done..samples.len() {
        lay_wide(samples[at], 3 * at, into);
    }
}

// Writes samples as numbers of three bytes, the left one of each instant before the right one: eight instants at a
// time, and the rest one by one.
fn encode_wide_stereo(left: &[i16], right: &[i16], into: &mut [u8])
    requires same { length right.now ≡ length left.now }
    requires room { length into.old ≡ 6 * length left.now }
    ensures { into.new ≡ encoded_wide Stereo left.now right.now }
{
    let mut done = 0;
    while left.len() - done >= 8 {
        encode_wide_eight(left, right, done, into);
        done += 8;
    }
    for at in done..left.len() {
        lay_wide(left[at], 6 * at, into);
        lay_wide(right[at], 6 * at + 3, into);
    }
}

// Writes eight instants of a stereo sound, from instant `at` on, in samples of three bytes, left and right in turn.
fn encode_wide_eight(left: &[i16], right: &[i16], at: usize, into: &mut [u8])
    requires within { (at + 8 ≤ length left.now) × (length right.now ≡ length left.now)
        × (length into.old ≡ 6 * length left.now) }
    ensures { into.new ≡ put_chunk (6 * at) into.old
        (encoded_wide Stereo (chunk at 8 left.now) (chunk at 8 right.now)) }
{
    let lefts = load_samples(left, at);
    let rights = load_samples(right, at);
    let (front, back) = lefts.interleave(rights);
    lay_wide_eight(front, 6 * at, into);
    lay_wide_eight(back, 6 * at + 24, into);
}

// Writes eight samples of three bytes each, from byte `at` of `into` on: the first 16 of these 24 bytes, then the
// other 8. A 16 in the pattern of a shuffle takes a byte that is 0, the lowest of a sample.
fn lay_wide_eight(samples: i16x8, at: usize, into: &mut [u8])
    requires room { at + 24 ≤ length into.old }
    requires long { length samples ≡ 8 }
    requires fit { Each1 (FitsSigned w16) samples }
    ensures { into.new ≡ put_chunk at into.old (flat_map wide_bytes samples) }
{
    let bytes = samples.to_le_bytes();
    let zeros = u8x16::splat(0);
    let front = bytes.shuffle(
        zeros,
        [16, 0, 1, 16, 2, 3, 16, 4, 5, 16, 6, 7, 16, 8, 9, 16],
    );
    let back = bytes.shuffle(zeros, [10, 11, 16, 12, 13, 16, 14, 15]);
    front.copy_to_slice(&mut into[at..]);
    back.copy_to_slice(&mut into[at + 16..]);
}

// Reads eight samples of three bytes into `into`, from sample `at` on, and drops the lowest byte of each. A vector has
// 16 bytes: of the 24, the first 16 and the last 16 are loaded, and the pattern picks two bytes of each sample.
fn decode_wide_eight(bytes: &[u8], into: &mut [i16], at: usize)
    requires within { (at + 8 ≤ length into.old) × (length bytes.now ≡ 3 * length into.old) }
    ensures { into.new ≡ put_chunk at into.old (wide_samples_in (chunk (3 * at) 24 bytes.now)) }
{
    let front = u8x16::from_slice(&bytes[3 * at..]);
    let back = u8x16::from_slice(&bytes[3 * at + 8..]);
    let picked = front.shuffle(
        back,
        [1, 2, 4, 5, 7, 8, 10, 11, 13, 14, 24, 25, 27, 28, 30, 31],
    );
    i16x8::from_le_bytes(picked).copy_to_slice(&mut into[at..]);
}

// Writes a sample as three bytes, the lower ones first, of which the lowest is 0, from byte `at` of `into` on.
fn lay_wide(sample: i16, at: usize, into: &mut [u8])
    requires { at + 3 ≤ length into.old }
    ensures { into.new ≡ put_chunk at into.old (wide_bytes sample) }
{
    let [low, high] = sample.to_le_bytes();
    into[at] = 0;
    into[at + 1] = low;
    into[at + 2] = high;
}
