// Samples as bytes.
ghost use Rattle.std.specs.Prelude.{◌≡◌, ◌≤◌, ◌+◌, ◌*◌, length, FitsSigned};
ghost use Rattle.std.specs.Int.{w16};
ghost use Rattle.std.specs.List.{flat_map};
ghost use Rattle.std.specs.Simd.Lanes.{chunk, put_chunk, Each1};
ghost use Rattle.liq_base.specs.Kinds.{channels_of};
ghost use Rattle.liq_base.specs.declared.memory.Kind.TheVariants.{Stereo};
ghost use Rattle.frame_core.specs.Bytes.{sample_bytes, samples_from};
ghost use Rattle.sample_bytes.specs.Encoded.{encoded};

use liq_base::Kind;
use sample_kernels::load_samples;
use std::simd::prelude::*;

/// Writes the samples as signed numbers of two bytes, the lower first: in mono the left ones alone, in stereo the left
/// one of each instant before the right one.
pub fn encode(left: &[i16], right: &[i16], kind: Kind, into: &mut [u8])
    requires same { length right.now ≡ length left.now }
    requires room { length into.old ≡ 2 * channels_of kind * length left.now }
    ensures { into.new ≡ encoded kind left.now right.now }
{
    match kind {
        Kind::Mono => encode_mono(left, into),
        Kind::Stereo => encode_stereo(left, right, into),
    }
}

/// Reads samples that stand as signed numbers of two bytes, the lower first. `bytes` has two for each of `into`.
pub fn decode(bytes: &[u8], into: &mut [i16])
    requires room { length bytes.now ≡ 2 * length into.old }
    ensures { into.new ≡ samples_from bytes.now }
{
    let mut done = 0;
    while into.len() - done >= 8 {
        decode_eight(bytes, into, done);
        done += 8;
    }
    for at in done..into.len() {
        into[at] = i16::from_le_bytes([bytes[2 * at], bytes[2 * at + 1]]);
    }
}

// Writes the samples of one side as numbers of two bytes, one behind another: eight at a time, and the rest one by
// one.
fn encode_mono(samples: &[i16], into: &mut [u8])
    requires { length into.old ≡ 2 * length samples.now }
    ensures { into.new ≡ flat_map sample_bytes samples.now }
{
    let mut done = 0;
    while samples.len() - done >= 8 {
        let eight = load_samples(samples, done);
        lay_eight(eight, 2 * done, into);
        done += 8;
    }
    for at in done..samples.len() {
        lay_sample(samples[at], 2 * at, into);
    }
}

// Writes samples as numbers of two bytes, the left one of each instant before the right one: eight instants at a
// time, and the rest one by one.
fn encode_stereo(left: &[i16], right: &[i16], into: &mut [u8])
    requires same { length right.now ≡ length left.now }
    requires room { length into.old ≡ 4 * length left.now }
    ensures { into.new ≡ encoded Stereo left.now right.now }
{
    let mut done = 0;
    while left.len() - done >= 8 {
        encode_eight(left, right, done, into);
        done += 8;
    }
    for at in done..left.len() {
        lay_sample(left[at], 4 * at, into);
        lay_sample(right[at], 4 * at + 2, into);
    }
}

// Writes eight instants of a stereo sound, from instant `at` on, in samples of two bytes, left and right in turn.
fn encode_eight(left: &[i16], right: &[i16], at: usize, into: &mut [u8])
    requires within { (at + 8 ≤ length left.now) × (length right.now ≡ length left.now)
        × (length into.old ≡ 4 * length left.now) }
    ensures { into.new ≡ put_chunk (4 * at) into.old (encoded Stereo (chunk at 8 left.now) (chunk at 8 right.now)) }
{
    let lefts = load_samples(left, at);
    let rights = load_samples(right, at);
    let (front, back) = lefts.interleave(rights);
    lay_eight(front, 4 * at, into);
    lay_eight(back, 4 * at + 16, into);
}

// Writes eight samples of two bytes each at once, from byte `at` of `into` on.
fn lay_eight(samples: i16x8, at: usize, into: &mut [u8])
    requires room { at + 16 ≤ length into.old }
    requires long { length samples ≡ 8 }
    requires fit { Each1 (FitsSigned w16) samples }
    ensures { into.new ≡ put_chunk at into.old (flat_map sample_bytes samples) }
{
    samples.to_le_bytes().copy_to_slice(&mut into[at..]);
}

// Writes a sample as two bytes, the lower one first, from byte `at` of `into` on.
fn lay_sample(sample: i16, at: usize, into: &mut [u8])
    requires { at + 2 ≤ length into.old }
    ensures { into.new ≡ put_chunk at into.old (sample_bytes sample) }
{
    let [low, high] = sample.to_le_bytes();
    into[at] = low;
    into[at + 1] = high;
}

// Reads eight samples of two bytes each at once, into `into` from sample `at` on.
fn decode_eight(bytes: &[u8], into: &mut [i16], at: usize)
    requires within { (at + 8 ≤ length into.old) × (length bytes.now ≡ 2 * length into.old) }
    ensures { into.new ≡ put_chunk at into.old (samples_from (chunk (2 * at) 16 bytes.now)) }
{
    i16x8::from_le_bytes(u8x16::from_slice(&bytes[2 * at..])).copy_to_slice(&mut into[at..]);
}
