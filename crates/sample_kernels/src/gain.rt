// Samples times a factor, and the mean of two sides.
ghost use Rattle.std.specs.Prelude.{◌≡◌, ◌≤◌, ◌+◌, ◌/◌, ◌%◌, ◌≤ℤ◌, pos, negsuc, length, map, unsigned_abs};
ghost use Rattle.std.specs.Simd.Lanes.{zip2, chunk, put_chunk};
ghost use Rattle.sample_kernels.specs.Samples.{clamped, scaled, half_of};
ghost use Rattle.sample_kernels.specs.Reciprocals.{per_sample, signed_as};

use crate::loading::load_samples;
use crate::signs::signed_as;
use crate::silence::are_silent;
use fixed_text::Decimal;
use std::simd::prelude::*;

// A factor of up to this many millionths either way is multiplied in vectors of 32 bits.
const MOST: u64 = 1_000_000_000;

/// Multiplies each sample by a factor, rounded toward zero and cut to the range of a sample. `into` is as long as
/// `from`.
pub fn scale(factor: Decimal, from: &[i16], into: &mut [i16])
    requires same { length into.old ≡ length from.now }
    ensures { into.new ≡ map (scaled factor.millionths) from.now }
{
    if are_silent(from) {
        into.fill(0);
        return;
    }
    // A larger factor gives the same samples: all but 0 are cut.
    let millionths = factor.millionths.clamp(-32_768_000_000, 32_768_000_000);
    if millionths.unsigned_abs() <= MOST {
        scale_by_eights(millionths, from, into);
    } else {
        scale_long(millionths, from, into);
    }
}

/// Writes into `into`, for each instant, half the sum of the left sample and the right one, rounded toward zero.
pub fn halves(left: &[i16], right: &[i16], into: &mut [i16])
    requires same { (length right.now ≡ length left.now) × (length into.old ≡ length left.now) }
    ensures { into.new ≡ zip2 half_of left.now right.now }
{
    let mut done = 0;
    while into.len() - done >= 8 {
        halve_eight(left, right, into, done);
        done += 8;
    }
    for at in done..into.len() {
        into[at] = half_of(left[at], right[at]);
    }
}

// Writes each sample of `from` times a factor, of at most 1000 either way and told in millionths, into `into`: eight at
// a time in numbers of 32 bits, and the rest one by one.
fn scale_by_eights(millionths: i64, from: &[i16], into: &mut [i16])
    requires same { length into.old ≡ length from.now }
    requires small { unsigned_abs millionths ≤ 1000000000 }
    ensures { into.new ≡ map (scaled millionths) from.now }
{
    let mut done = 0;
    while into.len() - done >= 8 {
        scale_eight(millionths, from, into, done);
        done += 8;
    }
    for at in done..into.len() {
        into[at] = scaled(from[at], millionths);
    }
}

// Writes each sample of `from` times a larger factor, at most 32768 either way and told in millionths, into `into`:
// eight at a time in numbers of 64 bits, and the rest one by one.
fn scale_long(millionths: i64, from: &[i16], into: &mut [i16])
    requires same { length into.old ≡ length from.now }
    requires low { negsuc 32767999999 ≤ℤ millionths }
    requires high { millionths ≤ℤ pos 32768000000 }
    ensures { into.new ≡ map (scaled millionths) from.now }
{
    let mut done = 0;
    while into.len() - done >= 8 {
        scale_long_eight(millionths, from, into, done);
        done += 8;
    }
    for at in done..into.len() {
        into[at] = scaled(from[at], millionths);
    }
}

// Multiplies the eight samples from index `at` on by a factor. A vector has no division that fits: 2^35 times the
// factor, and up to 1 more, stands in three digits, a product with each digit fits 32 bits, and what is above bit 35 of
// the sum of the three is the quotient, rounded down.
fn scale_eight(millionths: i64, from: &[i16], into: &mut [i16], at: usize)
    requires small { unsigned_abs millionths ≤ 1000000000 }
    requires within { (at + 8 ≤ length into.old) × (length into.old ≡ length from.now) }
    ensures { into.new ≡ put_chunk at into.old (map (scaled millionths) (chunk at 8 from.now)) }
{
    let (low, middle, high) = digits(millionths);
    let samples = load_samples(from, at).cast::<i32>();
    let lowest = (samples * i32x8::splat(low)) >> i32x8::splat(15);
    let lower = (samples * i32x8::splat(middle) + lowest) >> i32x8::splat(15);
    let floors = (samples * i32x8::splat(high) + lower) >> i32x8::splat(5);
    let quotients = floors - (floors >> i32x8::splat(31));
    let cut = quotients.simd_clamp(i32x8::splat(-32768), i32x8::splat(32767));
    cut.cast::<i16>().copy_to_slice(&mut into[at..]);
}

// Multiplies the eight samples from index `at` on by a factor of at most 32768 either way, told in millionths, in
// numbers of 64 bits, where a division fits. The products are rounded toward zero and cut to the range of a sample.
fn scale_long_eight(millionths: i64, from: &[i16], into: &mut [i16], at: usize)
    requires low { negsuc 32767999999 ≤ℤ millionths }
    requires high { millionths ≤ℤ pos 32768000000 }
    requires within { (at + 8 ≤ length into.old) × (length into.old ≡ length from.now) }
    ensures { into.new ≡ put_chunk at into.old (map (scaled millionths) (chunk at 8 from.now)) }
{
    let samples = load_samples(from, at).cast::<i64>();
    let products = samples * i64x8::splat(millionths);
    let quotients = (products / i64x8::splat(1_000_000)).cast::<i32>();
    let cut = quotients.simd_clamp(i32x8::splat(-32768), i32x8::splat(32767));
    cut.cast::<i16>().copy_to_slice(&mut into[at..]);
}

// The number by which a sample is multiplied in place of a division, 2^35 times the factor and up to 1 more, in three
// digits that fit 32 bits: two of 15 bits, the lower first, and what is above them. Each has the factor's sign.
fn digits(millionths: i64) -> (i32, i32, i32)
    requires small { unsigned_abs millionths ≤ 1000000000 }
    ensures low { result.0 ≡ signed_as millionths (per_sample (unsigned_abs millionths) % 32768) }
    ensures middle { result.1 ≡ signed_as millionths (per_sample (unsigned_abs millionths) / 32768 % 32768) }
    ensures high { result.2 ≡ signed_as millionths (per_sample (unsigned_abs millionths) / 1073741824) }
{
    let size = millionths.unsigned_abs() * 536_870_912 / 15_625 + 1;
    let low = signed_as(millionths, size % 32_768);
    let middle = signed_as(millionths, size / 32_768 % 32_768);
    let high = signed_as(millionths, size / 1_073_741_824);
    (low, middle, high)
}

// A sample times a factor in millionths, which is at most 32768 either way, rounded toward zero and cut to the range of
// a sample.
fn scaled(sample: i16, millionths: i64) -> i16
    requires low { negsuc 32767999999 ≤ℤ millionths }
    requires high { millionths ≤ℤ pos 32768000000 }
    ensures { result ≡ scaled millionths sample }
{
    let product = i64::from(sample) * millionths;
    (product / 1_000_000).clamp(-32768, 32767) as i16
}

// Writes half the sums of the left and right samples of eight instants, from index `at` on, into `into`, rounded toward
// zero.
fn halve_eight(left: &[i16], right: &[i16], into: &mut [i16], at: usize)
    requires within { (at + 8 ≤ length into.old) × (length right.now ≡ length left.now)
        × (length into.old ≡ length left.now) }
    ensures { into.new ≡ put_chunk at into.old (zip2 half_of (chunk at 8 left.now) (chunk at 8 right.now)) }
{
    let lefts = load_samples(left, at).cast::<i32>();
    let rights = load_samples(right, at).cast::<i32>();
    let halves = (lefts + rights) / i32x8::splat(2);
    halves.cast::<i16>().copy_to_slice(&mut into[at..]);
}

// Half the sum of a left and a right sample, rounded toward zero: the mono sample of a stereo one.
fn half_of(left: i16, right: i16) -> i16
    ensures { result ≡ half_of left right }
{
    ((i32::from(left) + i32::from(right)) / 2) as i16
}
