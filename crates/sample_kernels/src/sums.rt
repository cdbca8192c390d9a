// Sums of samples, one for each instant.
ghost use Rattle.std.specs.Prelude.{◌≡◌, ◌<◌, ◌≤◌, ◌+◌, ◌+ℤ◌, ℕ, ℤ, length, map, All, FitsSigned};
ghost use Rattle.std.specs.Int.{w16};
ghost use Rattle.std.specs.Simd.Lanes.{zip2, chunk, put_chunk, Each1, Each2};
ghost use Rattle.sample_kernels.specs.Samples.{IsSumOf, clamped, mean_of};

use crate::loading::{load_samples, load_sums};
use crate::silence::are_zeros;
use std::simd::prelude::*;

/// Adds the samples of one more source to the sums of the same instants. A sum of up to 65535 samples has room for one
/// more.
pub fn add_into(sum: &mut [i32], part: &[i16])
    requires same { length part.now ≡ length sum.old }
    requires room { All (IsSumOf 65535) sum.old }
    ensures added { sum.new ≡ zip2 ◌+ℤ◌ sum.old part.now }
    ensures counted { (parts : ℕ) → All (IsSumOf parts) sum.old → All (IsSumOf (parts + 1)) sum.new }
{
    let mut done = 0;
    while sum.len() - done >= 8 {
        add_eight(sum, part, done);
        done += 8;
    }
    for at in done..sum.len() {
        sum[at] += i32::from(part[at]);
    }
}

/// Makes means of sums: divides each by the number of the samples in it, `by`, rounded toward zero.
pub fn divide(sum: &[i32], by: &[u16], into: &mut [i16])
    requires same { (length by.now ≡ length sum.now) × (length into.old ≡ length sum.now) }
    requires some { All (λ parts. 0 < parts) by.now }
    requires sums { Each2 IsSumOf by.now sum.now }
    ensures { into.new ≡ zip2 mean_of sum.now by.now }
{
    if are_zeros(sum) {
        into.fill(0);
        return;
    }
    let mut done = 0;
    while into.len() - done >= 8 {
        divide_eight(sum, by, into, done);
        done += 8;
    }
    for at in done..into.len() {
        into[at] = mean_of(sum[at], by[at]);
    }
}

/// Cuts each sum to the range of a sample, and writes them as samples into `into`.
pub fn clamp_all(sum: &[i32], into: &mut [i16])
    requires same { length into.old ≡ length sum.now }
    ensures { into.new ≡ map clamped sum.now }
{
    let mut done = 0;
    while into.len() - done >= 8 {
        clamp_eight(sum, into, done);
        done += 8;
    }
    for at in done..into.len() {
        into[at] = clamped(sum[at]);
    }
}

// Adds eight samples of one more source, from index `at` on, to the sums of the same instants.
fn add_eight(sum: &mut [i32], part: &[i16], at: usize)
    requires within { (at + 8 ≤ length sum.old) × (length part.now ≡ length sum.old) }
    requires room { Each1 (IsSumOf 65535) (chunk at 8 sum.old) }
    ensures added { sum.new ≡ put_chunk at sum.old (zip2 ◌+ℤ◌ (chunk at 8 sum.old) (chunk at 8 part.now)) }
    ensures fit { Each1 (FitsSigned w16) (chunk at 8 part.now) }
{
    let sums = load_sums(sum, at);
    let parts = load_samples(part, at);
    (sums + parts.cast::<i32>()).copy_to_slice(&mut sum[at..]);
}

// Divides eight sums, from index `at` on, each by the number of the samples in it, in `by`, rounded toward zero, and
// writes these means into `into` at the same places.
fn divide_eight(sum: &[i32], by: &[u16], into: &mut [i16], at: usize)
    requires within { (at + 8 ≤ length into.old) × (length by.now ≡ length sum.now)
        × (length into.old ≡ length sum.now) }
    requires some { Each1 (λ parts. 0 < parts) (chunk at 8 by.now) }
    requires sums { Each2 IsSumOf (chunk at 8 by.now) (chunk at 8 sum.now) }
    ensures { into.new ≡ put_chunk at into.old (zip2 mean_of (chunk at 8 sum.now) (chunk at 8 by.now)) }
{
    let sums = load_sums(sum, at);
    let parts = u16x8::from_slice(&by[at..]);
    (sums / parts.cast::<i32>())
        .cast::<i16>()
        .copy_to_slice(&mut into[at..]);
}

// Cuts eight sums, from index `at` on, to the range of a sample, and writes them as samples into `into` at the same
// places.
fn clamp_eight(sum: &[i32], into: &mut [i16], at: usize)
    requires within { (at + 8 ≤ length into.old) × (length into.old ≡ length sum.now) }
    ensures { into.new ≡ put_chunk at into.old (map clamped (chunk at 8 sum.now)) }
{
    let sums = load_sums(sum, at);
    let cut = sums.simd_clamp(i32x8::splat(-32768), i32x8::splat(32767));
    cut.cast::<i16>().copy_to_slice(&mut into[at..]);
}

// The mean of `parts` samples that have this sum, rounded toward zero.
fn mean_of(sum: i32, parts: u16) -> i16
    requires some { 0 < parts }
    requires sum { IsSumOf parts sum }
    ensures { result ≡ mean_of sum parts }
{
    (sum / i32::from(parts)) as i16
}

// A sum of samples, cut to the range of one.
fn clamped(sum: i32) -> i16
    ensures { result ≡ clamped sum }
{
    sum.clamp(-32768, 32767) as i16
}
