// Vectors of eight numbers of a slice.
ghost use Rattle.std.specs.Prelude.{◌≡◌, ◌≤◌, ◌+◌, length, FitsSigned};
ghost use Rattle.std.specs.Int.{w16, w32};
ghost use Rattle.std.specs.Simd.Lanes.{chunk, Each1};

use std::simd::prelude::*;

/// The eight samples from index `at` on, as a vector. Each is read by itself too, since a proof learns so that it is a
/// sample; of these reads nothing is built.
pub fn load_samples(samples: &[i16], at: usize) -> i16x8
    requires { at + 8 ≤ length samples.now }
    ensures lanes { result ≡ chunk at 8 samples.now }
    ensures fit { Each1 (FitsSigned w16) (chunk at 8 samples.now) }
{
    let _seen = [
        samples[at],
        samples[at + 1],
        samples[at + 2],
        samples[at + 3],
        samples[at + 4],
        samples[at + 5],
        samples[at + 6],
        samples[at + 7],
    ];
    i16x8::from_slice(&samples[at..])
}

/// The eight sums from index `at` on, as a vector. Each is read by itself too, since a proof learns so that it fits 32
/// bits; of these reads nothing is built.
pub fn load_sums(sums: &[i32], at: usize) -> i32x8
    requires { at + 8 ≤ length sums.now }
    ensures lanes { result ≡ chunk at 8 sums.now }
    ensures fit { Each1 (FitsSigned w32) (chunk at 8 sums.now) }
{
    let _seen = [
        sums[at],
        sums[at + 1],
        sums[at + 2],
        sums[at + 3],
        sums[at + 4],
        sums[at + 5],
        sums[at + 6],
        sums[at + 7],
    ];
    i32x8::from_slice(&sums[at..])
}
