// Whether all numbers of a slice are 0. The first one is looked at by itself, so that a lane that sounds is known by
// it; then the bits of all are taken together, in a loop without a branch.
ghost use Rattle.std.specs.Prelude.{◌≡◌, true, pos, length, replicate};

/// Whether all samples are 0, so that work on them can be left out. Of false the contract promises nothing.
pub fn are_silent(samples: &[i16]) -> bool
    ensures { result ≡ true → samples.now ≡ replicate (length samples.now) (pos 0) }
{
    if let Some(sample) = samples.first()
        && *sample != 0
    {
        return false;
    }
    let mut found = 0;
    for sample in samples {
        found |= *sample;
    }
    found == 0
}

/// Whether all sums are 0, so that work on them can be left out. Of false the contract promises nothing.
pub fn are_zeros(sums: &[i32]) -> bool
    ensures { result ≡ true → sums.now ≡ replicate (length sums.now) (pos 0) }
{
    if let Some(sum) = sums.first()
        && *sum != 0
    {
        return false;
    }
    let mut found = 0;
    for sum in sums {
        found |= *sum;
    }
    found == 0
}
