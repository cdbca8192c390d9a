// How long a file is at another rate.
ghost use Rattle.std.specs.Prelude.{◌≡◌, ◌≤◌};
ghost use Rattle.resample.specs.Resampled.{AreRates, output_length};

/// How many samples each channel of a file has at the rate `to`, where it has `count`, from 1 to 134217728, at its own
/// rate `from`: at least 1. Rates are in samples a second, and `to` is from `MIN_RATE` to `MAX_RATE`.
pub fn length(count: u64, from: u32, to: u32) -> u64
    requires some { 1 ≤ count }
    requires most { count ≤ 134217728 }
    requires rates { AreRates from to }
    ensures length { result ≡ output_length count from to }
    ensures some { 1 ≤ result }
    ensures unchanged { from ≡ to → result ≡ count }
{
    let length = count * u64::from(to) / u64::from(from);
    length.max(1)
}
