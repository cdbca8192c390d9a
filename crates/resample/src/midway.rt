// Numbers between two samples.
ghost use Rattle.std.specs.Prelude.{◌≡◌, ◌<◌, ◌≤◌, ◌*◌, ◌*ℤ◌, pos, int_div, unsigned_abs};
ghost use Rattle.resample.specs.Reciprocals.{inverse_of, signed_as};
ghost use Rattle.resample.specs.Resampled.{interpolated};

// Up to this many parts, a product takes the place of the division.
const MOST: u32 = 92_681;

/// The number that lies `part` of `whole` parts behind the sample `before` on the way to `behind`, rounded toward zero.
/// Where `whole` is small enough, a product with `inverse`, which is `inverse_of(whole)`, takes the place of a
/// division.
pub fn number_between(inverse: u64, before: i16, behind: i16, part: u32, whole: u32) -> i16
    requires within { part < whole }
    requires inverse { inverse ≡ inverse_of whole }
    ensures { result ≡ interpolated before behind part whole }
{
    if whole <= MOST {
        between_by(inverse, before, behind, part, whole)
    } else {
        between(before, behind, part, whole)
    }
}

/// The number that takes the place of a division by `whole`: 2^48 divided by `whole`, cut, and 1 more. The product with
/// it, divided by 2^48 and cut, is the quotient of each sum that is divided here.
pub fn inverse_of(whole: u32) -> u64
    requires { 0 < whole }
    ensures { result ≡ inverse_of whole }
{
    281_474_976_710_656 / u64::from(whole) + 1
}

// The number that lies `part` of `whole` parts behind the sample `before` on the way to `behind`, computed by a
// product with `inverse` in place of a division.
fn between_by(inverse: u64, before: i16, behind: i16, part: u32, whole: u32) -> i16
    requires within { part < whole }
    requires short { whole ≤ 92681 }
    requires inverse { inverse ≡ inverse_of whole }
    ensures { result ≡ interpolated before behind part whole }
{
    let sum = weighted(before, whole - part) + weighted(behind, part);
    quotient(sum, inverse, whole) as i16
}

// The number that lies `part` of `whole` parts behind the sample `before` on the way to `behind`, computed by a
// division.
fn between(before: i16, behind: i16, part: u32, whole: u32) -> i16
    requires { part < whole }
    ensures { result ≡ interpolated before behind part whole }
{
    let parts = i64::from(whole);
    let sum = weighted(before, whole - part) + weighted(behind, part);
    (sum / parts) as i16
}

// The sum of two weighted samples divided by `whole`, the number of parts, rounded toward zero; a product with
// `inverse` takes the place of the division.
fn quotient(sum: i64, inverse: u64, whole: u32) -> i32
    requires short { (0 < whole) × (whole ≤ 92681) }
    requires inverse { inverse ≡ inverse_of whole }
    requires small { unsigned_abs sum ≤ 32768 * whole }
    ensures { result ≡ int_div sum (pos whole) }
{
    let size = sum.unsigned_abs() * inverse / 281_474_976_710_656;
    signed_as(sum, size)
}

// The number with the size `size` and the sign of `number`, as a quotient takes the sign of what is divided.
fn signed_as(number: i64, size: u64) -> i32
    requires { size ≤ 32768 }
    ensures { result ≡ signed_as number size }
{
    if number < 0 {
        -(size as i32)
    } else {
        size as i32
    }
}

// A sample times its weight, a number of parts, in an interpolation between two samples.
fn weighted(sample: i16, times: u32) -> i64
    ensures { result ≡ sample *ℤ pos times }
{
    i64::from(sample) * i64::from(times)
}
