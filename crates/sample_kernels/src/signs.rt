// Sizes with the sign of another number.
ghost use Rattle.std.specs.Prelude.{◌≡◌, ◌≤◌};
ghost use Rattle.sample_kernels.specs.Reciprocals.{signed_as};

/// The number of this size that has the sign of `number`: kernels divide sizes alone, and so give the quotient its sign
/// back.
pub fn signed_as(number: i64, size: u64) -> i32
    requires { size ≤ 32768 }
    ensures { result ≡ signed_as number size }
{
    if number < 0 {
        -(size as i32)
    } else {
        size as i32
    }
}
