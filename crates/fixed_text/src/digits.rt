// Digits, and the number that they write.
ghost use Rattle.std.specs.Prelude.{◌≡◌, ◌≤◌, nat_le, if◌then◌else◌, Some, None, IfSome};
ghost use Rattle.std.specs.Str.Parse.{AllDigits, digits_value};
ghost use Rattle.std.specs.List.{list_all};
ghost use Rattle.std.specs.Char.{is_ascii_digit};

/// The number that decimal digits write. `None` exactly where it is larger than `most`. No digits write 0. It takes
/// no memory.
pub fn value_up_to(digits: &[u8], most: u64) -> Option<u64>
    requires { AllDigits 10 digits.now }
    ensures value { result ≡ (if nat_le (digits_value 10 digits.now) most then Some (digits_value 10 digits.now)
        else None) }
    ensures bounded { IfSome result (λ v. v ≤ most) }
{
    let mut value = 0;
    let mut rest = digits;
    while let [first, after @ ..] = rest {
        let digit = u64::from(*first - b'0');
        if value > most / 10 {
            return None;
        }
        if digit > most - value * 10 {
            return None;
        }
        value = value * 10 + digit;
        rest = after;
    }
    Some(value)
}

/// Whether each byte of a text is a digit, from `0` to `9`.
pub fn are_digits(text: &[u8]) -> bool
    ensures { result ≡ list_all is_ascii_digit text.now }
{
    text.iter().all(|b| b.is_ascii_digit())
}
