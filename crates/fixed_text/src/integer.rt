// The decimal texts of whole numbers.
ghost use Rattle.std.specs.Prelude.{◌≡◌, ℕ, ◌<◌, ◌^◌, ◌++◌, decimal, Some, IfSome, OnOk, OnErr};
ghost use Rattle.std.specs.Fmt.{signed_decimal};
ghost use Rattle.fixed_text.specs.Texts.{is_plain};

use crate::digits::{are_digits, value_up_to};
use itoa::Buffer;
use liq_base::Memory;

/// The number whose decimal text this is: digits without a sign and without a leading zero (`docs/language.md`,
/// "Numbers"). `None` exactly where no number below 2^64 has this text. It takes no memory.
pub fn read_u64(text: &[u8]) -> Option<u64>
    ensures found { IfSome result (λ n. text.now ≡ decimal n) }
    ensures only { (n : ℕ) → n < 2 ^ 64 → text.now ≡ decimal n → result ≡ Some n }
{
    if !is_plain(text) {
        return None;
    }
    value_up_to(text, u64::MAX)
}

/// Appends the decimal text of a number, which `read_u64` reads back. Where memory is refused, `into` is as it was.
pub fn write_u64(into: &mut Vec<u8>, value: u64) -> Result<(), Memory>
    ensures ok { OnOk result (into.new.items ≡ into.old.items ++ decimal value) }
    ensures err { OnErr result (into.new.items ≡ into.old.items) }
{
    let mut buffer = Buffer::new();
    into.extend_from_slice(buffer.format(value).as_bytes())?;
    Ok(())
}

/// Appends the decimal text of a number, with `-` before it where it is below zero. Where memory is refused, `into` is
/// as it was.
pub fn write_i64(into: &mut Vec<u8>, value: i64) -> Result<(), Memory>
    ensures ok { OnOk result (into.new.items ≡ into.old.items ++ signed_decimal value) }
    ensures err { OnErr result (into.new.items ≡ into.old.items) }
{
    let mut buffer = Buffer::new();
    into.extend_from_slice(buffer.format(value).as_bytes())?;
    Ok(())
}

// Whether a text is a whole number as it is printed: digits, at least one, without a leading zero.
fn is_plain(text: &[u8]) -> bool
    ensures { result ≡ is_plain text.now }
{
    match text {
        [] => false,
        [only] => only.is_ascii_digit(),
        [first, ..] => *first != b'0' && are_digits(text),
    }
}
