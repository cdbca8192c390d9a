// Decimals of a script, exact to a millionth.
ghost use Rattle.std.specs.Prelude.{◌≡◌, ℕ, ◌-◌, ◌&&◌, ◌↔◌, pos, negsuc, ◌≤ℤ◌, ◌<ℤ◌, option_map, ◌≤◌, ◌^◌, length};
ghost use Rattle.std.specs.Prelude.{nat_le, if◌then◌else◌, Some, None, IfSome, IsNone, IsSomeAnd, position, ◌==◌, List};
ghost use Rattle.std.specs.Prelude.{◌++◌, ◌∷◌};
ghost use Rattle.std.specs.Str.Parse.{AllDigits, IsNumeral};
ghost use Rattle.fixed_text.specs.Texts.{millionths, samples_in, IsDecimalText};

use crate::digits::{are_digits, value_up_to};

/// A decimal of a script, exact to a millionth: `0.04` is 40000. `docs/language.md`, "Numbers", has the rule.
#[derive(Clone, Copy, Debug, PartialEq, Eq)]
pub struct Decimal {
    /// Millionths, from -10^15 to 10^15, that is 10^9 units either way.
    pub millionths: i64,
    ghost low: { negsuc 999999999999999 ≤ℤ millionths },
    ghost high: { millionths ≤ℤ pos 1000000000000000 },
}

impl Decimal {
    /// The decimal that the digits before and behind a point write.
    /// `None` exactly where more than six stand behind the point, or where it passes 10^9 units.
    pub fn from_digits(whole: &[u8], fraction: &[u8]) -> Option<Decimal>
        requires whole { AllDigits 10 whole.now }
        requires fraction { AllDigits 10 fraction.now }
        ensures { option_map (λ d. d.millionths) result
            ≡ (if nat_le (length fraction.now) 6 && nat_le (millionths whole.now fraction.now) 1000000000000000
            then Some (pos (millionths whole.now fraction.now)) else None) }
    {
        let places = scale(fraction.len())?;
        let units = value_up_to(whole, 1_000_000_000)?;
        let below = value_up_to(fraction, 999_999)?;
        let value = units * 1_000_000 + below * places;
        if value > 1_000_000_000_000_000 {
            return None;
        }
        Some(Decimal {
            millionths: value as i64,
        })
    }

    /// How many samples a time of this many seconds lasts at `rate` samples a second, rounded down. `None` exactly
    /// for a time below zero. It takes no memory.
    pub fn samples(self, rate: u32) -> Option<u64>
        ensures none { IsNone result ↔ (self.millionths <ℤ pos 0) }
        ensures count { IfSome result (λ n. n ≡ samples_in self.millionths rate) }
    {
        let millionths = u64::try_from(self.millionths).ok()?;
        let samples = u128::from(millionths) * u128::from(rate) / 1_000_000;
        Some(samples as u64)
    }
}

/// The decimal that a text writes: digits, a point, and at most six digits.
/// `None` exactly where the text has another form, or where it passes 10^9 units. It takes no memory.
pub fn read_decimal(text: &[u8]) -> Option<Decimal>
    ensures found { IfSome result (λ d. (n : ℕ) × (d.millionths ≡ pos n) × IsDecimalText text.now n) }
    ensures only { (n : ℕ) → IsDecimalText text.now n → option_map (λ d. d.millionths) result ≡ Some (pos n) }
{
    let (whole, fraction) = parts(text)?;
    Decimal::from_digits(whole, fraction)
}

// What one unit of the last of so many decimal places is worth, in millionths; `None` for more than six places.
fn scale(places: usize) -> Option<u64>
    ensures { result ≡ (if nat_le places 6 then Some (10 ^ (6 - places)) else None) }
{
    match places {
        0 => Some(1_000_000),
        1 => Some(100_000),
        2 => Some(10_000),
        3 => Some(1000),
        4 => Some(100),
        5 => Some(10),
        6 => Some(1),
        _ => None,
    }
}

// Where the first point of a text stands, as an index of its bytes from 0; `None` without one.
fn first_point(text: &[u8]) -> Option<usize>
    ensures { result ≡ position (λ b. b == 46) text.now }
{
    text.iter().position(|byte| *byte == b'.')
}

// The digits before and behind the point of a decimal text; `None` where it has no point, no digit before it, or
// another byte.
fn parts(text: &[u8]) -> Option<(&[u8], &[u8])>
    ensures found { IfSome result (λ p. IsNumeral 10 p.0.now × AllDigits 10 p.1.now
        × (text.now ≡ p.0.now ++ 46 ∷ p.1.now)) }
    ensures only { (whole fraction : List ℕ) → text.now ≡ whole ++ 46 ∷ fraction → IsNumeral 10 whole
        → AllDigits 10 fraction → IsSomeAnd result (λ p. (p.0.now ≡ whole) × (p.1.now ≡ fraction)) }
{
    let point = first_point(text)?;
    let whole = &text[..point];
    let fraction = &text[point + 1..];
    if whole.is_empty() {
        return None;
    }
    if !are_digits(whole) {
        return None;
    }
    if !are_digits(fraction) {
        return None;
    }
    Some((whole, fraction))
}
