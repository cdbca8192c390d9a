// Whole numbers, numbers with a point, and times.
ghost use Rattle.std.specs.Prelude.{◌≡◌, ◌≤◌, length, Ok, IfOk, IfErr};
ghost use Rattle.std.specs.Str.Parse.{AllDigits};
ghost use Rattle.script_lex.specs.Spelling.{AnInt, ANumber};
ghost use Rattle.script_lex.specs.Reading.{number_at, number_from, after_digits};
ghost use Rattle.script_lex.specs.Gives.{Gives, left_of};

use crate::refusal::Refusal;
use crate::spans::{after_digits, front, is_unit};
use crate::time::time_at;
use crate::token::TokenKind;
use fixed_text::{Decimal, value_up_to};

/// The token of the number or time at the front, whose first digit was seen, and the bytes behind it. The error says
/// that it passes its bound.
#[tactic(auto, unfolding(crate::specs::Reading::number_at), using(crate::proofs::Fronts::digits_front))]
pub fn number_at(bytes: &[u8]) -> Result<(TokenKind, &[u8]), Refusal>
    ensures within { IfErr result (λ e. left_of e ≤ length bytes.now) }
    ensures gives { Gives (λ x. x.0) (λ x. x.1.now) (Ok (number_at bytes.now)) (length bytes.now) result }
{
    let rest = after_digits(bytes);
    let digits = front(bytes, rest);
    match rest {
        [b'.', behind @ ..] => {
            let after = after_digits(behind);
            pointed(digits, front(behind, after), after, bytes.len())
        }
        [first, ..] if is_unit(*first) => time_at(bytes),
        _ => whole(digits, rest, bytes.len()),
    }
}

// The token of the whole number with these digits, and the bytes `rest` behind it; a refusal if it is too large, told
// by `left`, the bytes from its first digit to the end of the script.
fn whole<'a>(digits: &[u8], rest: &'a [u8], left: usize) -> Result<(TokenKind, &'a [u8]), Refusal>
    requires { AllDigits 10 digits.now }
    ensures within { IfErr result (λ e. left_of e ≤ left) }
    ensures gives { Gives (λ x. x.0) (λ x. x.1.now) (Ok (AnInt digits.now, rest.now)) left result }
{
    match value_up_to(digits, 0x7fff_ffff_ffff_ffff) {
        Some(value) => Ok((TokenKind::Int(value as i64), rest)),
        None => Err(Refusal::NumberTooLarge(left)),
    }
}

// The token of the decimal number with these digits before and behind its point, and the bytes `rest` behind it; a
// refusal if it passes its bound, told by `left`, the bytes from its first digit on.
fn pointed<'a>(
    digits: &[u8],
    fraction: &[u8],
    rest: &'a [u8],
    left: usize,
) -> Result<(TokenKind, &'a [u8]), Refusal>
    requires digits { AllDigits 10 digits.now }
    requires fraction { AllDigits 10 fraction.now }
    ensures within { IfErr result (λ e. left_of e ≤ left) }
    ensures gives { Gives (λ x. x.0) (λ x. x.1.now) (Ok (ANumber digits.now fraction.now, rest.now)) left result }
{
    match Decimal::from_digits(digits, fraction) {
        Some(value) => Ok((TokenKind::Number(value), rest)),
        None => Err(Refusal::NumberTooLarge(left)),
    }
}
