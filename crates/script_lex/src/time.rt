// Marks in the week.
ghost use Rattle.std.specs.Prelude.{◌≡◌, ◌≤◌, length, Some, None, Ok, IfOk, IfErr, if◌then◌else◌};
ghost use Rattle.script_lex.specs.Spelling.{is_within, is_up_to, values};
ghost use Rattle.script_lex.specs.Reading.{part_at, time_at};
ghost use Rattle.script_lex.specs.Parts.{digits_in, AreDigits, HasDigits, time_of, mark_in};
ghost use Rattle.script_lex.specs.Gives.{Gives, left_of};

use crate::refusal::Refusal;
use crate::spans::{after_digits, front, starts_digit};
use crate::token::TokenKind;
use fixed_text::{TimeMark, value_up_to};

// The digits of each part of a time that is there.
#[derive(Clone, Copy)]
struct Parts<'a> {
    day: Option<&'a [u8]>,
    hour: Option<&'a [u8]>,
    minute: Option<&'a [u8]>,
    second: Option<&'a [u8]>,
}

/// The token of the time at the front, as `5h30`, and the bytes behind it: digits behind the hours are minutes. The
/// error says that a part passes its bound.
#[tactic(auto, unfolding(crate::specs::Reading::time_at), using(crate::proofs::Fronts::digits_front))]
pub fn time_at(bytes: &[u8]) -> Result<(TokenKind, &[u8]), Refusal>
    ensures within { IfErr result (λ e. left_of e ≤ length bytes.now) }
    ensures gives { Gives (λ x. x.0) (λ x. x.1.now) (Ok (time_at bytes.now)) (length bytes.now) result }
{
    let (day, rest) = part_at(b'w', bytes);
    let (hour, rest) = part_at(b'h', rest);
    let (minute, rest) = part_at(b'm', rest);
    let (second, rest) = part_at(b's', rest);
    let parts = Parts {
        day,
        hour,
        minute,
        second,
    };
    match (hour, minute, second) {
        (Some(_), None, None) if starts_digit(rest) => {
            let after = after_digits(rest);
            let minute = Some(front(rest, after));
            timed(Parts { minute, ..parts }, after, bytes.len())
        }
        _ => timed(parts, rest, bytes.len()),
    }
}

// The digits of the part of a time with this unit, as `h`, if it stands at the front, and the bytes behind the unit. If
// not, it is `None` and all bytes.
#[tactic(auto, unfolding(crate::specs::Reading::part_at), using(crate::proofs::Fronts::digits_front))]
fn part_at(unit: u8, bytes: &[u8]) -> (Option<&[u8]>, &[u8])
    ensures part { (digits_in result.0, result.1.now) ≡ part_at unit bytes.now }
    ensures digits { AreDigits (digits_in result.0) }
    ensures shorter { length result.1.now ≤ length bytes.now }
{
    let rest = after_digits(bytes);
    match rest {
        [first, behind @ ..] if starts_digit(bytes) && *first == unit => {
            (Some(front(bytes, rest)), behind)
        }
        _ => (None, bytes),
    }
}

// The number of a part of a time, as the 12 of `12h`: `None` if it passes `most`, and `Some(None)` if the time lacks
// the part.
fn within(digits: Option<&[u8]>, most: u8) -> Option<Option<u8>>
    requires { AreDigits (digits_in digits) }
    ensures { result ≡ (if is_up_to most (digits_in digits.entry) then Some (values (digits_in digits.entry))
        else None) }
{
    match digits {
        Some(digits) => {
            let value = value_up_to(digits, u64::from(most))?;
            Some(Some(value as u8))
        }
        None => Some(None),
    }
}

// The time of the week that these parts mean; `None` where the number of a part passes its bound.
fn mark_in(parts: Parts<'_>) -> Option<TimeMark>
    requires { HasDigits parts }
    ensures { result ≡ (if is_within (time_of parts.entry) then Some (mark_in parts.entry) else None) }
{
    Some(TimeMark {
        day: within(parts.day, 7)?,
        hour: within(parts.hour, 24)?,
        minute: within(parts.minute, 60)?,
        second: within(parts.second, 60)?,
    })
}

// The token of the time with these parts, and the bytes `rest` behind it; a refusal if a part passes its bound, told
// by `left`, the bytes from its first digit on.
fn timed<'a>(
    parts: Parts<'_>,
    rest: &'a [u8],
    left: usize,
) -> Result<(TokenKind, &'a [u8]), Refusal>
    requires { HasDigits parts }
    ensures within { IfErr result (λ e. left_of e ≤ left) }
    ensures gives { Gives (λ x. x.0) (λ x. x.1.now) (Ok (time_of parts.entry, rest.now)) left result }
{
    match mark_in(parts) {
        Some(mark) => Ok((TokenKind::Time(mark), rest)),
        None => Err(Refusal::NumberTooLarge(left)),
    }
}
