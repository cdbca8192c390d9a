// One token at a time.
ghost use Rattle.std.specs.Prelude.{◌≡◌, ◌<◌, ◌≤◌, ◌+◌, length, true, IfOk, IfErr, IsUtf8};
ghost use Rattle.script_lex.specs.Bytes.{is_letter, is_quote};
ghost use Rattle.script_lex.specs.Reading.{text_at, text_from, shape_at, unescaped, after_name, after_digits};
ghost use Rattle.script_lex.specs.Gives.{Gives, left_of};
ghost use Rattle.script_lex.specs.declared.body.BodyEnd.TheVariants as ends;

use crate::body::{BodyEnd, body_end, unescaped};
use crate::number::number_at;
use crate::refusal::Refusal;
use crate::sign::sign_at;
use crate::spans::{front, is_letter, is_quote, tail};
use crate::token::TokenKind;
use crate::word::word_at;
use liq_base::limits::MAX_SCRIPT_BYTES;
use liq_base::{Memory, Text};
use std::alloc::Global;

/// The token at the front of `bytes`, the rest of a script, and the bytes behind it. The error is why none is read
/// there, with the count of bytes from the fault to the end.
#[tactic(auto, unfolding(crate::specs::Reading::shape_at))]
pub fn token_at(alloc: Global, bytes: &[u8]) -> Result<(TokenKind, &[u8]), Refusal>
    requires { length bytes.now ≤ MAX_SCRIPT_BYTES }
    ensures within { IfErr result (λ e. left_of e ≤ length bytes.now) }
    ensures gives { Gives (λ x. x.0) (λ x. x.1.now) (shape_at bytes.now) (length bytes.now) result }
{
    match bytes {
        [] => Err(Refusal::BadByte(0)),
        [first, after @ ..] => {
            if is_letter(*first) {
                word_at(alloc, bytes)
            } else if first.is_ascii_digit() {
                number_at(bytes)
            } else if is_quote(*first) {
                text_at(alloc, *first, after)
            } else {
                sign_at(*first, after, bytes)
            }
        }
    }
}

// Bytes that are UTF-8 as a text of the program, without a copy: the list itself is held.
fn held(bytes: Vec<u8>) -> Text
    requires { IsUtf8 bytes.items }
    ensures { result ≡ bytes.items }
{
    match String::from_utf8(bytes) {
        Ok(string) => Text::from_string(string),
        Err(_) => unreachable!(),
    }
}

// The token of a text with the bytes `body` between its quotes, which stop at `rest` for the reason `end`; or why there
// is none. `left` counts the bytes from its opening quote on.
fn text_from<'a>(
    alloc: Global,
    body: &[u8],
    rest: &'a [u8],
    end: BodyEnd,
    left: usize,
) -> Result<(TokenKind, &'a [u8]), Refusal>
    requires utf8 { end ≡ ends.Closed → IsUtf8 (unescaped body.now) }
    requires low { length rest.now ≤ left }
    ensures within { IfErr result (λ e. left_of e ≤ left) }
    ensures gives { Gives (λ x. x.0) (λ x. x.1.now) (text_from body.now rest.now end left) left result }
{
    match end {
        BodyEnd::Closed => {
            let text = held(unescaped(alloc, body)?);
            Ok((TokenKind::Str(text), tail(rest)))
        }
        BodyEnd::Broken => Err(Refusal::BadByte(rest.len())),
        BodyEnd::Cut => Err(Refusal::UnclosedString(left)),
    }
}

// The token of a text whose opening quote, `quote`, stands before these bytes, and the bytes behind its closing quote.
// A byte between the quotes that is no UTF-8 is the fault, however the text ends.
fn text_at(alloc: Global, quote: u8, bytes: &[u8]) -> Result<(TokenKind, &[u8]), Refusal>
    requires quote { is_quote quote ≡ true }
    requires small { length bytes.now < MAX_SCRIPT_BYTES }
    ensures within { IfErr result (λ e. left_of e ≤ length bytes.now + 1) }
    ensures gives { Gives (λ x. x.0) (λ x. x.1.now) (text_at quote bytes.now) (length bytes.now + 1) result }
{
    let (end, rest) = body_end(quote, bytes);
    let body = front(bytes, rest);
    match str::from_utf8(body) {
        Ok(_) => text_from(alloc, body, rest, end, bytes.len() + 1),
        Err(error) => Err(Refusal::BadByte(bytes.len() - error.valid_up_to())),
    }
}
