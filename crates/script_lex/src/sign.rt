// Symbols and `%wav`.
ghost use Rattle.std.specs.Prelude.{◌≡◌, ◌<◌, ◌≤◌, length, option_map, IfSome, IfOk, IfErr};
ghost use Rattle.script_lex.specs.Words.{symbol_of, symbol_with_equals};
ghost use Rattle.script_lex.specs.Spelling.{ASymbol, AWav};
ghost use Rattle.script_lex.specs.Reading.{symbol_at, wav_at, sign_or_bad, first_of_two};
ghost use Rattle.script_lex.specs.Gives.{Gives, left_of};

use crate::refusal::Refusal;
use crate::token::{Symbol, TokenKind};

/// The token of the symbol or `%wav` at the front of `bytes`, which are `first` and then `after`; and the bytes behind
/// it. Where neither stands there, the error says that `first` begins no token.
pub fn sign_at<'a>(
    first: u8,
    after: &'a [u8],
    bytes: &'a [u8],
) -> Result<(TokenKind, &'a [u8]), Refusal>
    ensures within { IfErr result (λ e. left_of e ≤ length bytes.now) }
    ensures gives { Gives (λ x. x.0) (λ x. x.1.now)
        (sign_or_bad (first_of_two (wav_at bytes.now) (symbol_at first after.now)) (length bytes.now))
        (length bytes.now) result }
{
    if let Some(rest) = after_wav(bytes) {
        return Ok((TokenKind::Wav, rest));
    }
    match symbol_at(first, after) {
        Some((symbol, rest)) => Ok((TokenKind::Symbol(symbol), rest)),
        None => Err(Refusal::BadByte(bytes.len())),
    }
}

// The symbol of this byte alone, if there is one.
#[tactic(auto, unfolding(crate::specs::Words::symbol_of))]
fn symbol_of(b: u8) -> Option<Symbol>
    ensures { result ≡ symbol_of b }
{
    match b {
        b'=' => Some(Symbol::Assign),
        b'<' => Some(Symbol::Less),
        b'>' => Some(Symbol::Greater),
        b'+' => Some(Symbol::Plus),
        b'-' => Some(Symbol::Minus),
        b'*' => Some(Symbol::Star),
        b'/' => Some(Symbol::Slash),
        b'(' => Some(Symbol::OpenRound),
        b')' => Some(Symbol::CloseRound),
        b'[' => Some(Symbol::OpenSquare),
        b']' => Some(Symbol::CloseSquare),
        b'{' => Some(Symbol::OpenCurly),
        b'}' => Some(Symbol::CloseCurly),
        b',' => Some(Symbol::Comma),
        b';' => Some(Symbol::Semicolon),
        b'~' => Some(Symbol::Tilde),
        _ => None,
    }
}

// The symbol of this byte and `=` behind it, if there is one.
#[tactic(auto, unfolding(crate::specs::Words::symbol_with_equals))]
fn symbol_with_equals(b: u8) -> Option<Symbol>
    ensures { result ≡ symbol_with_equals b }
{
    match b {
        b'=' => Some(Symbol::Equal),
        b'!' => Some(Symbol::Differs),
        b'<' => Some(Symbol::AtMost),
        b'>' => Some(Symbol::AtLeast),
        _ => None,
    }
}

// The symbol that begins with `first`, of two bytes or else of one, and the bytes behind it.
#[tactic(auto, unfolding(crate::specs::Reading::symbol_at))]
fn symbol_at(first: u8, after: &[u8]) -> Option<(Symbol, &[u8])>
    ensures symbol { option_map (λ x. (ASymbol x.0, x.1.now)) result ≡ symbol_at first after.now }
{
    if let [b'=', behind @ ..] = after {
        if let Some(symbol) = symbol_with_equals(first) {
            return Some((symbol, behind));
        }
    }
    let symbol = symbol_of(first)?;
    Some((symbol, after))
}

// The bytes behind `%wav`, if it stands at the front.
#[tactic(auto, unfolding(crate::specs::Reading::wav_at))]
fn after_wav(bytes: &[u8]) -> Option<&[u8]>
    ensures wav { option_map (λ rest. (AWav, rest.now)) result ≡ wav_at bytes.now }
{
    match bytes {
        [b'%', b'w', b'a', b'v', rest @ ..] => Some(rest),
        _ => None,
    }
}
