// Names and keywords.
ghost use Rattle.std.specs.Prelude.{◌≡◌, ◌≤◌, length, None, Ok, IfOk, IfErr, IsUtf8};
ghost use Rattle.script_lex.specs.Words.{keyword_of};
ghost use Rattle.script_lex.specs.Reading.{word_or_open, word_at};
ghost use Rattle.script_lex.specs.Gives.{Gives, left_of};

use crate::refusal::Refusal;
use crate::spans::{after_name, front};
use crate::token::{Keyword, TokenKind};
use liq_base::{Memory, Text};
use std::alloc::Global;

/// A copy of bytes that are a text; they are not looked over again, since the contract asks that they are UTF-8.
pub fn copied(alloc: Global, bytes: &[u8]) -> Result<Text, Memory>
    requires { IsUtf8 bytes.now }
    ensures { IfOk result (λ t. t ≡ bytes.now) }
{
    Text::from_str(alloc, unsafe { str::from_utf8_unchecked(bytes) })
}

/// The token of the word at the front, whose first letter was seen, and the bytes behind it: a keyword, or a name, with
/// a `(` directly behind it if there is one. The error is want of memory alone.
#[tactic(auto, unfolding(crate::specs::Reading::word_at), using(crate::proofs::Ascii::name_utf8))]
pub fn word_at(alloc: Global, bytes: &[u8]) -> Result<(TokenKind, &[u8]), Refusal>
    ensures within { IfErr result (λ e. left_of e ≤ length bytes.now) }
    ensures gives { Gives (λ x. x.0) (λ x. x.1.now) (Ok (word_at bytes.now)) (length bytes.now) result }
{
    let rest = after_name(bytes);
    let word = front(bytes, rest);
    match keyword_of(word) {
        Some(keyword) => Ok((TokenKind::Keyword(keyword), rest)),
        None => name_or_open(alloc, word, rest, bytes.len()),
    }
}

// The keyword that a word is, if it is one.
#[tactic(auto, unfolding(crate::specs::Words::keyword_of))]
fn keyword_of(word: &[u8]) -> Option<Keyword>
    ensures { result ≡ keyword_of word.now }
{
    match word {
        b"def" => Some(Keyword::Def),
        b"end" => Some(Keyword::End),
        b"if" => Some(Keyword::If),
        b"then" => Some(Keyword::Then),
        b"else" => Some(Keyword::Else),
        b"true" => Some(Keyword::True),
        b"false" => Some(Keyword::False),
        b"and" => Some(Keyword::And),
        b"or" => Some(Keyword::Or),
        b"not" => Some(Keyword::Not),
        _ => None,
    }
}

// The name `word`, with the `(` directly behind it if there is one, and the bytes behind. `left` counts the bytes from
// the name on.
fn name_or_open<'a>(
    alloc: Global,
    word: &[u8],
    rest: &'a [u8],
    left: usize,
) -> Result<(TokenKind, &'a [u8]), Refusal>
    requires utf8 { IsUtf8 word.now }
    requires name { keyword_of word.now ≡ None }
    ensures within { IfErr result (λ e. left_of e ≤ left) }
    ensures gives { Gives (λ x. x.0) (λ x. x.1.now) (Ok (word_or_open word.now None rest.now)) left result }
{
    let name = copied(alloc, word)?;
    match rest {
        [b'(', behind @ ..] => Ok((TokenKind::NameOpen(name), behind)),
        _ => Ok((TokenKind::Name(name), rest)),
    }
}
