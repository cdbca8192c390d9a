// Texts of a script.
ghost use Rattle.std.specs.Prelude.{◌≡◌, None, IfOk, IfSome};
ghost use Rattle.where_lines.specs.Nowhere.{HasNoText};
ghost use Rattle.where_lines.specs.Texts.{IsTextAt, is_text, text_among};

use crate::reading::no_tokens;
use liq_base::Memory;
use script_lex::{Token, TokenKind, lex};
use std::alloc::Global;

/// The byte at which the first quoted text with the characters `name` begins. `None` where the script `text` has no
/// tokens or no such one.
pub fn text_place(alloc: Global, text: &[u8], name: &[u8]) -> Result<Option<usize>, Memory>
    ensures place { IfOk result (λ at. IfSome at (IsTextAt text.now name.now)) }
    ensures none { IfOk result (λ at. at ≡ None → HasNoText text.now name.now) }
{
    match lex(alloc, text) {
        Ok(tokens) => Ok(text_among(name, &tokens)),
        Err(fault) => no_tokens(&fault),
    }
}

// The byte at which the first token begins that is a quoted text of these characters.
fn text_among(name: &[u8], tokens: &[Token]) -> Option<usize>
    ensures { result ≡ text_among name.now tokens.now }
{
    for token in tokens {
        if is_text(name, &token.kind) {
            return Some(token.start as usize);
        }
    }
    None
}

// Whether a token is a quoted text of these characters.
fn is_text(name: &[u8], kind: &TokenKind) -> bool
    ensures { result ≡ is_text name.now kind.now }
{
    match kind {
        TokenKind::Str(text) => text.as_str().as_bytes() == name,
        _ => false,
    }
}
