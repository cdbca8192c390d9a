// Tokens of a script.
ghost use Rattle.std.specs.Prelude.{◌≡◌, None, IfOk, IfSome};
ghost use Rattle.where_lines.specs.Kept.{AreKept};
ghost use Rattle.where_lines.specs.Nowhere.{HasNoTokens};
ghost use Rattle.where_lines.specs.Tokens.{IsTokenAt};

use crate::reading::no_tokens;
use liq_base::Memory;
use script_lex::{Token, lex};
use script_places::start;
use std::alloc::Global;

/// The byte at which a token begins, by its number from 0. `None` where the script has no tokens, for a fault in it.
/// They are read where they are not in `kept`, and put there.
pub fn token_place(
    alloc: Global,
    text: &[u8],
    kept: &mut Option<Vec<Token>>,
    token: u64,
) -> Result<Option<usize>, Memory>
    requires { AreKept text.now kept.old }
    ensures kept { AreKept text.now kept.new }
    ensures place { IfOk result (λ at. IfSome at (IsTokenAt text.now token)) }
    ensures none { IfOk result (λ at. at ≡ None → HasNoTokens text.now) }
{
    match kept_place(text, kept, token) {
        Some(at) => Ok(Some(at)),
        None => read_place(alloc, text, kept, token),
    }
}

// The byte at which a token begins, by the tokens that are kept of the script; `None` if none are kept.
fn kept_place(text: &[u8], kept: &Option<Vec<Token>>, token: u64) -> Option<usize>
    requires { AreKept text.now kept.now }
    ensures { IfSome result (IsTokenAt text.now token) }
{
    match kept {
        Some(tokens) => Some(start(text.len(), tokens, token)),
        None => None,
    }
}

// Reads the tokens and keeps them. The byte at which a token begins; nothing where the script has no tokens.
fn read_place(
    alloc: Global,
    text: &[u8],
    kept: &mut Option<Vec<Token>>,
    token: u64,
) -> Result<Option<usize>, Memory>
    requires { AreKept text.now kept.old }
    ensures kept { AreKept text.now kept.new }
    ensures place { IfOk result (λ at. IfSome at (IsTokenAt text.now token)) }
    ensures none { IfOk result (λ at. at ≡ None → HasNoTokens text.now) }
{
    match lex(alloc, text) {
        Ok(tokens) => {
            let at = start(text.len(), &tokens, token);
            *kept = Some(tokens);
            Ok(Some(at))
        }
        Err(fault) => no_tokens(&fault),
    }
}
