// Parts of a script.
ghost use Rattle.std.specs.Prelude.{◌≡◌, ◌<◌, ◌++◌, IfOk, take, drop};
ghost use Rattle.script_grammar.specs.Placed.{IsPlaced};
ghost use Rattle.script_grammar.specs.View.{view_script};
ghost use Rattle.where_lines.specs.Calls.{part};
ghost use Rattle.where_lines.specs.Statements.{before, begins_at, beginning, begins_def, calling, first_of, is_def};
ghost use Rattle.where_lines.specs.Statements.{is_def_word, or_all, tokens_of};

use liq_base::Memory;
use script_grammar::tree::Script;
use script_lex::{Keyword, Token, TokenKind};
use script_places::{first_token, start};
use std::alloc::Global;

/// The text of a script before the statement of this number, counted from 1; past the last one, the whole text.
pub fn before<'a>(text: &'a [u8], tokens: &[Token], script: &Script, statement: u64) -> &'a [u8]
    requires { IsPlaced 0 (view_script script.now) }
    ensures { result.now ≡ before text.now tokens.now (view_script script.now) statement }
{
    front(text, beginning(text, tokens, script, statement))
}

/// The byte at which the statement of this number begins, counted from 1; past the last one, the end of the text.
pub fn beginning(text: &[u8], tokens: &[Token], script: &Script, statement: u64) -> usize
    requires { IsPlaced 0 (view_script script.now) }
    ensures { result ≡ beginning text.now tokens.now (view_script script.now) statement }
{
    begins_at(text.len(), tokens, first_token(script, statement))
}

// The byte at which a token begins, if it is given, and otherwise the end of a text of `total` bytes.
fn begins_at(total: usize, tokens: &[Token], first: Option<u64>) -> usize
    ensures { result ≡ begins_at total tokens.now first }
{
    match first {
        Some(token) => start(total, tokens, token),
        None => total,
    }
}

/// The first `at` bytes of a text.
pub fn front(text: &[u8], at: usize) -> &[u8]
    ensures { result.now ≡ take at text.now }
{
    &text[..at.min(text.len())]
}

// A text from byte `at` on.
fn behind(text: &[u8], at: usize) -> &[u8]
    ensures { result.now ≡ drop at text.now }
{
    let (_, behind) = text.split_at(at.min(text.len()));
    behind
}

/// A text from one byte up to another.
pub fn part(text: &[u8], from: usize, to: usize) -> &[u8]
    ensures { result.now ≡ part text.now from to }
{
    front(behind(text, from), to.saturating_sub(from))
}

/// A new text: the first one, and the second one behind it.
pub fn joined(alloc: Global, first: &[u8], second: &[u8]) -> Result<Vec<u8>, Memory>
    ensures { IfOk result (λ both. both.items ≡ first.now ++ second.now) }
{
    let mut both = Vec::new(alloc);
    both.extend_from_slice(first)?;
    both.extend_from_slice(second)?;
    Ok(both)
}

/// The tokens of a statement, by its number: from its first one up to the first one of the next.
pub fn tokens_of<'a>(tokens: &'a [Token], script: &Script, statement: u64) -> &'a [Token]
    requires placed { IsPlaced 0 (view_script script.now) }
    requires next { statement < u64.MAX }
    ensures { result.now ≡ tokens_of tokens.now (view_script script.now) statement }
{
    let end = first_of(tokens, script, statement + 1);
    let (upto, _) = tokens.split_at(end.min(tokens.len()));
    let first = first_of(tokens, script, statement);
    let (_, own) = upto.split_at(first.min(upto.len()));
    own
}

/// Those of a statement's tokens that may hold calls. Of a def they are the ones behind `def` and its name, which is
/// written like the head of a call and is none; of any other statement they are all.
pub fn calling(tokens: &[Token]) -> &[Token]
    ensures { result.now ≡ calling tokens.now }
{
    if begins_def(tokens) {
        let (_, behind) = tokens.split_at(tokens.len().min(2));
        behind
    } else {
        tokens
    }
}

// Whether the tokens of a statement begin a def.
fn begins_def(tokens: &[Token]) -> bool
    ensures { result ≡ begins_def tokens.now }
{
    match tokens.first() {
        Some(first) => is_def(&first.kind),
        None => false,
    }
}

// Whether a token is the word `def`.
fn is_def(kind: &TokenKind) -> bool
    ensures { result ≡ is_def kind.now }
{
    match kind {
        TokenKind::Keyword(word) => is_def_word(*word),
        _ => false,
    }
}

// Whether a keyword is `def`.
fn is_def_word(word: Keyword) -> bool
    ensures { result ≡ is_def_word word }
{
    match word {
        Keyword::Def => true,
        _ => false,
    }
}

// The number of the first token of a statement; behind the last one, how many tokens there are.
fn first_of(tokens: &[Token], script: &Script, statement: u64) -> usize
    requires { IsPlaced 0 (view_script script.now) }
    ensures { result ≡ first_of tokens.now (view_script script.now) statement }
{
    or_all(tokens, first_token(script, statement))
}

// The number of a statement's first token where it is given, and otherwise how many tokens there are: a statement past
// the last one begins behind all.
fn or_all(tokens: &[Token], first: Option<u64>) -> usize
    ensures { result ≡ or_all tokens.now first }
{
    match first {
        Some(token) => token as usize,
        None => tokens.len(),
    }
}
