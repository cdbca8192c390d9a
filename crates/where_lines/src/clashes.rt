// The statement whose types clash, and the call in it.
ghost use Rattle.std.specs.Prelude.{◌≡◌, ◌≢◌, None, IfOk, IfSome};
ghost use Rattle.parse_base.specs.Gives.{kinds};
ghost use Rattle.script_grammar.specs.Placed.{IsPlaced};
ghost use Rattle.script_grammar.specs.Spelling.{spelling};
ghost use Rattle.script_grammar.specs.View.{view_script};
ghost use Rattle.script_lex.specs.Tokens.{AreTokens};
ghost use Rattle.script_parse.specs.Answer.{IsShallow};
ghost use Rattle.script_places.specs.Starts.{first_token};
ghost use Rattle.where_lines.specs.Nowhere.{HasNoStatement, HasNoStatementAmong};
ghost use Rattle.where_lines.specs.Statements.{IsInStatement, IsShown};

use crate::calls::caller;
use crate::fronts::{before, beginning, calling, tokens_of};
use crate::reading::{no_script, no_tokens};
use liq_base::Memory;
use script_grammar::tree::Script;
use script_lex::{Token, lex};
use script_parse::parse;
use script_places::first_token;
use std::alloc::Global;

/// The byte of a script at which the call begins with which the types of a statement clash. Where no one call of it is
/// found, it is the byte at which the statement begins. `None` where the script has no statement of this number.
pub fn clash_place(alloc: Global, text: &[u8], statement: u64) -> Result<Option<usize>, Memory>
    ensures place { IfOk result (λ at. IfSome at (IsInStatement text.now statement)) }
    ensures none { IfOk result (λ at. at ≡ None → HasNoStatement text.now statement) }
{
    match lex(alloc, text) {
        Ok(tokens) => place_among(alloc, text, &tokens, statement),
        Err(fault) => no_tokens(&fault),
    }
}

// By the tokens of a script: the byte at which the call begins with which the types of a statement clash. Where no one
// call of it is found, it is the byte at which the statement begins. `None` where they spell no such statement.
fn place_among(
    alloc: Global,
    text: &[u8],
    tokens: &[Token],
    statement: u64,
) -> Result<Option<usize>, Memory>
    requires { AreTokens text.now tokens.now }
    ensures place { IfOk result (λ at. IfSome at (IsInStatement text.now statement)) }
    ensures none { IfOk result (λ at. at ≡ None → HasNoStatementAmong tokens.now statement) }
{
    match parse(alloc, text, tokens) {
        Ok(script) => place_within(alloc, text, tokens, &script, statement),
        Err(fault) => no_script(&fault),
    }
}

// In a script that was parsed: the byte at which the call begins with which the types of a statement clash. Where no
// one call of it is found, it is the byte at which the statement begins. `None` if there is no such statement.
fn place_within(
    alloc: Global,
    text: &[u8],
    tokens: &[Token],
    script: &Script,
    statement: u64,
) -> Result<Option<usize>, Memory>
    requires tokens { AreTokens text.now tokens.now }
    requires spelled { spelling (view_script script.now) ≡ kinds tokens.now }
    requires placed { IsPlaced 0 (view_script script.now) }
    requires shallow { IsShallow (kinds tokens.now) }
    ensures place { IfOk result (λ at. IfSome at (IsInStatement text.now statement)) }
    ensures none { IfOk result (λ at. at ≡ None → first_token (view_script script.now) statement ≡ None) }
{
    if first_token(script, statement).is_none() {
        return Ok(None);
    }
    let at = shown_in(alloc, text, tokens, script, statement)?;
    Ok(Some(at))
}

// The byte that is shown of a statement: where the call begins with which its types clash, or where the statement
// begins.
fn shown_in(
    alloc: Global,
    text: &[u8],
    tokens: &[Token],
    script: &Script,
    statement: u64,
) -> Result<usize, Memory>
    requires { IsPlaced 0 (view_script script.now) }
    ensures { IfOk result (IsShown text.now tokens.now (view_script script.now) statement) }
{
    if statement == u64::MAX {
        // no script has so many statements
        return Ok(beginning(text, tokens, script, statement));
    }
    let done = before(text, tokens, script, statement);
    let own = calling(tokens_of(tokens, script, statement));
    match caller(alloc, text, done, own)? {
        Some(at) => Ok(at),
        None => Ok(beginning(text, tokens, script, statement)),
    }
}
