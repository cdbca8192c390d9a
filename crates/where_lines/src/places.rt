// Where what a line names begins in a script.
ghost use Rattle.std.specs.Prelude.{◌≡◌, None, IfOk, IfSome};
ghost use Rattle.script_lex.specs.Tokens.{AreTokens};
ghost use Rattle.where_lines.specs.Beginning.{Begins, IsNowhere, IsStatementAt, beginning_of};
ghost use Rattle.where_lines.specs.Kept.{IsKept};
ghost use Rattle.where_lines.specs.Nowhere.{HasNoStatement, HasNoStatementAmong};

use crate::causes::cause_place;
use crate::clashes::clash_place;
use crate::fronts::part;
use crate::kept::Kept;
use crate::reading::{no_script, no_tokens};
use crate::sources::source_place;
use crate::texts::text_place;
use crate::tokens::token_place;
use liq_base::Memory;
use script_lex::{Token, lex};
use script_parse::parse;
use script_places::{Named, first_token, start};
use std::alloc::Global;

/// The byte of a script at which begins what `line` names, which `named` tells: a byte, token, statement, source or
/// text. For a clash of types it is the call in the statement, for an output that may fall silent the call of the
/// source to be mended. A token past the end is the end of the script. A byte is answered as it is; else it is `None`
/// exactly where the script has no tokens, or nothing so named. `docs/faults.md` has places; `kept` was read before.
pub fn place_of(
    alloc: Global,
    line: &[u8],
    text: &[u8],
    kept: &mut Kept,
    named: Named,
) -> Result<Option<usize>, Memory>
    requires { IsKept text.now kept.old }
    ensures kept { IsKept text.now kept.new }
    ensures begins { IfOk result (λ at. IfSome at (Begins line.now text.now named)) }
    ensures none { IfOk result (λ at. at ≡ None → IsNowhere line.now text.now named) }
{
    match named {
        Named::Byte(at) => Ok(Some(at as usize)),
        Named::Token(token) => token_place(alloc, text, &mut kept.tokens, token),
        Named::Statement(statement) => statement_place(alloc, text, statement),
        Named::Source(source) => source_place(alloc, text, kept, source),
        Named::Clash(statement) => clash_place(alloc, text, statement),
        Named::Text { start, end } => text_place(alloc, text, part(line, start, end)),
        Named::Fallible { start, end } => cause_place(alloc, text, kept, part(line, start, end)),
    }
}

// The byte at which a statement begins; nothing where the script has no such statement.
fn statement_place(alloc: Global, text: &[u8], statement: u64) -> Result<Option<usize>, Memory>
    ensures place { IfOk result (λ at. IfSome at (IsStatementAt text.now statement)) }
    ensures none { IfOk result (λ at. at ≡ None → HasNoStatement text.now statement) }
{
    match lex(alloc, text) {
        Ok(tokens) => statement_among(alloc, text, &tokens, statement),
        Err(fault) => no_tokens(&fault),
    }
}

// By the tokens of a script: the byte at which a statement begins. Nothing where they spell no such statement.
fn statement_among(
    alloc: Global,
    text: &[u8],
    tokens: &[Token],
    statement: u64,
) -> Result<Option<usize>, Memory>
    requires { AreTokens text.now tokens.now }
    ensures place { IfOk result (λ at. IfSome at (IsStatementAt text.now statement)) }
    ensures none { IfOk result (λ at. at ≡ None → HasNoStatementAmong tokens.now statement) }
{
    match parse(alloc, text, tokens) {
        Ok(script) => Ok(beginning_of(text.len(), tokens, first_token(&script, statement))),
        Err(fault) => no_script(&fault),
    }
}

// The byte at which a token begins, if it is given, in a text of `total` bytes.
fn beginning_of(total: usize, tokens: &[Token], first: Option<u64>) -> Option<usize>
    ensures { result ≡ beginning_of total tokens.now first }
{
    match first {
        Some(token) => Some(start(total, tokens, token)),
        None => None,
    }
}
