// The call of a statement with which types clash.
ghost use Rattle.std.specs.Prelude.{◌≡◌, ◌++◌, false, IfOk, IfSome, OnOk, Some, take};
ghost use Rattle.where_lines.specs.declared.calls.Bracket.TheVariants as bracket;
ghost use Rattle.where_lines.specs.Calls.{IsCaller, calls_from, newest, brackets_behind, role_of, symbol_role};
ghost use Rattle.where_lines.specs.Calls.{texts_behind, with_closed};
ghost use Rattle.where_lines.specs.Candidates.{AreCalls, IsCalled, IsCandidate};
ghost use Rattle.where_lines.specs.Clashes.{Clashes};

use crate::clashing::clashes;
use crate::fronts::{front, joined, part};
use liq_base::Memory;
use script_lex::{Symbol, Token, TokenKind};
use std::alloc::Global;

/// A bracket that stands open.
#[derive(Clone, Copy)]
pub enum Bracket {
    /// A call from byte `start` on, before which the texts of closed calls had `others` bytes.
    Call { start: usize, others: usize },

    /// Another bracket.
    Other,
}

/// What a token does to the brackets that are open.
#[derive(Clone, Copy)]
pub enum Role {
    /// It opens a call.
    OpensCall,

    /// It opens another bracket.
    Opens,

    /// It closes one.
    Closes,

    /// Neither.
    Neither,
}

/// The texts of the calls that are closed among some tokens, each whole and none within another, a line for each; and
/// what stands open behind them.
#[derive(Drop)]
pub struct Calls {
    pub texts: Vec<u8>,
    pub brackets: Vec<Bracket>,
}

/// A call from byte `start` up to byte `end`, with the texts of the calls that are closed before it. The first `others`
/// bytes of these are no arguments of it.
#[derive(Drop)]
pub struct Found {
    pub texts: Vec<u8>,
    pub others: usize,
    pub start: usize,
    pub end: usize,
}

/// The byte of the script `text` at which the call begins, among the tokens of a statement, with which types clash.
/// With the calls that are closed before it types do not clash, and with it they do.
/// `done` is the script before the statement. `None` where no call is found.
pub fn caller(
    alloc: Global,
    text: &[u8],
    done: &[u8],
    tokens: &[Token],
) -> Result<Option<usize>, Memory>
    ensures { IfOk result (λ at. IfSome at (IsCaller text.now done.now tokens.now)) }
{
    match candidate(alloc, text, done, tokens)? {
        Some(found) => confirmed(alloc, text, done, &found),
        None => Ok(None),
    }
}

// The byte at which the call that was found begins, if types clash with it and not with those closed before it; else
// `None`. The halving only takes this for granted, so it is tried here. `done` is the script before the statement.
fn confirmed(
    alloc: Global,
    text: &[u8],
    done: &[u8],
    found: &Found,
) -> Result<Option<usize>, Memory>
    ensures { IfOk result (λ at. IfSome at (IsCalled text.now done.now found.now)) }
{
    if clash_with(alloc, done, &found.texts)? {
        return Ok(None);
    }
    clash_with_call(alloc, text, done, found)
}

// The byte at which a call begins, if types clash with it behind `done`, the script before the statement; else `None`.
// With the calls closed before it they do not clash. Those that are its arguments are left out, as it holds them.
fn clash_with_call(
    alloc: Global,
    text: &[u8],
    done: &[u8],
    found: &Found,
) -> Result<Option<usize>, Memory>
    requires { Clashes (done.now ++ found.now.texts.items) false }
    ensures { IfOk result (λ at. IfSome at (IsCalled text.now done.now found.now)) }
{
    let call = part(text, found.start, found.end);
    let texts = joined(alloc, front(&found.texts, found.others), call)?;
    if clash_with(alloc, done, &texts)? {
        return Ok(Some(found.start));
    }
    Ok(None)
}

// Whether types clash in `done`, the script before a statement, with these texts of calls of the statement behind it.
fn clash_with(alloc: Global, done: &[u8], texts: &[u8]) -> Result<bool, Memory>
    ensures { IfOk result (Clashes (done.now ++ texts.now)) }
{
    let whole = joined(alloc, done, texts)?;
    clashes(alloc, &whole)
}

// The call with which types may begin to clash, found by halving the tokens of the statement; it is not yet confirmed.
// `done` is the script before the statement. `None` where the token that was found closes no call.
fn candidate(
    alloc: Global,
    text: &[u8],
    done: &[u8],
    tokens: &[Token],
) -> Result<Option<Found>, Memory>
    ensures { IfOk result (λ found. IfSome found (IsCandidate text.now tokens.now)) }
{
    let low = last_token(alloc, text, done, tokens)?;
    found_at(alloc, text, tokens, low)
}

// Halves the tokens of a statement: with the calls closed before token `low` types do not clash, with those before
// `high` they are taken to. It ends where both are neighbours, and answers `low`, the number of the token that closes
// the call looked for. 64 halvings are enough for any number of tokens.
fn last_token(alloc: Global, text: &[u8], done: &[u8], tokens: &[Token]) -> Result<usize, Memory> {
    let mut low: usize = 0;
    let mut high = tokens.len();
    for _ in 0..64 {
        let middle = low.saturating_add(high.saturating_sub(low) / 2);
        if middle == low {
            break;
        }
        let calls = closed_calls(alloc, text, first_tokens(tokens, middle))?;
        if clash_with(alloc, done, &calls.texts)? {
            high = middle;
        } else {
            low = middle;
        }
    }
    Ok(low)
}

// The call that token `number` of a statement closes, with the texts of those closed before; `None` if it closes none.
fn found_at(
    alloc: Global,
    text: &[u8],
    tokens: &[Token],
    number: usize,
) -> Result<Option<Found>, Memory>
    ensures { IfOk result (λ found. IfSome found (IsCandidate text.now tokens.now)) }
{
    match tokens.get(number) {
        Some(last) => {
            let calls = closed_calls(alloc, text, first_tokens(tokens, number))?;
            Ok(closed_by(calls, last.end as usize))
        }
        None => Ok(None),
    }
}

// The call that ends at byte `end`, if the bracket that was opened last is that of a call; `calls` are those closed
// before.
fn closed_by(calls: Calls, end: usize) -> Option<Found>
    ensures { IfSome result (λ found. (newest calls.brackets.items ≡ Some (bracket.Call found.start found.others))
        × (found.texts.items ≡ calls.texts.items) × (found.end ≡ end)) }
{
    match newest(&calls.brackets) {
        Some(Bracket::Call { start, others }) => Some(Found {
            texts: calls.texts,
            others,
            start,
            end,
        }),
        _ => None,
    }
}

// The bracket that was opened last, if one stands open.
fn newest(brackets: &[Bracket]) -> Option<Bracket>
    ensures { result ≡ newest brackets.now }
{
    brackets.last().copied()
}

// The first tokens, so many at most.
fn first_tokens(tokens: &[Token], count: usize) -> &[Token]
    ensures { result.now ≡ take count tokens.now }
{
    let (first, _) = tokens.split_at(count.min(tokens.len()));
    first
}

// The texts of the calls that are closed among some tokens, and the brackets that are still open behind them.
fn closed_calls(alloc: Global, text: &[u8], tokens: &[Token]) -> Result<Calls, Memory>
    ensures { IfOk result (λ calls. AreCalls text.now tokens.now calls.texts.items calls.brackets.items) }
{
    let mut texts = Vec::new(alloc);
    let mut brackets = Vec::new(alloc);
    read_all(&mut texts, &mut brackets, text, tokens)?;
    Ok(Calls { texts, brackets })
}

// Reads more tokens: adds the calls that they close to `texts`, and keeps in `brackets` those that are still open.
fn read_all(
    texts: &mut Vec<u8>,
    brackets: &mut Vec<Bracket>,
    text: &[u8],
    tokens: &[Token],
) -> Result<(), Memory>
    ensures { OnOk result (calls_from text.now (record {
      texts = texts.old.items;
      brackets = brackets.old.items;
    }) tokens.now ≡ record { texts = texts.new.items; brackets = brackets.new.items }) }
{
    for token in tokens {
        read(texts, brackets, text, token)?;
    }
    Ok(())
}

// Reads one more token: adds the call that it closes to `texts`, or notes or removes a bracket in `brackets`.
fn read(
    texts: &mut Vec<u8>,
    brackets: &mut Vec<Bracket>,
    text: &[u8],
    token: &Token,
) -> Result<(), Memory>
    ensures texts { OnOk result (texts.new.items
        ≡ texts_behind text.now token.now (role_of token.now.kind) texts.old.items brackets.old.items) }
    ensures brackets { OnOk result (brackets.new.items
        ≡ brackets_behind token.now (role_of token.now.kind) texts.old.items brackets.old.items) }
{
    match role_of(&token.kind) {
        Role::OpensCall => brackets.push(Bracket::Call {
            start: token.start as usize,
            others: texts.len(),
        })?,
        Role::Opens => brackets.push(Bracket::Other)?,
        Role::Closes => {
            close(texts, newest(brackets), text, token.end as usize)?;
            brackets.truncate(brackets.len().saturating_sub(1));
        }
        Role::Neither => {}
    }
    Ok(())
}

// Adds the call that ends at byte `end` of `text` to `texts`, in a line, if the innermost open bracket is a call's.
// The calls that are its arguments are dropped from `texts`, since its own text holds them.
fn close(
    texts: &mut Vec<u8>,
    innermost: Option<Bracket>,
    text: &[u8],
    end: usize,
) -> Result<(), Memory>
    ensures { OnOk result (texts.new.items ≡ with_closed text.now end texts.old.items innermost) }
{
    if let Some(Bracket::Call { start, others }) = innermost {
        texts.truncate(others);
        texts.extend_from_slice(part(text, start, end))?;
        texts.push(b'\n')?;
    }
    Ok(())
}

// What a token does to the brackets that are open: it opens a call, opens another bracket, closes one, or does nothing.
fn role_of(kind: &TokenKind) -> Role
    ensures { result ≡ role_of kind.now }
{
    match kind {
        TokenKind::NameOpen(_) => Role::OpensCall,
        TokenKind::Symbol(symbol) => symbol_role(*symbol),
        _ => Role::Neither,
    }
}

// What a symbol does to the brackets that are open: it opens one, closes one, or neither. It never opens a call.
fn symbol_role(symbol: Symbol) -> Role
    ensures { result ≡ symbol_role symbol }
{
    match symbol {
        Symbol::OpenRound | Symbol::OpenSquare | Symbol::OpenCurly => Role::Opens,
        Symbol::CloseRound | Symbol::CloseSquare | Symbol::CloseCurly => Role::Closes,
        _ => Role::Neither,
    }
}
