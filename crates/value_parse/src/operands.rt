// Operands that hold values: calls, `if`, and values in round and square brackets.
ghost use Rattle.std.specs.Prelude.{◌≡◌, ◌<◌, ◌≤◌, ◌^◌, [], IfOk, length, map, ℕ};
ghost use Rattle.std.specs.List.{All};
ghost use Rattle.script_grammar.specs.Kinds.{is_comma, is_close_round, is_close_square};
ghost use Rattle.script_grammar.specs.Read.{Read, behind, closed};
ghost use Rattle.script_grammar.specs.Tree.{Tree, Many, AFull};
ghost use Rattle.script_grammar.specs.ReadValue.{full_by, operand, round_or_unit};
ghost use Rattle.script_grammar.specs.View.{listed, view_full, view_operand};
ghost use Rattle.script_grammar.specs.Whole.{IsWholeFull, IsWholeOperand};
ghost use Rattle.parse_base.specs.Classes.{is_in};
ghost use Rattle.parse_base.specs.Gives.{kinds, Gives, places, Reads};
ghost use Rattle.value_parse.specs.Operand.{as_round, as_list, chained};

use crate::arguments::call;
use crate::at::At;
use crate::atoms::atom;
use crate::conditionals::choice;
use crate::items::keep;
use crate::values::full;
use liq_base::Memory;
use parse_base::Fault;
use parse_base::token::{self, Class, place};
use script_grammar::make;
use script_grammar::tree::{self, Full};
use script_lex::{Keyword, Symbol, Token, TokenKind};
use std::alloc::Global;

/// Reads an operand from where reading stands (`at`): a call, an `if`, values in `(` .. `)` or `[` .. `]`, or one that
/// holds no value, as a number. Its first token tells which. Answers its tree and the tokens behind it.
#[cycle(value)]
#[tactic(auto, unfolding(script_grammar::specs::ReadValue::operand, script_grammar::specs::ReadValue::call))]
pub fn operand<'a>(at: At<'a>) -> Result<(tree::Operand, &'a [Token]), Fault>
    requires within { length at.tokens.now ≤ at.total }
    requires small { at.total < 2 ^ 32 }
    ensures { Reads view_operand IsWholeOperand
        (operand at.entry.loose (places at.entry.total) (full_by at.entry.levels (places at.entry.total)))
        at.entry.tokens.now result }
{
    match at.tokens {
        [
            Token {
                kind: TokenKind::NameOpen(_),
                ..
            },
            ..
        ] => {
            let (call, rest) = call(at.alloc, at.total, at.levels, at.tokens)?;
            Ok((tree::Operand::Call(call), rest))
        }
        [
            Token {
                kind: TokenKind::Keyword(Keyword::If),
                ..
            },
            ..
        ] => {
            let (choice, rest) = choice(at.alloc, at.total, at.levels, at.tokens)?;
            Ok((tree::Operand::If(choice), rest))
        }
        [
            Token {
                kind: TokenKind::Symbol(Symbol::OpenRound),
                ..
            },
            after @ ..,
        ] => {
            round(
                at.alloc,
                at.total,
                at.levels,
                place(at.total, at.tokens),
                after,
            )
        }
        [
            Token {
                kind: TokenKind::Symbol(Symbol::OpenSquare),
                ..
            },
            after @ ..,
        ] => {
            list(
                at.alloc,
                at.total,
                at.levels,
                place(at.total, at.tokens),
                after,
            )
        }
        _ => atom(at.alloc, at.total, at.loose, at.tokens),
    }
}

// Reads what stands behind a `(`, whose index is `at`: `)` | value `)` | value (`,` value)+ `)`. It is the operand
// unit, a value in brackets or a tuple. `total` counts the tokens of the whole script; values nest less than `levels`
// deep.
#[cycle(value)]
fn round(
    alloc: Global,
    total: usize,
    levels: usize,
    at: u32,
    tokens: &[Token],
) -> Result<(tree::Operand, &[Token]), Fault>
    requires within { length tokens.now ≤ total }
    requires small { total < 2 ^ 32 }
    ensures shorter { IfOk result (λ x. length x.1.now < length tokens.now) }
    ensures gives { Gives (λ x. (view_operand x.0, kinds x.1.now)) result
        (as_round at (closed is_comma is_close_round (full_by levels (places total)) (kinds tokens.now))) }
    ensures whole { IfOk result (λ x. IsWholeOperand x.0) }
{
    let mut parts = Vec::new(alloc);
    let read = fulls(alloc, total, levels, Class::CloseRound, &mut parts, tokens);
    round_of(alloc, at, parts, read)
}

// Reads what stands behind a `[`, whose index is `at`, as a list: (value (`,` value)*)? `]`. `total` counts the tokens
// of the whole script; values nest less than `levels` deep.
#[cycle(value)]
fn list(
    alloc: Global,
    total: usize,
    levels: usize,
    at: u32,
    tokens: &[Token],
) -> Result<(tree::Operand, &[Token]), Fault>
    requires within { length tokens.now ≤ total }
    requires small { total < 2 ^ 32 }
    ensures shorter { IfOk result (λ x. length x.1.now < length tokens.now) }
    ensures gives { Gives (λ x. (view_operand x.0, kinds x.1.now)) result
        (as_list at (closed is_comma is_close_square (full_by levels (places total)) (kinds tokens.now))) }
    ensures whole { IfOk result (λ x. IsWholeOperand x.0) }
{
    let mut parts = Vec::new(alloc);
    let read = fulls(alloc, total, levels, Class::CloseSquare, &mut parts, tokens);
    list_of(at, parts, read)
}

// Reads values up to the closing bracket `close`, which may come at once: (value (`,` value)*)? `close`. The values are
// pushed to `parts`; the tokens behind the bracket are answered. `total` counts the tokens of the whole script; values
// nest less than `levels` deep.
#[cycle(value)]
fn fulls<'a>(
    alloc: Global,
    total: usize,
    levels: usize,
    close: Class,
    parts: &mut Vec<Full>,
    tokens: &'a [Token],
) -> Result<&'a [Token], Fault>
    requires within { length tokens.now ≤ total }
    requires small { total < 2 ^ 32 }
    requires empty { parts.old.items ≡ [] }
    ensures shorter { IfOk result (λ rest. length rest.now < length tokens.now) }
    ensures gives { Gives (λ rest. (listed (map view_full parts.new.items), kinds rest.now)) result
        (closed is_comma (is_in close) (full_by levels (places total)) (kinds tokens.now)) }
    ensures whole { IfOk result (λ _. All IsWholeFull parts.new.items) }
{
    let (is_closed, after) = token::perhaps(tokens, close);
    if is_closed {
        return Ok(after);
    }
    let rest = some_fulls(alloc, total, levels, parts, tokens)?;
    let ((), rest) = token::expect(rest, close)?;
    Ok(rest)
}

// Reads one value or several, value (`,` value)*, pushes them to `parts`, and answers the tokens behind them. `total`
// counts the tokens of the whole script; values nest less than `levels` deep.
#[cycle(value)]
fn some_fulls<'a>(
    alloc: Global,
    total: usize,
    levels: usize,
    parts: &mut Vec<Full>,
    tokens: &'a [Token],
) -> Result<&'a [Token], Fault>
    requires within { length tokens.now ≤ total }
    requires small { total < 2 ^ 32 }
    requires empty { parts.old.items ≡ [] }
    ensures shorter { IfOk result (λ rest. length rest.now < length tokens.now) }
    ensures gives { Gives (λ rest. (listed (map view_full parts.new.items), kinds rest.now)) result
        (chained is_comma (full_by levels (places total)) (kinds tokens.now)) }
    ensures whole { IfOk result (λ _. All IsWholeFull parts.new.items) }
{
    let mut rest = keep(parts, full(alloc, total, levels, tokens))?;
    'turns: while token::next_is(rest, Class::Comma) {
        rest = keep(parts, comma_full(alloc, total, levels, rest))?;
    }
    Ok(rest)
}

// Reads a further value of a sequence, `,` value: the value, and the tokens behind it. `total` counts the tokens of the
// whole script; values nest less than `levels` deep.
#[cycle(value)]
#[tactic(auto, unfolding(script_grammar::specs::Read::behind))]
fn comma_full(
    alloc: Global,
    total: usize,
    levels: usize,
    tokens: &[Token],
) -> Result<(Full, &[Token]), Fault>
    requires within { length tokens.now ≤ total }
    requires small { total < 2 ^ 32 }
    ensures { Reads view_full IsWholeFull (behind is_comma (full_by levels (places total))) tokens.now result }
{
    let ((), rest) = token::expect(tokens, Class::Comma)?;
    full(alloc, total, levels, rest)
}

// The operand of these values in parentheses, and the tokens behind it. `at` is the index of the `(`. `read` has the
// tokens behind the `)`, or the fault met in the values, which is handed on.
#[inline(never)]
fn round_of<'a>(
    alloc: Global,
    at: u32,
    parts: Vec<Full>,
    read: Result<&'a [Token], Fault>,
) -> Result<(tree::Operand, &'a [Token]), Fault>
    ensures shorter { (n : ℕ) → IfOk read.entry (λ rest. length rest.now < n) → IfOk result (λ x. length x.1.now < n) }
    ensures gives { (r : Read (Tree (Many AFull)))
        → Gives (λ rest. (listed (map view_full parts.items), kinds rest.now)) read.entry r
        → Gives (λ x. (view_operand x.0, kinds x.1.now)) result (as_round at r) }
    ensures whole { IfOk read.entry (λ _. All IsWholeFull parts.items) → IfOk result (λ x. IsWholeOperand x.0) }
{
    let rest = read?;
    Ok((in_round(alloc, at, parts)?, rest))
}

// The operand of these values in square brackets, and the tokens behind it. `at` is the index of the `[`. `read` has
// the tokens behind the `]`, or the fault met in the values, which is handed on.
#[inline(never)]
fn list_of<'a>(
    at: u32,
    parts: Vec<Full>,
    read: Result<&'a [Token], Fault>,
) -> Result<(tree::Operand, &'a [Token]), Fault>
    ensures shorter { (n : ℕ) → IfOk read.entry (λ rest. length rest.now < n) → IfOk result (λ x. length x.1.now < n) }
    ensures gives { (r : Read (Tree (Many AFull)))
        → Gives (λ rest. (listed (map view_full parts.items), kinds rest.now)) read.entry r
        → Gives (λ x. (view_operand x.0, kinds x.1.now)) result (as_list at r) }
    ensures whole { IfOk read.entry (λ _. All IsWholeFull parts.items) → IfOk result (λ x. IsWholeOperand x.0) }
{
    let rest = read?;
    Ok((make::list(at, parts), rest))
}

// The operand that values in round brackets make: unit where there is none, the value in brackets where there is one,
// and else a tuple. `at` is the index of the `(`.
fn in_round(alloc: Global, at: u32, parts: Vec<Full>) -> Result<tree::Operand, Memory>
    ensures made { IfOk result (λ p. view_operand p ≡ round_or_unit at (listed (map view_full parts.items))) }
    ensures whole { IfOk result (λ p. All IsWholeFull parts.items → IsWholeOperand p) }
{
    if parts.len() > 1 {
        return Ok(tree::Operand::Tuple { at, parts });
    }
    let mut parts = parts;
    match parts.pop() {
        Some(first) => Ok(tree::Operand::Paren(Box::new(alloc, first)?)),
        None => Ok(tree::Operand::Unit { at }),
    }
}
