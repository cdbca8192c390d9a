// Operands that hold no value: numbers, texts, truth values, names, predicates and `%wav`.
ghost use Rattle.std.specs.Prelude.{◌≡◌, ◌<◌, ◌≤◌, ◌^◌, IfOk, length, false};
ghost use Rattle.script_grammar.specs.Read.{next};
ghost use Rattle.script_grammar.specs.ReadValue.{operand};
ghost use Rattle.script_grammar.specs.View.{view_full, view_if, view_operand};
ghost use Rattle.script_grammar.specs.Tree.{If as an_if};
ghost use Rattle.script_grammar.specs.Whole.{IsWholeFull, IsWholeIf, IsWholeOperand};
ghost use Rattle.parse_base.specs.Gives.{kinds, Gives, places, Reads};
ghost use Rattle.value_parse.specs.Operand.{braces_at, holds_values, no_value};

use crate::number::wav;
use parse_base::token::{self, Class, place};
use parse_base::{Fault, predicate};
use script_grammar::tree::{self, Full, If, Literal};
use script_lex::{Keyword, Symbol, Token, TokenKind};
use std::alloc::Global;

/// Reads an operand that holds no value within it (a number, text, truth value, name, predicate or `%wav`): its tree,
/// and the tokens behind it. `total` counts the tokens of the whole script. Where it is `loose`, a `(` may stand behind
/// it.
#[tactic(auto, unfolding(script_grammar::specs::ReadValue::operand))]
pub fn atom(
    alloc: Global,
    total: usize,
    loose: bool,
    tokens: &[Token],
) -> Result<(tree::Operand, &[Token]), Fault>
    requires within { length tokens.now ≤ total }
    requires small { total < 2 ^ 32 }
    requires closed { next holds_values (kinds tokens.now) ≡ false }
    ensures { Reads view_operand IsWholeOperand (operand loose (places total) no_value) tokens.now result }
{
    let at = place(total, tokens);
    match tokens {
        [
            Token {
                kind: TokenKind::Int(number),
                ..
            },
            rest @ ..,
        ] => {
            let value = Literal::Int(*number);
            Ok((tree::Operand::Literal { at, value }, rest))
        }
        [
            Token {
                kind: TokenKind::Number(number),
                ..
            },
            rest @ ..,
        ] => {
            let value = Literal::Number(*number);
            Ok((tree::Operand::Literal { at, value }, rest))
        }
        [
            Token {
                kind: TokenKind::Str(text),
                ..
            },
            rest @ ..,
        ] => {
            let text = text.copy(alloc)?;
            Ok((tree::Operand::Str { at, text }, rest))
        }
        [
            Token {
                kind: TokenKind::Name(name),
                ..
            },
            rest @ ..,
        ] => {
            let name = name.copy(alloc)?;
            Ok((tree::Operand::Name { at, name }, rest))
        }
        [
            Token {
                kind: TokenKind::Keyword(Keyword::True),
                ..
            },
            rest @ ..,
        ] => { Ok((tree::Operand::Bool { at, value: true }, rest)) }
        [
            Token {
                kind: TokenKind::Keyword(Keyword::False),
                ..
            },
            rest @ ..,
        ] => { Ok((tree::Operand::Bool { at, value: false }, rest)) }
        [
            Token {
                kind: TokenKind::Symbol(Symbol::OpenCurly),
                ..
            },
            after @ ..,
        ] => { braces(alloc, at, after) }
        [
            Token {
                kind: TokenKind::Wav,
                ..
            },
            after @ ..,
        ] => {
            let (size, rest) = wav(loose, after)?;
            Ok((tree::Operand::Wav { at, size }, rest))
        }
        _ => Err(Fault::Syntax(tokens.len())),
    }
}

/// The tree of an `if`, made of its three values. `at` is the index of its first token.
pub fn make_choice(at: u32, condition: Box<Full>, then_part: Box<Full>, else_part: Box<Full>) -> If
    ensures made { view_if result
        ≡ an_if at (view_full condition.value) (view_full then_part.value) (view_full else_part.value) }
    ensures whole { IsWholeFull condition.value → IsWholeFull then_part.value → IsWholeFull else_part.value
        → IsWholeIf result }
{
    If {
        at,
        condition,
        then_part,
        else_part,
    }
}

// Reads a predicate and its `}` behind the `{`, whose index is `at`: the operand that they are, and the tokens behind
// it.
fn braces(alloc: Global, at: u32, tokens: &[Token]) -> Result<(tree::Operand, &[Token]), Fault>
    ensures { Reads view_operand IsWholeOperand (braces_at at) tokens.now result }
{
    let (pred, rest) = predicate(alloc, tokens)?;
    let ((), rest) = token::expect(rest, Class::CloseCurly)?;
    Ok((tree::Operand::Braces { at, pred }, rest))
}
