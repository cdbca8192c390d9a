// Pieces of a value: numbers, operators, an argument's label, and the option of `%wav`.
ghost use Rattle.std.specs.Prelude.{◌≡◌, ◌<◌, ◌≤◌, IfOk, length, cond, false};
ghost use Rattle.script_grammar.specs.Kinds.{op_of};
ghost use Rattle.script_lex.specs.declared.token.TokenKind.TheVariants.{Symbol as a_symbol};
ghost use Rattle.script_grammar.specs.Read.{next};
ghost use Rattle.script_grammar.specs.ReadValue.{digits, whole_number, the_name, size, wav, takes_option, optional};
ghost use Rattle.script_grammar.specs.ReadValue.{opens_name, next_op, binds};
ghost use Rattle.parse_base.specs.Gives.{kinds, Gives};
ghost use Rattle.value_parse.specs.Operand.{is_bare, is_operator, label_of, product_sign, sum_sign};

use liq_base::{Memory, Text};
use parse_base::Fault;
use parse_base::token::{self, Class};
use script_grammar::tree::{CompareOp, Literal};
use script_lex::{Keyword, Symbol, Token, TokenKind};
use std::alloc::Global;

/// Reads a number literal, with or without a point, which must stand first: its value, and the tokens behind it.
#[tactic(auto, unfolding(script_grammar::specs::ReadValue::digits))]
pub fn digits(tokens: &[Token]) -> Result<(Literal, &[Token]), Fault>
    ensures shorter { IfOk result (λ x. length x.1.now < length tokens.now) }
    ensures gives { Gives (λ x. (x.0, kinds x.1.now)) result (digits (kinds tokens.now)) }
{
    match tokens {
        [
            Token {
                kind: TokenKind::Int(number),
                ..
            },
            rest @ ..,
        ] => Ok((Literal::Int(*number), rest)),
        [
            Token {
                kind: TokenKind::Number(number),
                ..
            },
            rest @ ..,
        ] => Ok((Literal::Number(*number), rest)),
        _ => Err(Fault::Syntax(tokens.len())),
    }
}

/// Reads the option behind `%wav`, `(samplesize = number)`: its number, or `None` where there is no option, and the
/// tokens behind it. Where the value is loose, a `(` that begins something else may stand there, and is left.
#[tactic(auto, unfolding(script_grammar::specs::ReadValue::wav))]
pub fn wav(loose: bool, tokens: &[Token]) -> Result<(Option<i64>, &[Token]), Fault>
    ensures shorter { IfOk result (λ x. length x.1.now ≤ length tokens.now) }
    ensures gives { Gives (λ x. (x.0, kinds x.1.now)) result (wav loose (kinds tokens.now)) }
{
    if takes_option(loose, tokens) {
        let (number, rest) = size(tokens)?;
        Ok((Some(number), rest))
    } else {
        Ok((None, tokens))
    }
}

/// The comparing operator (as `<=`) that stands first, `None` where none does. It is looked at and not taken.
pub fn next_op(tokens: &[Token]) -> Option<CompareOp>
    ensures { result ≡ next_op (kinds tokens.now) }
{
    match tokens {
        [
            Token {
                kind: TokenKind::Symbol(symbol),
                ..
            },
            ..
        ] => op_of(*symbol),
        _ => None,
    }
}

/// Whether the first token is an operator that may stand behind an operand, so that a value goes on there. It is false
/// where no token is left.
pub fn at_operator(tokens: &[Token]) -> bool
    ensures { result ≡ next is_operator (kinds tokens.now) }
{
    match tokens {
        [first, ..] => is_operator(&first.kind),
        [] => false,
    }
}

/// Whether a value that begins with these tokens begins with its first operand: neither with `-` nor with `not`.
pub fn is_bare(tokens: &[Token]) -> bool
    ensures { result ≡ is_bare (kinds tokens.now) }
{
    match tokens {
        [
            Token {
                kind: TokenKind::Symbol(Symbol::Minus),
                ..
            },
            ..
        ] => false,
        [
            Token {
                kind: TokenKind::Keyword(Keyword::Not),
                ..
            },
            ..
        ] => false,
        _ => true,
    }
}

/// Reads the label of an argument, if it has one: a name with `=` behind it. Answers a copy of the name, or `None`, and
/// the tokens behind the `=`; without a label these are all tokens.
pub fn argument_label(alloc: Global, tokens: &[Token]) -> Result<(Option<Text>, &[Token]), Memory>
    ensures shorter { IfOk result (λ x. length x.1.now ≤ length tokens.now) }
    ensures read { IfOk result (λ x. label_of (kinds tokens.now) ≡ (x.0, kinds x.1.now)) }
{
    match tokens {
        [
            Token {
                kind: TokenKind::Name(name),
                ..
            },
            Token {
                kind: TokenKind::Symbol(Symbol::Assign),
                ..
            },
            rest @ ..,
        ] => Ok((Some(name.copy(alloc)?), rest)),
        _ => Ok((None, tokens)),
    }
}

/// Reads the sign by which a sum goes on: true for `-`, false for `+`, and the tokens behind it. Any other token is a
/// fault.
pub fn sum_sign(tokens: &[Token]) -> Result<(bool, &[Token]), Fault>
    ensures shorter { IfOk result (λ x. length x.1.now < length tokens.now) }
    ensures gives { Gives (λ x. (x.0, kinds x.1.now)) result (sum_sign (kinds tokens.now)) }
{
    match tokens {
        [
            Token {
                kind: TokenKind::Symbol(Symbol::Plus),
                ..
            },
            rest @ ..,
        ] => Ok((false, rest)),
        [
            Token {
                kind: TokenKind::Symbol(Symbol::Minus),
                ..
            },
            rest @ ..,
        ] => Ok((true, rest)),
        _ => Err(Fault::Syntax(tokens.len())),
    }
}

/// Reads the sign by which a product goes on: true for `/`, false for `*`, and the tokens behind it. Any other token
/// is a fault.
pub fn product_sign(tokens: &[Token]) -> Result<(bool, &[Token]), Fault>
    ensures shorter { IfOk result (λ x. length x.1.now < length tokens.now) }
    ensures gives { Gives (λ x. (x.0, kinds x.1.now)) result (product_sign (kinds tokens.now)) }
{
    match tokens {
        [
            Token {
                kind: TokenKind::Symbol(Symbol::Star),
                ..
            },
            rest @ ..,
        ] => Ok((false, rest)),
        [
            Token {
                kind: TokenKind::Symbol(Symbol::Slash),
                ..
            },
            rest @ ..,
        ] => Ok((true, rest)),
        _ => Err(Fault::Syntax(tokens.len())),
    }
}

// Reads a number without a point, which must stand first: its value, and the tokens behind it.
#[tactic(auto, unfolding(script_grammar::specs::ReadValue::whole_number))]
fn whole_number(tokens: &[Token]) -> Result<(i64, &[Token]), Fault>
    ensures shorter { IfOk result (λ x. length x.1.now < length tokens.now) }
    ensures gives { Gives (λ x. (x.0, kinds x.1.now)) result (whole_number (kinds tokens.now)) }
{
    match tokens {
        [
            Token {
                kind: TokenKind::Int(number),
                ..
            },
            rest @ ..,
        ] => Ok((*number, rest)),
        _ => Err(Fault::Syntax(tokens.len())),
    }
}

// Reads the name `samplesize`, the one option of `%wav`, which must stand first; nothing is answered but the tokens
// behind it.
#[tactic(auto, unfolding(script_grammar::specs::ReadValue::the_name))]
fn the_name(tokens: &[Token]) -> Result<((), &[Token]), Fault>
    ensures shorter { IfOk result (λ x. length x.1.now < length tokens.now) }
    ensures gives { Gives (λ x. (tt, kinds x.1.now)) result (the_name (kinds tokens.now)) }
{
    match tokens {
        [
            Token {
                kind: TokenKind::Name(name),
                ..
            },
            rest @ ..,
        ] => {
            if name.as_str() == "samplesize" {
                Ok(((), rest))
            } else {
                Err(Fault::Syntax(tokens.len()))
            }
        }
        _ => Err(Fault::Syntax(tokens.len())),
    }
}

// Whether the name `samplesize` and `=` stand first, as behind the `(` of the option of `%wav`.
fn at_option_name(tokens: &[Token]) -> bool
    ensures { result ≡ cond (opens_name (kinds tokens.now)) (binds (kinds tokens.now)) false }
{
    match tokens {
        [
            Token {
                kind: TokenKind::Name(name),
                ..
            },
            Token {
                kind: TokenKind::Symbol(Symbol::Assign),
                ..
            },
            ..
        ] => name.as_str() == "samplesize",
        _ => false,
    }
}

// Whether the option of `%wav` surely begins here, and no other bracket: `(`, `samplesize` and `=` stand first.
fn optional(tokens: &[Token]) -> bool
    ensures { result ≡ optional (kinds tokens.now) }
{
    match tokens {
        [
            Token {
                kind: TokenKind::Symbol(Symbol::OpenRound),
                ..
            },
            after @ ..,
        ] => at_option_name(after),
        _ => false,
    }
}

// Whether the option of `%wav` begins here. Where the value is loose, a `(` may stand behind it, so only `(samplesize
// =` begins the option; else any `(` does.
fn takes_option(loose: bool, tokens: &[Token]) -> bool
    ensures { result ≡ takes_option loose (kinds tokens.now) }
{
    if loose {
        optional(tokens)
    } else {
        token::next_is(tokens, Class::OpenRound)
    }
}

// Reads the option of `%wav`, `(samplesize = number)`, from its `(` on: its number, and the tokens behind its `)`.
#[tactic(auto, unfolding(script_grammar::specs::ReadValue::size))]
fn size(tokens: &[Token]) -> Result<(i64, &[Token]), Fault>
    ensures shorter { IfOk result (λ x. length x.1.now < length tokens.now) }
    ensures gives { Gives (λ x. (x.0, kinds x.1.now)) result (size (kinds tokens.now)) }
{
    let ((), rest) = token::expect(tokens, Class::OpenRound)?;
    let ((), rest) = the_name(rest)?;
    let ((), rest) = token::expect(rest, Class::Assign)?;
    let (number, rest) = whole_number(rest)?;
    let ((), rest) = token::expect(rest, Class::CloseRound)?;
    Ok((number, rest))
}

// Whether a token is an operator that stands between operands.
fn is_operator(kind: &TokenKind) -> bool
    ensures { result ≡ is_operator kind.now }
{
    matches!(
        kind,
        TokenKind::Keyword(Keyword::Or | Keyword::And)
            | TokenKind::Symbol(
                Symbol::Plus
                    | Symbol::Minus
                    | Symbol::Star
                    | Symbol::Slash
                    | Symbol::Equal
                    | Symbol::Differs
                    | Symbol::Less
                    | Symbol::AtMost
                    | Symbol::Greater
                    | Symbol::AtLeast
            )
    )
}

// The comparing operator that a symbol stands for; `None` where it is another symbol.
fn op_of(symbol: Symbol) -> Option<CompareOp>
    ensures { result ≡ op_of (a_symbol symbol) }
{
    match symbol {
        Symbol::Equal => Some(CompareOp::Equal),
        Symbol::Differs => Some(CompareOp::Differs),
        Symbol::Less => Some(CompareOp::Less),
        Symbol::AtMost => Some(CompareOp::AtMost),
        Symbol::Greater => Some(CompareOp::Greater),
        Symbol::AtLeast => Some(CompareOp::AtLeast),
        _ => None,
    }
}
