// Values. Each function of the six files of this descent reads as the definition of its name does in `ReadValue` of
// `script_grammar`, or in `specs/Operand.antt`; the production that it reads stands at its head, in the notation of
// `docs/grammar.md`. A value counts down `levels`, so that it is the number of `full_by`; a caller gives as many as
// there are tokens, which is always enough. The tokens are the last of `total`, by which a field `at` is an index.
//
// So that a level takes little stack, a function hands what a nested call answered to a tail of its own: no frame then
// keeps copies of a tree while others are read. A compiler may take a function that is called in one place into its
// caller, whatever it is marked, so a tail that makes several trees is called in two. A tail in the cycle takes the
// tokens at which its first part was read, for its contract alone. A list is lent to those who fill it.
ghost use Rattle.std.specs.Prelude.{◌≡◌, ◌<◌, ◌≤◌, ◌^◌, IfOk, Ok, length, ℕ};
ghost use Rattle.script_grammar.specs.Kinds.{is_not};
ghost use Rattle.script_grammar.specs.Read.{Read, perhaps};
ghost use Rattle.script_grammar.specs.Tree.{Tree, AFull, AnExpr};
ghost use Rattle.script_grammar.specs.ReadValue.{full_by, full_step, operand};
ghost use Rattle.script_grammar.specs.View.{view_full, view_expr, view_operand};
ghost use Rattle.script_grammar.specs.Whole.{IsWholeFull, IsWholeExpr, IsWholeOperand};
ghost use Rattle.parse_base.specs.Gives.{kinds, Gives, places, Reads};
ghost use Rattle.value_parse.specs.Operand.{plain, as_plain, lone};

use crate::at::At;
use crate::logic::expr_from;
use crate::number::{at_operator, digits};
use crate::operands::operand;
use parse_base::Fault;
use parse_base::token::{self, Class, place};
use script_grammar::tree::{And, Compare, Expr, Full, Not, Operand, Product, Sum};
use script_lex::{Symbol, Token, TokenKind};
use std::alloc::Global;

/// Reads a value (a "full" expression, which may begin with `-`): its tree, and the tokens behind it. Values nest in it
/// less than `levels` deep; with no level left it is refused. `total` counts the tokens of the whole script.
#[cycle(value)]
pub fn full(
    alloc: Global,
    total: usize,
    levels: usize,
    tokens: &[Token],
) -> Result<(Full, &[Token]), Fault>
    requires within { length tokens.now ≤ total }
    requires small { total < 2 ^ 32 }
    ensures { Reads view_full IsWholeFull (full_by levels (places total)) tokens.now result }
{
    if levels == 0 {
        Err(Fault::Syntax(tokens.len()))
    } else {
        full_step(At {
            alloc,
            total,
            levels: levels - 1,
            loose: false,
            tokens,
        })
    }
}

/// Reads a value, `-` Int | `-` Number | expression, from where reading stands (`at`): its tree, and the tokens behind
/// it. Other values nest in it at most `at.levels` deep. Where `at.loose` is true, a `(` may stand behind it.
#[cycle(value)]
#[tactic(auto, unfolding(script_grammar::specs::ReadValue::full_step))]
pub fn full_step<'a>(at: At<'a>) -> Result<(Full, &'a [Token]), Fault>
    requires within { length at.tokens.now ≤ at.total }
    requires small { at.total < 2 ^ 32 }
    ensures { Reads view_full IsWholeFull (full_step at.entry.loose (places at.entry.total)
        (full_by at.entry.levels (places at.entry.total))) at.entry.tokens.now
        result }
{
    match at.tokens {
        [
            Token {
                kind: TokenKind::Symbol(Symbol::Minus),
                ..
            },
            after @ ..,
        ] => {
            let (number, rest) = digits(after)?;
            let at = place(at.total, at.tokens);
            Ok((Full::Minus { at, number }, rest))
        }
        _ => plain(at),
    }
}

/// Reads a value at once into a box on the heap, so that the parts of an `if` stand on no stack while others are read.
/// Answers the box and the tokens behind the value. `total` counts the tokens of the whole script; values nest less
/// than `levels` deep.
#[cycle(value)]
pub fn full_box(
    alloc: Global,
    total: usize,
    levels: usize,
    tokens: &[Token],
) -> Result<(Box<Full>, &[Token]), Fault>
    requires within { length tokens.now ≤ total }
    requires small { total < 2 ^ 32 }
    ensures shorter { IfOk result (λ x. length x.1.now < length tokens.now) }
    ensures gives { Gives (λ x. (view_full x.0.value, kinds x.1.now)) result
        (full_by levels (places total) (kinds tokens.now)) }
    ensures whole { IfOk result (λ x. IsWholeFull x.0.value) }
{
    boxed(alloc, full(alloc, total, levels, tokens))
}

// Reads a value that is an expression, so that it does not begin with `-`: its tree, and the tokens behind it.
#[cycle(value)]
fn plain<'a>(at: At<'a>) -> Result<(Full, &'a [Token]), Fault>
    requires within { length at.tokens.now ≤ at.total }
    requires small { at.total < 2 ^ 32 }
    ensures { Reads view_full IsWholeFull (plain at.entry.loose (places at.entry.total)
        (full_by at.entry.levels (places at.entry.total))) at.entry.tokens.now
        result }
{
    let (negated, inner) = token::perhaps(at.tokens, Class::Not);
    plain_of(
        at,
        negated,
        inner,
        operand(At {
            tokens: inner,
            ..at
        }),
    )
}

// Goes on with a value that is an expression, whose first operand was read already (`read`), at `inner`: at the first
// token, or behind a `not` (`negated`). Mostly the operand is all of it, and the tree is made at once. Where an
// operator follows, the expression is read on.
#[inline(never)]
#[cycle(value)]
fn plain_of<'a>(
    at: At<'_>,
    negated: bool,
    inner: &[Token],
    read: Result<(Operand, &'a [Token]), Fault>,
) -> Result<(Full, &'a [Token]), Fault>
    requires within { length at.tokens.now ≤ at.total }
    requires small { at.total < 2 ^ 32 }
    requires inside { length inner.now ≤ length at.tokens.now }
    requires lead { perhaps is_not (kinds at.tokens.now) ≡ Ok (negated, kinds inner.now) }
    requires read { Reads view_operand IsWholeOperand
        (operand at.loose (places at.total) (full_by at.levels (places at.total)))
        inner.now read }
    ensures { Reads view_full IsWholeFull (plain at.entry.loose (places at.entry.total)
        (full_by at.entry.levels (places at.entry.total))) at.entry.tokens.now
        result }
{
    let (operand, rest) = read?;
    if at_operator(rest) {
        let first = Ok((operand, rest));
        in_full(expr_from(at, negated, inner, first))
    } else {
        Ok((lone(at.alloc, negated, operand), rest))
    }
}

/// The tree of a value that is one operand and has no operator, with a `not` before it where it is negated.
pub fn lone(alloc: Global, negated: bool, operand: Operand) -> Full
    ensures made { view_full result ≡ lone negated (view_operand operand) }
    ensures whole { IsWholeOperand operand → IsWholeFull result }
{
    Full::Plain(Expr {
        first: And {
            first: Not {
                negated,
                inner: Compare {
                    left: Sum {
                        first: Product {
                            first: operand,
                            rest: Vec::new(alloc),
                        },
                        rest: Vec::new(alloc),
                    },
                    right: None,
                },
            },
            rest: Vec::new(alloc),
        },
        rest: Vec::new(alloc),
    })
}

/// Puts the expression that was read into the tree of a value; a fault and the tokens behind stay as they are.
#[inline(never)]
pub fn in_full<'a>(read: Result<(Expr, &'a [Token]), Fault>) -> Result<(Full, &'a [Token]), Fault>
    ensures shorter { (n : ℕ) → IfOk read.entry (λ x. length x.1.now < n) → IfOk result (λ x. length x.1.now < n) }
    ensures gives { (r : Read (Tree AnExpr)) → Gives (λ x. (view_expr x.0, kinds x.1.now)) read.entry r
        → Gives (λ x. (view_full x.0, kinds x.1.now)) result (as_plain r) }
    ensures whole { IfOk read.entry (λ x. IsWholeExpr x.0) → IfOk result (λ x. IsWholeFull x.0) }
{
    let (expr, rest) = read?;
    Ok((Full::Plain(expr), rest))
}

// Puts the value that was read into a box on the heap; a fault and the tokens behind stay as they are.
#[inline(never)]
fn boxed<'a>(
    alloc: Global,
    read: Result<(Full, &'a [Token]), Fault>,
) -> Result<(Box<Full>, &'a [Token]), Fault>
    ensures shorter { (n : ℕ) → IfOk read.entry (λ x. length x.1.now < n) → IfOk result (λ x. length x.1.now < n) }
    ensures gives { (r : Read (Tree AFull)) → Gives (λ x. (view_full x.0, kinds x.1.now)) read.entry r
        → Gives (λ x. (view_full x.0.value, kinds x.1.now)) result r }
    ensures whole { IfOk read.entry (λ x. IsWholeFull x.0) → IfOk result (λ x. IsWholeFull x.0.value) }
{
    let (value, rest) = read?;
    Ok((Box::new(alloc, value)?, rest))
}
