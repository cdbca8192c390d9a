// Expressions: parts joined by `or` and `and`, each perhaps behind `not`.
ghost use Rattle.std.specs.Prelude.{◌≡◌, ◌<◌, ◌≤◌, ◌^◌, IfOk, Ok, length, map, ℕ};
ghost use Rattle.std.specs.List.{All};
ghost use Rattle.script_grammar.specs.Kinds.{is_or, is_and, is_not};
ghost use Rattle.script_grammar.specs.Read.{Read, next, many, behind, perhaps};
ghost use Rattle.script_grammar.specs.Tree.{Tree, ACompare};
ghost use Rattle.script_grammar.specs.ReadValue.{full_by, expr, and_, not_, compare, operand};
ghost use Rattle.script_grammar.specs.View.{listed, view_expr, view_and, view_not, view_compare, view_operand};
ghost use Rattle.script_grammar.specs.Whole.{IsWholeExpr, IsWholeAnd, IsWholeNot, IsWholeCompare, IsWholeOperand};
ghost use Rattle.parse_base.specs.Gives.{kinds, Gives, places, Reads, ReadsOn};
ghost use Rattle.value_parse.specs.Operand.{behind_not};

use crate::arithmetic::{compare_of, product_of, sum_of};
use crate::at::At;
use crate::items::keep;
use crate::operands::operand;
use parse_base::Fault;
use parse_base::token::{self, Class};
use script_grammar::make;
use script_grammar::tree::{And, Compare, Expr, Not, Operand};
use script_lex::Token;
use std::alloc::Global;

/// Reads an expression, and (`or` and)*: conjunctions joined by `or`. `at` is where reading stands. Answers the
/// expression's tree and the tokens behind it.
pub fn expr<'a>(at: At<'a>) -> Result<(Expr, &'a [Token]), Fault>
    requires within { length at.tokens.now ≤ at.total }
    requires small { at.total < 2 ^ 32 }
    ensures { Reads view_expr IsWholeExpr (expr at.entry.loose (places at.entry.total)
        (full_by at.entry.levels (places at.entry.total))) at.entry.tokens.now
        result }
{
    let (negated, inner) = token::perhaps(at.tokens, Class::Not);
    expr_from(
        at,
        negated,
        inner,
        operand(At {
            tokens: inner,
            ..at
        }),
    )
}

/// Goes on with an expression that begins at `at` and whose first operand was read already, at `inner`: at the first
/// token, or behind the `not` there (`negated`). `read` has the operand and the tokens behind it, or a fault, which is
/// handed on. Answers the expression and the tokens behind it.
#[inline(never)]
#[cycle(value)]
#[tactic(auto, unfolding(script_grammar::specs::ReadValue::not_))]
pub fn expr_from<'a>(
    at: At<'_>,
    negated: bool,
    inner: &[Token],
    read: Result<(Operand, &'a [Token]), Fault>,
) -> Result<(Expr, &'a [Token]), Fault>
    requires within { length at.tokens.now ≤ at.total }
    requires small { at.total < 2 ^ 32 }
    requires inside { length inner.now ≤ length at.tokens.now }
    requires lead { perhaps is_not (kinds at.tokens.now) ≡ Ok (negated, kinds inner.now) }
    requires read { Reads view_operand IsWholeOperand
        (operand at.loose (places at.total) (full_by at.levels (places at.total)))
        inner.now read }
    ensures { Reads view_expr IsWholeExpr (expr at.entry.loose (places at.entry.total)
        (full_by at.entry.levels (places at.entry.total))) at.entry.tokens.now
        result }
{
    let first = negation_of(
        at.alloc, at.total, at.levels, at.loose, negated, inner, read,
    );
    let first = and_of(at, first);
    expr_of(at, first)
}

// Goes on with an expression whose first part, up to an `or`, was read already, at `at`: reads the parts behind each
// `or`. `read` has the first part and the tokens behind it, or a fault, which is handed on.
#[inline(never)]
#[cycle(value)]
#[tactic(auto, unfolding(script_grammar::specs::ReadValue::expr, script_grammar::specs::Read::chain))]
fn expr_of<'a>(
    at: At<'_>,
    read: Result<(And, &'a [Token]), Fault>,
) -> Result<(Expr, &'a [Token]), Fault>
    requires within { length at.tokens.now ≤ at.total }
    requires small { at.total < 2 ^ 32 }
    requires read { Reads view_and IsWholeAnd (and_ at.loose (places at.total) (full_by at.levels (places at.total)))
        at.tokens.now
        read }
    ensures { Reads view_expr IsWholeExpr (expr at.entry.loose (places at.entry.total)
        (full_by at.entry.levels (places at.entry.total))) at.entry.tokens.now
        result }
{
    let (first, rest) = read?;
    let (others, rest) = ands(At { tokens: rest, ..at })?;
    Ok((make::expr(first, others), rest))
}

// Reads the further parts of an expression, (`or` and)*, from where reading stands (`at`), and answers them with the
// tokens behind them.
#[cycle(value)]
fn ands<'a>(at: At<'a>) -> Result<(Vec<And>, &'a [Token]), Fault>
    requires within { length at.tokens.now ≤ at.total }
    requires small { at.total < 2 ^ 32 }
    ensures { ReadsOn (λ x. listed (map view_and x.items)) (λ x. All IsWholeAnd x.items) (many (next is_or) (behind
        is_or (and_ at.entry.loose (places at.entry.total) (full_by at.entry.levels (places at.entry.total)))))
        at.entry.tokens.now result }
{
    let mut items = Vec::new(at.alloc);
    let mut rest = at.tokens;
    'turns: while token::next_is(rest, Class::Or) {
        rest = keep(&mut items, or_and(At { tokens: rest, ..at }))?;
    }
    Ok((items, rest))
}

// Reads one further part of an expression, `or` and: the conjunction, and the tokens behind it.
#[cycle(value)]
#[tactic(auto, unfolding(script_grammar::specs::Read::behind))]
fn or_and<'a>(at: At<'a>) -> Result<(And, &'a [Token]), Fault>
    requires within { length at.tokens.now ≤ at.total }
    requires small { at.total < 2 ^ 32 }
    ensures { Reads view_and IsWholeAnd (behind is_or
        (and_ at.entry.loose (places at.entry.total) (full_by at.entry.levels (places at.entry.total))))
        at.entry.tokens.now result }
{
    let ((), rest) = token::expect(at.tokens, Class::Or)?;
    and_of(
        At { tokens: rest, ..at },
        not_term(At { tokens: rest, ..at }),
    )
}

// Goes on with a conjunction, not (`and` not)*, whose first part was read already, at `at`: reads the parts behind each
// `and`. `read` has the first part and the tokens behind it, or a fault, which is handed on.
#[inline(never)]
#[cycle(value)]
#[tactic(auto, unfolding(script_grammar::specs::ReadValue::and_, script_grammar::specs::Read::chain))]
fn and_of<'a>(
    at: At<'_>,
    read: Result<(Not, &'a [Token]), Fault>,
) -> Result<(And, &'a [Token]), Fault>
    requires within { length at.tokens.now ≤ at.total }
    requires small { at.total < 2 ^ 32 }
    requires read { Reads view_not IsWholeNot (not_ at.loose (places at.total) (full_by at.levels (places at.total)))
        at.tokens.now
        read }
    ensures { Reads view_and IsWholeAnd (and_ at.entry.loose (places at.entry.total)
        (full_by at.entry.levels (places at.entry.total))) at.entry.tokens.now result }
{
    let (first, rest) = read?;
    let (others, rest) = nots(At { tokens: rest, ..at })?;
    Ok((make::and_term(first, others), rest))
}

// Reads the further parts of a conjunction, (`and` not)*, from where reading stands (`at`), and answers them with the
// tokens behind them.
#[cycle(value)]
fn nots<'a>(at: At<'a>) -> Result<(Vec<Not>, &'a [Token]), Fault>
    requires within { length at.tokens.now ≤ at.total }
    requires small { at.total < 2 ^ 32 }
    ensures { ReadsOn (λ x. listed (map view_not x.items)) (λ x. All IsWholeNot x.items) (many (next is_and) (behind
        is_and (not_ at.entry.loose (places at.entry.total) (full_by at.entry.levels (places at.entry.total)))))
        at.entry.tokens.now result }
{
    let mut items = Vec::new(at.alloc);
    let mut rest = at.tokens;
    'turns: while token::next_is(rest, Class::And) {
        rest = keep(&mut items, and_not(At { tokens: rest, ..at }))?;
    }
    Ok((items, rest))
}

// Reads one further part of a conjunction, `and` not: a comparison, perhaps behind `not`, and the tokens behind it.
#[cycle(value)]
#[tactic(auto, unfolding(script_grammar::specs::Read::behind, script_grammar::specs::ReadValue::not_))]
fn and_not<'a>(at: At<'a>) -> Result<(Not, &'a [Token]), Fault>
    requires within { length at.tokens.now ≤ at.total }
    requires small { at.total < 2 ^ 32 }
    ensures { Reads view_not IsWholeNot (behind is_and
        (not_ at.entry.loose (places at.entry.total) (full_by at.entry.levels (places at.entry.total))))
        at.entry.tokens.now result }
{
    let ((), rest) = token::expect(at.tokens, Class::And)?;
    let (negated, rest) = token::perhaps(rest, Class::Not);
    negation_of(
        at.alloc,
        at.total,
        at.levels,
        at.loose,
        negated,
        rest,
        operand(At { tokens: rest, ..at }),
    )
}

// Reads a comparison, before which a `not` may stand: `not`? comparison. Answers it and the tokens behind it.
#[cycle(value)]
#[tactic(auto, unfolding(script_grammar::specs::ReadValue::not_))]
fn not_term<'a>(at: At<'a>) -> Result<(Not, &'a [Token]), Fault>
    requires within { length at.tokens.now ≤ at.total }
    requires small { at.total < 2 ^ 32 }
    ensures { Reads view_not IsWholeNot (not_ at.entry.loose (places at.entry.total)
        (full_by at.entry.levels (places at.entry.total))) at.entry.tokens.now result }
{
    let (negated, rest) = token::perhaps(at.tokens, Class::Not);
    negation_of(
        at.alloc,
        at.total,
        at.levels,
        at.loose,
        negated,
        rest,
        operand(At { tokens: rest, ..at }),
    )
}

// Goes on with a comparison whose first operand was read already (`read`), at `tokens`: reads the rest of its product,
// its sum and its right side. `negated` says that a `not` stood before it, and `loose` that a `(` may stand behind it.
// `total` counts the script's tokens, `levels` bounds how deep values nest.
#[inline(never)]
#[cycle(value)]
fn negation_of<'a>(
    alloc: Global,
    total: usize,
    levels: usize,
    loose: bool,
    negated: bool,
    tokens: &[Token],
    read: Result<(Operand, &'a [Token]), Fault>,
) -> Result<(Not, &'a [Token]), Fault>
    requires within { length tokens.now ≤ total }
    requires small { total < 2 ^ 32 }
    requires read { Reads view_operand IsWholeOperand (operand loose (places total) (full_by levels (places total)))
        tokens.now read }
    ensures shorter { IfOk result (λ x. length x.1.now < length tokens.now) }
    ensures gives { Gives (λ x. (view_not x.0, kinds x.1.now)) result
        (behind_not negated (compare loose (places total) (full_by levels (places total)) (kinds tokens.now))) }
    ensures whole { IfOk result (λ x. IsWholeNot x.0) }
{
    let product = product_of(
        At {
            alloc,
            total,
            levels,
            loose,
            tokens,
        },
        read,
    );
    let sum = sum_of(
        At {
            alloc,
            total,
            levels,
            loose,
            tokens,
        },
        product,
    );
    not_of(
        negated,
        compare_of(
            At {
                alloc,
                total,
                levels,
                loose,
                tokens,
            },
            sum,
        ),
    )
}

// Puts the comparison that was read into its tree, with whether a `not` stands before it (`negated`). `read` has the
// comparison and the tokens behind it, or a fault, which is handed on.
#[inline(never)]
fn not_of<'a>(
    negated: bool,
    read: Result<(Compare, &'a [Token]), Fault>,
) -> Result<(Not, &'a [Token]), Fault>
    ensures shorter { (n : ℕ) → IfOk read.entry (λ x. length x.1.now < n) → IfOk result (λ x. length x.1.now < n) }
    ensures gives { (r : Read (Tree ACompare)) → Gives (λ x. (view_compare x.0, kinds x.1.now)) read.entry r
        → Gives (λ x. (view_not x.0, kinds x.1.now)) result (behind_not negated r) }
    ensures whole { IfOk read.entry (λ x. IsWholeCompare x.0) → IfOk result (λ x. IsWholeNot x.0) }
{
    let (inner, rest) = read?;
    Ok((Not { negated, inner }, rest))
}
