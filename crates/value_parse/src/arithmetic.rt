// Comparisons, sums and products.
ghost use Rattle.std.specs.Prelude.{◌<◌, ◌≤◌, ◌^◌, IfOk, length, map};
ghost use Rattle.std.specs.List.{All};
ghost use Rattle.script_grammar.specs.Kinds.{is_added, is_multiplied};
ghost use Rattle.script_grammar.specs.Read.{next, many};
ghost use Rattle.script_grammar.specs.ReadValue.{full_by, compare, behind_op, next_op, sum, added, product, multiplied};
ghost use Rattle.script_grammar.specs.ReadValue.{operand};
ghost use Rattle.script_grammar.specs.View.{listed, view_compare, view_sum, view_added, view_product, view_multiplied};
ghost use Rattle.script_grammar.specs.View.{view_operand};
ghost use Rattle.script_grammar.specs.Whole.{IsWholeCompare, IsWholeSum, IsWholeAdded, IsWholeProduct};
ghost use Rattle.script_grammar.specs.Whole.{IsWholeMultiplied, IsWholeOperand};
ghost use Rattle.parse_base.specs.Gives.{kinds, Gives, places, Reads, ReadsOn};

use crate::at::At;
use crate::items::keep;
use crate::number::{next_op, product_sign, sum_sign};
use crate::operands::operand;
use parse_base::Fault;
use parse_base::token::{self, Class, place};
use script_grammar::make;
use script_grammar::tree::{self, Added, Compare, Compared, Multiplied, Product, Sum};
use script_lex::Token;
use std::alloc::Global;

/// Goes on with a comparison whose left sum was read already (`read`), at `at`: sum ((`==` | `!=` | `<` | `<=` | `>` |
/// `>=`) sum)? Answers the comparison and the tokens behind it.
#[inline(never)]
#[cycle(value)]
#[tactic(auto, unfolding(script_grammar::specs::ReadValue::compare))]
pub fn compare_of<'a>(
    at: At<'_>,
    read: Result<(Sum, &'a [Token]), Fault>,
) -> Result<(Compare, &'a [Token]), Fault>
    requires within { length at.tokens.now ≤ at.total }
    requires small { at.total < 2 ^ 32 }
    requires read { Reads view_sum IsWholeSum (sum at.loose (places at.total) (full_by at.levels (places at.total)))
        at.tokens.now
        read }
    ensures { Reads view_compare IsWholeCompare
        (compare at.entry.loose (places at.entry.total) (full_by at.entry.levels (places at.entry.total)))
        at.entry.tokens.now result }
{
    let (left, rest) = read?;
    behind_sum(at.alloc, at.total, at.levels, at.loose, left, rest)
}

// Reads the right side of a comparison, an operator and a sum, behind the sum `left`. Where no operator follows, the
// comparison is `left` alone. `loose` says that a `(` may stand behind it. `total` counts the tokens of the whole
// script; values nest less than `levels` deep.
#[cycle(value)]
fn behind_sum(
    alloc: Global,
    total: usize,
    levels: usize,
    loose: bool,
    left: Sum,
    tokens: &[Token],
) -> Result<(Compare, &[Token]), Fault>
    requires within { length tokens.now ≤ total }
    requires small { total < 2 ^ 32 }
    requires whole { IsWholeSum left }
    ensures { ReadsOn view_compare IsWholeCompare (behind_op loose (places total) (full_by levels (places total))
        (view_sum left) (next_op (kinds tokens.now))) tokens.now result }
{
    match (next_op(tokens), tokens) {
        (Some(op), [_, after @ ..]) => {
            let at = place(total, tokens);
            let first = operand(At {
                alloc,
                total,
                levels,
                loose,
                tokens: after,
            });
            let first = product_of(
                At {
                    alloc,
                    total,
                    levels,
                    loose,
                    tokens: after,
                },
                first,
            );
            let (sum, rest) = sum_of(
                At {
                    alloc,
                    total,
                    levels,
                    loose,
                    tokens: after,
                },
                first,
            )?;
            let right = Some(Compared { at, op, sum });
            Ok((Compare { left, right }, rest))
        }
        _ => Ok((Compare { left, right: None }, tokens)),
    }
}

/// Goes on with a sum whose first product was read already (`read`), at `at`: product ((`+` | `-`) product)* Answers
/// the sum and the tokens behind it.
#[inline(never)]
#[cycle(value)]
#[tactic(auto, unfolding(script_grammar::specs::ReadValue::sum))]
pub fn sum_of<'a>(
    at: At<'_>,
    read: Result<(Product, &'a [Token]), Fault>,
) -> Result<(Sum, &'a [Token]), Fault>
    requires within { length at.tokens.now ≤ at.total }
    requires small { at.total < 2 ^ 32 }
    requires read { Reads view_product IsWholeProduct
        (product at.loose (places at.total) (full_by at.levels (places at.total)))
        at.tokens.now read }
    ensures { Reads view_sum IsWholeSum (sum at.entry.loose (places at.entry.total)
        (full_by at.entry.levels (places at.entry.total))) at.entry.tokens.now result }
{
    let (first, rest) = read?;
    let (others, rest) = addends(At { tokens: rest, ..at })?;
    Ok((make::sum(first, others), rest))
}

// Reads the further parts of a sum, ((`+` | `-`) product)*, from where reading stands (`at`), and answers them with the
// tokens behind them.
#[cycle(value)]
fn addends<'a>(at: At<'a>) -> Result<(Vec<Added>, &'a [Token]), Fault>
    requires within { length at.tokens.now ≤ at.total }
    requires small { at.total < 2 ^ 32 }
    ensures { ReadsOn (λ x. listed (map view_added x.items)) (λ x. All IsWholeAdded x.items) (many (next is_added)
        (added at.entry.loose (places at.entry.total) (full_by at.entry.levels (places at.entry.total))))
        at.entry.tokens.now result }
{
    let mut items = Vec::new(at.alloc);
    let mut rest = at.tokens;
    'turns: while token::next_is(rest, Class::Added) {
        rest = keep(&mut items, added(At { tokens: rest, ..at }))?;
    }
    Ok((items, rest))
}

// Reads one further part of a sum, (`+` | `-`) product, from where reading stands (`here`): the part with its sign, and
// the tokens behind it.
#[cycle(value)]
#[tactic(auto, using(crate::proofs::Signs::added_fails, crate::proofs::Signs::added_part_fails, crate::proofs::Signs::added_goes))]
fn added<'a>(here: At<'a>) -> Result<(Added, &'a [Token]), Fault>
    requires within { length here.tokens.now ≤ here.total }
    requires small { here.total < 2 ^ 32 }
    ensures shorter { IfOk result (λ x. length x.1.now < length here.entry.tokens.now) }
    ensures gives { Gives (λ x. (view_added x.0, kinds x.1.now)) result
        (added here.entry.loose (places here.entry.total) (full_by here.entry.levels (places here.entry.total))
        (kinds here.entry.tokens.now)) }
    ensures whole { IfOk result (λ x. IsWholeAdded x.0) }
{
    let at = place(here.total, here.tokens);
    let (minus, rest) = sum_sign(here.tokens)?;
    let (product, rest) = product_of(
        At {
            tokens: rest,
            ..here
        },
        operand(At {
            tokens: rest,
            ..here
        }),
    )?;
    Ok((Added { at, minus, product }, rest))
}

/// Goes on with a product whose first operand was read already (`read`), at `at`: operand ((`*` | `/`) operand)*
/// Answers the product and the tokens behind it.
#[inline(never)]
#[cycle(value)]
#[tactic(auto, unfolding(script_grammar::specs::ReadValue::product))]
pub fn product_of<'a>(
    at: At<'_>,
    read: Result<(tree::Operand, &'a [Token]), Fault>,
) -> Result<(Product, &'a [Token]), Fault>
    requires within { length at.tokens.now ≤ at.total }
    requires small { at.total < 2 ^ 32 }
    requires read { Reads view_operand IsWholeOperand
        (operand at.loose (places at.total) (full_by at.levels (places at.total)))
        at.tokens.now read }
    ensures { Reads view_product IsWholeProduct
        (product at.entry.loose (places at.entry.total) (full_by at.entry.levels (places at.entry.total)))
        at.entry.tokens.now result }
{
    let (first, rest) = read?;
    let (others, rest) = factors(At { tokens: rest, ..at })?;
    Ok((make::product(first, others), rest))
}

// Reads the further parts of a product, ((`*` | `/`) operand)*, from where reading stands (`at`), and answers them with
// the tokens behind them.
#[cycle(value)]
fn factors<'a>(at: At<'a>) -> Result<(Vec<Multiplied>, &'a [Token]), Fault>
    requires within { length at.tokens.now ≤ at.total }
    requires small { at.total < 2 ^ 32 }
    ensures { ReadsOn (λ x. listed (map view_multiplied x.items)) (λ x. All IsWholeMultiplied x.items) (many (next
        is_multiplied) (multiplied at.entry.loose (places at.entry.total)
        (full_by at.entry.levels (places at.entry.total)))) at.entry.tokens.now result }
{
    let mut items = Vec::new(at.alloc);
    let mut rest = at.tokens;
    'turns: while token::next_is(rest, Class::Multiplied) {
        rest = keep(&mut items, multiplied(At { tokens: rest, ..at }))?;
    }
    Ok((items, rest))
}

// Reads one further part of a product, (`*` | `/`) operand, from where reading stands (`here`): the part with its sign,
// and the tokens behind it.
#[cycle(value)]
#[tactic(auto, using(crate::proofs::Signs::multiplied_fails, crate::proofs::Signs::multiplied_part_fails, crate::proofs::Signs::multiplied_goes))]
fn multiplied<'a>(here: At<'a>) -> Result<(Multiplied, &'a [Token]), Fault>
    requires within { length here.tokens.now ≤ here.total }
    requires small { here.total < 2 ^ 32 }
    ensures shorter { IfOk result (λ x. length x.1.now < length here.entry.tokens.now) }
    ensures gives { Gives (λ x. (view_multiplied x.0, kinds x.1.now)) result
        (multiplied here.entry.loose (places here.entry.total) (full_by here.entry.levels (places here.entry.total))
        (kinds here.entry.tokens.now)) }
    ensures whole { IfOk result (λ x. IsWholeMultiplied x.0) }
{
    let at = place(here.total, here.tokens);
    let (divide, rest) = product_sign(here.tokens)?;
    let (operand, rest) = operand(At {
        tokens: rest,
        ..here
    })?;
    Ok((
        Multiplied {
            at,
            divide,
            operand,
        },
        rest,
    ))
}
