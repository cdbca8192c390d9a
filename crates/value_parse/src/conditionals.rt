// `if`, each of whose parts is boxed as soon as it is read.
ghost use Rattle.std.specs.Prelude.{◌<◌, ◌≤◌, ◌^◌, IfOk, length};
ghost use Rattle.script_grammar.specs.ReadValue.{full_by, choice};
ghost use Rattle.script_grammar.specs.View.{view_full, view_if};
ghost use Rattle.script_grammar.specs.Whole.{IsWholeFull, IsWholeIf};
ghost use Rattle.parse_base.specs.Gives.{kinds, Gives, places, Reads};
ghost use Rattle.value_parse.specs.Operand.{chosen, branches, otherwise, seen_branches, seen_otherwise};

use crate::atoms::make_choice;
use crate::values::full_box;
use parse_base::Fault;
use parse_base::token::{self, Class, place};
use script_grammar::tree::{Full, If};
use script_lex::Token;
use std::alloc::Global;

/// Reads an `if`, `if` value `then` value `else` value `end`: its tree, and the tokens behind the `end`. `total` counts
/// the tokens of the whole script; values nest less than `levels` deep.
#[cycle(value)]
#[tactic(auto, using(crate::proofs::Choices::choice_goes, crate::proofs::Choices::choice_fails))]
pub fn choice(
    alloc: Global,
    total: usize,
    levels: usize,
    tokens: &[Token],
) -> Result<(If, &[Token]), Fault>
    requires within { length tokens.now ≤ total }
    requires small { total < 2 ^ 32 }
    ensures shorter { IfOk result (λ x. length x.1.now < length tokens.now) }
    ensures gives { Gives (λ x. (view_if x.0, kinds x.1.now)) result
        (choice (places total) (full_by levels (places total)) (kinds tokens.now)) }
    ensures whole { IfOk result (λ x. IsWholeIf x.0) }
{
    let at = place(total, tokens);
    let ((), rest) = token::expect(tokens, Class::If)?;
    chosen(alloc, total, levels, at, rest)
}

// Reads an `if` behind its first word, whose index is `at`: value `then` value `else` value `end`. Answers its tree,
// and the tokens behind the `end`. `total` counts the tokens of the whole script; values nest less than `levels` deep.
#[cycle(value)]
fn chosen(
    alloc: Global,
    total: usize,
    levels: usize,
    at: u32,
    tokens: &[Token],
) -> Result<(If, &[Token]), Fault>
    requires within { length tokens.now ≤ total }
    requires small { total < 2 ^ 32 }
    ensures { Reads view_if IsWholeIf (chosen at (full_by levels (places total))) tokens.now result }
{
    let (condition, rest) = full_box(alloc, total, levels, tokens)?;
    let (then_part, else_part, rest) = branches(alloc, total, levels, rest)?;
    Ok((make_choice(at, condition, then_part, else_part), rest))
}

// Reads the two branches of an `if`, `then` value `else` value `end`: both values, and the tokens behind the `end`.
// `total` counts the tokens of the whole script; values nest less than `levels` deep.
#[cycle(value)]
fn branches(
    alloc: Global,
    total: usize,
    levels: usize,
    tokens: &[Token],
) -> Result<(Box<Full>, Box<Full>, &[Token]), Fault>
    requires within { length tokens.now ≤ total }
    requires small { total < 2 ^ 32 }
    ensures shorter { IfOk result (λ x. length x.2.now < length tokens.now) }
    ensures gives { Gives (λ x. (seen_branches (view_full x.0.value) (view_full x.1.value), kinds x.2.now)) result
        (branches (full_by levels (places total)) (kinds tokens.now)) }
    ensures whole { IfOk result (λ x. IsWholeFull x.0.value × IsWholeFull x.1.value) }
{
    let ((), rest) = token::expect(tokens, Class::Then)?;
    let (then_part, rest) = full_box(alloc, total, levels, rest)?;
    let (else_part, rest) = otherwise(alloc, total, levels, rest)?;
    Ok((then_part, else_part, rest))
}

// Reads the second branch of an `if`, `else` value `end`: the value, and the tokens behind the `end`. `total` counts
// the tokens of the whole script; values nest less than `levels` deep.
#[cycle(value)]
fn otherwise(
    alloc: Global,
    total: usize,
    levels: usize,
    tokens: &[Token],
) -> Result<(Box<Full>, &[Token]), Fault>
    requires within { length tokens.now ≤ total }
    requires small { total < 2 ^ 32 }
    ensures shorter { IfOk result (λ x. length x.1.now < length tokens.now) }
    ensures gives { Gives (λ x. (seen_otherwise (view_full x.0.value), kinds x.1.now)) result
        (otherwise (full_by levels (places total)) (kinds tokens.now)) }
    ensures whole { IfOk result (λ x. IsWholeFull x.0.value) }
{
    let ((), rest) = token::expect(tokens, Class::Else)?;
    let (part, rest) = full_box(alloc, total, levels, rest)?;
    let ((), rest) = token::expect(rest, Class::End)?;
    Ok((part, rest))
}
