// The predicate that stands in braces.
ghost use Rattle.std.specs.Prelude.{◌≡◌, ◌≤◌, IfOk, Ok, length, map};
ghost use Rattle.eval_meaning.specs.Preds.{and_pred, atom_pred, not_pred, or_pred};
ghost use Rattle.script_grammar.specs.View.{listed, pand_of, por_of, view_pand, view_patom, view_pnot, view_por};
ghost use Rattle.script_values.specs.Gives.{Gives};
ghost use Rattle.expression_eval.specs.Steps.{after_count};
ghost use Rattle.script_values.specs.Values.{PredValue as a_pred};
ghost use Rattle.script_values.specs.View.{view_value};
ghost use Rattle.time_pred.specs.View.{view_pred};

use liq_base::Memory;
use script_grammar::predicate::{PAnd, PAtom, PNot, POr};
use script_values::{Machine, Stop, Value, count};
use std::alloc::Global;
use time_pred::{Pred, SharedPred};

/// The value of a predicate in braces; it counts 1.
pub fn counted_pred(alloc: Global, machine: &mut Machine, node: &POr) -> Result<Value, Stop>
    ensures { Gives (λ v. (view_value v, machine.new)) result
        (after_count (Ok (a_pred (or_pred (view_por node.now)))) machine.old) }
{
    count(machine, 1)?;
    let made = any_part(alloc, node)?;
    Ok(Value::Pred(SharedPred::new(alloc, made)?))
}

// The predicate of parts joined by `or`.
#[cycle(pred)]
fn any_part(alloc: Global, node: &POr) -> Result<Pred, Memory>
    ensures { IfOk result (λ p. view_pred p ≡ or_pred (view_por node.now)) }
{
    any_of(alloc, &node.parts)
}

// The predicate of a list of parts joined by `or`; a single one stays itself.
#[cycle(pred)]
#[tactic(auto, unfolding(eval_meaning::specs::Preds::or_pred, eval_meaning::specs::Preds::and_preds, eval_meaning::specs::Preds::and_pred, eval_meaning::specs::Preds::not_preds, eval_meaning::specs::Preds::not_pred, eval_meaning::specs::Preds::atom_pred))]
fn any_of(alloc: Global, parts: &[PAnd]) -> Result<Pred, Memory>
    ensures { IfOk result (λ p. view_pred p ≡ or_pred (por_of (listed (map view_pand parts.now)))) }
{
    match parts {
        // no predicate of the grammar
        [] => Ok(Pred::Never),
        [part] => all_parts(alloc, part),
        [_, _, ..] => several_any(alloc, parts),
    }
}

// The predicate of two or more parts joined by `or`.
#[cycle(pred)]
fn several_any(alloc: Global, parts: &[PAnd]) -> Result<Pred, Memory>
    requires { 2 ≤ length parts.now }
    ensures { IfOk result (λ p. view_pred p ≡ or_pred (por_of (listed (map view_pand parts.now)))) }
{
    let made = each_and(alloc, parts)?;
    Ok(Pred::Any(made))
}

// The predicates of these parts of an `or`, in order; each is itself parts joined by `and`.
#[cycle(pred)]
fn each_and(alloc: Global, parts: &[PAnd]) -> Result<Vec<Pred>, Memory>
    ensures { IfOk result (λ made. map view_pred made.items ≡ map (λ a. and_pred (view_pand a)) parts.now) }
{
    let mut made = Vec::new(alloc);
    for part in parts {
        made.push(all_parts(alloc, part)?)?;
    }
    Ok(made)
}

// The predicate of parts joined by `and`.
#[cycle(pred)]
fn all_parts(alloc: Global, node: &PAnd) -> Result<Pred, Memory>
    ensures { IfOk result (λ p. view_pred p ≡ and_pred (view_pand node.now)) }
{
    all_of(alloc, &node.parts)
}

// The predicate of a list of parts joined by `and`; a single one stays itself.
#[cycle(pred)]
#[tactic(auto, unfolding(eval_meaning::specs::Preds::or_pred, eval_meaning::specs::Preds::and_preds, eval_meaning::specs::Preds::and_pred, eval_meaning::specs::Preds::not_preds, eval_meaning::specs::Preds::not_pred, eval_meaning::specs::Preds::atom_pred))]
fn all_of(alloc: Global, parts: &[PNot]) -> Result<Pred, Memory>
    ensures { IfOk result (λ p. view_pred p ≡ and_pred (pand_of (listed (map view_pnot parts.now)))) }
{
    match parts {
        // no predicate of the grammar
        [] => Ok(Pred::Always),
        [part] => one_part(alloc, part),
        [_, _, ..] => several_all(alloc, parts),
    }
}

// The predicate of two or more parts joined by `and`.
#[cycle(pred)]
fn several_all(alloc: Global, parts: &[PNot]) -> Result<Pred, Memory>
    requires { 2 ≤ length parts.now }
    ensures { IfOk result (λ p. view_pred p ≡ and_pred (pand_of (listed (map view_pnot parts.now)))) }
{
    let made = each_not(alloc, parts)?;
    Ok(Pred::All(made))
}

// The predicate of each of these parts of an `and`.
#[cycle(pred)]
fn each_not(alloc: Global, parts: &[PNot]) -> Result<Vec<Pred>, Memory>
    ensures { IfOk result (λ made. map view_pred made.items ≡ map (λ n. not_pred (view_pnot n)) parts.now) }
{
    let mut made = Vec::new(alloc);
    for part in parts {
        made.push(one_part(alloc, part)?)?;
    }
    Ok(made)
}

// The predicate of a part of an `and`, perhaps behind `not`.
#[cycle(pred)]
#[tactic(auto, unfolding(eval_meaning::specs::Preds::not_pred))]
fn one_part(alloc: Global, node: &PNot) -> Result<Pred, Memory>
    ensures { IfOk result (λ p. view_pred p ≡ not_pred (view_pnot node.now)) }
{
    let inside = atom(alloc, &node.atom)?;
    if node.negated {
        Ok(Pred::Not(Box::new(alloc, inside)?))
    } else {
        Ok(inside)
    }
}

// The predicate of an atom: a truth, a mark, an interval, or parentheses.
#[cycle(pred)]
#[tactic(auto, unfolding(eval_meaning::specs::Preds::atom_pred))]
fn atom(alloc: Global, node: &PAtom) -> Result<Pred, Memory>
    ensures { IfOk result (λ p. view_pred p ≡ atom_pred (view_patom node.now)) }
{
    match node {
        PAtom::True => Ok(Pred::Always),
        PAtom::False => Ok(Pred::Never),
        PAtom::At(mark) => Ok(Pred::At(*mark)),
        PAtom::Between(from, to) => Ok(Pred::Between(*from, *to)),
        PAtom::Paren(inside) => any_part(alloc, inside),
    }
}
