// The types of operands joined by `or` and `and`, and of `not`.
ghost use Rattle.std.specs.Prelude.{length, map, IfOk, ◌<◌};
ghost use Rattle.script_grammar.specs.Tree.{more, none};
ghost use Rattle.script_grammar.specs.View.{listed, view_and, view_expr, view_not};
ghost use Rattle.type_steps.specs.Flow.{AreJoined, IsTypeOf};
ghost use Rattle.expression_types.specs.Seen.{IsSeen, env_of, founds};
ghost use Rattle.expression_types.specs.Order.{AreAddedIf, AreAddedWhere, tokens_used};

use crate::arithmetic::type_compare;
use crate::environment::{FoundUse, Names};
use crate::leaves::some_if;
use liq_base::Memory;
use script_grammar::tree::{And, Expr, Not};
use std::alloc::Global;
use type_steps::{is_truth, is_truth_of_many, same};
use type_terms::Subst;

/// The number of the type variable of an expression; `None` where it has no type. It fails only where memory is
/// refused.
///
/// Where it has a type, one use for each name of its text was added, in the order of the tokens.
#[cycle(value)]
pub fn type_expr(
    alloc: Global,
    subst: &mut Subst,
    names: Names<'_, '_>,
    uses: &mut Vec<FoundUse>,
    expr: &Expr,
) -> Result<Option<u64>, Memory>
    requires seen { IsSeen subst.old names uses.old.items }
    ensures typed { IfOk result
        (λ r. IsTypeOf subst.old subst.new (env_of names.entry) (view_expr expr.now) (founds uses.old.items)
        (founds uses.new.items) r) }
    ensures order { IfOk result
        (λ r. AreAddedIf names.entry (tokens_used (view_expr expr.now)) (founds uses.old.items) (founds uses.new.items)
        r) }
{
    match type_and(alloc, subst, names, uses, &expr.first)? {
        None => Ok(None),
        Some(n) => {
            let joined = join_ands(alloc, subst, names, uses, n, &expr.rest)?;
            if !joined {
                return Ok(None);
            }
            let yes = is_truth_of_many(alloc, subst, n, expr.rest.len())?;
            Ok(some_if(yes, n))
        }
    }
}

/// Types one part of an `or` and makes it equal to type variable `n`, the type of the first part; false where that
/// cannot be.
/// `names` tells what the names in it mean; the list `uses` takes a use of each. It fails only where memory is refused.
#[cycle(value)]
fn join_and(
    alloc: Global,
    subst: &mut Subst,
    names: Names<'_, '_>,
    uses: &mut Vec<FoundUse>,
    n: u64,
    and: &And,
) -> Result<bool, Memory>
    requires seen { IsSeen subst.old names uses.old.items }
    requires inside { n < length subst.old.types }
    ensures typed { IfOk result
        (λ yes. AreJoined subst.old subst.new (env_of names.entry) (more (view_and and.now) none) n
        (founds uses.old.items) (founds uses.new.items) yes) }
    ensures order { IfOk result
        (λ yes. AreAddedWhere names.entry (tokens_used (view_and and.now)) (founds uses.old.items)
        (founds uses.new.items) yes) }
{
    match type_and(alloc, subst, names, uses, and)? {
        None => Ok(false),
        Some(other) => {
            let yes = same(alloc, subst, n, other)?;
            Ok(yes)
        }
    }
}

/// Types the other parts of an `or` and makes each equal to type variable `n`, the type of the first part; false where
/// that cannot be.
/// `names` tells what the names in it mean; the list `uses` takes a use of each. It fails only where memory is refused.
#[cycle(value)]
fn join_ands(
    alloc: Global,
    subst: &mut Subst,
    names: Names<'_, '_>,
    uses: &mut Vec<FoundUse>,
    n: u64,
    ands: &[And],
) -> Result<bool, Memory>
    requires seen { IsSeen subst.old names uses.old.items }
    requires inside { n < length subst.old.types }
    ensures typed { IfOk result
        (λ yes. AreJoined subst.old subst.new (env_of names.entry) (listed (map view_and ands.now)) n
        (founds uses.old.items) (founds uses.new.items) yes) }
    ensures order { IfOk result
        (λ yes. AreAddedWhere names.entry (tokens_used (listed (map view_and ands.now))) (founds uses.old.items)
        (founds uses.new.items) yes) }
{
    for and in ands {
        let joined = join_and(alloc, subst, names, uses, n, and)?;
        if !joined {
            return Ok(false);
        }
    }
    Ok(true)
}

/// The type of parts joined by `and`: the number of its type variable, or `None` where the parts have no type.
/// `names` tells what the names in it mean; the list `uses` takes a use of each. It fails only where memory is refused.
#[cycle(value)]
fn type_and(
    alloc: Global,
    subst: &mut Subst,
    names: Names<'_, '_>,
    uses: &mut Vec<FoundUse>,
    and: &And,
) -> Result<Option<u64>, Memory>
    requires seen { IsSeen subst.old names uses.old.items }
    ensures typed { IfOk result
        (λ r. IsTypeOf subst.old subst.new (env_of names.entry) (view_and and.now) (founds uses.old.items)
        (founds uses.new.items) r) }
    ensures order { IfOk result
        (λ r. AreAddedIf names.entry (tokens_used (view_and and.now)) (founds uses.old.items) (founds uses.new.items)
        r) }
{
    match type_not(alloc, subst, names, uses, &and.first)? {
        None => Ok(None),
        Some(n) => {
            let joined = join_nots(alloc, subst, names, uses, n, &and.rest)?;
            if !joined {
                return Ok(None);
            }
            let yes = is_truth_of_many(alloc, subst, n, and.rest.len())?;
            Ok(some_if(yes, n))
        }
    }
}

/// Types one part of an `and` and makes it equal to type variable `n`, the type of the first part; false where that
/// cannot be.
/// `names` tells what the names in it mean; the list `uses` takes a use of each. It fails only where memory is refused.
#[cycle(value)]
fn join_not(
    alloc: Global,
    subst: &mut Subst,
    names: Names<'_, '_>,
    uses: &mut Vec<FoundUse>,
    n: u64,
    not: &Not,
) -> Result<bool, Memory>
    requires seen { IsSeen subst.old names uses.old.items }
    requires inside { n < length subst.old.types }
    ensures typed { IfOk result
        (λ yes. AreJoined subst.old subst.new (env_of names.entry) (more (view_not not.now) none) n
        (founds uses.old.items) (founds uses.new.items) yes) }
    ensures order { IfOk result
        (λ yes. AreAddedWhere names.entry (tokens_used (view_not not.now)) (founds uses.old.items)
        (founds uses.new.items) yes) }
{
    match type_not(alloc, subst, names, uses, not)? {
        None => Ok(false),
        Some(other) => {
            let yes = same(alloc, subst, n, other)?;
            Ok(yes)
        }
    }
}

/// Types the other parts of an `and` and makes each equal to type variable `n`, the type of the first part; false
/// where that cannot be.
/// `names` tells what the names in it mean; the list `uses` takes a use of each. It fails only where memory is refused.
#[cycle(value)]
fn join_nots(
    alloc: Global,
    subst: &mut Subst,
    names: Names<'_, '_>,
    uses: &mut Vec<FoundUse>,
    n: u64,
    nots: &[Not],
) -> Result<bool, Memory>
    requires seen { IsSeen subst.old names uses.old.items }
    requires inside { n < length subst.old.types }
    ensures typed { IfOk result
        (λ yes. AreJoined subst.old subst.new (env_of names.entry) (listed (map view_not nots.now)) n
        (founds uses.old.items) (founds uses.new.items) yes) }
    ensures order { IfOk result
        (λ yes. AreAddedWhere names.entry (tokens_used (listed (map view_not nots.now))) (founds uses.old.items)
        (founds uses.new.items) yes) }
{
    for not in nots {
        let joined = join_not(alloc, subst, names, uses, n, not)?;
        if !joined {
            return Ok(false);
        }
    }
    Ok(true)
}

/// The type of a comparison, perhaps behind `not`: the number of its type variable, or `None` where there is no type.
/// `names` tells what the names in it mean; the list `uses` takes a use of each. It fails only where memory is refused.
#[cycle(value)]
fn type_not(
    alloc: Global,
    subst: &mut Subst,
    names: Names<'_, '_>,
    uses: &mut Vec<FoundUse>,
    not: &Not,
) -> Result<Option<u64>, Memory>
    requires seen { IsSeen subst.old names uses.old.items }
    ensures typed { IfOk result
        (λ r. IsTypeOf subst.old subst.new (env_of names.entry) (view_not not.now) (founds uses.old.items)
        (founds uses.new.items) r) }
    ensures order { IfOk result
        (λ r. AreAddedIf names.entry (tokens_used (view_not not.now)) (founds uses.old.items) (founds uses.new.items)
        r) }
{
    match type_compare(alloc, subst, names, uses, &not.inner)? {
        None => Ok(None),
        Some(n) => {
            if not.negated {
                let yes = is_truth(alloc, subst, n)?;
                Ok(some_if(yes, n))
            } else {
                Ok(Some(n))
            }
        }
    }
}
