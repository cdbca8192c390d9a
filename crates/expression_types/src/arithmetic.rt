// The types of comparisons, sums and products.
ghost use Rattle.std.specs.Prelude.{length, map, IfOk, ◌<◌};
ghost use Rattle.script_grammar.specs.Tree.{more, none};
ghost use Rattle.script_grammar.specs.View.{listed, view_added, view_compare, view_multiplied, view_product, view_sum};
ghost use Rattle.type_steps.specs.Flow.{AreJoined, IsTypeOf};
ghost use Rattle.expression_types.specs.Seen.{IsSeen, env_of, founds};
ghost use Rattle.expression_types.specs.Order.{AreAddedIf, AreAddedWhere, tokens_used};

use crate::environment::{FoundUse, Names};
use crate::leaves::some_if;
use crate::values::type_operand;
use liq_base::Memory;
use script_grammar::tree::{Added, Compare, Multiplied, Product, Sum};
use std::alloc::Global;
use type_steps::{is_number, is_number_of_many, new_type, same};
use type_terms::{Subst, Ty};

/// The type of a sum, perhaps compared with another: the number of its type variable, or `None` where it has no type.
/// `names` tells what the names in it mean; the list `uses` takes a use of each. It fails only where memory is refused.
#[cycle(value)]
pub fn type_compare(
    alloc: Global,
    subst: &mut Subst,
    names: Names<'_, '_>,
    uses: &mut Vec<FoundUse>,
    compare: &Compare,
) -> Result<Option<u64>, Memory>
    requires seen { IsSeen subst.old names uses.old.items }
    ensures typed { IfOk result
        (λ r. IsTypeOf subst.old subst.new (env_of names.entry) (view_compare compare.now) (founds uses.old.items)
        (founds uses.new.items) r) }
    ensures order { IfOk result
        (λ r. AreAddedIf names.entry (tokens_used (view_compare compare.now)) (founds uses.old.items)
        (founds uses.new.items) r) }
{
    match type_sum(alloc, subst, names, uses, &compare.left)? {
        None => Ok(None),
        Some(n) => match &compare.right {
            None => Ok(Some(n)),
            Some(right) => {
                let joined = join_sum(alloc, subst, names, uses, n, &right.sum)?;
                if !joined {
                    return Ok(None);
                }
                let yes = is_number(alloc, subst, n)?;
                if !yes {
                    return Ok(None);
                }
                let truth = new_type(subst, Ty::Bool)?;
                Ok(Some(truth))
            }
        },
    }
}

/// Types the right side of a comparison and makes it equal to type variable `n`, the type of the left side; false
/// where that cannot be.
/// `names` tells what the names in it mean; the list `uses` takes a use of each. It fails only where memory is refused.
#[cycle(value)]
fn join_sum(
    alloc: Global,
    subst: &mut Subst,
    names: Names<'_, '_>,
    uses: &mut Vec<FoundUse>,
    n: u64,
    sum: &Sum,
) -> Result<bool, Memory>
    requires seen { IsSeen subst.old names uses.old.items }
    requires inside { n < length subst.old.types }
    ensures typed { IfOk result
        (λ yes. AreJoined subst.old subst.new (env_of names.entry) (more (view_sum sum.now) none) n
        (founds uses.old.items) (founds uses.new.items) yes) }
    ensures order { IfOk result
        (λ yes. AreAddedWhere names.entry (tokens_used (view_sum sum.now)) (founds uses.old.items)
        (founds uses.new.items) yes) }
{
    match type_sum(alloc, subst, names, uses, sum)? {
        None => Ok(false),
        Some(other) => {
            let yes = same(alloc, subst, n, other)?;
            Ok(yes)
        }
    }
}

/// The type of products joined by `+` and `-`: the number of its type variable, or `None` where there is no type.
/// `names` tells what the names in it mean; the list `uses` takes a use of each. It fails only where memory is refused.
#[cycle(value)]
fn type_sum(
    alloc: Global,
    subst: &mut Subst,
    names: Names<'_, '_>,
    uses: &mut Vec<FoundUse>,
    sum: &Sum,
) -> Result<Option<u64>, Memory>
    requires seen { IsSeen subst.old names uses.old.items }
    ensures typed { IfOk result
        (λ r. IsTypeOf subst.old subst.new (env_of names.entry) (view_sum sum.now) (founds uses.old.items)
        (founds uses.new.items) r) }
    ensures order { IfOk result
        (λ r. AreAddedIf names.entry (tokens_used (view_sum sum.now)) (founds uses.old.items) (founds uses.new.items)
        r) }
{
    match type_product(alloc, subst, names, uses, &sum.first)? {
        None => Ok(None),
        Some(n) => {
            let joined = join_addends(alloc, subst, names, uses, n, &sum.rest)?;
            if !joined {
                return Ok(None);
            }
            let yes = is_number_of_many(alloc, subst, n, sum.rest.len())?;
            Ok(some_if(yes, n))
        }
    }
}

/// Types one term of a sum and makes it equal to type variable `n`, the type of the first term; false where that
/// cannot be.
/// `names` tells what the names in it mean; the list `uses` takes a use of each. It fails only where memory is refused.
#[cycle(value)]
fn join_added(
    alloc: Global,
    subst: &mut Subst,
    names: Names<'_, '_>,
    uses: &mut Vec<FoundUse>,
    n: u64,
    added: &Added,
) -> Result<bool, Memory>
    requires seen { IsSeen subst.old names uses.old.items }
    requires inside { n < length subst.old.types }
    ensures typed { IfOk result
        (λ yes. AreJoined subst.old subst.new (env_of names.entry) (more (view_added added.now) none) n
        (founds uses.old.items) (founds uses.new.items) yes) }
    ensures order { IfOk result
        (λ yes. AreAddedWhere names.entry (tokens_used (view_added added.now)) (founds uses.old.items)
        (founds uses.new.items) yes) }
{
    match type_product(alloc, subst, names, uses, &added.product)? {
        None => Ok(false),
        Some(other) => {
            let yes = same(alloc, subst, n, other)?;
            Ok(yes)
        }
    }
}

/// Types the other terms of a sum and makes each equal to type variable `n`, the type of the first term; false where
/// that cannot be.
/// `names` tells what the names in it mean; the list `uses` takes a use of each. It fails only where memory is refused.
#[cycle(value)]
fn join_addends(
    alloc: Global,
    subst: &mut Subst,
    names: Names<'_, '_>,
    uses: &mut Vec<FoundUse>,
    n: u64,
    addends: &[Added],
) -> Result<bool, Memory>
    requires seen { IsSeen subst.old names uses.old.items }
    requires inside { n < length subst.old.types }
    ensures typed { IfOk result
        (λ yes. AreJoined subst.old subst.new (env_of names.entry) (listed (map view_added addends.now)) n
        (founds uses.old.items) (founds uses.new.items) yes) }
    ensures order { IfOk result
        (λ yes. AreAddedWhere names.entry (tokens_used (listed (map view_added addends.now))) (founds uses.old.items)
        (founds uses.new.items) yes) }
{
    for added in addends {
        let joined = join_added(alloc, subst, names, uses, n, added)?;
        if !joined {
            return Ok(false);
        }
    }
    Ok(true)
}

/// The type of operands joined by `*` and `/`: the number of its type variable, or `None` where there is no type.
/// `names` tells what the names in it mean; the list `uses` takes a use of each. It fails only where memory is refused.
#[cycle(value)]
fn type_product(
    alloc: Global,
    subst: &mut Subst,
    names: Names<'_, '_>,
    uses: &mut Vec<FoundUse>,
    product: &Product,
) -> Result<Option<u64>, Memory>
    requires seen { IsSeen subst.old names uses.old.items }
    ensures typed { IfOk result
        (λ r. IsTypeOf subst.old subst.new (env_of names.entry) (view_product product.now) (founds uses.old.items)
        (founds uses.new.items) r) }
    ensures order { IfOk result
        (λ r. AreAddedIf names.entry (tokens_used (view_product product.now)) (founds uses.old.items)
        (founds uses.new.items) r) }
{
    match type_operand(alloc, subst, names, uses, &product.first)? {
        None => Ok(None),
        Some(n) => {
            let joined = join_factors(alloc, subst, names, uses, n, &product.rest)?;
            if !joined {
                return Ok(None);
            }
            let yes = is_number_of_many(alloc, subst, n, product.rest.len())?;
            Ok(some_if(yes, n))
        }
    }
}

/// Types one factor of a product and makes it equal to type variable `n`, the type of the first factor; false where
/// that cannot be.
/// `names` tells what the names in it mean; the list `uses` takes a use of each. It fails only where memory is refused.
#[cycle(value)]
fn join_multiplied(
    alloc: Global,
    subst: &mut Subst,
    names: Names<'_, '_>,
    uses: &mut Vec<FoundUse>,
    n: u64,
    multiplied: &Multiplied,
) -> Result<bool, Memory>
    requires seen { IsSeen subst.old names uses.old.items }
    requires inside { n < length subst.old.types }
    ensures typed { IfOk result
        (λ yes. AreJoined subst.old subst.new (env_of names.entry) (more (view_multiplied multiplied.now) none) n
        (founds uses.old.items) (founds uses.new.items) yes) }
    ensures order { IfOk result
        (λ yes. AreAddedWhere names.entry (tokens_used (view_multiplied multiplied.now)) (founds uses.old.items)
        (founds uses.new.items) yes) }
{
    match type_operand(alloc, subst, names, uses, &multiplied.operand)? {
        None => Ok(false),
        Some(other) => {
            let yes = same(alloc, subst, n, other)?;
            Ok(yes)
        }
    }
}

/// Types the other factors of a product and makes each equal to type variable `n`, the type of the first factor; false
/// where that cannot be.
/// `names` tells what the names in it mean; the list `uses` takes a use of each. It fails only where memory is refused.
#[cycle(value)]
fn join_factors(
    alloc: Global,
    subst: &mut Subst,
    names: Names<'_, '_>,
    uses: &mut Vec<FoundUse>,
    n: u64,
    factors: &[Multiplied],
) -> Result<bool, Memory>
    requires seen { IsSeen subst.old names uses.old.items }
    requires inside { n < length subst.old.types }
    ensures typed { IfOk result
        (λ yes. AreJoined subst.old subst.new (env_of names.entry) (listed (map view_multiplied factors.now)) n
        (founds uses.old.items) (founds uses.new.items) yes) }
    ensures order { IfOk result
        (λ yes. AreAddedWhere names.entry (tokens_used (listed (map view_multiplied factors.now)))
        (founds uses.old.items) (founds uses.new.items) yes) }
{
    for multiplied in factors {
        let joined = join_multiplied(alloc, subst, names, uses, n, multiplied)?;
        if !joined {
            return Ok(false);
        }
    }
    Ok(true)
}
