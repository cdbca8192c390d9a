// The types of full values and operands.
ghost use Rattle.std.specs.Prelude.{length, map, option_map, IfOk, ◌<◌};
ghost use Rattle.script_grammar.specs.Tree.{Listed, more, none};
ghost use Rattle.script_grammar.specs.View.{listed, tuple_of, view_full, view_if, view_operand};
ghost use Rattle.type_steps.specs.Flow.{AreJoined, AreTypesOf, IsTypeOf};
ghost use Rattle.expression_types.specs.Seen.{IsSeen, env_of, founds};
ghost use Rattle.expression_types.specs.Order.{AreAddedIf, AreAddedWhere, tokens_used};

use crate::calls::type_call;
use crate::environment::{FoundUse, Names};
use crate::leaves::{literal_type, some_if, type_name};
use crate::logic::type_expr;
use liq_base::Memory;
use script_grammar::lone_operand;
use script_grammar::tree::{Full, If, Operand};
use std::alloc::Global;
use type_steps::{is_truth, new_list, new_tuple, new_type, new_var, same};
use type_terms::{Subst, Ty};

/// The number of the type variable of a value; `None` where it has no type. It fails only where memory is refused.
///
/// Where it has a type, one use for each name of its text was added, in the order of the tokens.
#[cycle(value)]
pub fn type_full(
    alloc: Global,
    subst: &mut Subst,
    names: Names<'_, '_>,
    uses: &mut Vec<FoundUse>,
    full: &Full,
) -> Result<Option<u64>, Memory>
    requires seen { IsSeen subst.old names uses.old.items }
    ensures typed { IfOk result
        (λ r. IsTypeOf subst.old subst.new (env_of names.entry) (view_full full.now) (founds uses.old.items)
        (founds uses.new.items) r) }
    ensures order { IfOk result
        (λ r. AreAddedIf names.entry (tokens_used (view_full full.now)) (founds uses.old.items) (founds uses.new.items)
        r) }
{
    match full {
        Full::Minus { at: _, number } => {
            let n = literal_type(alloc, subst, number)?;
            Ok(Some(n))
        }
        Full::Plain(expr) => match lone_operand(expr) {
            Some(operand) => type_operand(alloc, subst, names, uses, operand),
            None => type_expr(alloc, subst, names, uses, expr),
        },
    }
}

/// The type of an operand: the number of its type variable, or `None` where it has no type.
/// `names` tells what the names in it mean; the list `uses` takes a use of each. It fails only where memory is refused.
#[cycle(value)]
pub fn type_operand(
    alloc: Global,
    subst: &mut Subst,
    names: Names<'_, '_>,
    uses: &mut Vec<FoundUse>,
    operand: &Operand,
) -> Result<Option<u64>, Memory>
    requires seen { IsSeen subst.old names uses.old.items }
    ensures typed { IfOk result
        (λ r. IsTypeOf subst.old subst.new (env_of names.entry) (view_operand operand.now) (founds uses.old.items)
        (founds uses.new.items) r) }
    ensures order { IfOk result
        (λ r. AreAddedIf names.entry (tokens_used (view_operand operand.now)) (founds uses.old.items)
        (founds uses.new.items) r) }
{
    match operand {
        Operand::Literal { at: _, value } => {
            let n = literal_type(alloc, subst, value)?;
            Ok(Some(n))
        }
        Operand::Str { at: _, text: _ } => {
            let n = new_type(subst, Ty::Text)?;
            Ok(Some(n))
        }
        Operand::Bool { at: _, value: _ } => {
            let n = new_type(subst, Ty::Bool)?;
            Ok(Some(n))
        }
        Operand::Name { at, name } => type_name(alloc, subst, names, uses, *at, name),
        Operand::Call(call) => type_call(alloc, subst, names, uses, call),
        Operand::If(choice) => type_choice(alloc, subst, names, uses, choice),
        Operand::Unit { at: _ } => {
            let n = new_type(subst, Ty::Unit)?;
            Ok(Some(n))
        }
        Operand::Paren(full) => type_full(alloc, subst, names, uses, full),
        Operand::Tuple { at, parts } => type_tuple(alloc, subst, names, uses, *at, parts),
        Operand::List { at, parts } => type_list(alloc, subst, names, uses, *at, parts),
        Operand::Braces { at: _, pred: _ } => {
            let n = new_type(subst, Ty::Pred)?;
            Ok(Some(n))
        }
        Operand::Wav { at: _, size: _ } => {
            let n = new_type(subst, Ty::Format)?;
            Ok(Some(n))
        }
    }
}

/// The number of the type variable of an `if`; `None` where it has no type. It fails only where memory is refused.
///
/// Where it has a type, one use for each name of its text was added, in the order of the tokens.
#[cycle(value)]
pub fn type_choice(
    alloc: Global,
    subst: &mut Subst,
    names: Names<'_, '_>,
    uses: &mut Vec<FoundUse>,
    choice: &If,
) -> Result<Option<u64>, Memory>
    requires seen { IsSeen subst.old names uses.old.items }
    ensures typed { IfOk result
        (λ r. IsTypeOf subst.old subst.new (env_of names.entry) (view_if choice.now) (founds uses.old.items)
        (founds uses.new.items) r) }
    ensures order { IfOk result
        (λ r. AreAddedIf names.entry (tokens_used (view_if choice.now)) (founds uses.old.items) (founds uses.new.items)
        r) }
{
    match type_full(alloc, subst, names, uses, &choice.condition)? {
        None => Ok(None),
        Some(condition) => {
            let yes = is_truth(alloc, subst, condition)?;
            if !yes {
                return Ok(None);
            }
            match type_full(alloc, subst, names, uses, &choice.then_part)? {
                None => Ok(None),
                Some(n) => {
                    let joined = join_full(alloc, subst, names, uses, n, &choice.else_part)?;
                    Ok(some_if(joined, n))
                }
            }
        }
    }
}

/// Types a value and makes its type equal to type variable `n`; false where that cannot be.
/// `names` tells what the names in it mean; the list `uses` takes a use of each. It fails only where memory is refused.
#[cycle(value)]
fn join_full(
    alloc: Global,
    subst: &mut Subst,
    names: Names<'_, '_>,
    uses: &mut Vec<FoundUse>,
    n: u64,
    full: &Full,
) -> Result<bool, Memory>
    requires seen { IsSeen subst.old names uses.old.items }
    requires inside { n < length subst.old.types }
    ensures typed { IfOk result
        (λ yes. AreJoined subst.old subst.new (env_of names.entry) (more (view_full full.now) none) n
        (founds uses.old.items) (founds uses.new.items) yes) }
    ensures order { IfOk result
        (λ yes. AreAddedWhere names.entry (tokens_used (view_full full.now)) (founds uses.old.items)
        (founds uses.new.items) yes) }
{
    match type_full(alloc, subst, names, uses, full)? {
        None => Ok(false),
        Some(other) => {
            let yes = same(alloc, subst, n, other)?;
            Ok(yes)
        }
    }
}

/// Types these values and makes the type of each equal to type variable `n`; false where that cannot be.
/// `names` tells what the names in it mean; the list `uses` takes a use of each. It fails only where memory is refused.
#[cycle(value)]
fn join_fulls(
    alloc: Global,
    subst: &mut Subst,
    names: Names<'_, '_>,
    uses: &mut Vec<FoundUse>,
    n: u64,
    fulls: &[Full],
) -> Result<bool, Memory>
    requires seen { IsSeen subst.old names uses.old.items }
    requires inside { n < length subst.old.types }
    ensures typed { IfOk result
        (λ yes. AreJoined subst.old subst.new (env_of names.entry) (listed (map view_full fulls.now)) n
        (founds uses.old.items) (founds uses.new.items) yes) }
    ensures order { IfOk result
        (λ yes. AreAddedWhere names.entry (tokens_used (listed (map view_full fulls.now))) (founds uses.old.items)
        (founds uses.new.items) yes) }
{
    for full in fulls {
        let joined = join_full(alloc, subst, names, uses, n, full)?;
        if !joined {
            return Ok(false);
        }
    }
    Ok(true)
}

/// The type of a list, whose `[` is token `at` (only the contract reads it): the number of its type variable, or `None`
/// where its items have no type in common.
/// `names` tells what the names in it mean; the list `uses` takes a use of each. It fails only where memory is refused.
#[cycle(value)]
fn type_list(
    alloc: Global,
    subst: &mut Subst,
    names: Names<'_, '_>,
    uses: &mut Vec<FoundUse>,
    at: u32,
    parts: &[Full],
) -> Result<Option<u64>, Memory>
    requires seen { IsSeen subst.old names uses.old.items }
    ensures typed { IfOk result
        (λ r. IsTypeOf subst.old subst.new (env_of names.entry) (Listed at (listed (map view_full parts.now)))
        (founds uses.old.items) (founds uses.new.items) r) }
    ensures order { IfOk result
        (λ r. AreAddedIf names.entry (tokens_used (Listed at (listed (map view_full parts.now))))
        (founds uses.old.items) (founds uses.new.items) r) }
{
    let item = new_var(subst, false)?;
    let joined = join_fulls(alloc, subst, names, uses, item, parts)?;
    if !joined {
        return Ok(None);
    }
    let list = new_list(alloc, subst, item)?;
    Ok(Some(list))
}

/// The types of values, the parts of a tuple: the number of a type variable for each; `None` where one has no type.
/// `names` tells what the names in it mean; the list `uses` takes a use of each. It fails only where memory is refused.
#[cycle(value)]
fn type_fulls(
    alloc: Global,
    subst: &mut Subst,
    names: Names<'_, '_>,
    uses: &mut Vec<FoundUse>,
    fulls: &[Full],
) -> Result<Option<Vec<u64>>, Memory>
    requires seen { IsSeen subst.old names uses.old.items }
    ensures typed { IfOk result
        (λ r. AreTypesOf subst.old subst.new (env_of names.entry) (listed (map view_full fulls.now))
        (founds uses.old.items) (founds uses.new.items) (option_map (λ v. v.items) r)) }
    ensures order { IfOk result
        (λ r. AreAddedIf names.entry (tokens_used (listed (map view_full fulls.now))) (founds uses.old.items)
        (founds uses.new.items) r) }
{
    let mut vars = Vec::new(alloc);
    for full in fulls {
        match type_full(alloc, subst, names, uses, full)? {
            None => return Ok(None),
            Some(n) => vars.push(n)?,
        }
    }
    Ok(Some(vars))
}

/// The type of values in parentheses, which open at token `at` (only the contract reads it): the number of its type
/// variable, or `None` where one has no type. No value is a unit, and one value alone makes no tuple.
/// `names` tells what the names in it mean; the list `uses` takes a use of each. It fails only where memory is refused.
#[cycle(value)]
fn type_tuple(
    alloc: Global,
    subst: &mut Subst,
    names: Names<'_, '_>,
    uses: &mut Vec<FoundUse>,
    at: u32,
    parts: &[Full],
) -> Result<Option<u64>, Memory>
    requires seen { IsSeen subst.old names uses.old.items }
    ensures typed { IfOk result
        (λ r. IsTypeOf subst.old subst.new (env_of names.entry) (tuple_of at (listed (map view_full parts.now)))
        (founds uses.old.items) (founds uses.new.items) r) }
    ensures order { IfOk result
        (λ r. AreAddedIf names.entry (tokens_used (tuple_of at (listed (map view_full parts.now))))
        (founds uses.old.items) (founds uses.new.items) r) }
{
    if parts.len() == 0 {
        let unit = new_type(subst, Ty::Unit)?;
        return Ok(Some(unit));
    }
    if parts.len() == 1 {
        let one = type_full(alloc, subst, names, uses, &parts[0])?;
        return Ok(one);
    }
    match type_fulls(alloc, subst, names, uses, parts)? {
        None => Ok(None),
        Some(vars) => {
            let tuple = new_tuple(alloc, subst, &vars)?;
            Ok(Some(tuple))
        }
    }
}
