// Held variables that were bound since, and what stands in their places.
ghost use Rattle.std.specs.Prelude.{◌≡◌, ◌<◌, ◌∷◌, ℕ, None, [], true, length, OnOk};
ghost use Rattle.type_terms.specs.Table.{bound_at, kind_at};
ghost use Rattle.general_types.specs.Holding.{is_held};
ghost use Rattle.general_types.specs.Renewing.{FindsBut, Renews};
ghost use Rattle.general_types.specs.Walks.{held_of};

use crate::walking::{Reached, add_kind, visit_variable, walk};
use liq_base::Memory;
use std::alloc::Global;
use type_terms::{KindTerm, Subst};

/// Adds, to an empty list, those of these type variables that the substitution has bound by now.
pub fn push_bound_types(subst: &Subst, numbers: &[u64], found: &mut Vec<u64>) -> Result<(), Memory>
    requires { found.old.items ≡ [] }
    ensures { OnOk result (FindsBut (λ k. bound_at subst.now.types k ≡ None) numbers.now found.new.items) }
{
    for number in numbers {
        if subst.bound(*number).is_none() {
            continue;
        }
        found.push(*number)?;
    }
    Ok(())
}

/// Adds, to an empty list, those of these kind variables that the substitution has bound by now.
pub fn push_bound_kinds(subst: &Subst, numbers: &[u64], found: &mut Vec<u64>) -> Result<(), Memory>
    requires { found.old.items ≡ [] }
    ensures { OnOk result (FindsBut (λ k. kind_at subst.now.kinds k ≡ None) numbers.now found.new.items) }
{
    for number in numbers {
        if subst.bound_kind(*number).is_none() {
            continue;
        }
        found.push(*number)?;
    }
    Ok(())
}

/// Takes a type variable out of the held ones in `reached`, and adds the free variables of what it is bound to by
/// now. A variable that is free still comes back; one that is not held changes nothing.
fn renew_type(
    alloc: Global,
    subst: &Subst,
    reached: &mut Reached,
    number: u64,
) -> Result<(), Memory>
    requires inside { number < length subst.now.types }
    ensures { OnOk result (Renews subst.now (number ∷ []) [] (held_of reached.old) (held_of reached.new)) }
{
    if !reached.types.swap_remove(&number) {
        return Ok(());
    }
    let mut work = Vec::new(alloc);
    visit_variable(&mut work, subst, reached, number)?;
    walk(&mut work, subst, reached)
}

/// Puts the free variables of what each of these held type variables is bound to by now in its place in `reached`.
fn renew_types(
    alloc: Global,
    subst: &Subst,
    reached: &mut Reached,
    numbers: &[u64],
) -> Result<(), Memory>
    requires there { (k : ℕ) → is_held numbers.now k ≡ true → k < length subst.now.types }
    ensures { OnOk result (Renews subst.now numbers.now [] (held_of reached.old) (held_of reached.new)) }
{
    for number in numbers {
        renew_type(alloc, subst, reached, *number)?;
    }
    Ok(())
}

/// Takes a kind variable out of the held ones in `reached`, and adds the free one that it comes to by now, if it does
/// not come to mono or stereo. A variable that is not held changes nothing.
fn renew_kind(subst: &Subst, reached: &mut Reached, number: u64) -> Result<(), Memory>
    requires inside { number < length subst.now.kinds }
    ensures { OnOk result (Renews subst.now [] (number ∷ []) (held_of reached.old) (held_of reached.new)) }
{
    if !reached.kinds.swap_remove(&number) {
        return Ok(());
    }
    add_kind(subst, &mut reached.kinds, KindTerm::Var(number))
}

/// Puts the free kind variable that each of these held ones comes to by now in its place, if it comes to one.
fn renew_kinds(subst: &Subst, reached: &mut Reached, numbers: &[u64]) -> Result<(), Memory>
    requires there { (k : ℕ) → is_held numbers.now k ≡ true → k < length subst.now.kinds }
    ensures { OnOk result (Renews subst.now [] numbers.now (held_of reached.old) (held_of reached.new)) }
{
    for number in numbers {
        renew_kind(subst, reached, *number)?;
    }
    Ok(())
}

/// Puts in the place of each of these held variables, of types and of kinds, the free variables of what it is bound
/// to by now.
pub fn renew_both(
    alloc: Global,
    subst: &Subst,
    reached: &mut Reached,
    type_numbers: &[u64],
    kind_numbers: &[u64],
) -> Result<(), Memory>
    requires types { (k : ℕ) → is_held type_numbers.now k ≡ true → k < length subst.now.types }
    requires kinds { (k : ℕ) → is_held kind_numbers.now k ≡ true → k < length subst.now.kinds }
    ensures { OnOk result (Renews subst.now type_numbers.now kind_numbers.now (held_of reached.old)
        (held_of reached.new)) }
{
    renew_types(alloc, subst, reached, type_numbers)?;
    renew_kinds(subst, reached, kind_numbers)?;
    Ok(())
}
