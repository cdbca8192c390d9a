// What a type is bound to, and whether a variable stands in it.
ghost use Rattle.std.specs.Prelude.{◌≡◌, ◌≢◌, ◌+◌, ◌++◌, ◌<◌, ◌≤◌, ℕ, Bool, None, [], List, length, map, false, true};
ghost use Rattle.std.specs.Prelude.{IfOk, IsTrue, OnOk, ◌↔◌};
ghost use Rattle.std.specs.Bool.{OnTrue, OnFalse};
ghost use Rattle.type_terms.specs.Ground.{Assignment, size};
ghost use Rattle.type_terms.specs.Nested.{IsAmong, IsMarked, IsUnnested, IsVisit, below, inside, mark_at, terms};
ghost use Rattle.type_terms.specs.Rank.{rank_of};
ghost use Rattle.type_terms.specs.Table.{Avoids, IsOver, IsSound, IsTriangular, Table, MeetsBindings, bound_at, extra};
ghost use Rattle.type_terms.specs.Term.{InTerm, meaning, height, term_of, variable};

use crate::ty::{KindTerm, Ty};
use crate::type_variable::TypeVariable;
use indexmap::IndexSet;
use liq_base::Memory;
use std::alloc::Global;

/// How many steps a walk over types may take. One that takes more is given up as if memory had run out.
///
/// A script of a mebibyte writes fewer nodes than this, and what variables share is walked once.
pub const MOST_STEPS: u64 = 4_194_304;

/// The type itself, or where it is a bound variable what that is bound to in the end: a free variable, or a type that
/// is no variable. Its parts are not looked at.
pub fn resolve<'a>(types: &'a [TypeVariable], t: &'a Ty) -> &'a Ty
    requires triangular { IsTriangular types.now }
    requires over { InTerm (λ n. n < length types.now) (λ _. Unit {0}) (term_of t.now) }
    ensures value { (a : Assignment) → MeetsBindings types.now a
        → meaning a (term_of result.now) ≡ meaning a (term_of t.now) }
    ensures free { (k : ℕ) → term_of result.now ≡ variable k → bound_at types.now k ≡ None }
    ensures over { InTerm (λ n. n < length types.now) (λ _. Unit {0}) (term_of result.now) }
    ensures kept { (s : Table) → s.types ≡ types.now → IsSound s → IsOver s (term_of t.now)
        → IsOver s (term_of result.now) }
{
    let mut t = t;
    while let Ty::Var(k) = t {
        let variable = &types[*k as usize];
        match variable.bound() {
            Some(next) => t = next,
            None => return t,
        }
    }
    t
}

/// Marks each type variable that stands in the type, which a variable is about to be bound to. Only a marked one is
/// later searched for in the bindings.
pub fn mark(nested: &mut [bool], ty: &Ty)
    requires { InTerm (λ n. n < length nested.old) (λ _. Unit {0}) (term_of ty.now) }
    ensures marked { IsMarked nested.new (term_of ty.now) }
    ensures kept { (k : ℕ) → mark_at nested.old k ≡ true → mark_at nested.new k ≡ true }
{
    match ty {
        Ty::List(item) => mark(nested, item),
        Ty::Tuple(parts) => {
            for part in parts {
                mark(nested, part);
            }
        }
        Ty::Var(k) => nested[*k as usize] = true,
        _ => {}
    }
}

/// Whether the variable `x` stands in the type, directly or through what variables are bound to. A variable that stands
/// in no binding needs no walk through the bindings: `nested` is false. A type without parts takes no memory.
pub fn occurs_in(
    alloc: Global,
    types: &[TypeVariable],
    nested: bool,
    x: u64,
    ty: &Ty,
) -> Result<bool, Memory>
    requires triangular { IsTriangular types.now }
    requires over { InTerm (λ n. n < length types.now) (λ _. Unit {0}) (term_of ty.now) }
    requires unnested { nested ≡ false → IsUnnested types.now x }
    ensures no { IfOk result (λ b. OnFalse b (Avoids types.now x (term_of ty.now))) }
    ensures yes { IfOk result (λ b. OnTrue b ((a : Assignment) → MeetsBindings types.now a
        → size (a.type_of x) + extra (term_of ty.now) ≤ size (meaning a (term_of ty.now)))) }
{
    if is_leaf(ty) {
        return Ok(false);
    }
    let mut work = Vec::new(alloc);
    let mut seen: IndexSet<u64> = IndexSet::new(alloc);
    search(&mut work, &mut seen, types, nested, x, ty)
}

/// Whether the number of each type variable that stands in the type is below the length of `types`, and that of each
/// kind variable below that of `kinds`: whether they are known there.
pub fn are_among(
    alloc: Global,
    types: &[TypeVariable],
    kinds: &[Option<KindTerm>],
    ty: &Ty,
) -> Result<bool, Memory>
    ensures { IfOk result (λ yes. IsTrue yes ↔ InTerm (λ n. n < length types.now) (λ n. n
        < length kinds.now) (term_of ty.now)) }
{
    let mut work = Vec::new(alloc);
    all_among(&mut work, types, kinds, ty)
}

/// Whether the variable `x` stands in the type or, with `nested`, in what its variables are bound to, by a walk. `work`
/// is the stack of what is still to be looked at, and `seen` has the variables whose bindings were looked at; both
/// are empty at first. Past `MOST_STEPS` steps it fails as if memory had run out.
fn search<'a>(
    work: &mut Vec<&'a Ty>,
    seen: &mut IndexSet<u64>,
    types: &'a [TypeVariable],
    nested: bool,
    x: u64,
    ty: &'a Ty,
) -> Result<bool, Memory>
    requires triangular { IsTriangular types.now }
    requires over { InTerm (λ n. n < length types.now) (λ _. Unit {0}) (term_of ty.now) }
    requires unnested { nested ≡ false → IsUnnested types.now x }
    requires work { work.old.items ≡ [] }
    requires seen { seen.old.keys ≡ [] }
    ensures no { IfOk result (λ b. OnFalse b (Avoids types.now x (term_of ty.now))) }
    ensures yes { IfOk result (λ b. OnTrue b ((a : Assignment) → MeetsBindings types.now a
        → size (a.type_of x) + extra (term_of ty.now) ≤ size (meaning a (term_of ty.now)))) }
{
    work.push(ty)?;
    for _step in 0..MOST_STEPS {
        let Some(next) = work.pop() else {
            return Ok(false);
        };
        if is_variable(next, x) {
            return Ok(true);
        }
        let deep = goes_on(seen, nested, next)?;
        push_below(work, types, deep, next)?;
    }
    Err(Memory)
}

/// Whether each variable that stands in the type has a place in `types` or `kinds`, by a walk over its parts. `work` is
/// the stack of what is still to be looked at, empty at first. Past `MOST_STEPS` steps it fails as if memory had run
/// out.
fn all_among<'a>(
    work: &mut Vec<&'a Ty>,
    types: &[TypeVariable],
    kinds: &[Option<KindTerm>],
    ty: &'a Ty,
) -> Result<bool, Memory>
    requires { work.old.items ≡ [] }
    ensures { IfOk result (λ yes. IsTrue yes ↔ InTerm (λ n. n < length types.now) (λ n. n
        < length kinds.now) (term_of ty.now)) }
{
    work.push(ty)?;
    for _step in 0..MOST_STEPS {
        let Some(next) = work.pop() else {
            return Ok(true);
        };
        if !is_among(next, types.len(), kinds.len()) {
            return Ok(false);
        }
        push_inside(work, next)?;
    }
    Err(Memory)
}

/// Whether the type is the variable `x`.
fn is_variable(ty: &Ty, x: u64) -> bool
    ensures yes { OnTrue result (term_of ty.now ≡ variable x) }
    ensures no { OnFalse result (term_of ty.now ≢ variable x) }
{
    match ty {
        Ty::Var(k) => *k == x,
        _ => false,
    }
}

/// Whether the type has no parts and is no variable: a base type or a source.
fn is_leaf(ty: &Ty) -> bool
    ensures { OnTrue result (InTerm (λ _. ⊥) (λ _. Unit {0}) (term_of ty.now)) }
{
    match ty {
        Ty::Source(_) => true,
        _ => ty.base().is_some(),
    }
}

/// Puts the parts of a tuple on `work`, the stack of what a walk over types still has to look at.
fn push_parts<'a>(work: &mut Vec<&'a Ty>, parts: &'a [Ty]) -> Result<(), Memory>
    ensures { OnOk result (terms work.new.items ≡ terms work.old.items ++ map term_of parts.now) }
{
    for part in parts {
        work.push(part)?;
    }
    Ok(())
}

/// Puts the parts of a list or a tuple on `work`, the stack of what a walk over types still has to look at; another
/// type has none.
fn push_inside<'a>(work: &mut Vec<&'a Ty>, ty: &'a Ty) -> Result<(), Memory>
    ensures { OnOk result (terms work.new.items ≡ terms work.old.items ++ inside (term_of ty.now)) }
{
    match ty {
        Ty::List(item) => {
            work.push(item)?;
            Ok(())
        }
        Ty::Tuple(parts) => push_parts(work, parts),
        _ => Ok(()),
    }
}

/// Puts the parts of a type on `work`, the stack of what a walk over types still has to look at. Of a variable it puts
/// what it is bound to, if anything, but only with `deep`.
fn push_below<'a>(
    work: &mut Vec<&'a Ty>,
    types: &'a [TypeVariable],
    deep: bool,
    ty: &'a Ty,
) -> Result<(), Memory>
    requires { InTerm (λ n. n < length types.now) (λ _. Unit {0}) (term_of ty.now) }
    ensures { OnOk result (terms work.new.items ≡ terms work.old.items ++ below types.now deep (term_of ty.now)) }
{
    match ty {
        Ty::Var(k) => {
            if deep {
                let variable = &types[*k as usize];
                if let Some(bound) = variable.bound() {
                    work.push(bound)?;
                }
            }
            Ok(())
        }
        _ => push_inside(work, ty),
    }
}

/// Whether a walk in search of a variable goes on into what the variable `ty` is bound to: true the first time, when
/// it is added to `seen`. Without `nested` the one searched for stands in no binding, and it is false. A type that is
/// no variable has no binding, and the answer does not matter.
fn goes_on(seen: &mut IndexSet<u64>, nested: bool, ty: &Ty) -> Result<bool, Memory>
    ensures { IfOk result (λ deep. IsVisit nested deep seen.old.keys seen.new.keys (term_of ty.now)) }
{
    if !nested {
        return Ok(false);
    }
    match ty {
        Ty::Var(k) => {
            let first = seen.insert(*k)?;
            Ok(first)
        }
        _ => Ok(true),
    }
}

/// Whether a type that is a variable, or a source whose kind is one, has one of the first `types` type variables or
/// `kinds` kind variables; true of any other type. Its parts are not looked at.
fn is_among(ty: &Ty, types: usize, kinds: usize) -> bool
    ensures { IsTrue result ↔ IsAmong types kinds (term_of ty.now) }
{
    match ty {
        Ty::Var(k) => (*k as usize) < types,
        Ty::Source(kind) => match kind {
            KindTerm::Var(k) => (*k as usize) < kinds,
            KindTerm::Fixed(_) => true,
        },
        _ => true,
    }
}
