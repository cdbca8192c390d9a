// The difference of two types under a substitution, and the parts that are left to compare.
ghost use Rattle.std.specs.Prelude.{◌≡◌, ◌+◌, ◌<◌, ◌≤◌, ◌++◌, ◌∷◌, [], ℕ, Bool, None, Option, List, length, map, true};
ghost use Rattle.std.specs.Prelude.{IfOk, IfSome, OnOk};
ghost use Rattle.std.specs.Bool.{OnTrue, OnFalse};
ghost use Rattle.type_terms.specs.Bound.{table_of};
ghost use Rattle.type_terms.specs.Differ.{Settles, is_number_base};
ghost use Rattle.type_terms.specs.Ground.{Assignment};
ghost use Rattle.type_terms.specs.Nested.{AreMarked};
ghost use Rattle.type_terms.specs.Agenda.{AllEqualBelow, EqualBelow, TakesUp, agenda_of, pairs_of, variable_pairs};
ghost use Rattle.type_terms.specs.Narrowed.{AreComparable};
ghost use Rattle.type_terms.specs.Pairs.{IsSplit, pairs, parts_of, zipped};
ghost use Rattle.type_terms.specs.Table.{table, IsOver, IsSound, IsTriangular, bound_at, kind_at, number_at, extra};
ghost use Rattle.type_terms.specs.Table.{FallsByNumber, MeetsKinds};
ghost use Rattle.type_terms.specs.Term.{InTerm, InKind, base_of, term_of, terms_of, variable, kind_meaning};
ghost use Rattle.type_terms.specs.Term.{source_term};
ghost use Rattle.type_terms.specs.Variables.{Variable};
ghost use Rattle.type_terms.specs.declared.ty.KindTerm.{KindTerm};
ghost use Rattle.type_terms.specs.declared.ty.KindTerm.TheVariants.{Var};

use crate::agenda::Agenda;
use crate::naming::copy;
use crate::occurs::occurs_in;
use crate::table::Bindings;
use crate::ty::{Base, KindTerm, Ty};
use crate::type_variable::TypeVariable;
use indexmap::IndexSet;
use liq_base::Memory;
use std::alloc::Global;

/// The difference of two types: there is none, no binding takes it away, or the variable of this number is to be bound
/// to this type or kind.
#[derive(Drop)]
pub enum Difference<'a> {
    Same,
    Clash,
    Bind(u64, &'a Ty),
    BindKind(u64, KindTerm),
}

/// The kind of a source (mono, stereo or a variable) itself, or where it is a bound variable what that is bound to in
/// the end. `kinds` has what each kind variable is bound to, if anything.
pub fn resolve_kind(kinds: &[Option<KindTerm>], k: KindTerm) -> KindTerm
    requires falls { FallsByNumber kinds.now }
    requires over { InKind (λ n. n < length kinds.now) k }
    ensures value { (a : Assignment) → MeetsKinds kinds.now a → kind_meaning a result ≡ kind_meaning a k }
    ensures free { (n : ℕ) → result ≡ Var n → kind_at kinds.now n ≡ None }
    ensures over { InKind (λ n. n < length kinds.now) result }
{
    let mut k = k;
    while let KindTerm::Var(n) = k {
        match kinds[n as usize] {
            Some(next) => k = next,
            None => return k,
        }
    }
    k
}

/// Puts a pair of types on the stack of pairs to compare, as copies, so that variables can be bound meanwhile.
pub fn push_copies(
    alloc: Global,
    work: &mut Vec<(Ty, Ty)>,
    left: &Ty,
    right: &Ty,
) -> Result<(), Memory>
    ensures { OnOk result (pairs_of work.new.items
        ≡ pairs_of work.old.items ++ (term_of left.now, term_of right.now) ∷ []) }
{
    let left = copy(alloc, left)?;
    let right = copy(alloc, right)?;
    work.push((left, right))?;
    Ok(())
}

/// Takes two types apart: puts the pairs of their parts on `work`, the stack of pairs to compare, if both are lists, or
/// tuples of one length. `false` where they are neither; then the stack is as before, and what they are bound to is
/// not looked at.
pub fn push_split<'a>(
    work: &mut Vec<(&'a Ty, &'a Ty)>,
    s: &'a Ty,
    t: &'a Ty,
) -> Result<bool, Memory>
    ensures yes { IfOk result (λ b. OnTrue b (IsSplit (term_of s.now) (term_of t.now)
        × (pairs work.new.items ≡ pairs work.old.items ++ parts_of (term_of s.now) (term_of t.now)))) }
    ensures no { IfOk result (λ b. OnFalse b (pairs work.new.items ≡ pairs work.old.items)) }
    ensures unsplit { IfOk result (λ b. OnFalse b (IsSplit (term_of s.now) (term_of t.now) → ⊥)) }
{
    match s {
        Ty::List(a) => match t {
            Ty::List(b) => {
                work.push((a, b))?;
                Ok(true)
            }
            _ => Ok(false),
        },
        Ty::Tuple(ss) => match t {
            Ty::Tuple(ts) => {
                let ss: &[Ty] = ss;
                let ts: &[Ty] = ts;
                if ss.len() != ts.len() {
                    return Ok(false);
                }
                push_parts(work, ss, ts)?;
                Ok(true)
            }
            _ => Ok(false),
        },
        _ => Ok(false),
    }
}

/// One step of unification: the difference of two types, which tells what is to be bound. Where what they are bound to
/// are two lists or two tuples of one length, copies are put on the agenda, the list of pairs still to compare, and
/// `Same` is answered. The agenda's `seen` has the pairs of variables put there, so that none comes twice.
pub fn differ<'a>(
    alloc: Global,
    bindings: &'a Bindings,
    agenda: &mut Agenda,
    left: &'a Ty,
    right: &'a Ty,
) -> Result<Difference<'a>, Memory>
    requires { AreComparable bindings.now (term_of left.now) (term_of right.now) }
    ensures { IfOk result (λ d. TakesUp (table_of bindings.now) (agenda_of agenda.old) (agenda_of agenda.new)
        (term_of left.now) (term_of right.now) d) }
{
    if are_one_variable(left, right) {
        return Ok(Difference::Same);
    }
    if is_known(&agenda.seen, left, right) {
        return Ok(Difference::Same);
    }
    let s = bindings.resolve(left);
    let t = bindings.resolve(right);
    if is_split(s, t) {
        push_copies(alloc, &mut agenda.work, s, t)?;
        note(&mut agenda.seen, left, right)?;
        return Ok(Difference::Same);
    }
    let difference = differ_resolved(
        alloc,
        &bindings.types,
        &bindings.kinds,
        &bindings.nested,
        s,
        t,
    )?;
    Ok(difference)
}

/// What has to be bound to make two kinds of sources equal: nothing where they are the same, or a kind variable; a
/// clash where no binding does it. Of two variables the one of greater number is bound, so that no circle arises.
fn differ_kinds<'a>(kinds: &[Option<KindTerm>], left: KindTerm, right: KindTerm) -> Difference<'a>
    requires falls { FallsByNumber kinds.now }
    requires left { InKind (λ n. n < length kinds.now) left }
    requires right { InKind (λ n. n < length kinds.now) right }
    ensures { (vs : List Variable) → Settles (table vs kinds.now) (source_term left) (source_term right) result }
{
    let left = resolve_kind(kinds, left);
    let right = resolve_kind(kinds, right);
    match left {
        KindTerm::Fixed(l) => match right {
            KindTerm::Fixed(r) => {
                if l == r {
                    Difference::Same
                } else {
                    Difference::Clash
                }
            }
            KindTerm::Var(j) => Difference::BindKind(j, left),
        },
        KindTerm::Var(i) => match right {
            KindTerm::Fixed(_) => Difference::BindKind(i, right),
            KindTerm::Var(j) => {
                if i == j {
                    Difference::Same
                } else if i < j {
                    Difference::BindKind(j, left)
                } else {
                    Difference::BindKind(i, right)
                }
            }
        },
    }
}

/// Whether the type is int or decimal.
fn is_number(ty: &Ty) -> bool
    ensures { result ≡ is_number_base (base_of (term_of ty.now)) }
{
    match ty.base() {
        Some(Base::Int) => true,
        Some(Base::Decimal) => true,
        _ => false,
    }
}

/// What has to be bound to make the free variable `x` equal to a type that is no variable: `x` to the type, unless `x`
/// stands in it or is a number variable and it is no number. `nested` marks the variables that may stand in what
/// others are bound to.
fn differ_from_variable<'a>(
    alloc: Global,
    types: &[TypeVariable],
    nested: &[bool],
    x: u64,
    t: &'a Ty,
) -> Result<Difference<'a>, Memory>
    requires triangular { IsTriangular types.now }
    requires marked { AreMarked types.now nested.now }
    requires inside { x < length types.now }
    requires free { bound_at types.now x ≡ None }
    requires over { InTerm (λ n. n < length types.now) (λ _. Unit {0}) (term_of t.now) }
    requires no_variable { extra (term_of t.now) ≡ 1 }
    ensures { IfOk result (λ d. (ks : List (Option KindTerm)) → IsOver (table types.now ks) (term_of t.now)
        → Settles (table types.now ks) (variable x) (term_of t.now) d) }
{
    let variable = &types[x as usize];
    if variable.is_number() {
        if is_number(t) {
            Ok(Difference::Bind(x, t))
        } else {
            Ok(Difference::Clash)
        }
    } else if occurs_in(alloc, types, nested[x as usize], x, t)? {
        Ok(Difference::Clash)
    } else {
        Ok(Difference::Bind(x, t))
    }
}

/// Whether `x` stays free where it is made equal to `y`: a number variable rather than another, else the one of lesser
/// number.
///
/// So variables that are made equal in the order of their numbers, from whichever side, lead to the first of them in
/// one step.
fn stays_free(types: &[TypeVariable], x: u64, y: u64) -> bool
    requires inside { x < length types.now }
    requires inside_too { y < length types.now }
    ensures yes { OnTrue result (number_at types.now y ≡ true → number_at types.now x ≡ true) }
    ensures no { OnFalse result (number_at types.now x ≡ true → number_at types.now y ≡ true) }
{
    let left = &types[x as usize];
    let right = &types[y as usize];
    let left_number = left.is_number();
    let right_number = right.is_number();
    if left_number == right_number {
        x < y
    } else {
        left_number
    }
}

/// What has to be bound to make two free variables equal: `left` has the number `x`, and `right` the number `y`. One
/// is bound to the other, unless they are the same; a number variable (int or decimal in the end) is never bound to
/// another sort.
fn differ_variables<'a>(
    types: &[TypeVariable],
    x: u64,
    left: &'a Ty,
    y: u64,
    right: &'a Ty,
) -> Difference<'a>
    requires left { term_of left.now ≡ variable x }
    requires right { term_of right.now ≡ variable y }
    requires inside { x < length types.now }
    requires inside_too { y < length types.now }
    requires free { bound_at types.now x ≡ None }
    requires free_too { bound_at types.now y ≡ None }
    ensures { (ks : List (Option KindTerm)) → Settles (table types.now ks) (variable x) (variable y) result }
{
    if x == y {
        return Difference::Same;
    }
    if stays_free(types, x, y) {
        Difference::Bind(y, left)
    } else {
        Difference::Bind(x, right)
    }
}

/// What has to be bound to make two types equal that are no variables, neither two lists nor two tuples of one length:
/// for two sources their kinds decide; others are the same base type, or clash. `kinds` has what each kind variable is
/// bound to, if anything.
fn differ_shapes<'a>(kinds: &[Option<KindTerm>], left: &'a Ty, right: &'a Ty) -> Difference<'a>
    requires falls { FallsByNumber kinds.now }
    requires left { (vs : List Variable) × IsOver (table vs kinds.now) (term_of left.now) }
    requires right { (vs : List Variable) × IsOver (table vs kinds.now) (term_of right.now) }
    requires left_shape { extra (term_of left.now) ≡ 1 }
    requires right_shape { extra (term_of right.now) ≡ 1 }
    requires unsplit { IsSplit (term_of left.now) (term_of right.now) → ⊥ }
    ensures { (vs : List Variable) → Settles (table vs kinds.now) (term_of left.now) (term_of right.now) result }
{
    if let Some(base) = left.base() {
        return if right.base() == Some(base) {
            Difference::Same
        } else {
            Difference::Clash
        };
    }
    match left {
        Ty::Source(k) => match right {
            Ty::Source(j) => differ_kinds(kinds, *k, *j),
            _ => Difference::Clash,
        },
        _ => Difference::Clash,
    }
}

/// What has to be bound to make two types equal that are not bound variables, and neither two lists nor two tuples of
/// one length. `nested` marks the variables that may stand in what others are bound to.
fn differ_resolved<'a>(
    alloc: Global,
    types: &[TypeVariable],
    kinds: &[Option<KindTerm>],
    nested: &[bool],
    left: &'a Ty,
    right: &'a Ty,
) -> Result<Difference<'a>, Memory>
    requires sound { IsSound (table types.now kinds.now) }
    requires marked { AreMarked types.now nested.now }
    requires left { IsOver (table types.now kinds.now) (term_of left.now) }
    requires right { IsOver (table types.now kinds.now) (term_of right.now) }
    requires left_free { (k : ℕ) → term_of left.now ≡ variable k → bound_at types.now k ≡ None }
    requires right_free { (k : ℕ) → term_of right.now ≡ variable k → bound_at types.now k ≡ None }
    requires unsplit { IsSplit (term_of left.now) (term_of right.now) → ⊥ }
    ensures { IfOk result (λ d. Settles (table types.now kinds.now) (term_of left.now) (term_of right.now) d) }
{
    match right {
        Ty::Var(y) => match left {
            Ty::Var(x) => Ok(differ_variables(types, *x, left, *y, right)),
            _ => differ_from_variable(alloc, types, nested, *y, left),
        },
        _ => match left {
            Ty::Var(x) => differ_from_variable(alloc, types, nested, *x, right),
            _ => Ok(differ_shapes(kinds, left, right)),
        },
    }
}

/// What has to be bound to make two types equal, where one binding or none decides: no stack of pairs is needed then.
/// `None` where what they are bound to are two lists, or two tuples of one length, whose parts have to be compared.
pub fn differ_directly<'a>(
    alloc: Global,
    bindings: &'a Bindings,
    left: &'a Ty,
    right: &'a Ty,
) -> Result<Option<Difference<'a>>, Memory>
    requires { AreComparable bindings.now (term_of left.now) (term_of right.now) }
    ensures { IfOk result (λ o. IfSome o
        (λ d. Settles (table_of bindings.now) (term_of left.now) (term_of right.now) d)) }
{
    let s = bindings.resolve(left);
    let t = bindings.resolve(right);
    if is_split(s, t) {
        return Ok(None);
    }
    let difference = differ_resolved(
        alloc,
        &bindings.types,
        &bindings.kinds,
        &bindings.nested,
        s,
        t,
    )?;
    Ok(Some(difference))
}

/// Whether both types are one and the same variable; their bindings are not looked at.
fn are_one_variable(left: &Ty, right: &Ty) -> bool
    ensures { OnTrue result (term_of left.now ≡ term_of right.now) }
{
    match left {
        Ty::Var(x) => match right {
            Ty::Var(y) => x == y,
            _ => false,
        },
        _ => false,
    }
}

/// Whether both types are variables whose bindings were put on the agenda before, the list of pairs to compare.
/// `seen` has those pairs. False where one of the types is no variable.
fn is_known(seen: &IndexSet<(u64, u64)>, left: &Ty, right: &Ty) -> bool
    ensures { OnTrue result ((a : Assignment) (n : ℕ) → AllEqualBelow a n (variable_pairs seen.now.keys)
        → EqualBelow a n (term_of left.now) (term_of right.now)) }
{
    match left {
        Ty::Var(x) => match right {
            Ty::Var(y) => seen.contains(&(*x, *y)),
            _ => false,
        },
        _ => false,
    }
}

/// Notes a pair of variables whose bindings are put on the agenda, so that they are put there once; other types are
/// not noted.
fn note(seen: &mut IndexSet<(u64, u64)>, left: &Ty, right: &Ty) -> Result<(), Memory>
    ensures known { OnOk result ((a : Assignment) (n : ℕ) → AllEqualBelow a n (variable_pairs seen.new.keys)
        → AllEqualBelow a n (variable_pairs seen.old.keys)) }
    ensures learnt { OnOk result ((a : Assignment) (n : ℕ)
        → ((x : ℕ) → term_of left.now ≡ variable x → EqualBelow a n (term_of left.now) (term_of right.now))
        → AllEqualBelow a n (variable_pairs seen.old.keys) → AllEqualBelow a n (variable_pairs seen.new.keys)) }
{
    match left {
        Ty::Var(x) => match right {
            Ty::Var(y) => {
                seen.insert((*x, *y))?;
                Ok(())
            }
            _ => Ok(()),
        },
        _ => Ok(()),
    }
}

/// Puts the pairs of the parts of two tuples of one length, `ss` and `ts`, on `work`, the stack of pairs to compare.
fn push_parts<'a>(
    work: &mut Vec<(&'a Ty, &'a Ty)>,
    ss: &'a [Ty],
    ts: &'a [Ty],
) -> Result<(), Memory>
    requires { length ss.now ≡ length ts.now }
    ensures { OnOk result (pairs work.new.items ≡ pairs work.old.items
        ++ zipped (terms_of (map term_of ss.now)) (terms_of (map term_of ts.now))) }
{
    for i in 0..ss.len() {
        work.push((&ss[i], &ts[i]))?;
    }
    Ok(())
}

/// Whether two types can be compared part by part: both are lists, or tuples of one length.
fn is_split(s: &Ty, t: &Ty) -> bool
    ensures yes { OnTrue result (IsSplit (term_of s.now) (term_of t.now)) }
    ensures unsplit { OnFalse result (IsSplit (term_of s.now) (term_of t.now) → ⊥) }
{
    match s {
        Ty::List(_) => match t {
            Ty::List(_) => true,
            _ => false,
        },
        Ty::Tuple(ss) => match t {
            Ty::Tuple(ts) => {
                let ss: &[Ty] = ss;
                let ts: &[Ty] = ts;
                ss.len() == ts.len()
            }
            _ => false,
        },
        _ => false,
    }
}
