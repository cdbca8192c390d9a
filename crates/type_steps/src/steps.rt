// Facts of types that are made to hold, and new variables.
ghost use Rattle.std.specs.Prelude.{◌≡◌, ◌<◌, length, map, IfOk, IsTrue};
ghost use Rattle.type_terms.specs.Agrees.{HasNewType};
ghost use Rattle.type_terms.specs.Ground.{IsNumber};
ghost use Rattle.type_terms.specs.Table.{IsOver};
ghost use Rattle.type_terms.specs.Term.{list_term, meaning, term_of, terms_of, tuple_term, variable};
ghost use Rattle.typing_rules.specs.Typing.{truth};
ghost use Rattle.type_steps.specs.Flow.{Defines, IfMany, IsMade};

use liq_base::Memory;
use std::alloc::Global;
use type_terms::{Subst, Ty, unify};

/// Not a test alone: makes type variable `n` be the type `ty` in the substitution `subst`, if it can be (unification).
/// False says that they clash.
pub fn is_type(alloc: Global, subst: &mut Subst, n: u64, ty: &Ty) -> Result<bool, Memory>
    requires inside { n < length subst.old.types }
    requires over { IsOver subst.old (term_of ty.now) }
    ensures { IfOk result (λ yes. IsMade yes subst.old subst.new (λ a. a.type_of n ≡ meaning a (term_of ty.now))) }
{
    let variable = var(n);
    unify(alloc, subst, &variable, ty)
}

/// Not a test alone: makes two type variables stand for one type in the substitution `subst`, if they can
/// (unification). False says that they clash.
pub fn same(alloc: Global, subst: &mut Subst, left: u64, right: u64) -> Result<bool, Memory>
    requires left { left < length subst.old.types }
    requires right { right < length subst.old.types }
    ensures { IfOk result (λ yes. IsMade yes subst.old subst.new (λ a. a.type_of left ≡ a.type_of right)) }
{
    let right = var(right);
    is_type(alloc, subst, left, &right)
}

/// Not a test alone: makes type variable `n` be bool, if it can be; false if that clashes.
pub fn is_truth(alloc: Global, subst: &mut Subst, n: u64) -> Result<bool, Memory>
    requires inside { n < length subst.old.types }
    ensures { IfOk result (λ yes. IsMade yes subst.old subst.new (λ a. a.type_of n ≡ truth)) }
{
    is_type(alloc, subst, n, &Ty::Bool)
}

/// Makes a new type variable in the substitution `subst`, and answers its number. Where `number` is true, it can only
/// be int or decimal.
pub fn new_var(subst: &mut Subst, number: bool) -> Result<u64, Memory>
    ensures { IfOk result (λ n. HasNewType subst.old subst.new (IsTrue number) n) }
{
    let next = subst.fresh(number)?;
    match &next {
        Ty::Var(n) => Ok(*n),
        _ => Err(Memory),
    }
}

/// Not a test alone: makes type variable `n` be int or decimal, if it can be, by unification with a new variable that
/// can be nothing else. False says that they clash.
pub fn is_number(alloc: Global, subst: &mut Subst, n: u64) -> Result<bool, Memory>
    requires inside { n < length subst.old.types }
    ensures { IfOk result (λ yes. IsMade yes subst.old subst.new (λ a. IsNumber (a.type_of n))) }
{
    let number = new_var(subst, true)?;
    let yes = same(alloc, subst, n, number)?;
    Ok(yes)
}

/// Makes a new type variable that is bound to this type, and answers its number.
pub fn new_type(subst: &mut Subst, ty: Ty) -> Result<u64, Memory>
    requires over { IsOver subst.old (term_of ty) }
    ensures { IfOk result (λ n. Defines subst.old subst.new n (term_of ty)) }
{
    let n = subst.fresh_bound(ty)?;
    Ok(n)
}

/// Makes a new type variable that is bound to a list type, and answers its number. Type variable `item` is the type of
/// the list's items.
pub fn new_list(alloc: Global, subst: &mut Subst, item: u64) -> Result<u64, Memory>
    requires inside { item < length subst.old.types }
    ensures { IfOk result (λ n. Defines subst.old subst.new n (list_term (variable item))) }
{
    let item = Box::new(alloc, var(item))?;
    let ty = Ty::List(item);
    let n = new_type(subst, ty)?;
    Ok(n)
}

/// Makes a new type variable that is bound to a tuple type, and answers its number. These type variables are the types
/// of the tuple's parts, in order.
pub fn new_tuple(alloc: Global, subst: &mut Subst, parts: &[u64]) -> Result<u64, Memory>
    requires over { IsOver subst.old (tuple_term (terms_of (map variable parts.now))) }
    ensures { IfOk result (λ n. Defines subst.old subst.new n (tuple_term (terms_of (map variable parts.now)))) }
{
    let types = vars(alloc, parts)?;
    let ty = Ty::Tuple(types);
    let n = new_type(subst, ty)?;
    Ok(n)
}

/// Not a test alone: makes type variable `n`, the type of the first operand of `and` or `or`, be bool, if `others` more
/// operands follow; false if it cannot be. If none follows, there is no operator, and it is true.
pub fn is_truth_of_many(
    alloc: Global,
    subst: &mut Subst,
    n: u64,
    others: usize,
) -> Result<bool, Memory>
    requires inside { n < length subst.old.types }
    ensures { IfOk result (λ yes. IsMade yes subst.old subst.new (λ a. IfMany others (a.type_of n ≡ truth))) }
{
    if others == 0 {
        Ok(true)
    } else {
        is_truth(alloc, subst, n)
    }
}

/// Not a test alone: makes type variable `n`, the type of the first operand of a sum or product, be int or decimal, if
/// `others` more operands follow; false if it cannot be. If none follows, there is no operator, and it is true.
pub fn is_number_of_many(
    alloc: Global,
    subst: &mut Subst,
    n: u64,
    others: usize,
) -> Result<bool, Memory>
    requires inside { n < length subst.old.types }
    ensures { IfOk result (λ yes. IsMade yes subst.old subst.new (λ a. IfMany others (IsNumber (a.type_of n)))) }
{
    if others == 0 {
        Ok(true)
    } else {
        is_number(alloc, subst, n)
    }
}

/// The type that is the type variable of this number.
fn var(n: u64) -> Ty
    ensures { term_of result ≡ variable n }
{
    Ty::Var(n)
}

/// The type variables of these numbers, as types, in their order.
fn vars(alloc: Global, parts: &[u64]) -> Result<Vec<Ty>, Memory>
    ensures { IfOk result (λ ts. map term_of ts.items ≡ map variable parts.now) }
{
    let mut types = Vec::new(alloc);
    for part in parts {
        types.push(var(*part))?;
    }
    Ok(types)
}
