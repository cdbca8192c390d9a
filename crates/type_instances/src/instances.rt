// General types with new variables in place of their own.
ghost use Rattle.std.specs.Prelude.{◌≡◌, [], length, map, IfOk, IsTrue, OnOk};
ghost use Rattle.type_terms.specs.Agrees.{HasNewKind, HasNewType};
ghost use Rattle.type_terms.specs.Naming.{instance};
ghost use Rattle.type_terms.specs.Term.{term_of};
ghost use Rattle.type_instances.specs.Instances.{Grows, Instantiates, instance_params};
ghost use Rattle.type_instances.specs.NewVariables.{AreNewKinds, AreNewTypes, HasOuterKind, HasOuterKinds};
ghost use Rattle.type_instances.specs.NewVariables.{HasOuterType, HasOuterTypes, IsNewKind, IsNewType, open_terms};
ghost use Rattle.type_instances.specs.Schemes.{IsSchemeOver, open_numbers, scheme_of};

use crate::general::{General, KindParameter, TypeParameter};
use liq_base::Memory;
use std::alloc::Global;
use type_terms::{KindTerm, Subst, Ty, renamed};

/// A call of what has a general type: the types of all parameters and of the result, and the open kinds, in order.
#[derive(Debug, Drop)]
pub struct Instance {
    pub params: Vec<Ty>,
    pub result: Ty,
    pub kinds: Vec<KindTerm>,
}

/// The type of one call of a def: its general type with variables of the substitution for its own. A variable that is
/// `Outer` there names one that the substitution has; for any other a new one is made. It takes time that grows with
/// the type alone. Where memory runs out, some may be made that nothing names.
pub fn instantiate(alloc: Global, subst: &mut Subst, general: &General) -> Result<Instance, Memory>
    requires over { IsSchemeOver subst.old (scheme_of general.now) }
    ensures instance { IfOk result
        (λ i. Instantiates subst.old subst.new (scheme_of general.now) (instance_params i) (term_of i.result)
        i.kinds.items) }
    ensures counted { IfOk result (λ i. length i.kinds.items ≡ length (open_numbers 0 (scheme_of general.now).kinds)) }
    ensures grows { Grows subst.old subst.new }
{
    let many = general.places();
    subst.spend(many)?;
    let types = new_types(alloc, subst, &general.types)?;
    let numbers = new_kinds(alloc, subst, &general.kinds)?;
    let call = instance_with(alloc, general, &types, &numbers)?;
    Ok(call)
}

/// The type of one call, from a general type: variables of these numbers stand for its type variables (`types`) and
/// kind variables (`numbers`). Its `kinds` are the kind variables of those parameters that the text of the def names.
fn instance_with(
    alloc: Global,
    general: &General,
    types: &[u64],
    numbers: &[u64],
) -> Result<Instance, Memory>
    requires { length numbers.now ≡ length general.now.kinds.items }
    ensures params { IfOk result (λ i. map term_of i.params.items
        ≡ map (instance types.now numbers.now) (map term_of general.now.params.items)) }
    ensures call { IfOk result (λ i. term_of i.result ≡ instance types.now numbers.now (term_of general.now.result)) }
    ensures kinds { IfOk result (λ i. i.kinds.items ≡ open_terms general.now.kinds.items numbers.now) }
{
    let mut params = Vec::new(alloc);
    let mut kinds = Vec::new(alloc);
    let call = rename(alloc, general, types, numbers, &mut params, &mut kinds)?;
    Ok(Instance {
        params,
        result: call,
        kinds,
    })
}

/// Puts the types of the parameters of one call into `params` and its open kinds, those that the text of the def names,
/// into `kinds`; both lists are empty before. Answers the type of the result. Variables number `types` and `numbers`
/// stand for the type and kind variables of the general type.
fn rename(
    alloc: Global,
    general: &General,
    types: &[u64],
    numbers: &[u64],
    params: &mut Vec<Ty>,
    kinds: &mut Vec<KindTerm>,
) -> Result<Ty, Memory>
    requires many { length numbers.now ≡ length general.now.kinds.items }
    requires params { params.old.items ≡ [] }
    requires kinds { kinds.old.items ≡ [] }
    ensures params { OnOk result (map term_of params.new.items
        ≡ map (instance types.now numbers.now) (map term_of general.now.params.items)) }
    ensures call { IfOk result (λ t. term_of t ≡ instance types.now numbers.now (term_of general.now.result)) }
    ensures kinds { OnOk result (kinds.new.items ≡ open_terms general.now.kinds.items numbers.now) }
{
    push_renamed(alloc, params, &general.params, types, numbers)?;
    push_opened(kinds, &general.kinds, numbers)?;
    let call = renamed(alloc, &general.result, types, numbers)?;
    Ok(call)
}

/// Makes a new type variable and gives its number; with `number` it may only be int or decimal.
pub fn fresh_number(subst: &mut Subst, number: bool) -> Result<u64, Memory>
    ensures free { IfOk result (λ n. HasNewType subst.old subst.new (IsTrue number) n) }
    ensures grows { Grows subst.old subst.new }
{
    match subst.fresh(number)? {
        Ty::Var(next) => Ok(next),
        // No other type is handed out.
        _ => Err(Memory),
    }
}

/// Makes a new kind variable, for mono or stereo, and gives its number.
pub fn fresh_kind_number(subst: &mut Subst) -> Result<u64, Memory>
    ensures free { IfOk result (λ n. HasNewKind subst.old subst.new n) }
    ensures grows { Grows subst.old subst.new }
{
    match subst.fresh_kind()? {
        KindTerm::Var(next) => Ok(next),
        // No other kind is handed out.
        KindTerm::Fixed(_) => Err(Memory),
    }
}

/// The number of a type variable for a parameter of a general type: a new one for `Any` type or for a `Number` (int or
/// decimal). An `Outer` one names a variable that the substitution has, which all calls share.
fn new_type(subst: &mut Subst, parameter: TypeParameter) -> Result<u64, Memory>
    requires { HasOuterType subst.old parameter }
    ensures new { IfOk result (λ n. IsNewType subst.old subst.new parameter n) }
    ensures grows { Grows subst.old subst.new }
{
    match parameter {
        TypeParameter::Any => fresh_number(subst, false),
        TypeParameter::Number => fresh_number(subst, true),
        TypeParameter::Outer(number) => Ok(number),
    }
}

/// The number of a kind variable for a parameter of a general type: a new one for either kind, whether the text of the
/// def names it (`Open`) or not (`Unread`). An `Outer` one names a variable that the substitution has, which all calls
/// share.
fn new_kind(subst: &mut Subst, parameter: KindParameter) -> Result<u64, Memory>
    requires { HasOuterKind subst.old parameter }
    ensures new { IfOk result (λ n. IsNewKind subst.old subst.new parameter n) }
    ensures grows { Grows subst.old subst.new }
{
    match parameter {
        KindParameter::Open => fresh_kind_number(subst),
        KindParameter::Unread => fresh_kind_number(subst),
        KindParameter::Outer(number) => Ok(number),
    }
}

/// For each type parameter of a general type the number of a variable that stands for it: a new one, or the outer one
/// that it names.
fn new_types(
    alloc: Global,
    subst: &mut Subst,
    parameters: &[TypeParameter],
) -> Result<Vec<u64>, Memory>
    requires { HasOuterTypes subst.old parameters.now }
    ensures new { IfOk result (λ ns. AreNewTypes subst.old subst.new parameters.now ns.items) }
    ensures grows { Grows subst.old subst.new }
{
    let mut numbers = Vec::with_capacity(alloc, parameters.len())?;
    for parameter in parameters {
        let next = new_type(subst, *parameter)?;
        numbers.push(next)?;
    }
    Ok(numbers)
}

/// For each kind parameter of a general type the number of a variable that stands for it: a new one, or the outer one
/// that it names.
fn new_kinds(
    alloc: Global,
    subst: &mut Subst,
    parameters: &[KindParameter],
) -> Result<Vec<u64>, Memory>
    requires { HasOuterKinds subst.old parameters.now }
    ensures new { IfOk result (λ ns. AreNewKinds subst.old subst.new parameters.now ns.items) }
    ensures grows { Grows subst.old subst.new }
{
    let mut numbers = Vec::with_capacity(alloc, parameters.len())?;
    for parameter in parameters {
        let next = new_kind(subst, *parameter)?;
        numbers.push(next)?;
    }
    Ok(numbers)
}

/// Appends copies of these types to an empty list, in which variables of these numbers stand for their type and kind
/// variables. `types` and `kinds` have the numbers.
fn push_renamed(
    alloc: Global,
    copies: &mut Vec<Ty>,
    tys: &[Ty],
    types: &[u64],
    kinds: &[u64],
) -> Result<(), Memory>
    requires { copies.old.items ≡ [] }
    ensures { OnOk result (map term_of copies.new.items ≡ map (instance types.now kinds.now) (map term_of tys.now)) }
{
    for ty in tys {
        let next = renamed(alloc, ty, types, kinds)?;
        copies.push(next)?;
    }
    Ok(())
}

/// Appends to an empty list the kind variables, by their `numbers`, that stand for the `Open` parameters: those of
/// either kind that the text of a def names. Those that it does not name (`Unread`) and those that stand for a variable
/// of the substitution (`Outer`) are left out.
fn push_opened(
    kinds: &mut Vec<KindTerm>,
    parameters: &[KindParameter],
    numbers: &[u64],
) -> Result<(), Memory>
    requires many { length numbers.now ≡ length parameters.now }
    requires none { kinds.old.items ≡ [] }
    ensures { OnOk result (kinds.new.items ≡ open_terms parameters.now numbers.now) }
{
    for i in 0..parameters.len() {
        match parameters[i] {
            KindParameter::Open => kinds.push(KindTerm::Var(numbers[i]))?,
            KindParameter::Unread => continue,
            KindParameter::Outer(_) => continue,
        }
    }
    Ok(())
}
