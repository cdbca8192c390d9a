// The types of calls of builtins, by their rows.
ghost use Rattle.std.specs.Prelude.{◌≡◌, ◌∷◌, [], cond, length, map, replicate, IfOk};
ghost use Rattle.liq_base.specs.declared.memory.Kind.TheVariants.{Mono, Stereo};
ghost use Rattle.type_terms.specs.Naming.{instance};
ghost use Rattle.type_terms.specs.Term.{base_term, list_term, one_more, no_terms, source_term, term_of, tuple_term};
ghost use Rattle.type_terms.specs.declared.ty.Base.TheVariants.{Pred};
ghost use Rattle.type_terms.specs.declared.ty.KindTerm.TheVariants.{Var};
ghost use Rattle.typing_rules.specs.Table.{signature};
ghost use Rattle.type_instances.specs.Instances.{Grows, Instantiates, instance_params};
ghost use Rattle.type_instances.specs.NewVariables.{AreNewKinds, AreNewTypes};
ghost use Rattle.type_instances.specs.Rows.{numbered_row};
ghost use Rattle.type_instances.specs.Schemes.{builtin_scheme, open_numbers};

use crate::instances::{Instance, fresh_kind_number, fresh_number};
use liq_base::{Kind, Memory};
use std::alloc::Global;
use type_terms::{KindTerm, Subst, Ty};
use typing_rules::{Builtin, RowType, builtin_row};

/// The type of one call of a builtin: its row in the table of builtins, with new variables of the substitution for the
/// type and kind variable of the row. Where memory runs out, some may be made that nothing names.
pub fn instantiate_builtin(
    alloc: Global,
    subst: &mut Subst,
    builtin: Builtin,
) -> Result<Instance, Memory>
    ensures instance { IfOk result
        (λ i. Instantiates subst.old subst.new (builtin_scheme builtin) (instance_params i) (term_of i.result)
        i.kinds.items) }
    ensures counted { IfOk result (λ i. length i.kinds.items ≡ length (open_numbers 0 (builtin_scheme builtin).kinds)) }
    ensures grows { Grows subst.old subst.new }
{
    let any = new_row_type(subst, builtin)?;
    let kind = new_row_kind(subst, builtin)?;
    let call = row_instance(alloc, builtin, any, kind)?;
    Ok(call)
}

/// Makes a new type variable for that of the row of a builtin, and gives its number; 0 where the row has none.
fn new_row_type(subst: &mut Subst, builtin: Builtin) -> Result<u64, Memory>
    ensures new { IfOk result
        (λ n. AreNewTypes subst.old subst.new (builtin_scheme builtin).types (replicate (signature builtin).types n)) }
    ensures grows { Grows subst.old subst.new }
{
    if !has_type_variable(builtin) {
        return Ok(0);
    }
    let number = fresh_number(subst, false)?;
    Ok(number)
}

/// Makes a new kind variable (for mono or stereo) for that of the row of a builtin, and gives its number; 0 where the
/// row has none.
fn new_row_kind(subst: &mut Subst, builtin: Builtin) -> Result<u64, Memory>
    ensures new { IfOk result
        (λ n. AreNewKinds subst.old subst.new (builtin_scheme builtin).kinds (replicate (signature builtin).kinds n)) }
    ensures grows { Grows subst.old subst.new }
{
    if !has_kind_variable(builtin) {
        return Ok(0);
    }
    let number = fresh_kind_number(subst)?;
    Ok(number)
}

/// The type of one call of a builtin, from its row in the table: type variable number `any` and kind variable number
/// `kind` stand for those of the row. The number is not used where the row has no such variable.
fn row_instance(alloc: Global, builtin: Builtin, any: u64, kind: u64) -> Result<Instance, Memory>
    ensures params { IfOk result (λ i. map term_of i.params.items
        ≡ map (instance (any ∷ []) (kind ∷ [])) (builtin_scheme builtin).params) }
    ensures call { IfOk result (λ i. term_of i.result
        ≡ instance (any ∷ []) (kind ∷ []) (builtin_scheme builtin).result) }
    ensures kinds { IfOk result (λ i. i.kinds.items ≡ replicate (signature builtin).kinds (Var kind)) }
{
    let row = builtin_row(builtin);
    let params = row_types(alloc, row.types, any, kind)?;
    let call = row_type(alloc, row.result, any, kind)?;
    let kinds = row_kinds(alloc, builtin, kind)?;
    Ok(Instance {
        params,
        result: call,
        kinds,
    })
}

/// Whether the type of a builtin is general in a type. `set` alone is, which takes a value of any type.
fn has_type_variable(builtin: Builtin) -> bool
    ensures { (signature builtin).types ≡ cond result 1 0 }
{
    match builtin {
        Builtin::Set => true,
        _ => false,
    }
}

/// Whether the type of a builtin is general in a kind, so that it takes or gives sources in mono or in stereo. `mean`
/// and `stereo` have fixed kinds, and `set` takes no source.
fn has_kind_variable(builtin: Builtin) -> bool
    ensures { (signature builtin).kinds ≡ cond result 1 0 }
{
    match builtin {
        Builtin::Set => false,
        Builtin::Mean => false,
        Builtin::Stereo => false,
        _ => true,
    }
}

/// The open kinds of a call of a builtin, those that evaluation is told of: the kind variable of this number, or none
/// where the type of the builtin has no kind variable.
fn row_kinds(alloc: Global, builtin: Builtin, kind: u64) -> Result<Vec<KindTerm>, Memory>
    ensures { IfOk result (λ ks. ks.items ≡ replicate (signature builtin).kinds (Var kind)) }
{
    if !has_kind_variable(builtin) {
        return Ok(Vec::new(alloc));
    }
    let mut kinds = Vec::with_capacity(alloc, 1)?;
    kinds.push(KindTerm::Var(kind))?;
    Ok(kinds)
}

/// The type of a list of sources of this kind, as `fallback` takes it.
fn sources(alloc: Global, kind: KindTerm) -> Result<Ty, Memory>
    ensures { IfOk result (λ t. term_of t ≡ list_term (source_term kind)) }
{
    let item = Box::new(alloc, Ty::Source(kind))?;
    Ok(Ty::List(item))
}

/// The type of a case of `switch`: a tuple of a predicate and a source of this kind.
fn pair(alloc: Global, kind: KindTerm) -> Result<Ty, Memory>
    ensures { IfOk result (λ t. term_of t
        ≡ tuple_term (one_more (base_term Pred) (one_more (source_term kind) no_terms))) }
{
    let mut parts = Vec::new(alloc);
    parts.push(Ty::Pred)?;
    parts.push(Ty::Source(kind))?;
    Ok(Ty::Tuple(parts))
}

/// The type of the cases of `switch`: a list of tuples of a predicate and a source of this kind.
fn pairs(alloc: Global, kind: KindTerm) -> Result<Ty, Memory>
    ensures { IfOk result (λ t. term_of t
        ≡ list_term (tuple_term (one_more (base_term Pred) (one_more (source_term kind) no_terms)))) }
{
    let item = pair(alloc, kind)?;
    let item = Box::new(alloc, item)?;
    Ok(Ty::List(item))
}

/// A type of the table of builtins as a type of the checker: `any` is the number of its type variable, and `kind` that
/// of its kind variable.
fn row_type(alloc: Global, ty: RowType, any: u64, kind: u64) -> Result<Ty, Memory>
    ensures { IfOk result (λ t. term_of t ≡ numbered_row any kind ty) }
{
    match ty {
        RowType::Int => Ok(Ty::Int),
        RowType::Text => Ok(Ty::Text),
        RowType::Bool => Ok(Ty::Bool),
        RowType::Decimal => Ok(Ty::Decimal),
        RowType::Unit => Ok(Ty::Unit),
        RowType::Format => Ok(Ty::Format),
        RowType::Anything => Ok(Ty::Var(any)),
        RowType::Source => Ok(Ty::Source(KindTerm::Var(kind))),
        RowType::MonoSource => Ok(Ty::Source(KindTerm::Fixed(Kind::Mono))),
        RowType::StereoSource => Ok(Ty::Source(KindTerm::Fixed(Kind::Stereo))),
        RowType::Sources => sources(alloc, KindTerm::Var(kind)),
        RowType::Pairs => pairs(alloc, KindTerm::Var(kind)),
    }
}

/// Types of the table of builtins as types of the checker: `any` is the number of their type variable, and `kind` that
/// of their kind variable.
fn row_types(alloc: Global, row: &[RowType], any: u64, kind: u64) -> Result<Vec<Ty>, Memory>
    ensures { IfOk result (λ ts. map term_of ts.items ≡ map (numbered_row any kind) row.now) }
{
    let mut types = Vec::with_capacity(alloc, row.len())?;
    for ty in row {
        let next = row_type(alloc, *ty, any, kind)?;
        types.push(next)?;
    }
    Ok(types)
}
