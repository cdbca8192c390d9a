// The parts of a def, one after another: parameters, the bindings in its body, its result.
ghost use Rattle.std.specs.Prelude.{◌≡◌, ◌++◌, [], map, option_map, IfOk};
ghost use Rattle.script_grammar.specs.View.{listed, view_def, view_expr, view_full, view_inner, view_param};
ghost use Rattle.type_steps.specs.Environment.{AreTypesOver};
ghost use Rattle.type_steps.specs.Flow.{IsTypeOf};
ghost use Rattle.expression_types.specs.Seen.{IsSeen, env_of, founds, types_seen};
ghost use Rattle.expression_types.specs.Order.{AreAddedIf, AreAddedWhere, tokens_used};
ghost use Rattle.type_infer.specs.PartsOf.{IsParamOf, with_inner};
ghost use Rattle.type_infer.specs.DefSteps.{AreInnersOf, AreParamsOf, ArePartsOf, IsBodyOf};

use expression_types::{FoundUse, Names, TypedName, type_expr, type_full};
use liq_base::Memory;
use script_grammar::tree::{Def, Expr, Full, Inner, Param, ParamForm};
use std::alloc::Global;
use type_steps::new_var;
use type_terms::Subst;

/// The numbers of the type variables that are the types of a def's parameters and of its result.
#[derive(Drop)]
pub struct TypedParts {
    pub params: Vec<u64>,
    pub result: u64,
}

/// Types the parts of a def, which sees the names in `seen` outside of it. Answers the type variables of its
/// parameters and of its result, or `None` where it has no typing. The uses of names in it are added to `uses`.
pub fn type_parts(
    alloc: Global,
    subst: &mut Subst,
    seen: Names<'_, '_>,
    uses: &mut Vec<FoundUse>,
    def: &Def,
) -> Result<Option<TypedParts>, Memory>
    requires seen { IsSeen subst.old seen uses.old.items }
    requires outside { seen.inner.now ≡ [] }
    requires first { uses.old.items ≡ [] }
    ensures typed { IfOk result
        (λ r. ArePartsOf subst.old subst.new (env_of seen.entry).targets (env_of seen.entry).before (view_def def.now)
        (founds uses.new.items) r) }
    ensures order { IfOk result
        (λ r. AreAddedIf seen.entry (tokens_used (view_def def.now)) (founds uses.old.items) (founds uses.new.items)
        r) }
{
    match type_params(alloc, subst, seen, uses, &def.params)? {
        None => Ok(None),
        Some(typed) => {
            let params = vars_of(alloc, &typed)?;
            match type_body(alloc, subst, seen, typed, uses, def)? {
                None => Ok(None),
                Some(result) => Ok(Some(TypedParts { params, result })),
            }
        }
    }
}

/// Types a parameter of a def: answers the number of its type variable, which is that of its default, where it has
/// one, and a new one otherwise. `None`: the default has no type. The uses in a default are added to `uses`.
fn type_param(
    alloc: Global,
    subst: &mut Subst,
    names: Names<'_, '_>,
    uses: &mut Vec<FoundUse>,
    param: &Param,
) -> Result<Option<u64>, Memory>
    requires seen { IsSeen subst.old names uses.old.items }
    ensures typed { IfOk result
        (λ r. IsParamOf subst.old subst.new (env_of names.entry) (view_param param.now) (founds uses.old.items)
        (founds uses.new.items) r) }
    ensures order { IfOk result
        (λ r. AreAddedIf names.entry (tokens_used (view_param param.now)) (founds uses.old.items)
        (founds uses.new.items) r) }
{
    match &param.form {
        ParamForm::Optional(default) => type_full(alloc, subst, names, uses, default),
        ParamForm::Plain => {
            let var = new_var(subst, false)?;
            Ok(Some(var))
        }
        ParamForm::Labelled => {
            let var = new_var(subst, false)?;
            Ok(Some(var))
        }
    }
}

/// Types the parameters of a def: answers for each the token of its name with its type variable. `None`: a default
/// has no type. The uses in defaults are added to `uses`.
fn type_params(
    alloc: Global,
    subst: &mut Subst,
    names: Names<'_, '_>,
    uses: &mut Vec<FoundUse>,
    params: &[Param],
) -> Result<Option<Vec<TypedName>>, Memory>
    requires seen { IsSeen subst.old names uses.old.items }
    ensures typed { IfOk result
        (λ r. AreParamsOf subst.old subst.new (env_of names.entry) (listed (map view_param params.now))
        (founds uses.old.items) (founds uses.new.items) (option_map (λ v. v.items) r)) }
    ensures order { IfOk result
        (λ r. AreAddedIf names.entry (tokens_used (listed (map view_param params.now))) (founds uses.old.items)
        (founds uses.new.items) r) }
{
    let mut typed = Vec::new(alloc);
    for param in params {
        match type_param(alloc, subst, names, uses, param)? {
            None => return Ok(None),
            Some(var) => typed.push(TypedName { at: param.at, var })?,
        }
    }
    Ok(Some(typed))
}

/// Types a value in the body of a def, which sees the names in `seen` and before them `bindings`, the def's
/// parameters and earlier inner bindings. Answers the number of its type variable, or `None` where it has no type.
/// The uses in it are added to `uses`.
fn type_behind<'n, 'a>(
    alloc: Global,
    subst: &mut Subst,
    seen: Names<'n, 'a>,
    bindings: &'n [TypedName],
    uses: &mut Vec<FoundUse>,
    full: &Full,
) -> Result<Option<u64>, Memory>
    requires seen { IsSeen subst.old seen uses.old.items }
    requires over { AreTypesOver subst.old (types_seen bindings.now) }
    ensures typed { IfOk result
        (λ r. IsTypeOf subst.old subst.new (with_inner (env_of seen.entry) (types_seen bindings.entry.now))
        (view_full full.now) (founds uses.old.items) (founds uses.new.items) r) }
    ensures order { IfOk result
        (λ r. AreAddedIf seen.entry (tokens_used (view_full full.now)) (founds uses.old.items) (founds uses.new.items)
        r) }
{
    let names = Names {
        targets: seen.targets,
        inner: bindings,
        before: seen.before,
        defs: seen.defs,
    };
    type_full(alloc, subst, names, uses, full)
}

/// Types the result of a def, which sees the names in `seen` and before them `bindings`, the def's parameters and
/// inner bindings. Answers the number of its type variable, or `None` where it has no type. The uses in it are added
/// to `uses`.
fn type_result<'n, 'a>(
    alloc: Global,
    subst: &mut Subst,
    seen: Names<'n, 'a>,
    bindings: &'n [TypedName],
    uses: &mut Vec<FoundUse>,
    expr: &Expr,
) -> Result<Option<u64>, Memory>
    requires seen { IsSeen subst.old seen uses.old.items }
    requires over { AreTypesOver subst.old (types_seen bindings.now) }
    ensures typed { IfOk result
        (λ r. IsTypeOf subst.old subst.new (with_inner (env_of seen.entry) (types_seen bindings.entry.now))
        (view_expr expr.now) (founds uses.old.items) (founds uses.new.items) r) }
    ensures order { IfOk result
        (λ r. AreAddedIf seen.entry (tokens_used (view_expr expr.now)) (founds uses.old.items) (founds uses.new.items)
        r) }
{
    let names = Names {
        targets: seen.targets,
        inner: bindings,
        before: seen.before,
        defs: seen.defs,
    };
    type_expr(alloc, subst, names, uses, expr)
}

/// Types the bindings in a def's body, each behind the ones before it, and adds them with their type variables to
/// `bindings`, which has the parameters at first. The uses in them are added to `uses`. False: one has no type.
fn type_inners(
    alloc: Global,
    subst: &mut Subst,
    seen: Names<'_, '_>,
    bindings: &mut Vec<TypedName>,
    uses: &mut Vec<FoundUse>,
    inners: &[Inner],
) -> Result<bool, Memory>
    requires seen { IsSeen subst.old seen uses.old.items }
    requires outside { seen.inner.now ≡ [] }
    requires over { AreTypesOver subst.old (types_seen bindings.old.items) }
    ensures typed { IfOk result
        (λ yes. AreInnersOf subst.old subst.new (env_of seen.entry).targets (env_of seen.entry).before
        (listed (map view_inner inners.now)) (types_seen bindings.old.items) (types_seen bindings.new.items)
        (founds uses.old.items) (founds uses.new.items) yes) }
    ensures order { IfOk result
        (λ yes. AreAddedWhere seen.entry (tokens_used (listed (map view_inner inners.now))) (founds uses.old.items)
        (founds uses.new.items) yes) }
{
    for inner in inners {
        match type_behind(
            alloc,
            subst,
            seen,
            bindings.as_slice(),
            uses,
            &inner.bind.value,
        )? {
            None => return Ok(false),
            Some(var) => bindings.push(TypedName {
                at: inner.bind.at,
                var,
            })?,
        }
    }
    Ok(true)
}

/// The numbers of the type variables of typed names, in order.
fn vars_of(alloc: Global, bindings: &[TypedName]) -> Result<Vec<u64>, Memory>
    ensures { IfOk result (λ ns. ns.items ≡ map (λ b. b.var) bindings.now) }
{
    let mut vars = Vec::new(alloc);
    for binding in bindings {
        vars.push(binding.var)?;
    }
    Ok(vars)
}

/// Types the body of a def behind its parameters `params`: its inner bindings, then its result. Answers the number of
/// the result's type variable, or `None` where a part has no type. The uses in it are added to `uses`.
fn type_body(
    alloc: Global,
    subst: &mut Subst,
    seen: Names<'_, '_>,
    params: Vec<TypedName>,
    uses: &mut Vec<FoundUse>,
    def: &Def,
) -> Result<Option<u64>, Memory>
    requires seen { IsSeen subst.old seen uses.old.items }
    requires outside { seen.inner.now ≡ [] }
    requires over { AreTypesOver subst.old (types_seen params.items) }
    ensures typed { IfOk result
        (λ r. IsBodyOf subst.old subst.new (env_of seen.entry).targets (env_of seen.entry).before
        (listed (map view_inner def.now.inner.items)) (view_expr def.now.result) (types_seen params.items)
        (founds uses.old.items) (founds uses.new.items) r) }
    ensures order { IfOk result (λ r. AreAddedIf seen.entry (tokens_used (listed (map view_inner def.now.inner.items))
        ++ tokens_used (view_expr def.now.result)) (founds uses.old.items) (founds uses.new.items) r) }
{
    let mut bindings = params;
    let typed = type_inners(alloc, subst, seen, &mut bindings, uses, &def.inner)?;
    if !typed {
        return Ok(None);
    }
    type_result(alloc, subst, seen, bindings.as_slice(), uses, &def.result)
}
