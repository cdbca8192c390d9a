// One statement more.
ghost use Rattle.std.specs.Prelude.{◌≡◌, [], IfOk, OnOk};
ghost use Rattle.script_grammar.specs.Tree.{BindPart, CallPart, DefPart, IfPart};
ghost use Rattle.script_grammar.specs.View.{view_bind, view_call, view_def, view_if, view_part};
ghost use Rattle.general_types.specs.Holding.{AreThere};
ghost use Rattle.expression_types.specs.Tables.{targets_of};
ghost use Rattle.type_infer.specs.Later.{AddsValues, AreValues, IsRenewed};
ghost use Rattle.type_infer.specs.States.{IsDefKept, IsReady, IsRunKept, IsStepped, IsValueKept};

use crate::defs::type_def;
use crate::steps::{Step, TypedExpr, Typing};
use crate::values::{choice_type, run_type, value_type};
use expression_types::{Bindings, Defs, Known, KnownDef, Names, TypedName};
use general_types::Held;
use liq_base::{Memory, TokenTable};
use script_grammar::tree::{Bind, Call, Def, If, StmtPart};
use std::alloc::Global;
use type_terms::{Subst, Ty};
use typing_rules::Target;

/// Types one statement more and keeps what it leaves; false where there is no typing with it.
pub fn type_part<'a>(
    alloc: Global,
    typing: &mut Typing<'a>,
    targets: &TokenTable<Target>,
    part: &'a StmtPart,
) -> Result<bool, Memory>
    requires ready { IsReady (targets_of targets.now) typing.old }
    ensures { IfOk result (λ yes. IsStepped (targets_of targets.now) (view_part part.entry.now) typing.old typing.new
        yes) }
{
    match part {
        StmtPart::Bind(bind) => type_bind(alloc, typing, targets, bind),
        StmtPart::Def(def) => type_function(alloc, typing, targets, def),
        StmtPart::Call(call) => type_run(alloc, typing, targets, call),
        StmtPart::If(choice) => type_branch(alloc, typing, targets, choice),
    }
}

/// The names that an expression outside of defs sees: what each means by its token, what statements have bound, and
/// their defs. `inner`, the names bound within a def, is empty.
fn outside<'n, 'a>(
    targets: &'n TokenTable<Target>,
    before: &'n Bindings,
    defs: &'n Defs<'a>,
) -> Names<'n, 'a>
    ensures targets { result.targets.now ≡ targets.entry.now }
    ensures inner { result.inner.now ≡ [] }
    ensures before { result.before.now ≡ before.entry.now }
    ensures defs { result.defs.now ≡ defs.entry.now }
{
    Names {
        targets,
        inner: &[],
        before,
        defs,
    }
}

/// Adds to `held` the free variables in the types of these values, whose types are type variables of these numbers.
fn add_values(alloc: Global, subst: &Subst, held: &mut Held, values: &[u64]) -> Result<(), Memory>
    requires there { AreValues subst.now values.now }
    ensures { OnOk result (AddsValues subst.now values.now held.old held.new) }
{
    for value in values {
        held.add(alloc, subst, &Ty::Var(*value))?;
    }
    Ok(())
}

/// Brings `held`, the free variables of earlier values' types, up to the substitution: renews what was found, and
/// adds those of the `pending` values, of which none is left. Only a def asks for them, so it is done just before
/// one. Where memory runs out, some of it may have been done.
fn catch_up(
    alloc: Global,
    subst: &Subst,
    held: &mut Held,
    pending: &mut Vec<u64>,
) -> Result<(), Memory>
    requires there { AreThere subst.now held.old }
    requires values { AreValues subst.now pending.old.items }
    ensures held { OnOk result (IsRenewed subst.now pending.old.items held.old held.new) }
    ensures pending { OnOk result (pending.new.items ≡ []) }
{
    held.renew(alloc, subst)?;
    add_values(alloc, subst, held, pending)?;
    pending.clear();
    Ok(())
}

/// Keeps a typed binding of the name at token `at`, with the uses in its value, in the state of typing. Where memory
/// runs out, some of it may have been kept.
fn keep_value(typing: &mut Typing<'_>, at: u32, typed: TypedExpr) -> Result<(), Memory>
    ensures { OnOk result (IsValueKept at typed typing.old typing.new) }
{
    let name = TypedName { at, var: typed.var };
    typing.steps.push(Step::Bound(name, typed.uses))?;
    typing.pending.push(name.var)?;
    typing.before.push(Known::Value(name))?;
    Ok(())
}

/// Keeps in the state of typing the uses of a call or an `if` that runs as a statement.
fn keep_run(typing: &mut Typing<'_>, typed: TypedExpr) -> Result<(), Memory>
    ensures { OnOk result (IsRunKept typed typing.old typing.new) }
{
    typing.steps.push(Step::Ran(typed.uses))?;
    Ok(())
}

/// Keeps a typed def in the state of typing, behind the other defs. Where memory runs out, some of it may have been
/// kept.
fn keep_def<'a>(typing: &mut Typing<'a>, def: KnownDef<'a>) -> Result<(), Memory>
    ensures { OnOk result (IsDefKept def.entry typing.old typing.new) }
{
    let place = typing.defs.len();
    typing.defs.push(def)?;
    typing.steps.push(Step::Defined(place))?;
    typing.before.push(Known::Function(place))?;
    Ok(())
}

/// Types a binding that is a statement and keeps it; false where its value has no type.
fn type_bind(
    alloc: Global,
    typing: &mut Typing<'_>,
    targets: &TokenTable<Target>,
    bind: &Bind,
) -> Result<bool, Memory>
    requires ready { IsReady (targets_of targets.now) typing.old }
    ensures { IfOk result (λ yes. IsStepped (targets_of targets.now) (BindPart (view_bind bind.now)) typing.old
        typing.new yes) }
{
    let seen = outside(targets, &typing.before, &typing.defs);
    match value_type(alloc, &mut typing.subst, seen, &bind.value)? {
        None => Ok(false),
        Some(typed) => {
            keep_value(typing, bind.at, typed)?;
            Ok(true)
        }
    }
}

/// Types a call that is a statement and keeps its uses; false where it has no type.
fn type_run(
    alloc: Global,
    typing: &mut Typing<'_>,
    targets: &TokenTable<Target>,
    call: &Call,
) -> Result<bool, Memory>
    requires ready { IsReady (targets_of targets.now) typing.old }
    ensures { IfOk result (λ yes. IsStepped (targets_of targets.now) (CallPart (view_call call.now)) typing.old
        typing.new yes) }
{
    let seen = outside(targets, &typing.before, &typing.defs);
    match run_type(alloc, &mut typing.subst, seen, call)? {
        None => Ok(false),
        Some(typed) => {
            keep_run(typing, typed)?;
            Ok(true)
        }
    }
}

/// Types an `if` that is a statement and keeps its uses; false where it has no type.
fn type_branch(
    alloc: Global,
    typing: &mut Typing<'_>,
    targets: &TokenTable<Target>,
    choice: &If,
) -> Result<bool, Memory>
    requires ready { IsReady (targets_of targets.now) typing.old }
    ensures { IfOk result (λ yes. IsStepped (targets_of targets.now) (IfPart (view_if choice.now)) typing.old typing.new
        yes) }
{
    let seen = outside(targets, &typing.before, &typing.defs);
    match choice_type(alloc, &mut typing.subst, seen, choice)? {
        None => Ok(false),
        Some(typed) => {
            keep_run(typing, typed)?;
            Ok(true)
        }
    }
}

/// Types a def that is a statement and keeps it; false where it has no typing. The free variables of earlier values
/// are brought up to date first.
fn type_function<'a>(
    alloc: Global,
    typing: &mut Typing<'a>,
    targets: &TokenTable<Target>,
    def: &'a Def,
) -> Result<bool, Memory>
    requires ready { IsReady (targets_of targets.now) typing.old }
    ensures { IfOk result (λ yes. IsStepped (targets_of targets.now) (DefPart (view_def def.entry.now)) typing.old
        typing.new yes) }
{
    catch_up(alloc, &typing.subst, &mut typing.held, &mut typing.pending)?;
    let seen = outside(targets, &typing.before, &typing.defs);
    match type_def(alloc, &mut typing.subst, seen, &mut typing.held, def)? {
        None => Ok(false),
        Some(typed) => {
            keep_def(typing, typed)?;
            Ok(true)
        }
    }
}
