// The types of calls.
ghost use Rattle.std.specs.Prelude.{◌≡◌, length, map, option_map, IfOk, Some};
ghost use Rattle.name_scope.specs.Seen.{seen_parameter};
ghost use Rattle.script_grammar.specs.declared.tree.Call.{out-Call};
ghost use Rattle.script_grammar.specs.View.{listed, view_arg, view_call};
ghost use Rattle.type_instances.specs.Schemes.{open_numbers};
ghost use Rattle.type_steps.specs.Fitting.{seen_argument};
ghost use Rattle.type_steps.specs.Flow.{AreGivenOf, IsTypeOf};
ghost use Rattle.expression_types.specs.Seen.{IsCalled, IsSeen, called_scheme, env_of, founds};
ghost use Rattle.expression_types.specs.Order.{AreAddedIf, kinds_count, tokens_used};

use crate::callees::{Called, begin_call};
use crate::environment::{FoundUse, Names};
use crate::leaves::some_if;
use crate::values::type_full;
use liq_base::Memory;
use name_scope::{Parameter, builtin_params};
use script_grammar::tree::{Arg, Call};
use std::alloc::Global;
use type_steps::{Argument, fit};
use type_terms::Subst;
use typing_rules::Target;

/// The number of the type variable of a call; `None` where it has no type. It fails only where memory is refused.
///
/// Where it has a type, one use for each name of its text was added, in the order of the tokens.
#[cycle(value)]
pub fn type_call(
    alloc: Global,
    subst: &mut Subst,
    names: Names<'_, '_>,
    uses: &mut Vec<FoundUse>,
    call: &Call,
) -> Result<Option<u64>, Memory>
    requires seen { IsSeen subst.old names uses.old.items }
    ensures typed { IfOk result
        (λ r. IsTypeOf subst.old subst.new (env_of names.entry) (view_call call.now) (founds uses.old.items)
        (founds uses.new.items) r) }
    ensures order { IfOk result
        (λ r. AreAddedIf names.entry (tokens_used (view_call call.now)) (founds uses.old.items) (founds uses.new.items)
        r) }
{
    match names.target(call.at) {
        None => Ok(None),
        Some(target) => match target {
            Target::Slot(_) => Ok(None),
            Target::Def(def) => match names.function(def) {
                None => Ok(None),
                Some(known) => {
                    let typed = apply(
                        alloc,
                        subst,
                        names,
                        uses,
                        call,
                        target,
                        &known.params,
                        Called::General(&known.general),
                    )?;
                    Ok(typed)
                }
            },
            Target::Builtin(builtin) => {
                let params = builtin_params(builtin);
                let called = Called::Builtin(builtin);
                let typed = apply(alloc, subst, names, uses, call, target, params, called)?;
                Ok(typed)
            }
        },
    }
}

/// An argument of a call as typing sees it: its label, and type variable `var` as the type of its value.
fn argument_of<'s>(arg: &'s Arg, var: u64) -> Argument<'s>
    ensures { seen_argument result ≡ (arg.now.label, var) }
{
    let label = match &arg.label {
        None => None,
        Some(name) => Some(name.as_str()),
    };
    Argument { label, var }
}

/// Types the arguments of a call: their labels and the type variables of their values; `None` where one has no type.
/// `names` tells what the names in it mean; the list `uses` takes a use of each. It fails only where memory is refused.
#[cycle(value)]
fn type_args<'s>(
    alloc: Global,
    subst: &mut Subst,
    names: Names<'_, '_>,
    uses: &mut Vec<FoundUse>,
    args: &'s [Arg],
) -> Result<Option<Vec<Argument<'s>>>, Memory>
    requires seen { IsSeen subst.old names uses.old.items }
    ensures typed { IfOk result
        (λ r. AreGivenOf subst.old subst.new (env_of names.entry) (listed (map view_arg args.entry.now))
        (founds uses.old.items) (founds uses.new.items) (option_map (λ v. map seen_argument v.items) r)) }
    ensures order { IfOk result
        (λ r. AreAddedIf names.entry (tokens_used (listed (map view_arg args.entry.now))) (founds uses.old.items)
        (founds uses.new.items) r) }
{
    let mut given = Vec::new(alloc);
    for arg in args {
        match type_full(alloc, subst, names, uses, &arg.value)? {
            None => return Ok(None),
            Some(var) => {
                given.push(argument_of(arg, var))?;
            }
        }
    }
    Ok(Some(given))
}

/// The type of a call of `called`, a builtin or a def by its general type, whose parameters are `params`: the number of
/// its type variable. `None` where an argument has no type, or the arguments do not fit the parameters. To `uses` goes
/// first the use of the call's name, which means `target`, and then those in the arguments, by what `names` tells.
#[cycle(value)]
fn apply(
    alloc: Global,
    subst: &mut Subst,
    names: Names<'_, '_>,
    uses: &mut Vec<FoundUse>,
    call: &Call,
    target: Target,
    params: &[Parameter<'_>],
    called: Called<'_>,
) -> Result<Option<u64>, Memory>
    requires seen { IsSeen subst.old names uses.old.items }
    requires callable { IsCalled subst.old (env_of names) (out-Call call.now).at target (map seen_parameter params.now)
        (called_scheme called) }
    requires counted { kinds_count names.defs.now (Some target)
        ≡ Some (length (open_numbers 0 (called_scheme called).kinds)) }
    ensures typed { IfOk result
        (λ r. IsTypeOf subst.old subst.new (env_of names.entry) (view_call call.now) (founds uses.old.items)
        (founds uses.new.items) r) }
    ensures order { IfOk result
        (λ r. AreAddedIf names.entry (tokens_used (view_call call.now)) (founds uses.old.items) (founds uses.new.items)
        r) }
{
    let callee = begin_call(alloc, subst, uses, call.at, target, called)?;
    match type_args(alloc, subst, names, uses, &call.args)? {
        None => Ok(None),
        Some(mut given) => {
            let yes = fit(alloc, subst, params, &callee.params, &mut given)?;
            Ok(some_if(yes, callee.result))
        }
    }
}
