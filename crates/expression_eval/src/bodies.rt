// The bodies of defs: their parameters, their inner bindings and their results.
// `left` says how many levels deeper evaluation may go; where it is used up, memory counts as wanting.
ghost use Rattle.std.specs.Prelude.{[], None, map};
ghost use Rattle.script_grammar.specs.View.{listed, view_def, view_param, view_inner};
ghost use Rattle.script_values.specs.Gives.{Gives};
ghost use Rattle.eval_meaning.specs.Meaning.{parameters, inners, inner, body};
ghost use Rattle.expression_eval.specs.Parameters.{all_filled, filled, view_taken};
ghost use Rattle.eval_scope.specs.Scopes.{base_of};
ghost use Rattle.script_values.specs.Views.{view_given, view_slot};
ghost use Rattle.script_values.specs.View.{view_value};

use crate::arguments::taken_arguments;
use crate::logic::expr;
use crate::values::full;
use eval_scope::Scope;
use script_grammar::tree::{Def, Inner, Param, ParamForm};
use script_values::{Given, Machine, Slot, Stop, Value};
use std::alloc::Global;

/// def: `def` NameOpen (param (`,` param)*)? `)` `=`? inner* expression `end`
///
/// The result of a def for a call with these arguments.
/// `left` says how many levels deeper it may go. The error is the first fault.
#[cycle(value)]
#[tactic(auto, unfolding(eval_meaning::specs::Meaning::body))]
pub fn body(
    alloc: Global,
    scope: &Scope<'_>,
    left: usize,
    machine: &mut Machine,
    def: &Def,
    given: Vec<Given>,
) -> Result<Value, Stop>
    ensures { Gives (λ v. (view_value v, machine.new)) result
        (body (base_of scope.now) (view_def def.now) (map view_given given.items) machine.old) }
{
    if left == 0 {
        return Err(Stop::Memory);
    }
    let mut locals = parameters(alloc, scope, left, machine, &def.params, given)?;
    inners(alloc, scope, left, machine, &def.inner, &mut locals)?;
    let inside = Scope {
        defs: scope.defs,
        uses: scope.uses,
        globals: scope.globals,
        locals: &locals,
        kinds: scope.kinds,
        calls: scope.calls,
    };
    let mut out = Err(Stop::Memory);
    expr(alloc, &inside, left - 1, machine, &def.result, &mut out);
    out
}

/// param (`,` param)*
///
/// The bindings of the parameters of a def, by the arguments that they take.
/// `left` says how many levels deeper it may go. The error is the first fault.
#[cycle(value)]
fn parameters(
    alloc: Global,
    scope: &Scope<'_>,
    left: usize,
    machine: &mut Machine,
    params: &[Param],
    given: Vec<Given>,
) -> Result<Vec<Slot>, Stop>
    ensures { Gives (λ v. (map view_slot v.items, machine.new)) result
        (parameters (base_of scope.now) (listed (map view_param params.now)) (map view_given given.items) []
        machine.old) }
{
    let taken = taken_arguments(alloc, params, given)?;
    filled_parameters(alloc, scope, left, machine, params, taken)
}

/// param (`,` param)*
///
/// The bindings of parameters, of which each takes the value in `taken` at its place, or else its default.
/// `left` says how many levels deeper it may go. The error is the first fault.
#[cycle(value)]
fn filled_parameters(
    alloc: Global,
    scope: &Scope<'_>,
    left: usize,
    machine: &mut Machine,
    params: &[Param],
    taken: Vec<Option<Value>>,
) -> Result<Vec<Slot>, Stop>
    ensures { Gives (λ v. (map view_slot v.items, machine.new)) result
        (all_filled (base_of scope.now) (listed (map view_param params.now)) (map view_taken taken.items) []
        machine.old) }
{
    let mut rest = taken.into_iter();
    let mut slots = Vec::new(alloc);
    'turns: for param in params {
        let Some(one) = rest.next() else {
            return Err(Stop::Stuck);
        };
        let slot = parameter(alloc, scope, left, machine, param, one)?;
        slots.push(slot)?;
    }
    Ok(slots)
}

/// param: Name | `~` Name | `~` Name `=` value
///
/// The binding of a parameter by the argument that it takes, or else by its default.
/// `left` says how many levels deeper it may go. The error is the first fault.
#[cycle(value)]
#[tactic(auto, unfolding(crate::specs::Parameters::filled))]
fn parameter(
    alloc: Global,
    scope: &Scope<'_>,
    left: usize,
    machine: &mut Machine,
    param: &Param,
    taken: Option<Value>,
) -> Result<Slot, Stop>
    ensures { Gives (λ v. (view_slot v, machine.new)) result
        (filled (base_of scope.now) (view_param param.now) (view_taken taken) machine.old) }
{
    match taken {
        None => missing_parameter(alloc, scope, left, machine, param),
        Some(value) => Ok(Slot {
            at: param.at,
            value,
        }),
    }
}

/// `~` Name `=` value
///
/// The binding of a parameter that takes no argument, by its default, which is evaluated in the scope outside of the
/// def.
/// `left` says how many levels deeper it may go. The error is the first fault.
#[cycle(value)]
#[tactic(auto, unfolding(crate::specs::Parameters::filled))]
fn missing_parameter(
    alloc: Global,
    scope: &Scope<'_>,
    left: usize,
    machine: &mut Machine,
    param: &Param,
) -> Result<Slot, Stop>
    ensures { Gives (λ v. (view_slot v, machine.new)) result
        (filled (base_of scope.now) (view_param param.now) None machine.old) }
{
    match &param.form {
        ParamForm::Plain => Err(Stop::Stuck),
        ParamForm::Labelled => Err(Stop::Stuck),
        ParamForm::Optional(default) => {
            let outer = Scope {
                defs: scope.defs,
                uses: scope.uses,
                globals: scope.globals,
                locals: &[],
                kinds: scope.kinds,
                calls: scope.calls,
            };
            let value = full(alloc, &outer, left, machine, default)?;
            Ok(Slot {
                at: param.at,
                value,
            })
        }
    }
}

/// inner*
///
/// Adds the inner bindings of a def to `slots`, each evaluated behind the ones before it.
/// `left` says how many levels deeper it may go. The error is the first fault.
#[cycle(value)]
fn inners(
    alloc: Global,
    scope: &Scope<'_>,
    left: usize,
    machine: &mut Machine,
    bindings: &[Inner],
    slots: &mut Vec<Slot>,
) -> Result<(), Stop>
    ensures { Gives (λ _. (map view_slot slots.new.items, machine.new)) result
        (inners (base_of scope.now) (listed (map view_inner bindings.now)) (map view_slot slots.old.items)
        machine.old) }
{
    'turns: for binding in bindings {
        let slot = inner(alloc, scope, left, machine, binding, slots)?;
        slots.push(slot)?;
    }
    Ok(())
}

/// inner: binding `;`?
///
/// The binding that an inner binding of a def makes, behind the parameters and the inner bindings in `slots`.
/// `left` says how many levels deeper it may go. The error is the first fault.
#[cycle(value)]
#[tactic(auto, unfolding(eval_meaning::specs::Meaning::inner))]
fn inner(
    alloc: Global,
    scope: &Scope<'_>,
    left: usize,
    machine: &mut Machine,
    binding: &Inner,
    slots: &[Slot],
) -> Result<Slot, Stop>
    ensures { Gives (λ v. (view_slot v, machine.new)) result
        (inner (base_of scope.now) (view_inner binding.now) (map view_slot slots.now) machine.old) }
{
    let inside = Scope {
        defs: scope.defs,
        uses: scope.uses,
        globals: scope.globals,
        locals: slots,
        kinds: scope.kinds,
        calls: scope.calls,
    };
    let value = full(alloc, &inside, left, machine, &binding.bind.value)?;
    Ok(Slot {
        at: binding.bind.at,
        value,
    })
}
