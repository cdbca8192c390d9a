// Calls, their arguments, and what they call.
// `left` says how many levels deeper evaluation may go; where it is used up, memory counts as wanting. The place `out`
// gets a value or the first fault.
ghost use Rattle.std.specs.Prelude.{[], map};
ghost use Rattle.typing_rules.specs.Kinds.{kinds_of};
ghost use Rattle.typing_rules.specs.Uses.{use_at};
ghost use Rattle.script_grammar.specs.View.{listed, view_call, view_arg};
ghost use Rattle.script_values.specs.Gives.{Gives};
ghost use Rattle.eval_meaning.specs.Meaning.{call, arguments, applied, applied_to};
ghost use Rattle.expression_eval.specs.Places.{Makes};
ghost use Rattle.eval_scope.specs.Scopes.{scope_of, called};
ghost use Rattle.script_values.specs.Views.{view_given};
ghost use Rattle.script_values.specs.View.{view_value};

use crate::bodies::body;
use crate::steps::{kept_argument, noted, put};
use crate::values::put_full;
use builtin_calls::builtin;
use eval_scope::{Scope, kinds_of};
use liq_base::Kind;
use script_grammar::tree::{Arg, Call};
use script_values::{Given, Limit, Machine, Stop, Value, sources_made};
use std::alloc::Global;
use typing_rules::{Target, Use};

/// call: NameOpen (argument (`,` argument)*)? `)`
///
/// The value of a call, or its first fault.
/// `left` says how many levels deeper it may go.
pub fn call(
    alloc: Global,
    scope: &Scope<'_>,
    left: usize,
    machine: &mut Machine,
    node: &Call,
) -> Result<Value, Stop>
    ensures { Gives (λ v. (view_value v, machine.new)) result
        (call (scope_of scope.now) (view_call node.now) machine.old) }
{
    let mut out = Err(Stop::Memory);
    put_call(alloc, scope, left, machine, node, &mut out);
    out
}

/// call: NameOpen (argument (`,` argument)*)? `)`
///
/// Puts the value of a call into `out`. Its arguments are evaluated as they are written, and then what the name stands
/// for is called.
/// `left` says how many levels deeper it may go. The first fault is put into `out` instead.
#[cycle(value)]
#[inline(never)]
pub fn put_call(
    alloc: Global,
    scope: &Scope<'_>,
    left: usize,
    machine: &mut Machine,
    node: &Call,
    out: &mut Result<Value, Stop>,
)
    ensures { Gives (λ v. (view_value v, machine.new)) out.new
        (call (scope_of scope.now) (view_call node.now) machine.old) }
{
    match arguments(alloc, scope, left, machine, &node.args, out) {
        None => {}
        Some(given) => applied(alloc, scope, left, machine, node.at, given, out),
    }
}

/// argument (`,` argument)*
///
/// The values of arguments in order, each with its label. `None` at the first fault, which is then in `out`.
/// `left` says how many levels deeper it may go.
#[cycle(value)]
fn arguments(
    alloc: Global,
    scope: &Scope<'_>,
    left: usize,
    machine: &mut Machine,
    args: &[Arg],
    out: &mut Result<Value, Stop>,
) -> Option<Vec<Given>>
    ensures { Makes (λ v. (map view_given v.items, machine.new)) result out.new
        (arguments (scope_of scope.now) (listed (map view_arg args.now)) [] machine.old) }
{
    let mut given = Vec::new(alloc);
    'turns: for arg in args {
        put_full(alloc, scope, left, machine, &arg.value, out);
        if !kept_argument(alloc, &arg.label, &mut given, out) {
            return None;
        }
    }
    Some(given)
}

/// Calls what the name at token `at` stands for, and notes the sources that the call makes as its own.
/// `left` says how many levels deeper it may go. The first fault is put into `out` instead.
#[cycle(value)]
#[inline(never)]
#[tactic(auto, unfolding(eval_meaning::specs::Meaning::applied))]
fn applied(
    alloc: Global,
    scope: &Scope<'_>,
    left: usize,
    machine: &mut Machine,
    at: u32,
    given: Vec<Given>,
    out: &mut Result<Value, Stop>,
)
    ensures { Gives (λ v. (view_value v, machine.new)) out.new
        (applied (scope_of scope.now) (use_at at scope.now.uses.now.all.now) at (map view_given given.items)
        machine.old) }
{
    match scope.uses.find(at) {
        None => put(out, Err(Stop::Stuck)),
        Some(found) => {
            let before = sources_made(&machine.plan);
            let made = applied_to(alloc, scope, left, machine, found, at, given);
            put(out, noted(machine, at, before, made));
        }
    }
}

/// Calls the def or builtin that a use says, whose name stands at token `at`, and notes no source.
/// `left` says how many levels deeper it may go. The error is the first fault.
#[cycle(value)]
fn applied_to(
    alloc: Global,
    scope: &Scope<'_>,
    left: usize,
    machine: &mut Machine,
    found: &Use,
    at: u32,
    given: Vec<Given>,
) -> Result<Value, Stop>
    ensures { Gives (λ v. (view_value v, machine.new)) result
        (applied_to (scope_of scope.now) found.now.target at (kinds_of scope.now.kinds.now found.now.kinds)
        (map view_given given.items) machine.old) }
{
    match kinds_of(alloc, scope.kinds, found.kinds.as_slice())? {
        None => Err(Stop::Stuck),
        Some(kinds) => match found.target {
            Target::Slot(_) => Err(Stop::Stuck),
            Target::Def(def) => call_def(alloc, scope, left, machine, def, &kinds, given),
            Target::Builtin(name) => builtin(alloc, name, at, &kinds, given, machine),
        },
    }
}

/// Calls the def at token `at`, with these open kinds and arguments. Where no more calls may run within each other, it
/// is refused.
/// `left` says how many levels deeper it may go. The error is the first fault.
#[cycle(value)]
fn call_def(
    alloc: Global,
    scope: &Scope<'_>,
    left: usize,
    machine: &mut Machine,
    at: u32,
    kinds: &[Kind],
    given: Vec<Given>,
) -> Result<Value, Stop>
    ensures { Gives (λ v. (view_value v, machine.new)) result
        (called scope.now at kinds.now (map view_given given.items) machine.old) }
{
    if scope.calls == 0 {
        return Err(Stop::TooLarge(Limit::Calls));
    }
    let inside = Scope {
        defs: scope.defs,
        uses: scope.uses,
        globals: scope.globals,
        locals: &[],
        kinds,
        calls: scope.calls - 1,
    };
    match scope.defs.find(at) {
        None => Err(Stop::Stuck),
        Some(def) => body(alloc, &inside, left, machine, def, given),
    }
}
