// Conditionals: one of two values.
// `left` says how many levels deeper evaluation may go; where it is used up, memory counts as wanting. The place `out`
// gets a value or the first fault.
ghost use Rattle.script_grammar.specs.View.{view_if};
ghost use Rattle.script_values.specs.Gives.{Gives};
ghost use Rattle.eval_meaning.specs.Meaning.{choice};
ghost use Rattle.eval_scope.specs.Scopes.{scope_of};
ghost use Rattle.script_values.specs.View.{view_value};

use crate::steps::truth;
use crate::values::put_full;
use eval_scope::Scope;
use script_grammar::tree::If;
use script_values::{Machine, Stop, Value};
use std::alloc::Global;

/// if: `if` value `then` value `else` value `end`
///
/// The value of an `if`, or its first fault.
/// `left` says how many levels deeper it may go.
pub fn choice(
    alloc: Global,
    scope: &Scope<'_>,
    left: usize,
    machine: &mut Machine,
    node: &If,
) -> Result<Value, Stop>
    ensures { Gives (λ v. (view_value v, machine.new)) result
        (choice (scope_of scope.now) (view_if node.now) machine.old) }
{
    let mut out = Err(Stop::Memory);
    put_choice(alloc, scope, left, machine, node, &mut out);
    out
}

/// if: `if` value `then` value `else` value `end`
///
/// Puts the value of an `if` into `out`. Of the two branches only the chosen one is evaluated.
/// `left` says how many levels deeper it may go. The first fault is put into `out` instead.
#[cycle(value)]
#[inline(never)]
pub fn put_choice(
    alloc: Global,
    scope: &Scope<'_>,
    left: usize,
    machine: &mut Machine,
    node: &If,
    out: &mut Result<Value, Stop>,
)
    ensures { Gives (λ v. (view_value v, machine.new)) out.new
        (choice (scope_of scope.now) (view_if node.now) machine.old) }
{
    put_full(alloc, scope, left, machine, &node.condition, out);
    match truth(out) {
        None => {}
        Some(true) => put_full(alloc, scope, left, machine, &node.then_part, out),
        Some(false) => put_full(alloc, scope, left, machine, &node.else_part, out),
    }
}
