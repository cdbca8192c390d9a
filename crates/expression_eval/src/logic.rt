// Expressions: parts joined by `or` and `and`, each perhaps behind `not`.
// `left` says how many levels deeper evaluation may go; where it is used up, memory counts as wanting. The place `out`
// gets a value or the first fault.
ghost use Rattle.std.specs.Prelude.{map};
ghost use Rattle.script_grammar.specs.View.{listed, view_expr, view_and, view_not};
ghost use Rattle.script_values.specs.Gives.{Gives};
ghost use Rattle.eval_meaning.specs.Meaning.{expr, ors, operator_applied, conjunction, ands, negation};
ghost use Rattle.expression_eval.specs.Places.{Goes};
ghost use Rattle.script_values.specs.Numbers.{both, either};
ghost use Rattle.eval_scope.specs.Scopes.{scope_of};
ghost use Rattle.script_values.specs.View.{view_value};

use crate::arithmetic::compare;
use crate::steps::{Operator, negate, operate};
use eval_scope::Scope;
use script_grammar::tree::{And, Expr, Not};
use script_values::{Machine, Stop, Value};
use std::alloc::Global;

/// expression: and (`or` and)*
///
/// Puts the value of an expression into `out`.
/// `left` says how many levels deeper it may go. The first fault is put into `out` instead.
#[cycle(value)]
pub fn expr(
    alloc: Global,
    scope: &Scope<'_>,
    left: usize,
    machine: &mut Machine,
    node: &Expr,
    out: &mut Result<Value, Stop>,
)
    ensures { Gives (λ v. (view_value v, machine.new)) out.new
        (expr (scope_of scope.now) (view_expr node.now) machine.old) }
{
    conjunction(alloc, scope, left, machine, &node.first, out);
    ors(alloc, scope, left, machine, &node.rest, out);
}

/// (`or` and)*
///
/// Joins these parts to the value in `out` by `or`, one after another.
/// `left` says how many levels deeper it may go. A fault that is in `out` stays, and a new one goes there.
#[cycle(value)]
fn ors(
    alloc: Global,
    scope: &Scope<'_>,
    left: usize,
    machine: &mut Machine,
    parts: &[And],
    out: &mut Result<Value, Stop>,
)
    ensures { Goes (λ v. ors (scope_of scope.now) (listed (map view_and parts.now)) v machine.old) out.old out.new
        machine.new }
{
    'turns: for part in parts {
        if out.is_err() {
            return;
        }
        or_one(alloc, scope, left, machine, part, out);
    }
}

/// `or` and
///
/// Joins this part to the value in `out` by `or`.
/// `left` says how many levels deeper it may go. A fault that is in `out` stays, and a new one goes there.
#[cycle(value)]
#[inline(never)]
fn or_one(
    alloc: Global,
    scope: &Scope<'_>,
    left: usize,
    machine: &mut Machine,
    part: &And,
    out: &mut Result<Value, Stop>,
)
    ensures { Goes (λ v. operator_applied either v (conjunction (scope_of scope.now) (view_and part.now) machine.old))
        out.old out.new machine.new }
{
    let mut other = Err(Stop::Memory);
    conjunction(alloc, scope, left, machine, part, &mut other);
    operate(machine, Operator::Or, out, other);
}

/// and: not (`and` not)*
///
/// Puts the value of a part of an `or` into `out`.
/// `left` says how many levels deeper it may go. The first fault is put into `out` instead.
#[cycle(value)]
fn conjunction(
    alloc: Global,
    scope: &Scope<'_>,
    left: usize,
    machine: &mut Machine,
    node: &And,
    out: &mut Result<Value, Stop>,
)
    ensures { Gives (λ v. (view_value v, machine.new)) out.new
        (conjunction (scope_of scope.now) (view_and node.now) machine.old) }
{
    negation(alloc, scope, left, machine, &node.first, out);
    ands(alloc, scope, left, machine, &node.rest, out);
}

/// (`and` not)*
///
/// Joins these parts to the value in `out` by `and`, one after another.
/// `left` says how many levels deeper it may go. A fault that is in `out` stays, and a new one goes there.
#[cycle(value)]
fn ands(
    alloc: Global,
    scope: &Scope<'_>,
    left: usize,
    machine: &mut Machine,
    parts: &[Not],
    out: &mut Result<Value, Stop>,
)
    ensures { Goes (λ v. ands (scope_of scope.now) (listed (map view_not parts.now)) v machine.old) out.old out.new
        machine.new }
{
    'turns: for part in parts {
        if out.is_err() {
            return;
        }
        and_one(alloc, scope, left, machine, part, out);
    }
}

/// `and` not
///
/// Joins this part to the value in `out` by `and`.
/// `left` says how many levels deeper it may go. A fault that is in `out` stays, and a new one goes there.
#[cycle(value)]
#[inline(never)]
fn and_one(
    alloc: Global,
    scope: &Scope<'_>,
    left: usize,
    machine: &mut Machine,
    part: &Not,
    out: &mut Result<Value, Stop>,
)
    ensures { Goes (λ v. operator_applied both v (negation (scope_of scope.now) (view_not part.now) machine.old))
        out.old out.new machine.new }
{
    let mut other = Err(Stop::Memory);
    negation(alloc, scope, left, machine, part, &mut other);
    operate(machine, Operator::And, out, other);
}

/// not: `not`? comparison
///
/// Puts the value of a comparison into `out`, or with `not` its opposite.
/// `left` says how many levels deeper it may go. The first fault is put into `out` instead.
#[cycle(value)]
fn negation(
    alloc: Global,
    scope: &Scope<'_>,
    left: usize,
    machine: &mut Machine,
    node: &Not,
    out: &mut Result<Value, Stop>,
)
    ensures { Gives (λ v. (view_value v, machine.new)) out.new
        (negation (scope_of scope.now) (view_not node.now) machine.old) }
{
    compare(alloc, scope, left, machine, &node.inner, out);
    if node.negated {
        negate(machine, out);
    }
}
