// Comparisons, sums and products.
// `left` says how many levels deeper evaluation may go; where it is used up, memory counts as wanting. The place `out`
// gets a value or the first fault.
ghost use Rattle.std.specs.Prelude.{map};
ghost use Rattle.script_grammar.specs.View.{listed, view_compare, view_sum, view_added, view_product, view_multiplied};
ghost use Rattle.script_values.specs.Gives.{Gives};
ghost use Rattle.eval_meaning.specs.Meaning.{operator_applied, compare, sum, addends, plus, product, factors, times};
ghost use Rattle.expression_eval.specs.Places.{Goes};
ghost use Rattle.script_values.specs.Numbers.{compared};
ghost use Rattle.eval_scope.specs.Scopes.{scope_of};
ghost use Rattle.script_values.specs.View.{view_value};

use crate::operands::operand;
use crate::steps::{Operator, operate};
use eval_scope::Scope;
use script_grammar::tree::{Added, Compare, CompareOp, Multiplied, Product, Sum};
use script_values::{Machine, Stop, Value};
use std::alloc::Global;

/// comparison: sum ((`==` | `!=` | `<` | `<=` | `>` | `>=`) sum)?
///
/// Puts the truth of a comparison into `out`, or the value of a sum alone.
/// `left` says how many levels deeper it may go. The first fault is put into `out` instead.
#[cycle(value)]
pub fn compare(
    alloc: Global,
    scope: &Scope<'_>,
    left: usize,
    machine: &mut Machine,
    node: &Compare,
    out: &mut Result<Value, Stop>,
)
    ensures { Gives (λ v. (view_value v, machine.new)) out.new
        (compare (scope_of scope.now) (view_compare node.now) machine.old) }
{
    sum(alloc, scope, left, machine, &node.left, out);
    if out.is_err() {
        return;
    }
    match &node.right {
        None => {}
        Some(right) => compare_with(alloc, scope, left, machine, right.op, &right.sum, out),
    }
}

/// (`==` | `!=` | `<` | `<=` | `>` | `>=`) sum
///
/// Compares the value in `out`, if it is no fault, with the sum to its right.
/// `left` says how many levels deeper it may go. A fault that is in `out` stays, and a new one goes there.
#[cycle(value)]
#[inline(never)]
fn compare_with(
    alloc: Global,
    scope: &Scope<'_>,
    left: usize,
    machine: &mut Machine,
    op: CompareOp,
    right: &Sum,
    out: &mut Result<Value, Stop>,
)
    ensures { Goes (λ v. operator_applied (compared op) v (sum (scope_of scope.now) (view_sum right.now) machine.old))
        out.old out.new machine.new }
{
    let mut other = Err(Stop::Memory);
    sum(alloc, scope, left, machine, right, &mut other);
    operate(machine, Operator::Comparison(op), out, other);
}

/// sum: product ((`+` | `-`) product)*
///
/// Puts the value of a sum into `out`.
/// `left` says how many levels deeper it may go. The first fault is put into `out` instead.
#[cycle(value)]
fn sum(
    alloc: Global,
    scope: &Scope<'_>,
    left: usize,
    machine: &mut Machine,
    node: &Sum,
    out: &mut Result<Value, Stop>,
)
    ensures { Gives (λ v. (view_value v, machine.new)) out.new
        (sum (scope_of scope.now) (view_sum node.now) machine.old) }
{
    product(alloc, scope, left, machine, &node.first, out);
    addends(alloc, scope, left, machine, &node.rest, out);
}

/// ((`+` | `-`) product)*
///
/// Adds these products to the value in `out`, or takes them from it, one after another.
/// `left` says how many levels deeper it may go. A fault that is in `out` stays, and a new one goes there.
#[cycle(value)]
fn addends(
    alloc: Global,
    scope: &Scope<'_>,
    left: usize,
    machine: &mut Machine,
    parts: &[Added],
    out: &mut Result<Value, Stop>,
)
    ensures { Goes (λ v. addends (scope_of scope.now) (listed (map view_added parts.now)) v machine.old) out.old out.new
        machine.new }
{
    'turns: for part in parts {
        if out.is_err() {
            return;
        }
        added(alloc, scope, left, machine, part, out);
    }
}

/// (`+` | `-`) product
///
/// Adds this product to the value in `out`, or takes it from it.
/// `left` says how many levels deeper it may go. A fault that is in `out` stays, and a new one goes there.
#[cycle(value)]
#[inline(never)]
fn added(
    alloc: Global,
    scope: &Scope<'_>,
    left: usize,
    machine: &mut Machine,
    part: &Added,
    out: &mut Result<Value, Stop>,
)
    ensures { Goes (λ v. plus (scope_of scope.now) (view_added part.now) v machine.old) out.old out.new machine.new }
{
    let mut other = Err(Stop::Memory);
    product(alloc, scope, left, machine, &part.product, &mut other);
    let operator = Operator::Sum {
        minus: part.minus,
        at: part.at,
    };
    operate(machine, operator, out, other);
}

/// product: operand ((`*` | `/`) operand)*
///
/// Puts the value of a product into `out`.
/// `left` says how many levels deeper it may go. The first fault is put into `out` instead.
#[cycle(value)]
fn product(
    alloc: Global,
    scope: &Scope<'_>,
    left: usize,
    machine: &mut Machine,
    node: &Product,
    out: &mut Result<Value, Stop>,
)
    ensures { Gives (λ v. (view_value v, machine.new)) out.new
        (product (scope_of scope.now) (view_product node.now) machine.old) }
{
    operand(alloc, scope, left, machine, &node.first, out);
    factors(alloc, scope, left, machine, &node.rest, out);
}

/// ((`*` | `/`) operand)*
///
/// Multiplies the value in `out` by these operands, or divides it by them, one after another.
/// `left` says how many levels deeper it may go. A fault that is in `out` stays, and a new one goes there.
#[cycle(value)]
fn factors(
    alloc: Global,
    scope: &Scope<'_>,
    left: usize,
    machine: &mut Machine,
    parts: &[Multiplied],
    out: &mut Result<Value, Stop>,
)
    ensures { Goes (λ v. factors (scope_of scope.now) (listed (map view_multiplied parts.now)) v machine.old) out.old
        out.new machine.new }
{
    'turns: for part in parts {
        if out.is_err() {
            return;
        }
        multiplied(alloc, scope, left, machine, part, out);
    }
}

/// (`*` | `/`) operand
///
/// Multiplies the value in `out` by this operand, or divides it by it.
/// `left` says how many levels deeper it may go. A fault that is in `out` stays, and a new one goes there.
#[cycle(value)]
#[inline(never)]
fn multiplied(
    alloc: Global,
    scope: &Scope<'_>,
    left: usize,
    machine: &mut Machine,
    part: &Multiplied,
    out: &mut Result<Value, Stop>,
)
    ensures { Goes (λ v. times (scope_of scope.now) (view_multiplied part.now) v machine.old) out.old out.new
        machine.new }
{
    let mut other = Err(Stop::Memory);
    operand(alloc, scope, left, machine, &part.operand, &mut other);
    let operator = Operator::Product {
        divide: part.divide,
        at: part.at,
    };
    operate(machine, operator, out, other);
}
