// Operands that hold values: calls, `if`, and values in round and square brackets.
// `left` says how many levels deeper evaluation may go; where it is used up, memory counts as wanting. The place `out`
// gets a value or the first fault.
ghost use Rattle.std.specs.Prelude.{◌≤◌, length, map};
ghost use Rattle.script_grammar.specs.View.{listed, view_full, view_operand};
ghost use Rattle.script_values.specs.Gives.{Gives};
ghost use Rattle.eval_meaning.specs.Meaning.{operand, grouped, all_of};
ghost use Rattle.eval_scope.specs.Scopes.{scope_of};
ghost use Rattle.script_values.specs.View.{view_value};

use crate::atoms::atom;
use crate::calls::put_call;
use crate::conditionals::put_choice;
use crate::steps::{put, step};
use crate::values::{fulls, put_full};
use eval_scope::Scope;
use script_grammar::tree::{self, Full};
use script_values::{Machine, Stop, Value, listed, tuple};
use std::alloc::Global;

/// operand: call | if | `(` .. `)` | `[` .. `]` | one that holds no value
///
/// Puts the value of an operand into `out`. Each arm that goes down ends in its call, so that nothing of this function
/// is on the stack behind it.
/// `left` says how many levels deeper it may go. The first fault is put into `out` instead.
#[cycle(value)]
pub fn operand(
    alloc: Global,
    scope: &Scope<'_>,
    left: usize,
    machine: &mut Machine,
    node: &tree::Operand,
    out: &mut Result<Value, Stop>,
)
    ensures { Gives (λ v. (view_value v, machine.new)) out.new
        (operand (scope_of scope.now) (view_operand node.now) machine.old) }
{
    match node {
        tree::Operand::Call(inside) => {
            if step(machine, out) {
                put_call(alloc, scope, left, machine, inside, out);
            }
        }
        tree::Operand::If(inside) => {
            if step(machine, out) {
                put_choice(alloc, scope, left, machine, inside, out);
            }
        }
        tree::Operand::Paren(inside) => {
            if step(machine, out) {
                put_full(alloc, scope, left, machine, inside, out);
            }
        }
        tree::Operand::Tuple { at: _, parts } => {
            if step(machine, out) {
                grouped(alloc, scope, left, machine, parts, out);
            }
        }
        tree::Operand::List { at: _, parts } => {
            if step(machine, out) {
                list(alloc, scope, left, machine, parts, out);
            }
        }
        _ => put(out, atom(alloc, scope, machine, node)),
    }
}

/// `(` (value (`,` value)*)? `)`
///
/// Puts what stands in parentheses into `out`, once 1 is counted: no value is the one of `()`, one is itself, and
/// several are a tuple.
/// `left` says how many levels deeper it may go. The first fault is put into `out` instead.
#[cycle(value)]
#[inline(never)]
fn grouped(
    alloc: Global,
    scope: &Scope<'_>,
    left: usize,
    machine: &mut Machine,
    parts: &[Full],
    out: &mut Result<Value, Stop>,
)
    ensures { Gives (λ v. (view_value v, machine.new)) out.new
        (grouped (scope_of scope.now) (listed (map view_full parts.now)) machine.old) }
{
    match parts {
        [] => put(out, Ok(Value::Nothing)),
        [part] => put_full(alloc, scope, left, machine, part, out),
        [_, _, ..] => pair(alloc, scope, left, machine, parts, out),
    }
}

/// `(` value (`,` value)+ `)`
///
/// Puts a tuple of two or more values into `out`, once 1 is counted.
/// `left` says how many levels deeper it may go. The first fault is put into `out` instead.
#[cycle(value)]
fn pair(
    alloc: Global,
    scope: &Scope<'_>,
    left: usize,
    machine: &mut Machine,
    parts: &[Full],
    out: &mut Result<Value, Stop>,
)
    requires { 2 ≤ length parts.now }
    ensures { Gives (λ v. (view_value v, machine.new)) out.new
        (grouped (scope_of scope.now) (listed (map view_full parts.now)) machine.old) }
{
    match fulls(alloc, scope, left, machine, parts, out) {
        None => {}
        Some(values) => put(out, Ok(tuple(values))),
    }
}

/// `[` (value (`,` value)*)? `]`
///
/// Puts a list of values into `out`, once 1 is counted.
/// `left` says how many levels deeper it may go. The first fault is put into `out` instead.
#[cycle(value)]
#[inline(never)]
fn list(
    alloc: Global,
    scope: &Scope<'_>,
    left: usize,
    machine: &mut Machine,
    parts: &[Full],
    out: &mut Result<Value, Stop>,
)
    ensures { Gives (λ v. (view_value v, machine.new)) out.new
        (all_of (scope_of scope.now) (listed (map view_full parts.now)) machine.old) }
{
    match fulls(alloc, scope, left, machine, parts, out) {
        None => {}
        Some(values) => put(out, Ok(listed(values))),
    }
}
