// Steps that evaluate no expression: what is counted, and what goes behind others. Values that are no longer needed end
// here, and not in the descent.
ghost use Rattle.std.specs.Prelude.{◌≡◌, [], ◌∷◌, ◌++◌, IfOk, Ok, map};
ghost use Rattle.eval_meaning.specs.Meaning.{format};
ghost use Rattle.expression_eval.specs.Places.{Goes, GoesOn, Joins, GoesBehind, Notes, Tells};
ghost use Rattle.expression_eval.specs.Steps.{after_count, noted_value, operation};
ghost use Rattle.script_values.specs.Gives.{Gives};
ghost use Rattle.script_values.specs.Machines.{count_work};
ghost use Rattle.script_values.specs.Numbers.{negative, opposite};
ghost use Rattle.script_values.specs.Values.{TextValue as a_text};
ghost use Rattle.script_values.specs.View.{view_value};
ghost use Rattle.script_values.specs.Views.{view_given};

use eval_scope::format;
use liq_base::{Memory, Text};
use script_grammar::tree::{CompareOp, Literal};
use script_values::{
    Given, Machine, Stop, Value, added, both, compared, copy_label, count, either, multiplied,
    negative, note, opposite, truth_of,
};
use std::alloc::Global;
use std::mem;
use std::rc::Rc;

/// An operator on two values, with the token `at` at which a bad value is told.
#[derive(Clone, Copy)]
pub enum Operator {
    /// `or` of two truth values.
    Or,

    /// `and` of two truth values.
    And,

    /// A sum, or with `minus` a difference.
    Sum { minus: bool, at: u32 },

    /// A product, or with `divide` a quotient.
    Product { divide: bool, at: u32 },

    /// The truth of a comparison.
    Comparison(CompareOp),
}

/// Writes a result into `out`, in place of what was there.
pub fn put(out: &mut Result<Value, Stop>, made: Result<Value, Stop>)
    ensures { out.new ≡ made }
{
    *out = made;
}

/// Puts what an operator makes of the value in `out` and of its right operand into `out`, and counts 1. A fault that is
/// there stays.
#[inline(never)]
pub fn operate(
    machine: &mut Machine,
    operator: Operator,
    out: &mut Result<Value, Stop>,
    right: Result<Value, Stop>,
)
    ensures { Joins operator right machine.old out.old out.new machine.new }
{
    match out {
        Err(_) => {}
        Ok(left) => *out = operated(machine, operator, left, right),
    }
}

/// What an operator makes of its left operand and of the result of its right one, whose fault it passes on; it counts
/// 1 of work.
fn operated(
    machine: &mut Machine,
    operator: Operator,
    left: &Value,
    right: Result<Value, Stop>,
) -> Result<Value, Stop>
    ensures { Joins operator right machine.old (Ok left.now) result machine.new }
{
    match right {
        Err(fault) => Err(fault),
        Ok(right) => counted_operation(machine, operator, left, &right),
    }
}

/// Puts `not` of the value in `out` into `out`, and counts 1. A fault that is there stays.
#[inline(never)]
pub fn negate(machine: &mut Machine, out: &mut Result<Value, Stop>)
    ensures { Goes (λ v. after_count (opposite v) machine.old) out.old out.new machine.new }
{
    match out {
        Err(_) => {}
        Ok(value) => *out = counted_opposite(machine, value),
    }
}

/// The truth of the value in `out`. `None` where there is none, and then the fault is in `out`.
#[inline(never)]
pub fn truth(out: &mut Result<Value, Stop>) -> Option<bool>
    ensures { Tells out.old result out.new }
{
    let told = match out {
        Err(_) => return None,
        Ok(value) => truth_of(value),
    };
    match told {
        Ok(truth) => Some(truth),
        Err(fault) => {
            *out = Err(fault);
            None
        }
    }
}

/// Counts 1 of work. False where that passes the bound of work, and then the fault is in `out`.
#[inline(never)]
pub fn step(machine: &mut Machine, out: &mut Result<Value, Stop>) -> bool
    ensures { GoesOn result machine.new out.new (count_work 1 machine.old) }
{
    match count(machine, 1) {
        Ok(_) => true,
        Err(fault) => {
            *out = Err(fault);
            false
        }
    }
}

/// The result of a call at token `at`, once the sources that it made, those from number `before` on, are noted as its
/// own. A fault stays.
#[inline(never)]
pub fn noted(
    machine: &mut Machine,
    at: u32,
    before: usize,
    made: Result<Value, Stop>,
) -> Result<Value, Stop>
    ensures { Notes at before made machine.old result machine.new }
{
    match made {
        Err(fault) => Err(fault),
        Ok(value) => noted_value(machine, at, before, value),
    }
}

/// Notes the sources that a call at token `at` made, those from number `before` on, as its own. Gives the value of the
/// call back, or a fault.
fn noted_value(machine: &mut Machine, at: u32, before: usize, value: Value) -> Result<Value, Stop>
    ensures { Gives (λ v. (view_value v, machine.new)) result (noted_value at before (view_value value) machine.old) }
{
    note(machine, at, before)?;
    Ok(value)
}

/// Moves the value in `out` to the end of `values`. False where there is none, and then a fault is in `out`. Want of
/// memory is left in `out` behind the value, and is the fault where the list cannot grow.
#[inline(never)]
pub fn kept_value(values: &mut Vec<Value>, out: &mut Result<Value, Stop>) -> bool
    ensures { GoesBehind (λ v. v) out.old result (map view_value values.old.items) (map view_value values.new.items)
        out.new }
{
    match mem::replace(out, Err(Stop::Memory)) {
        Err(fault) => {
            *out = Err(fault);
            false
        }
        Ok(value) => values.push(value).is_ok(),
    }
}

/// Moves the value in `out` to the end of the arguments in `given`, with a copy of its label. False where there is
/// none, and then a fault is in `out`. Want of memory is left in `out` behind the value, and is the fault where the
/// list cannot grow.
#[inline(never)]
pub fn kept_argument(
    alloc: Global,
    label: &Option<Text>,
    given: &mut Vec<Given>,
    out: &mut Result<Value, Stop>,
) -> bool
    ensures { GoesBehind (λ v. (label.now, v)) out.old result (map view_given given.old.items)
        (map view_given given.new.items) out.new }
{
    match mem::replace(out, Err(Stop::Memory)) {
        Err(fault) => {
            *out = Err(fault);
            false
        }
        Ok(value) => labelled(alloc, label, value, given).is_ok(),
    }
}

/// Adds an argument of a call to `given`: this value with a copy of this label.
fn labelled(
    alloc: Global,
    label: &Option<Text>,
    value: Value,
    given: &mut Vec<Given>,
) -> Result<(), Memory>
    ensures { IfOk result (λ _. map view_given given.new.items
        ≡ map view_given given.old.items ++ (label.now, view_value value) ∷ []) }
{
    let label = copy_label(alloc, label)?;
    given.push(Given { label, value })?;
    Ok(())
}

/// The value of a number behind the minus at token `at`; it counts 1.
pub fn counted_negative(machine: &mut Machine, at: u32, number: Literal) -> Result<Value, Stop>
    ensures { Gives (λ v. (view_value v, machine.new)) result (after_count (negative at number) machine.old) }
{
    count(machine, 1)?;
    let made = negative(at, number)?;
    Ok(made)
}

/// Gives this value back, once 1 of work is counted; a fault if that is too much work.
pub fn counted_value(machine: &mut Machine, value: Value) -> Result<Value, Stop>
    ensures { Gives (λ v. (view_value v, machine.new)) result (after_count (Ok (view_value value)) machine.old) }
{
    count(machine, 1)?;
    Ok(value)
}

/// The value of a text of the script; it counts 1.
pub fn counted_text(alloc: Global, machine: &mut Machine, text: &Text) -> Result<Value, Stop>
    ensures { Gives (λ v. (view_value v, machine.new)) result (after_count (Ok (a_text text.now)) machine.old) }
{
    count(machine, 1)?;
    let text = text.copy(alloc)?;
    Ok(Value::Text(Rc::new(alloc, text)?))
}

/// The format that `%wav` at token `at` names; it counts 1.
pub fn counted_format(machine: &mut Machine, at: u32, size: Option<i64>) -> Result<Value, Stop>
    ensures { Gives (λ v. (view_value v, machine.new)) result (after_count (format at size) machine.old) }
{
    count(machine, 1)?;
    let made = format(at, size)?;
    Ok(made)
}

/// What an operator makes of two values; it counts 1.
fn counted_operation(
    machine: &mut Machine,
    operator: Operator,
    left: &Value,
    right: &Value,
) -> Result<Value, Stop>
    ensures { Gives (λ v. (view_value v, machine.new)) result
        (after_count (operation operator (view_value left.now) (view_value right.now)) machine.old) }
{
    count(machine, 1)?;
    let made = operation(operator, left, right)?;
    Ok(made)
}

/// What an operator makes of two values, or a fault. No work is counted.
fn operation(operator: Operator, left: &Value, right: &Value) -> Result<Value, Stop>
    ensures { Gives (λ v. view_value v) result (operation operator (view_value left.now) (view_value right.now)) }
{
    match operator {
        Operator::Or => either(left, right),
        Operator::And => both(left, right),
        Operator::Sum { minus, at } => added(minus, at, left, right),
        Operator::Product { divide, at } => multiplied(divide, at, left, right),
        Operator::Comparison(op) => compared(op, left, right),
    }
}

/// `not` of a truth value; it counts 1.
fn counted_opposite(machine: &mut Machine, value: &Value) -> Result<Value, Stop>
    ensures { Gives (λ v. (view_value v, machine.new)) result
        (after_count (opposite (view_value value.now)) machine.old) }
{
    count(machine, 1)?;
    let made = opposite(value)?;
    Ok(made)
}
