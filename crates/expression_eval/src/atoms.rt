// Operands without parts.
ghost use Rattle.script_grammar.specs.View.{view_operand};
ghost use Rattle.script_values.specs.Gives.{Gives};
ghost use Rattle.script_values.specs.View.{view_value};
ghost use Rattle.eval_meaning.specs.Meaning.{operand};
ghost use Rattle.eval_scope.specs.Scopes.{scope_of};

use crate::preds::counted_pred;
use crate::steps::{counted_format, counted_text, counted_value};
use eval_scope::{Scope, named};
use script_grammar::tree::Operand;
use script_values::{Machine, Stop, Value, literal};
use std::alloc::Global;

/// The value of an operand without parts; it counts 1, and a name the size of its value. Of an operand with parts it
/// makes none, as if memory were wanting: the descent sends none here.
#[inline(never)]
#[tactic(auto, unfolding(eval_meaning::specs::Meaning::operand))]
pub fn atom(
    alloc: Global,
    scope: &Scope<'_>,
    machine: &mut Machine,
    node: &Operand,
) -> Result<Value, Stop>
    ensures { Gives (λ v. (view_value v, machine.new)) result
        (operand (scope_of scope.now) (view_operand node.now) machine.old) }
{
    match node {
        Operand::Name { at, name: _ } => named(alloc, scope, machine, *at),
        Operand::Braces { at: _, pred } => counted_pred(alloc, machine, pred),
        Operand::Literal { at: _, value } => counted_value(machine, literal(*value)),
        Operand::Str { at: _, text } => counted_text(alloc, machine, text),
        Operand::Bool { at: _, value } => counted_value(machine, Value::Truth(*value)),
        Operand::Unit { at: _ } => counted_value(machine, Value::Nothing),
        Operand::Wav { at, size } => counted_format(machine, *at, *size),
        _ => Err(Stop::Memory),
    }
}
