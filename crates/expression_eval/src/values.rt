// Values. Each function of the seven files of this descent evaluates a production of the grammar, or a loop of one; the
// production stands at its head, in the notation of `docs/grammar.md`. `left` bounds how deep evaluation may nest: past
// it memory counts as wanting. A function writes its result into the place `out`, so that a frame of the descent holds
// no result but the right operand of an operator. Where an operand, an argument or a part has a fault, it is in the
// place, and nothing behind it is evaluated.
ghost use Rattle.std.specs.Prelude.{[], map};
ghost use Rattle.script_grammar.specs.View.{listed, view_full};
ghost use Rattle.script_values.specs.Gives.{Gives};
ghost use Rattle.eval_meaning.specs.Meaning.{full, fulls};
ghost use Rattle.expression_eval.specs.Places.{Makes};
ghost use Rattle.eval_scope.specs.Scopes.{scope_of};
ghost use Rattle.script_values.specs.View.{view_value};

use crate::logic::expr;
use crate::operands::operand;
use crate::steps::{counted_negative, kept_value, put};
use eval_scope::Scope;
use script_grammar::lone_operand;
use script_grammar::tree::Full;
use script_values::{Machine, Stop, Value};
use std::alloc::Global;

/// value: expression | `-` Int | `-` Number
///
/// The value, or its first fault.
/// `left` says how many levels deeper it may go.
#[cycle(value)]
pub fn full(
    alloc: Global,
    scope: &Scope<'_>,
    left: usize,
    machine: &mut Machine,
    node: &Full,
) -> Result<Value, Stop>
    ensures { Gives (λ v. (view_value v, machine.new)) result
        (full (scope_of scope.now) (view_full node.now) machine.old) }
{
    let mut out = Err(Stop::Memory);
    put_full(alloc, scope, left, machine, node, &mut out);
    out
}

/// value: expression | `-` Int | `-` Number
///
/// Puts the value into `out`. Where `left` is used up, memory is wanting. An expression that is one operand is
/// evaluated straight as that operand.
#[cycle(value)]
#[tactic(auto, unfolding(eval_meaning::specs::Meaning::full))]
pub fn put_full(
    alloc: Global,
    scope: &Scope<'_>,
    left: usize,
    machine: &mut Machine,
    node: &Full,
    out: &mut Result<Value, Stop>,
)
    ensures { Gives (λ v. (view_value v, machine.new)) out.new
        (full (scope_of scope.now) (view_full node.now) machine.old) }
{
    if left == 0 {
        put(out, Err(Stop::Memory));
        return;
    }
    match node {
        Full::Minus { at, number } => put(out, counted_negative(machine, *at, *number)),
        Full::Plain(inside) => match lone_operand(inside) {
            Some(lone) => operand(alloc, scope, left - 1, machine, lone, out),
            None => expr(alloc, scope, left - 1, machine, inside, out),
        },
    }
}

/// value (`,` value)*
///
/// The values in order. `None` at the first fault, which is then in `out`.
/// `left` says how many levels deeper it may go.
#[cycle(value)]
pub fn fulls(
    alloc: Global,
    scope: &Scope<'_>,
    left: usize,
    machine: &mut Machine,
    parts: &[Full],
    out: &mut Result<Value, Stop>,
) -> Option<Vec<Value>>
    ensures { Makes (λ v. (map view_value v.items, machine.new)) result out.new
        (fulls (scope_of scope.now) (listed (map view_full parts.now)) [] machine.old) }
{
    let mut values = Vec::new(alloc);
    'turns: for part in parts {
        put_full(alloc, scope, left, machine, part, out);
        if !kept_value(&mut values, out) {
            return None;
        }
    }
    Some(values)
}
