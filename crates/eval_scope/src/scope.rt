// Where an expression stands, and what names stand for there.
ghost use Rattle.std.specs.Prelude.{◌≡◌, IfOk, option_map};
ghost use Rattle.typing_rules.specs.Uses.{use_at};
ghost use Rattle.script_values.specs.Gives.{Gives};
ghost use Rattle.eval_meaning.specs.Meaning.{format, named, value_at};
ghost use Rattle.typing_rules.specs.Kinds.{known_kind, kinds_of};
ghost use Rattle.eval_scope.specs.Scopes.{scope_of};
ghost use Rattle.script_values.specs.Slots.{value_at_token};
ghost use Rattle.script_values.specs.View.{view_value};

use crate::defs::Defs;
use crate::globals::Globals;
use crate::uses::Uses;
use liq_base::{Kind, Memory};
use script_values::{Machine, Slot, Stop, Value, copy, count_value, slot_at};
use std::alloc::Global;
use typing_rules::{KindOf, Target};

/// Where an expression stands: the defs of the script, what its names mean, the bindings of statements and those of the
/// def around, that def's open kinds, and how many calls of defs may still run within each other.
#[derive(Clone, Copy)]
pub struct Scope<'a> {
    pub defs: &'a Defs<'a>,
    pub uses: &'a Uses<'a>,
    pub globals: &'a Globals,
    pub locals: &'a [Slot],
    pub kinds: &'a [Kind],
    pub calls: usize,
}

/// The value of the name that is used at token `at`, copied; its size counts as work in `machine`. The error is
/// `Stop::Stuck` where the name stands for no binding that has a value, as for a def or a builtin.
#[tactic(auto, unfolding(eval_meaning::specs::Meaning::named))]
pub fn named(
    alloc: Global,
    scope: &Scope<'_>,
    machine: &mut Machine,
    at: u32,
) -> Result<Value, Stop>
    ensures { Gives (λ v. (view_value v, machine.new)) result
        (named (scope_of scope.now) (use_at at scope.now.uses.now.all.now) machine.old) }
{
    match scope.uses.find(at) {
        None => Err(Stop::Stuck),
        Some(found) => match found.target {
            Target::Slot(slot) => slot_value(alloc, scope, machine, slot),
            Target::Def(_) => Err(Stop::Stuck),
            Target::Builtin(_) => Err(Stop::Stuck),
        },
    }
}

/// The kinds, mono or stereo, that `wanted` says of a use. One that is left open is looked up in `given`, the kinds
/// with which the def around is called. `None` where one is not there; the error is want of memory.
pub fn kinds_of(
    alloc: Global,
    given: &[Kind],
    wanted: &[KindOf],
) -> Result<Option<Vec<Kind>>, Memory>
    ensures { IfOk result (λ r. option_map (λ v. v.items) r ≡ kinds_of given.now wanted.now) }
{
    let mut kinds = Vec::new(alloc);
    for kind in wanted {
        match kind_at(given, *kind) {
            None => return Ok(None),
            Some(found) => kinds.push(found)?,
        }
    }
    Ok(Some(kinds))
}

/// The format that `%wav` at token `at` names: of 16 bits without a size and with 16, of 24 with 24; any other size is
/// a bad value.
pub fn format(at: u32, size: Option<i64>) -> Result<Value, Stop>
    ensures { Gives (λ v. view_value v) result (format at size) }
{
    match size {
        None => Ok(Value::Format { wide: false }),
        Some(bits) => {
            if bits == 16 {
                Ok(Value::Format { wide: false })
            } else if bits == 24 {
                Ok(Value::Format { wide: true })
            } else {
                Err(Stop::BadValue(at))
            }
        }
    }
}

/// A copy of the value of the binding whose name stands at token `at`. Its size counts as work.
fn slot_value(
    alloc: Global,
    scope: &Scope<'_>,
    machine: &mut Machine,
    at: u32,
) -> Result<Value, Stop>
    ensures { Gives (λ v. (view_value v, machine.new)) result
        (value_at (value_at_token at (scope_of scope.now).slots) machine.old) }
{
    match lookup(scope, at) {
        None => Err(Stop::Stuck),
        Some(value) => {
            count_value(machine, value)?;
            let copied = copy(alloc, value)?;
            Ok(copied)
        }
    }
}

// The value of the binding whose name stands at token `at`: first of those of the def around, then of those of
// statements. `None` if neither has one.
fn lookup<'a>(scope: &Scope<'a>, at: u32) -> Option<&'a Value>
    ensures { option_map (λ v. view_value v.now) result ≡ value_at_token at (scope_of scope.now).slots }
{
    match slot_at(scope.locals, at) {
        Some(value) => Some(value),
        None => scope.globals.find(at),
    }
}

/// The kind, mono or stereo, that `wanted` says: a fixed one is itself, and an open one is looked up by its number in
/// `given`, the kinds with which the def around is called. `None` where it is not there.
fn kind_at(given: &[Kind], wanted: KindOf) -> Option<Kind>
    ensures { result ≡ known_kind given.now wanted }
{
    match wanted {
        KindOf::Fixed(kind) => Some(kind),
        KindOf::Given(number) => given.get(number as usize).copied(),
    }
}
