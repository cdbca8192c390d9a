// The builtins without sources: `single`, `playlist`, `blank`, `square` and `fail`.
ghost use Rattle.std.specs.Prelude.{◌≡◌, [], map};
ghost use Rattle.script_values.specs.Gives.{Gives};
ghost use Rattle.script_values.specs.View.{view_value};
ghost use Rattle.script_values.specs.Views.{view_given};
ghost use Rattle.builtin_calls.specs.Builtins.{blank, fail, is_normal, playlist, single, square};

use crate::nodes::add;
use crate::parts::{bool_or, decimal_or, one_kind, plain_decimal, plain_text, text_or};
use crate::times::{no_time, pitch_of, track_of};
use liq_base::{Kind, Text};
use plan_core::{Items, Op};
use script_values::{Given, Machine, Stop, Value};
use std::alloc::Global;

/// `single(file)`: adds a node that repeats an audio file. `given` has the call's arguments, `kinds` the kind of the
/// node (mono or stereo); the value is the node as a source.
#[tactic(auto, unfolding(crate::specs::Builtins::single))]
pub(crate) fn single(
    alloc: Global,
    kinds: &[Kind],
    given: &mut Vec<Given>,
    machine: &mut Machine,
) -> Result<Value, Stop>
    ensures { Gives (λ v. (view_value v, machine.new)) result
        (single kinds.now (map view_given given.old.items) machine.old) }
{
    let file = plain_text(alloc, given)?;
    let kind = one_kind(kinds)?;
    add(machine, Op::Single(file), kind, Items::new(alloc))
}

/// `playlist(loop=true, mode="normal", file)`, whose name stands at token `at`: adds a node that plays the files of a
/// list. `given` has the call's arguments, `kinds` the kind of the node (mono or stereo); the value is the node as a
/// source.
#[tactic(auto, unfolding(crate::specs::Builtins::playlist))]
pub(crate) fn playlist(
    alloc: Global,
    at: u32,
    kinds: &[Kind],
    given: &mut Vec<Given>,
    machine: &mut Machine,
) -> Result<Value, Stop>
    ensures { Gives (λ v. (view_value v, machine.new)) result
        (playlist at kinds.now (map view_given given.old.items) machine.old) }
{
    let again = bool_or(given, "loop", true)?;
    let normal = Text::from_str(alloc, "normal")?;
    let mode = text_or(alloc, given, "mode", normal)?;
    let file = plain_text(alloc, given)?;
    let kind = one_kind(kinds)?;
    is_normal(at, mode.as_str())?;
    add(
        machine,
        Op::Playlist { file, again },
        kind,
        Items::new(alloc),
    )
}

/// `blank(duration=0.)`, whose name stands at token `at`: adds a node of zeros, in tracks of this duration. `given` has
/// the call's arguments, `kinds` the kind of the node (mono or stereo); the value is the node as a source.
#[tactic(auto, unfolding(crate::specs::Builtins::blank))]
pub(crate) fn blank(
    alloc: Global,
    at: u32,
    kinds: &[Kind],
    given: &mut Vec<Given>,
    machine: &mut Machine,
) -> Result<Value, Stop>
    ensures { Gives (λ v. (view_value v, machine.new)) result
        (blank at kinds.now (map view_given given.old.items) machine.old) }
{
    let duration = decimal_or(given, "duration", no_time())?;
    let kind = one_kind(kinds)?;
    let track = track_of(at, machine.plan.plan().rate, duration)?;
    add(machine, Op::Blank { track }, kind, Items::new(alloc))
}

/// `square(f)`, whose name stands at token `at`: adds a node that plays a square wave of this pitch in hertz. `given`
/// has the call's arguments, `kinds` the kind of the node (mono or stereo); the value is the node as a source.
#[tactic(auto, unfolding(crate::specs::Builtins::square))]
pub(crate) fn square(
    alloc: Global,
    at: u32,
    kinds: &[Kind],
    given: &mut Vec<Given>,
    machine: &mut Machine,
) -> Result<Value, Stop>
    ensures { Gives (λ v. (view_value v, machine.new)) result
        (square at kinds.now (map view_given given.old.items) machine.old) }
{
    let frequency = plain_decimal(given)?;
    let kind = one_kind(kinds)?;
    let pitch = pitch_of(at, frequency)?;
    add(machine, Op::Square { pitch }, kind, Items::new(alloc))
}

/// `fail()`: adds a node that has nothing to play. `kinds` has the kind of the node (mono or stereo); the value is the
/// node as a source.
#[tactic(auto, unfolding(crate::specs::Builtins::fail))]
pub(crate) fn fail(alloc: Global, kinds: &[Kind], machine: &mut Machine) -> Result<Value, Stop>
    ensures { Gives (λ v. (view_value v, machine.new)) result (fail kinds.now machine.old) }
{
    let kind = one_kind(kinds)?;
    add(machine, Op::Fail, kind, Items::new(alloc))
}

// Checks the `mode` of a playlist: "normal" is the only one. Any other is a bad value at token `at`, the name of the
// call.
fn is_normal(at: u32, mode: &str) -> Result<(), Stop>
    ensures { Gives (λ _. tt) result (is_normal at mode.now) }
{
    if mode == "normal" {
        return Ok(());
    }
    Err(Stop::BadValue(at))
}
