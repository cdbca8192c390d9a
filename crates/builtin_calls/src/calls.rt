// The evaluation of a call of a builtin function.
ghost use Rattle.std.specs.Prelude.{◌≡◌, map};
ghost use Rattle.script_values.specs.Gives.{Gives};
ghost use Rattle.script_values.specs.View.{view_value};
ghost use Rattle.script_values.specs.Views.{view_given};
ghost use Rattle.builtin_calls.specs.Builtins.{builtin};

use crate::children::{fallback, over_sources, random, sum, switch};
use crate::leaves::{blank, fail, playlist, single, square};
use crate::outputs::output_file;
use crate::settings::set;
use crate::single_source::{amplify, buffer, clock, crossfade, mean, mksafe, stereo};
use liq_base::Kind;
use plan_core::Op;
use script_values::{Given, Machine, Stop, Value};
use std::alloc::Global;
use typing_rules::Builtin;

/// Evaluates a call of a builtin: gives its value, and changes the state, above all the plan. `at` is the token of its
/// name, for faults, and `kinds` has the kinds (mono or stereo) that typing found. `docs/builtins.md` says what each
/// makes.
pub fn builtin(
    alloc: Global,
    name: Builtin,
    at: u32,
    kinds: &[Kind],
    given: Vec<Given>,
    machine: &mut Machine,
) -> Result<Value, Stop>
    ensures { Gives (λ v. (view_value v, machine.new)) result
        (builtin name at kinds.now (map view_given given.items) machine.old) }
{
    let mut rest = given;
    call(alloc, name, at, kinds, &mut rest, machine)
}

// Evaluates a call of a builtin by its name: each has a function that takes its arguments out of `given`. `at` is the
// token of its name. `kinds` has the kinds that typing found for the call, and `machine` is the state of evaluation,
// with the plan.
#[tactic(auto, unfolding(crate::specs::Builtins::builtin))]
fn call(
    alloc: Global,
    name: Builtin,
    at: u32,
    kinds: &[Kind],
    given: &mut Vec<Given>,
    machine: &mut Machine,
) -> Result<Value, Stop>
    ensures { Gives (λ v. (view_value v, machine.new)) result
        (builtin name at kinds.now (map view_given given.old.items) machine.old) }
{
    match name {
        Builtin::OutputFile => output_file(alloc, kinds, given, machine),
        Builtin::Set => set(alloc, given, machine),
        Builtin::Single => single(alloc, kinds, given, machine),
        Builtin::Playlist => playlist(alloc, at, kinds, given, machine),
        Builtin::Blank => blank(alloc, at, kinds, given, machine),
        Builtin::Square => square(alloc, at, kinds, given, machine),
        Builtin::Fail => fail(alloc, kinds, machine),
        Builtin::Fallback => fallback(alloc, kinds, given, machine),
        Builtin::Switch => switch(alloc, kinds, given, machine),
        Builtin::Sequence => over_sources(alloc, Op::Sequence, kinds, given, machine),
        Builtin::Rotate => over_sources(alloc, Op::Rotate, kinds, given, machine),
        Builtin::Random => random(alloc, at, kinds, given, machine),
        Builtin::Add => sum(alloc, kinds, given, machine),
        Builtin::Amplify => amplify(alloc, kinds, given, machine),
        Builtin::Mean => mean(alloc, given, machine),
        Builtin::Stereo => stereo(alloc, given, machine),
        Builtin::Crossfade => crossfade(alloc, at, kinds, given, machine),
        Builtin::Mksafe => mksafe(alloc, kinds, given, machine),
        Builtin::Buffer => buffer(alloc, at, kinds, given, machine),
        Builtin::Clock => clock(alloc, kinds, given, machine),
    }
}
