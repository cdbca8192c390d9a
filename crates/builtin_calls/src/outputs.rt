// The outputs of a plan, each of which writes a source to a file.
ghost use Rattle.std.specs.Prelude.{◌≡◌, ◌<◌, count_by, length, map};
ghost use Rattle.std.specs.List.{list_any};
ghost use Rattle.plan_core.specs.Plans.{is_output};
ghost use Rattle.script_values.specs.Gives.{Gives};
ghost use Rattle.script_values.specs.View.{view_value};
ghost use Rattle.script_values.specs.Views.{view_given};
ghost use Rattle.builtin_calls.specs.Builtins.{output_file};
ghost use Rattle.builtin_calls.specs.Sinks.{add_output, is_named};

use crate::parts::{bool_or, one_kind, plain_format, plain_text};
use crate::sources::plain_source;
use liq_base::limits::MAX_OUTPUTS;
use liq_base::{Kind, Text};
use plan_core::SinkPlan;
use script_values::{Given, Limit, Machine, Stop, Value};
use std::alloc::Global;

/// `output.file(fallible=false, format, name, s)`: adds an output of the source to the file of this name. `given` has
/// the call's arguments, `kinds` the kind of the source (mono or stereo); the value is `()`.
#[tactic(auto, unfolding(crate::specs::Builtins::output_file))]
pub(crate) fn output_file(
    alloc: Global,
    kinds: &[Kind],
    given: &mut Vec<Given>,
    machine: &mut Machine,
) -> Result<Value, Stop>
    ensures { Gives (λ v. (view_value v, machine.new)) result
        (output_file kinds.now (map view_given given.old.items) machine.old) }
{
    let fallible = bool_or(given, "fallible", false)?;
    let wide = plain_format(given)?;
    let name = plain_text(alloc, given)?;
    let kind = one_kind(kinds)?;
    let source = plain_source(&machine.plan, kind, given)?;
    add_output(machine, name, source, fallible, wide)
}

/// Whether a sink of the plan is an output to the file of this name. A feed of a buffer writes no file.
fn is_named(name: &str, sink: &SinkPlan) -> bool
    ensures { result ≡ is_named name.now sink.now }
{
    match sink {
        SinkPlan::Output { name: other, .. } => name.as_bytes() == other.as_str().as_bytes(),
        SinkPlan::Feed { .. } => false,
    }
}

// Whether one of these sinks of the plan is an output to the file of this name.
fn has_name(name: &str, sinks: &[SinkPlan]) -> bool
    ensures { result ≡ list_any (is_named name.now) sinks.now }
{
    for sink in sinks {
        if is_named(name, sink) {
            return true;
        }
    }
    false
}

// How many of these sinks of the plan are outputs to files; the others feed buffers.
fn outputs(sinks: &[SinkPlan]) -> usize
    ensures { result ≡ count_by is_output sinks.now }
{
    let mut count = 0;
    for sink in sinks {
        if sink.is_output() {
            count += 1;
        }
    }
    count
}

// Adds an output to the plan, which writes node number `node` to the file `name`, `wide` with samples of 24 bits.
// Faults: an earlier output has this file, or there are 64 outputs. With `fallible` the source may fall silent. The
// value is `()`.
#[tactic(auto, unfolding(crate::specs::Sinks::add_output))]
fn add_output(
    machine: &mut Machine,
    name: Text,
    node: u32,
    fallible: bool,
    wide: bool,
) -> Result<Value, Stop>
    ensures { Gives (λ v. (view_value v, machine.new)) result (add_output name node fallible wide machine.old) }
{
    if has_name(name.as_str(), machine.plan.plan().sinks.as_slice()) {
        return Err(Stop::SameOutput(name));
    }
    if outputs(machine.plan.plan().sinks.as_slice()) >= MAX_OUTPUTS as usize {
        return Err(Stop::TooLarge(Limit::Outputs));
    }
    machine.plan.push_output(name, node, fallible, wide)?;
    Ok(Value::Nothing)
}
