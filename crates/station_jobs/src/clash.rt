// Files of a rendering that would have one name.
ghost use Rattle.std.specs.Prelude.{◌≡◌, IfOk, None, OnOk};
ghost use Rattle.std.specs.List.{list_any};
ghost use Rattle.std.specs.Str.{bytes_eq};
ghost use Rattle.stations.specs.Cues.{cue_name};
ghost use Rattle.station_jobs.specs.Verdicts.{clash_of, cue_clash, cue_clash_at, has_name, trace_clash, writes_to};
ghost use Rattle.station_jobs.specs.Prepared.{ClashEnds};
ghost use Rattle.station_jobs.specs.Read.{named};

use crate::halt::CallEnd;
use liq_base::{Memory, Text};
use plan_core::{Plan, SinkPlan};
use refusal_lines::Fault;
use station_render::cue_file_name;
use std::alloc::Global;

/// Refuses a rendering that would write two files of one name: a cue file and an output, or the trace and an output or
/// a cue file. `trace` is the name of a trace that is wanted, and `cues` says whether cue files are.
pub fn keep_apart(
    alloc: Global,
    plan: &Plan,
    trace: Option<&str>,
    cues: bool,
) -> Result<(), CallEnd>
    ensures apart { OnOk result (clash_of plan.now (named trace.entry) cues ≡ None) }
    ensures ends { ClashEnds (clash_of plan.now (named trace.entry) cues) result }
{
    match find_clash(alloc, plan, trace, cues)? {
        Some(name) => Err(CallEnd::Refused(Fault::SameFile(name))),
        None => Ok(()),
    }
}

// The first name that two files of a rendering would have: that of a cue file and an output, and then that of the trace
// and an output or a cue file. `None` where all names differ. `trace` is the name of a trace that is wanted, and `cues`
// says whether cue files are.
fn find_clash(
    alloc: Global,
    plan: &Plan,
    trace: Option<&str>,
    cues: bool,
) -> Result<Option<Text>, Memory>
    ensures { IfOk result (λ name. name ≡ clash_of plan.now (named trace.entry) cues) }
{
    if let Some(name) = find_cue_clash(alloc, plan, cues)? {
        return Ok(Some(name));
    }
    find_trace_clash(alloc, plan, trace, cues)
}

// If cue files are wanted, the name of the first one that would overwrite an output; else `None`.
fn find_cue_clash(alloc: Global, plan: &Plan, cues: bool) -> Result<Option<Text>, Memory>
    ensures { IfOk result (λ name. name ≡ cue_clash plan.now cues) }
{
    if !cues {
        return Ok(None);
    }
    for sink in plan.sinks.as_slice() {
        if let Some(name) = cue_clash_of(alloc, plan, sink)? {
            return Ok(Some(name));
        }
    }
    Ok(None)
}

// The name of the cue file of this sink, if it is an output, and if an output of the plan has the same name; else
// `None`. A cue file is named as its output with `.cue` behind.
fn cue_clash_of(alloc: Global, plan: &Plan, sink: &SinkPlan) -> Result<Option<Text>, Memory>
    ensures { IfOk result (λ name. name ≡ cue_clash_at plan.now.sinks sink.now) }
{
    let SinkPlan::Output { name, .. } = sink else {
        return Ok(None);
    };
    let own = cue_file_name(alloc, name.as_str())?;
    let file = Text::from_string(own);
    if !is_output(plan, file.as_str()) {
        return Ok(None);
    }
    Ok(Some(file))
}

// The name of the trace, if one is wanted and an output, or a wanted cue file, has the same name. Else `None`.
fn find_trace_clash(
    alloc: Global,
    plan: &Plan,
    trace: Option<&str>,
    cues: bool,
) -> Result<Option<Text>, Memory>
    ensures { IfOk result (λ name. name ≡ trace_clash plan.now (named trace.entry) cues) }
{
    let Some(name) = trace else {
        return Ok(None);
    };
    if !is_taken(plan, name, cues) {
        return Ok(None);
    }
    Ok(Some(Text::from_str(alloc, name)?))
}

// Whether another file of a rendering has this name: an output of the plan, or, where cue files are wanted, the cue
// file of one.
fn is_taken(plan: &Plan, name: &str, cues: bool) -> bool
    ensures { result ≡ list_any (writes_to name.now cues) plan.now.sinks }
{
    for sink in plan.sinks.as_slice() {
        if writes_to(name, cues, sink) {
            return true;
        }
    }
    false
}

// Whether a sink of the plan makes a file of this name: it is an output to it, or, where cue files are wanted, its cue
// file has this name.
fn writes_to(name: &str, cues: bool, sink: &SinkPlan) -> bool
    ensures { result ≡ writes_to name.now cues sink.now }
{
    match sink {
        SinkPlan::Output { name: own, .. } => {
            own.as_str() == name || cues && is_cue_file(name, own.as_str())
        }
        SinkPlan::Feed { .. } => false,
    }
}

// Whether `name` is the cue file of this output: the output's name with `.cue` behind it.
fn is_cue_file(name: &str, output: &str) -> bool
    ensures { result ≡ bytes_eq name.now (cue_name output.now) }
{
    match name.as_bytes().strip_suffix(b".cue") {
        Some(front) => front == output.as_bytes(),
        None => false,
    }
}

// Whether an output of the plan goes to the file of this name.
fn is_output(plan: &Plan, name: &str) -> bool
    ensures { result ≡ list_any (has_name name.now) plan.now.sinks }
{
    for sink in plan.sinks.as_slice() {
        if has_name(name, sink) {
            return true;
        }
    }
    false
}

// Whether a sink of the plan is an output to the file of this name. A feed of a buffer writes no file.
fn has_name(name: &str, sink: &SinkPlan) -> bool
    ensures { result ≡ has_name name.now sink.now }
{
    match sink {
        SinkPlan::Output { name: own, .. } => own.as_str() == name,
        SinkPlan::Feed { .. } => false,
    }
}
