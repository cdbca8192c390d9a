// The engines of all clocks.
ghost use Rattle.std.specs.Prelude.{◌≡◌, ◌<◌, ◌≤◌, ◌^◌, ◌||◌, [], ◌∷◌, ℕ, List, length, map, slice_get, Some, true};
ghost use Rattle.std.specs.Prelude.{false, IfOk, OnOk, OnErr, IsErrOf};
ghost use Rattle.std.specs.List.{slice_set};
ghost use Rattle.buffer_ends.specs.declared.run_end.End.TheVariants.{Done, Write as WriteEnd};
ghost use Rattle.clock_ticks.specs.Engines.{EngineStands, outputs_of, setting_of};
ghost use Rattle.rounds_run.specs.Rounds.{nothing};
ghost use Rattle.stream_meaning.specs.Instants.{Setting};
ghost use Rattle.stations.specs.Cues.{marks_if as marks_wanted, marks_in};
ghost use Rattle.stations.specs.Streams.{counts_in};
ghost use Rattle.station_render.specs.Sinks.{lists_of};
ghost use Rattle.station_render.specs.Engines.{AreAt, AreEmptyBelow, AreKeeping, ArePast, IsAt, outs_of, pooled};
ghost use Rattle.station_render.specs.Marks.{cues_of};
ghost use Rattle.station_render.specs.Renders.{AreMain};
ghost use Rattle.station_render.specs.EngineRuns.{HaveEnded};
ghost use Rattle.station_render.specs.Runs.{IsFitting, setting_by};

use crate::headers::clock_of;
use crate::{Job, RenderFault, Rendered};
use buffer_ends::{End, RunEnd};
use clock_infer::ClockMap;
use clock_ticks::{ClockEngine, CueMark};
use liq_base::{Memory, Sink};
use plan_core::{Plan, SinkPlan};
use std::alloc::{AllocError, Global};
use std::mem;

// Puts the sinks of a clock back into `groups`, the list of each clock's sinks, where this clock has none.
fn put_back<O>(groups: &mut Vec<Vec<O>>, clock: usize, outs: Vec<O>)
    requires { slice_get (lists_of groups.old.items) clock ≡ Some [] }
    ensures { lists_of groups.new.items ≡ slice_set (lists_of groups.old.items) clock outs.items }
{
    mem::replace(&mut groups[clock], outs).destroy_empty();
}

// Takes the sinks of a clock out of `groups`, the list of each clock's sinks, and leaves it an empty one.
fn take_out<O>(alloc: Global, groups: &mut Vec<Vec<O>>, clock: usize) -> Vec<O>
    requires { clock < length (lists_of groups.old.items) }
    ensures outs { slice_get (lists_of groups.old.items) clock ≡ Some result.items }
    ensures left { lists_of groups.new.items ≡ slice_set (lists_of groups.old.items) clock [] }
{
    mem::replace(&mut groups[clock], Vec::new(alloc))
}

// Lets an engine keep marks (where tracks begin in its outputs) from now on if cue files are wanted, and hands it on.
fn keep_if<'a, O: Sink>(wanted: bool, engine: ClockEngine<'a, O>) -> ClockEngine<'a, O>
    requires { EngineStands engine.parts 0 nothing }
    ensures setting { setting_of result.parts ≡ setting_of engine.entry.parts }
    ensures clock { result.parts.clock ≡ engine.entry.parts.clock }
    ensures stands { EngineStands result.parts 0 nothing }
    ensures outs { result.outs ≡ engine.entry.outs }
    ensures keeping { result.parts.cues.keeping ≡ (wanted || engine.entry.parts.cues.keeping) }
    ensures unwanted { wanted ≡ false → result ≡ engine.entry }
{
    let mut engine = engine;
    if wanted {
        engine.keep_cues();
    }
    engine
}

// Makes the engine that runs a clock, before its first tick. It takes its sinks from `groups`; they go back there if
// memory is refused.
fn make_engine<'a, O: Sink>(
    alloc: Global,
    job: &'a Job<'_>,
    groups: &mut Vec<Vec<O>>,
    clock: usize,
) -> Result<ClockEngine<'a, O>, Memory>
    requires fit { IsFitting job.now }
    requires below { clock < length (lists_of groups.old.items) }
    requires few { clock < 2 ^ 32 }
    requires sinks { (group : List O) → slice_get (lists_of groups.old.items) clock ≡ Some group
        → length group ≡ length (outputs_of (setting_by job.now) clock) }
    ensures made { IfOk result (IsAt (setting_by job.now) clock) }
    ensures keeping { IfOk result (λ engine. engine.parts.cues.keeping ≡ job.now.cues) }
    ensures outs { IfOk result (λ engine. slice_get (lists_of groups.old.items) clock ≡ Some engine.outs) }
    ensures taken { OnOk result (lists_of groups.new.items ≡ slice_set (lists_of groups.old.items) clock []) }
    ensures back { OnErr result (lists_of groups.new.items ≡ lists_of groups.old.items) }
{
    let outs = take_out(alloc, groups, clock);
    match ClockEngine::new(
        alloc,
        &job.plan,
        &job.ready.clocks,
        clock as u32,
        &job.ready.library,
        outs,
        job.start,
    ) {
        Ok(engine) => Ok(keep_if(job.cues, engine)),
        Err((outs, refused)) => {
            put_back(groups, clock, outs);
            Err(refused)
        }
    }
}

// Ends the engines, and puts the sinks of each back into `groups`, the list of each clock's sinks.
fn give_back<O: Sink>(engines: Vec<ClockEngine<'_, O>>, groups: &mut Vec<Vec<O>>)
    requires few { length engines.items ≤ length (lists_of groups.old.items) }
    requires empty { AreEmptyBelow (length engines.items) (lists_of groups.old.items) }
    ensures { lists_of groups.new.items ≡ pooled (outs_of engines.entry.items) (lists_of groups.old.items) }
{
    let mut engines = engines;
    while let Some(engine) = engines.pop() {
        put_back(groups, engines.len(), engine.into_outs());
    }
    engines.destroy_empty();
}

/// Makes the engines of all clocks, in clock order and before any tick. They take the sinks from `groups`; these go
/// back there if memory is refused.
pub(crate) fn make_engines<'a, O: Sink>(
    alloc: Global,
    job: &'a Job<'_>,
    groups: &mut Vec<Vec<O>>,
) -> Result<Vec<ClockEngine<'a, O>>, Memory>
    requires fit { IsFitting job.now }
    requires few { length (lists_of groups.old.items) < 2 ^ 32 }
    requires sinks { (clock : ℕ) (group : List O) → slice_get (lists_of groups.old.items) clock ≡ Some group
        → length group ≡ length (outputs_of (setting_by job.now) clock) }
    ensures made { IfOk result (λ engines. AreAt (setting_by job.now) engines.items) }
    ensures keeping { IfOk result (λ engines. AreKeeping job.now.cues engines.items) }
    ensures outs { IfOk result (λ engines. outs_of engines.items ≡ lists_of groups.old.items) }
    ensures taken { IfOk result (λ engines. AreEmptyBelow (length engines.items) (lists_of groups.new.items)) }
    ensures size { OnOk result (length (lists_of groups.new.items) ≡ length (lists_of groups.old.items)) }
    ensures back { OnErr result (lists_of groups.new.items ≡ lists_of groups.old.items) }
{
    let mut engines = Vec::with_capacity(alloc, groups.len())?;
    for clock in 0..groups.len() {
        match make_engine(alloc, job, groups, clock) {
            Ok(engine) => engines.push_reserved(engine),
            Err(refused) => {
                give_back(engines, groups);
                return Err(refused);
            }
        }
    }
    Ok(engines)
}

// How many gaps each output of a plan has (instants at which its node offered nothing), in sink order, once the
// engines have made their ticks.
fn gaps_of<O: Sink>(
    alloc: Global,
    plan: &Plan,
    clocks: &ClockMap,
    engines: &[ClockEngine<'_, O>],
) -> Result<Vec<u64>, AllocError>
    requires main { AreMain plan.now clocks.now }
    requires size { length engines.now ≡ clocks.now.running }
    requires few { length plan.now.sinks < 2 ^ 32 }
    requires stand { (setting : Setting) × (world : Setting) × (ticks : ℕ) × (setting.plan ≡ plan.now)
        × (setting.clocks ≡ clocks.now.of) × ArePast setting world ticks engines.now }
    ensures { IfOk result (λ gaps. (setting world : Setting) (ticks : ℕ) → setting.plan ≡ plan.now
        → setting.clocks ≡ clocks.now.of → ArePast setting world ticks engines.now
        → gaps.items ≡ counts_in world ticks plan.now.sinks) }
{
    let sinks = plan.sinks.as_slice();
    let mut gaps = Vec::with_capacity(alloc, sinks.len())?;
    for k in 0..sinks.len() {
        let SinkPlan::Output { node, .. } = &sinks[k] else {
            continue;
        };
        let clock = clock_of(clocks, *node) as usize;
        gaps.push(engines[clock].gaps(k as u32))?;
    }
    Ok(gaps)
}

// The marks of each output of a plan (the instants at which tracks begin, with their titles), in sink order, once the
// engines have made their ticks.
fn marks_of<O: Sink>(
    alloc: Global,
    plan: &Plan,
    clocks: &ClockMap,
    engines: &[ClockEngine<'_, O>],
) -> Result<Vec<Vec<CueMark>>, AllocError>
    requires main { AreMain plan.now clocks.now }
    requires size { length engines.now ≡ clocks.now.running }
    requires few { length plan.now.sinks < 2 ^ 32 }
    requires keeping { AreKeeping true engines.now }
    requires stand { (setting : Setting) × (world : Setting) × (ticks : ℕ) × (setting.plan ≡ plan.now)
        × (setting.clocks ≡ clocks.now.of) × ArePast setting world ticks engines.now }
    ensures { IfOk result (λ marks. (setting world : Setting) (ticks : ℕ) → setting.plan ≡ plan.now
        → setting.clocks ≡ clocks.now.of → ArePast setting world ticks engines.now
        → cues_of marks.items ≡ marks_in world ticks plan.now.sinks) }
{
    let sinks = plan.sinks.as_slice();
    let mut all = Vec::with_capacity(alloc, sinks.len())?;
    for k in 0..sinks.len() {
        let SinkPlan::Output { node, .. } = &sinks[k] else {
            continue;
        };
        let clock = clock_of(clocks, *node) as usize;
        all.push(copied(alloc, engines[clock].cues(k as u32))?)?;
    }
    Ok(all)
}

// Copies the marks (where tracks begin, with their titles) that an engine kept of one output, since the engine ends
// before they are written.
fn copied(alloc: Global, marks: &[CueMark]) -> Result<Vec<CueMark>, AllocError>
    ensures { IfOk result (λ own. own.items ≡ marks.now) }
{
    let mut own = Vec::with_capacity(alloc, marks.len())?;
    own.extend_from_slice(marks)?;
    Ok(own)
}

// The marks of each output (where its tracks begin), in sink order, if cue files are wanted, and otherwise none.
fn marks_if<O: Sink>(
    alloc: Global,
    job: &Job<'_>,
    engines: &[ClockEngine<'_, O>],
) -> Result<Vec<Vec<CueMark>>, AllocError>
    requires main { AreMain job.now.plan job.now.ready.clocks }
    requires size { length engines.now ≡ job.now.ready.clocks.running }
    requires few { length job.now.plan.sinks < 2 ^ 32 }
    requires keeping { AreKeeping job.now.cues engines.now }
    requires stand { HaveEnded job.now engines.now }
    ensures { IfOk result (λ marks. (setting world : Setting) (ticks : ℕ) → setting.plan ≡ job.now.plan
        → setting.clocks ≡ job.now.ready.clocks.of → ArePast setting world ticks engines.now
        → cues_of marks.items ≡ marks_wanted job.now.cues world ticks job.now.plan.sinks) }
{
    if !job.cues {
        return Ok(Vec::new(alloc));
    }
    marks_of(alloc, &job.plan, &job.ready.clocks, engines)
}

// What is told of a run that made all its ticks: each output's gaps (instants without a cell), each output's marks if
// cue files are wanted, and each buffer's answers. For a run that broke off it is the fault.
fn tell<O: Sink>(
    alloc: Global,
    job: &Job<'_>,
    engines: &[ClockEngine<'_, O>],
    run: RunEnd,
) -> Result<Rendered, RenderFault>
    requires main { AreMain job.now.plan job.now.ready.clocks }
    requires size { length engines.now ≡ job.now.ready.clocks.running }
    requires few { length job.now.plan.sinks < 2 ^ 32 }
    requires keeping { run.end ≡ Done → AreKeeping job.now.cues engines.now }
    requires stand { run.end ≡ Done → HaveEnded job.now engines.now }
    ensures done { OnOk result (run.end ≡ Done) }
    ensures gaps { IfOk result (λ rendered. (setting world : Setting) (ticks : ℕ) → setting.plan ≡ job.now.plan
        → setting.clocks ≡ job.now.ready.clocks.of → ArePast setting world ticks engines.now
        → rendered.gaps.items ≡ counts_in world ticks job.now.plan.sinks) }
    ensures cues { IfOk result (λ rendered. (setting world : Setting) (ticks : ℕ) → setting.plan ≡ job.now.plan
        → setting.clocks ≡ job.now.ready.clocks.of → ArePast setting world ticks engines.now
        → cues_of rendered.cues.items ≡ marks_wanted job.now.cues world ticks job.now.plan.sinks) }
    ensures counts { IfOk result (λ rendered. rendered.counts.items ≡ run.counts.items) }
    ensures logs { IfOk result (λ rendered. rendered.logs.items ≡ run.logs.items) }
    ensures write { IsErrOf result RenderFault.Write → (clock : ℕ) × (sink : ℕ) × (run.end ≡ WriteEnd clock sink) }
{
    let RunEnd { counts, logs, end } = run;
    match end {
        End::Done => {
            let gaps = gaps_of(alloc, &job.plan, &job.ready.clocks, engines)?;
            let cues = marks_if(alloc, job, engines)?;
            Ok(Rendered {
                gaps,
                counts,
                logs,
                cues,
            })
        }
        End::Write { .. } => Err(RenderFault::Write),
        End::Memory => Err(RenderFault::Memory),
    }
}

/// Ends the engines after a run: puts their sinks back into `groups`, the list of each clock's sinks, and returns
/// what is told of the run, or why it broke off.
pub(crate) fn take_back<O: Sink>(
    alloc: Global,
    job: &Job<'_>,
    engines: Vec<ClockEngine<'_, O>>,
    run: RunEnd,
    groups: &mut Vec<Vec<O>>,
) -> Result<Rendered, RenderFault>
    requires main { AreMain job.now.plan job.now.ready.clocks }
    requires size { length engines.items ≡ job.now.ready.clocks.running }
    requires few { length job.now.plan.sinks < 2 ^ 32 }
    requires keeping { run.end ≡ Done → AreKeeping job.now.cues engines.items }
    requires stand { run.end ≡ Done → HaveEnded job.now engines.items }
    requires many { length (lists_of groups.old.items) ≡ length engines.items }
    requires empty { AreEmptyBelow (length engines.items) (lists_of groups.old.items) }
    ensures back { lists_of groups.new.items ≡ outs_of engines.entry.items }
    ensures done { OnOk result (run.end ≡ Done) }
    ensures gaps { IfOk result (λ rendered. (setting world : Setting) (ticks : ℕ) → setting.plan ≡ job.now.plan
        → setting.clocks ≡ job.now.ready.clocks.of → ArePast setting world ticks engines.entry.items
        → rendered.gaps.items ≡ counts_in world ticks job.now.plan.sinks) }
    ensures cues { IfOk result (λ rendered. (setting world : Setting) (ticks : ℕ) → setting.plan ≡ job.now.plan
        → setting.clocks ≡ job.now.ready.clocks.of → ArePast setting world ticks engines.entry.items
        → cues_of rendered.cues.items ≡ marks_wanted job.now.cues world ticks job.now.plan.sinks) }
    ensures counts { IfOk result (λ rendered. rendered.counts.items ≡ run.counts.items) }
    ensures logs { IfOk result (λ rendered. rendered.logs.items ≡ run.logs.items) }
    ensures write { IsErrOf result RenderFault.Write → (clock : ℕ) × (sink : ℕ) × (run.end ≡ WriteEnd clock sink) }
{
    let told = tell(alloc, job, &engines, run);
    give_back(engines, groups);
    told
}
