// The jobs of a call: checks and renderings, each to its report.
ghost use Rattle.std.specs.Prelude.{◌≡◌, IfOk, IfErr, None, Ok, Some};
ghost use Rattle.std.specs.Option.{ForSome};
ghost use Rattle.liq_base.specs.Shelves.{OnlyRead, ShelfTold};
ghost use Rattle.station_jobs.specs.declared.halt.CallEnd.TheVariants.{Memory as no_memory};
ghost use Rattle.station_jobs.specs.Prepared.{Ended, IsJobFor, IsOneRuling, IsToRender, granted};
ghost use Rattle.station_jobs.specs.Read.{rendering_read};
ghost use Rattle.station_jobs.specs.Words.{Asked, Check, Render, rendering_of};
ghost use Rattle.station_render.specs.Renderings.{Renders};
ghost use Rattle.station_render.specs.Runs.{IsFitting, station_in};
ghost use Rattle.stations.specs.Stations.{Way};

use crate::form::Rendering;
use crate::halt::CallEnd;
use crate::prepare::{prepare, prepare_check};
use crate::window::Window;
use liq_base::{Gate, Memory, Shelf};
use station_check::check_report;
use station_render::{Job, RenderFault, Rendered, render, render_alone, report};
use std::alloc::Global;
use std::sync::Wait;
use std::thread::Threads;

/// Does `check`: reads the script of this name with its audio files, and gives the report on its outputs and clocks, or
/// why there is none. No file changes.
pub fn check_job<S: Shelf>(alloc: Global, file: &str, shelf: &mut S) -> Result<String, CallEnd>
    ensures { Ended (Check file.now) (S.told shelf.old) (S.told shelf.new) result }
{
    let work = prepare_check(alloc, file, shelf)?;
    report_or_halt(check_report(alloc, &work.plan, &work.clocks))
}

/// Renders a script on one thread, as `asked` says: writes its outputs to the shelf, and then their cue files, if they
/// are wanted. Gives the report of the rendering, or why there is none.
pub fn alone_job<S: Shelf>(
    alloc: Global,
    asked: &Rendering<'_>,
    shelf: &mut S,
) -> Result<String, CallEnd>
    ensures { Ended (Render (rendering_read asked.now) None) (S.told shelf.old) (S.told shelf.new) result }
{
    let job = prepare(alloc, asked, shelf)?;
    let ended = render_alone(alloc, &job, shelf);
    conclude(alloc, &job, ended)
}

/// Renders a script by threads, as `asked` says, in windows of ticks: writes its outputs, then their cue files and its
/// trace, if these are wanted. Gives the report, or why there is none. `rt` runs the threads, and `gate` is what each
/// clock's task passes before a tick.
pub fn threads_job<S: Shelf, G: Gate + Sync, R: Threads + Wait + Sync>(
    rt: &R,
    alloc: Global,
    asked: &Rendering<'_>,
    window: Window,
    shelf: &mut S,
    gate: &G,
) -> Result<String, CallEnd>
    ensures { Ended (Render (rendering_read asked.now) (Some window.ticks)) (S.told shelf.old) (S.told shelf.new)
        result }
{
    let job = prepare(alloc, asked, shelf)?;
    let ended = render(rt, alloc, &job, window.ticks, shelf, gate);
    conclude(alloc, &job, ended)
}

/// Ends a job from how its rendering ended: gives the report of the rendering, or why there is none. The laws that are
/// called do nothing when they run: their contracts serve the proof.
pub(crate) fn conclude(
    alloc: Global,
    job: &Job<'_>,
    ended: Result<Rendered, RenderFault>,
) -> Result<String, CallEnd>
    requires fit { IsFitting job.now }
    requires rendering { (way : Way) × (old : ShelfTold) × (new : ShelfTold)
        × Renders (station_in job.now way) old new ended }
    ensures { (asked : Asked) (way : Way) (first old new : ShelfTold) → IsToRender asked
        → IsJobFor (rendering_of asked) job.now
        → ForSome first.files (λ files. IsOneRuling asked files (granted job.now way))
        → OnlyRead first old → Renders (station_in job.now way) old new ended → Ended asked first new result }
{
    stations::laws::infallible_outputs_have_no_gaps();
    stations::laws::threads_render_as_one_thread();
    stations::laws::one_thread_has_one_record();
    trace_replay::laws::onward_records_are_ordered();
    stations::laws::broken_renderings_begin_those_of_one_thread();
    let rendered = ended?;
    report_or_halt(report(alloc, &job.plan, job.ticks, &rendered))
}

/// Hands a report on, or ends the call where memory was refused for it. It is a function of its own, since with a plan
/// alive a `?` would be one more place at which the caller ends.
pub(crate) fn report_or_halt(report: Result<String, Memory>) -> Result<String, CallEnd>
    ensures told { IfOk result (λ text. report ≡ Ok text) }
    ensures starved { IfErr result (λ halt. halt ≡ no_memory) }
{
    Ok(report?)
}
