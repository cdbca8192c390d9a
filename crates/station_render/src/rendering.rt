// A station is rendered.
ghost use Rattle.std.specs.Prelude.{◌≡◌, ◌<◌, ◌≤◌, IfErr, IfOk, IfSome, IsErrOf};
ghost use Rattle.std.specs.Option.{ForSome};
ghost use Rattle.liq_base.specs.Counts.{Rose};
ghost use Rattle.liq_base.specs.Shelves.{ShelfTold};
ghost use Rattle.stations.specs.Creations.{HaveClosed, names_in};
ghost use Rattle.stations.specs.Renderings.{WrotePart};
ghost use Rattle.stations.specs.Stations.{Again, InRounds, InWindows, Way};
ghost use Rattle.station_render.specs.Faults.{is_device};
ghost use Rattle.station_render.specs.Renderings.{Renders};
ghost use Rattle.station_render.specs.Runs.{IsFitting, WroteOutputs, setting_by, station_in, window_of};
ghost use Rattle.station_render.specs.Shelves.{OnlyCloses};
ghost use Rattle.station_render.specs.Sinks.{lists_of};
ghost use Rattle.station_render.specs.Stages.{MayClose, OnlyOpened};
ghost use Rattle.trace_log.specs.Texts.{IsTrace};
ghost use Rattle.trace_replay.specs.RecordTurns.{AreAllTurns};
ghost use Rattle.trace_records.specs.Traces.{IsAccepted};

use crate::close::close_all;
use crate::cues::leave_wanted;
use crate::engines::take_back;
use crate::opened::{Places, open_outputs};
use crate::output_sink::OutputSink;
use crate::ticks::{tick_again, tick_by_threads, tick_in_rounds};
use crate::traces::leave_trace;
use crate::{Job, RenderFault, Rendered};
use buffer_ends::RunEnd;
use clock_ticks::ClockEngine;
use liq_base::{Gate, Shelf};
use std::alloc::Global;
use std::sync::Wait;
use std::thread::Threads;
use trace_log::Trace;
use trace_replay::RecordTurns;

/// Renders a job into the files of its outputs, and answers what is told of it. The outputs are created in sink order,
/// each with room for exactly its bytes and with its header as one piece; then each clock makes its ticks on a thread
/// of its own, in windows of so many, and enters the gate before each; then all outputs are closed in sink order,
/// whatever happened. After a run that ended well, and once all outputs are closed, their cue files, where these are
/// wanted, are written in sink order, and then the trace, where one is wanted: each is created with room for exactly
/// its text, gets it as one piece, if it is not empty, and is closed, whatever the piece came to. The rules stand in
/// `docs/streams.md`, `docs/buffers.md`, `docs/formats.md` and `docs/outside.md`.
pub fn render<S: Shelf, G: Gate + Sync, R: Threads + Wait + Sync>(
    rt: &R,
    alloc: Global,
    job: &Job<'_>,
    window: u64,
    shelf: &mut S,
    gate: &G,
) -> Result<Rendered, RenderFault>
    requires fit { IsFitting job.now }
    requires some { 0 < window }
    requires few { window ≤ 1000000 }
    ensures { Renders (station_in job.now (InWindows window)) (S.told shelf.old) (S.told shelf.new) result }
{
    let (places, engines) = open_outputs(alloc, job, shelf)?;
    let (engines, run) = tick_by_threads(rt, alloc, job, window, gate, engines);
    finish(alloc, job, Some(window), shelf, places, engines, run)
}

/// Renders a job on one thread, by the steps of `render`: between the creations and the closings every clock makes its
/// ticks, in rounds. It leaves no trace.
pub fn render_alone<S: Shelf>(
    alloc: Global,
    job: &Job<'_>,
    shelf: &mut S,
) -> Result<Rendered, RenderFault>
    requires fit { IsFitting job.now }
    ensures { Renders (station_in job.now InRounds) (S.told shelf.old) (S.told shelf.new) result }
{
    let (places, engines) = open_outputs(alloc, job, shelf)?;
    let (engines, run) = tick_in_rounds(alloc, job, engines);
    finish(alloc, job, None, shelf, places, engines, run)
}

/// Renders a job on one thread, by an accepted trace of it and by the steps of `render`: between the creations and
/// the closings the clocks make all their ticks, and their buffers answer as they did in the run that left the trace.
/// The turns, in each of which one clock makes some ticks, are all those of the trace's record. It leaves no trace.
/// The rules stand in `docs/buffers.md`.
pub fn render_again<S: Shelf>(
    alloc: Global,
    job: &Job<'_>,
    trace: &Trace,
    turns: RecordTurns,
    shelf: &mut S,
) -> Result<Rendered, RenderFault>
    requires fit { IsFitting job.now }
    requires trace { IsTrace trace.now }
    requires accepted { IsAccepted (setting_by job.now) job.now.ready.clocks.running job.now.ticks trace.now }
    requires turns { AreAllTurns (setting_by job.now) job.now.ready.clocks trace.now turns }
    ensures { Renders (station_in job.now (Again trace.now)) (S.told shelf.old) (S.told shelf.new) result }
{
    let (places, engines) = open_outputs(alloc, job, shelf)?;
    let (engines, run) = tick_again(alloc, job, trace, turns, engines);
    finish(alloc, job, None, shelf, places, engines, run)
}

// Ends a rendering once the ticks are made: closes the outputs, and leaves the cue files and the trace, where these
// are wanted. `window` is how many ticks a window had; `None` on one thread.
fn finish<S: Shelf>(
    alloc: Global,
    job: &Job<'_>,
    window: Option<u64>,
    shelf: &mut S,
    places: Places<OutputSink<S::Out>>,
    engines: Vec<ClockEngine<'_, OutputSink<S::Out>>>,
    run: RunEnd,
) -> Result<Rendered, RenderFault>
    requires fit { IsFitting job.now }
    requires bounds { IfSome window (λ window. (0 < window) × (window ≤ 1000000)) }
    requires may { (way : Way) × (window ≡ window_of way) × (first : ShelfTold)
        × OnlyOpened job.now first (S.told shelf.old)
        × MayClose S.Out.told first job.now way places.order.items (lists_of places.groups.items) engines.items run }
    ensures { (way : Way) (first : ShelfTold) → window ≡ window_of way → OnlyOpened job.now first (S.told shelf.old)
        → MayClose S.Out.told first job.now way places.order.items (lists_of places.groups.items) engines.entry.items
        run
        → Renders (station_in job.now way) first (S.told shelf.new) result }
{
    let rendered = close_outputs(alloc, job, shelf, places, engines, run)?;
    leave_wanted(alloc, job, &rendered.cues, shelf)?;
    leave_trace(alloc, job, window, shelf, rendered)
}

// Ends the outputs of a rendering: takes the sinks of the engines back into their places, closes all in sink order,
// whatever the run came to, and returns what is told of it.
fn close_outputs<S: Shelf>(
    alloc: Global,
    job: &Job<'_>,
    shelf: &mut S,
    places: Places<OutputSink<S::Out>>,
    engines: Vec<ClockEngine<'_, OutputSink<S::Out>>>,
    run: RunEnd,
) -> Result<Rendered, RenderFault>
    requires fit { IsFitting job.now }
    requires may { (way : Way) × (first : ShelfTold)
        × MayClose S.Out.told first job.now way places.order.items (lists_of places.groups.items) engines.items run }
    ensures done { (way : Way) (first : ShelfTold) → OnlyOpened job.now first (S.told shelf.old)
        → MayClose S.Out.told first job.now way places.order.items (lists_of places.groups.items) engines.entry.items
        run
        → IfOk result (WroteOutputs (station_in job.now way) first (S.told shelf.new)) }
    ensures part { IfErr result (λ fault. (way : Way) (first : ShelfTold) → OnlyOpened job.now first (S.told shelf.old)
        → MayClose S.Out.told first job.now way places.order.items (lists_of places.groups.items) engines.entry.items
        run
        → ForSome first.files (λ files. WrotePart (station_in job.now way) (is_device fault) files first
        (S.told shelf.new))) }
    ensures cause { IsErrOf result RenderFault.Write → Rose (S.told shelf.old).writes (S.told shelf.new).writes }
    ensures closed { (way : Way) (first : ShelfTold) → OnlyOpened job.now first (S.told shelf.old)
        → MayClose S.Out.told first job.now way places.order.items (lists_of places.groups.items) engines.entry.items
        run
        → HaveClosed 0 (names_in job.now.plan.sinks) first.closed (S.told shelf.new).closed }
    ensures shelf { OnlyCloses (S.told shelf.old) (S.told shelf.new) }
{
    let Places { order, mut groups } = places;
    let told = take_back(alloc, job, engines, run, &mut groups);
    close_all(shelf, &order, groups, told)
}
