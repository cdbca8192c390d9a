// The trace of a rendering.
ghost use Rattle.std.specs.Prelude.{◌≡◌, ◌∷◌, [], IfOk, IfSome, IsErrOf, OnOk};
ghost use Rattle.liq_base.specs.Counts.{Rose};
ghost use Rattle.trace_log.specs.Texts.{IsTrace, trace_text};
ghost use Rattle.stations.specs.Creations.{trace_names_in};
ghost use Rattle.stations.specs.Stations.{Way};
ghost use Rattle.station_render.specs.Shelves.{WroteFiles, WroteUpto, one_file};
ghost use Rattle.station_render.specs.Runs.{name_in, traces_by, window_of};

use crate::files::write_file;
use crate::{Job, RenderFault, Rendered};
use liq_base::Shelf;
use std::alloc::Global;
use trace_log::{Trace, print};

/// Writes the trace of a run (the record of its buffers' answers) if one is wanted and threads made the run, and
/// hands on what is told of the run. `window` is how many ticks a window had; `None` on one thread.
pub(crate) fn leave_trace<S: Shelf>(
    alloc: Global,
    job: &Job<'_>,
    window: Option<u64>,
    shelf: &mut S,
    rendered: Rendered,
) -> Result<Rendered, RenderFault>
    requires trace { IfSome window (λ window. IsTrace (record {
      ticks = job.now.ticks;
      window = window;
      buffers = rendered.logs.items;
    })) }
    ensures gaps { IfOk result (λ told. told.gaps.items ≡ rendered.gaps.items) }
    ensures counts { IfOk result (λ told. told.counts.items ≡ rendered.counts.items) }
    ensures logs { IfOk result (λ told. told.logs.items ≡ rendered.logs.items) }
    ensures cues { IfOk result (λ told. told.cues.items ≡ rendered.cues.items) }
    ensures all { (way : Way) → window ≡ window_of way → OnOk result (WroteFiles (S.told shelf.old) (S.told shelf.new)
        (trace_names_in way (name_in job.now)) (traces_by way (name_in job.now) job.now.ticks rendered.logs.items)) }
    ensures some { (way : Way) → window ≡ window_of way → WroteUpto (S.told shelf.old) (S.told shelf.new)
        (trace_names_in way (name_in job.now)) (traces_by way (name_in job.now) job.now.ticks rendered.logs.items) }
    ensures cause { IsErrOf result RenderFault.Write → Rose (S.told shelf.old).writes (S.told shelf.new).writes }
{
    let Some(window) = window else {
        return Ok(rendered);
    };
    let Some(name) = job.trace else {
        return Ok(rendered);
    };
    let Rendered {
        gaps,
        counts,
        logs,
        cues,
    } = rendered;
    let trace = Trace {
        ticks: job.ticks,
        window,
        buffers: logs,
    };
    let wrote = write_trace(alloc, shelf, name, &trace);
    let Trace { buffers: logs, .. } = trace;
    let told = Rendered {
        gaps,
        counts,
        logs,
        cues,
    };
    wrote?;
    Ok(told)
}

// Prints a trace and writes its text into the file of this name.
fn write_trace<S: Shelf>(
    alloc: Global,
    shelf: &mut S,
    name: &str,
    trace: &Trace,
) -> Result<(), RenderFault>
    requires { IsTrace trace.now }
    ensures all { OnOk result (WroteFiles (S.told shelf.old) (S.told shelf.new) (name.now
        ∷ []) (one_file name.now (trace_text trace.now))) }
    ensures some { WroteUpto (S.told shelf.old) (S.told shelf.new) (name.now
        ∷ []) (one_file name.now (trace_text trace.now)) }
    ensures cause { IsErrOf result RenderFault.Write → Rose (S.told shelf.old).writes (S.told shelf.new).writes }
{
    let mut text = Vec::new(alloc);
    print(trace, &mut text)?;
    write_file(shelf, name, &text)
}
