// A script is rendered again, as a trace tells.
ghost use Rattle.station_jobs.specs.Prepared.{Ended};
ghost use Rattle.station_jobs.specs.Words.{Replay};

use crate::form::Rendering;
use crate::halt::CallEnd;
use crate::jobs::conclude;
use crate::prepare::prepare;
use crate::ticks::Ticks;
use crate::traces::find_trace;
use fixed_text::WeekSecond;
use liq_base::Shelf;
use station_render::render_again;
use std::alloc::Global;

/// Does `replay`: renders `ticks` ticks of a script again on one thread, from second `start` of the week, as the trace
/// in a file tells, and gives the report. The trace is read before an output is created, so an output may have its
/// name. It leaves no trace and no cue files.
pub fn replay_job<S: Shelf>(
    alloc: Global,
    file: &str,
    start: WeekSecond,
    ticks: Ticks,
    trace: &str,
    shelf: &mut S,
) -> Result<String, CallEnd>
    ensures { Ended (Replay file.now start.second ticks.count trace.now) (S.told shelf.old) (S.told shelf.new) result }
{
    let asked = Rendering {
        file,
        start,
        ticks,
        trace: None,
        cues: false,
    };
    let job = prepare(alloc, &asked, shelf)?;
    trace_log::laws::texts_have_one_meaning();
    let told = find_trace(alloc, &job, trace, shelf)?;
    let turns = told.turns;
    let ended = render_again(alloc, &job, &told.trace, turns, shelf);
    conclude(alloc, &job, ended)
}
