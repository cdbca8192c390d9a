// A workload is made from a seed, rendered and summed up.
ghost use Rattle.std.specs.Prelude.{◌≡◌, [], true, IfOk};
ghost use Rattle.liq_base.specs.Shelves.{ShelfTold};
ghost use Rattle.station_jobs.specs.Verdicts.{files_made};
ghost use Rattle.station_jobs.specs.Prepared.{Ended};
ghost use Rattle.station_jobs.specs.Words.{Make, made_script};

use crate::form::Rendering;
use crate::halt::CallEnd;
use crate::jobs::report_or_halt;
use crate::laws;
use crate::prepare::prepare;
use crate::size::Size;
use crate::summary::summary;
use crate::ticks::Ticks;
use fixed_text::WeekSecond;
use liq_base::{Gate, Memory, SureShelf};
use plan_core::Plan;
use station_render::render;
use std::alloc::Global;
use std::sync::Wait;
use std::thread::Threads;
use workload_gen::make;

/// How many ticks a workload is rendered for.
const TICKS: u64 = 500;

/// How many ticks a window of its rendering has.
const WINDOW: u64 = 16;

/// Does `make`: makes the script and `size` audio files of a workload from a seed, renders them by threads, and gives
/// the summary. Its files and outputs are in memory, in a shelf of its own. `rt` runs the threads, and `gate` is what
/// each clock's task passes before a tick.
pub fn make_job<G: Gate + Sync, R: Threads + Wait + Sync>(
    rt: &R,
    alloc: Global,
    seed: u64,
    size: Size,
    gate: &G,
) -> Result<String, CallEnd>
    ensures { (told : ShelfTold) → Ended (Make seed size.files) told told result }
{
    let mut shelf = workload_shelf(alloc, seed, size)?;
    sum_workload(rt, alloc, seed, size, &mut shelf, gate)
}

// Renders the workload of a seed and a size over the shelf that holds its files, and gives the summary: each output
// with its gaps and the sum of its samples. The seed and the size themselves are for the contract alone. `rt` runs the
// threads, and `gate` is what each clock's task passes before a tick.
fn sum_workload<G: Gate + Sync, R: Threads + Wait + Sync>(
    rt: &R,
    alloc: Global,
    seed: u64,
    size: Size,
    shelf: &mut SureShelf,
    gate: &G,
) -> Result<String, CallEnd>
    requires { shelf.old ≡ files_made seed size.files }
    ensures { (told : ShelfTold) → Ended (Make seed size.files) told told result }
{
    let asked = Rendering {
        file: script_name(),
        start: WeekSecond { second: 0 },
        ticks: Ticks { count: TICKS },
        trace: None,
        cues: false,
    };
    let job = prepare(alloc, &asked, shelf)?;
    // The script of a workload has no buffer. Through one its clocks could meet in one way or another, and what is told
    // rests on the two numbers alone: so were there one, nothing would be told.
    if !is_unbuffered(&job.plan) {
        return Err(CallEnd::Memory);
    }
    stations::laws::infallible_outputs_have_no_gaps();
    laws::sums_are_as_on_one_thread();
    let rendered = render(rt, alloc, &job, WINDOW, shelf, gate)?;
    report_or_halt(summary(alloc, &job.plan, TICKS, &rendered.gaps, shelf))
}

// Whether a plan has no buffer, so that no source passes from one clock to another.
fn is_unbuffered(plan: &Plan) -> bool
    ensures { result ≡ true → plan.now.buffers ≡ [] }
{
    plan.buffers.as_slice().is_empty()
}

// Makes the files of the workload of a seed and a size, and gives a shelf in memory that holds them.
fn workload_shelf(alloc: Global, seed: u64, size: Size) -> Result<SureShelf, Memory>
    ensures { IfOk result (λ shelf. shelf ≡ files_made seed size.files) }
{
    let files = make(alloc, seed, size.files)?;
    Ok(SureShelf::new(alloc, files))
}

// The name under which the script of a workload stands among its files.
fn script_name() -> &'static str
    ensures { result.now ≡ made_script }
{
    "make.liq"
}
