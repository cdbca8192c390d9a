// What a script asks for: its plan, its audio files and its clocks.
ghost use Rattle.std.specs.Prelude.{◌≡◌, ℕ, Bool, false, List, Option, IfOk, None, Some};
ghost use Rattle.std.specs.Option.{ForSome};
ghost use Rattle.liq_base.specs.Files.{file_at};
ghost use Rattle.liq_base.specs.Shelves.{OnlyRead};
ghost use Rattle.plan_core.specs.Plans.{IsWellFormed};
ghost use Rattle.station_render.specs.Runs.{IsFitting};
ghost use Rattle.station_jobs.specs.Verdicts.{HasPlan, clash_of};
ghost use Rattle.station_jobs.specs.Prepared.{EndsFor, IsChecked, IsJobFor, IsOneOutcome, outcome_of};
ghost use Rattle.station_jobs.specs.Read.{named, rendering_read};
ghost use Rattle.station_jobs.specs.Words.{rendering_by};

use crate::clash::keep_apart;
use crate::form::Rendering;
use crate::halt::CallEnd;
use clock_infer::ClockMap;
use liq_base::limits::MAX_SCRIPT_BYTES;
use liq_base::{Fetched, Shelf, ShelfFault};
use plan_core::Plan;
use refusal_lines::Fault;
use script_lex::LexFault;
use script_plan::{ScriptFault, plan_of};
use station_check::{check_clocks, check_plan};
use station_render::Job;
use std::alloc::Global;

/// A plan with its clocks: all that the report of a check is made of.
#[derive(Drop)]
pub struct CheckedPlan {
    pub plan: Plan,
    pub clocks: ClockMap,
}

/// Makes the job of a rendering, of the script and options in `asked`, ready to run: reads the script, evaluates it to
/// a plan, refuses two files of one name, and reads the audio files and finds the clocks. The first fault ends it.
pub fn prepare<'a, S: Shelf>(
    alloc: Global,
    asked: &Rendering<'a>,
    shelf: &mut S,
) -> Result<Job<'a>, CallEnd>
    ensures found { IfOk result
        (λ job. ForSome (S.told shelf.old).files
        (λ files. IsOneOutcome files (rendering_read asked.now) (outcome_of job))) }
    ensures fit { IfOk result IsFitting }
    ensures asked { IfOk result (IsJobFor (rendering_read asked.now)) }
    ensures ends { EndsFor (rendering_read asked.now) (S.told shelf.old) (S.told shelf.new) result }
    ensures shelf { OnlyRead (S.told shelf.old) (S.told shelf.new) }
{
    let plan = read_plan(alloc, asked.file, asked.trace, asked.cues, shelf)?;
    script_plan::laws::one_answer();
    let ready = check_plan(alloc, &plan, asked.ticks.count, shelf)?;
    Ok(Job {
        plan,
        ready,
        start: asked.start,
        ticks: asked.ticks.count,
        trace: asked.trace,
        cues: asked.cues,
    })
}

/// Reads the script of this name for a check: gives its plan and clocks, or the fault. Its audio files are read and
/// given back, and none is decoded, since a check renders no tick: that is the 0 in the body.
pub fn prepare_check<S: Shelf>(
    alloc: Global,
    file: &str,
    shelf: &mut S,
) -> Result<CheckedPlan, CallEnd>
    ensures found { IfOk result
        (λ work. ForSome (S.told shelf.old).files (λ files. IsChecked files file.now work.plan work.clocks)) }
    ensures plan { IfOk result (λ work. IsWellFormed work.plan) }
    ensures ends { EndsFor (rendering_by file.now 0 0 None false) (S.told shelf.old) (S.told shelf.new) result }
    ensures shelf { OnlyRead (S.told shelf.old) (S.told shelf.new) }
{
    let plan = read_plan(alloc, file, None, false, shelf)?;
    script_plan::laws::one_answer();
    let clocks = check_clocks(alloc, &plan, 0, shelf)?;
    Ok(CheckedPlan { plan, clocks })
}

// Reads the script of this name and evaluates it to its plan. Refuses it if two of its outputs, cue files (if `cues`
// wants them) and trace (of the name `trace`, if one is wanted) would have one name.
fn read_plan<S: Shelf>(
    alloc: Global,
    file: &str,
    trace: Option<&str>,
    cues: bool,
    shelf: &mut S,
) -> Result<Plan, CallEnd>
    ensures plan { IfOk result (λ plan. ForSome (S.told shelf.old).files (λ files. HasPlan files file.now plan)) }
    ensures apart { IfOk result (λ plan. clash_of plan (named trace.entry) cues ≡ None) }
    ensures formed { IfOk result (λ plan. IsWellFormed plan) }
    ensures ends { (start ticks : ℕ) → EndsFor (rendering_by file.now start ticks (named trace.entry) cues)
        (S.told shelf.old) (S.told shelf.new) result }
    ensures shelf { OnlyRead (S.told shelf.old) (S.told shelf.new) }
{
    let script = read_script(alloc, file, shelf)?;
    script_plan::laws::one_answer();
    let plan = plan_of(alloc, &script)?;
    keep_apart(alloc, &plan, trace, cues)?;
    Ok(plan)
}

// Reads the bytes of the script of this name from the shelf. A script that is missing or too large is refused. A failed
// read and want of memory end the call.
fn read_script<S: Shelf>(alloc: Global, file: &str, shelf: &mut S) -> Result<Vec<u8>, CallEnd>
    ensures script { IfOk result (λ script. ForSome (S.told shelf.old).files (λ files. file_at files file.now
        ≡ Some script.items)) }
    ensures ends { (start ticks : ℕ) (trace : Option (List ℕ)) (cues : Bool)
        → EndsFor (rendering_by file.now start ticks trace cues) (S.told shelf.old) (S.told shelf.new) result }
    ensures shelf { OnlyRead (S.told shelf.old) (S.told shelf.new) }
{
    let mut script = Vec::new(alloc);
    script_plan::laws::one_answer();
    match shelf.read(file, &mut script, MAX_SCRIPT_BYTES) {
        Ok(Fetched::Found) => Ok(script),
        Ok(Fetched::Missing) => Err(CallEnd::Refused(Fault::NoScript)),
        Ok(Fetched::TooLarge) => Err(CallEnd::Refused(Fault::Script(ScriptFault::Lex(
            LexFault::TextTooLong,
        )))),
        Err(ShelfFault::Failed) => Err(CallEnd::Read),
        Err(ShelfFault::Memory) => Err(CallEnd::Memory),
    }
}
