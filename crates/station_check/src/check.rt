// Whether a plan is rendered.
ghost use Rattle.std.specs.Prelude.{◌≡◌, ◌≤◌, None, IfOk, IfErr, OnOk};
ghost use Rattle.std.specs.Option.{ForSome};
ghost use Rattle.plan_core.specs.Plans.{IsWellFormed};
ghost use Rattle.frame_core.specs.Library.{Sounds, IsLibrary};
ghost use Rattle.liq_base.specs.Files.{Files};
ghost use Rattle.stations.specs.Findings.{Fails, Fits, IsFit, IsFound, IsLoaded, first_name, is_too_long};
ghost use Rattle.station_check.specs.Halts.{HaltsFor, RestHalts};
ghost use Rattle.station_check.specs.Steps.{FitsBy, IsUngapped, OnlyClocks};
ghost use Rattle.liq_base.specs.Shelves.{OnlyRead};

use crate::CheckEnd;
use crate::clocks::find_clocks;
use crate::files::{check_files, read_files};
use crate::gaps::check_gaps;
use crate::lengths::check_lengths;
use clock_infer::ClockMap;
use liq_base::Shelf;
use plan_core::Plan;
use stations::Ready;
use std::alloc::Global;

/// Checks a plan that is to be rendered for so many ticks; 0 where it is only checked.
/// `Ok` has its audio files and its clocks, and `Err` its first fault, in the order of `docs/faults.md`.
/// Each audio file is read once and none is written.
/// Files are decoded last, so no memory is taken for samples before all faults have been looked for.
pub fn check_plan<S: Shelf>(
    alloc: Global,
    plan: &Plan,
    ticks: u64,
    shelf: &mut S,
) -> Result<Ready, CheckEnd>
    requires plan { IsWellFormed plan.now }
    requires few { ticks ≤ 1000000000 }
    // What is answered is what is found of the plan, and nothing else is.
    ensures found { IfOk result
        (λ ready. ForSome (S.told shelf.old).files
        (λ files. IsFound files plan.now ticks (Fits ready.library ready.clocks))) }
    // What is refused is refused for the fault that is found, and nothing else is; `Read` comes only where a read
    // failed.
    ensures fault { IfErr result
        (HaltsFor (S.told shelf.old) (S.told shelf.new) (λ files fault. IsFound files plan.now ticks (Fails fault))) }
    // Whatever the shelf tells, what is answered can be rendered, and no output that needs an infallible source lacks
    // one.
    ensures fit { IfOk result (λ ready. IsFit plan.now ready.library ready.clocks ticks) }
    ensures safe { OnOk result (IsUngapped plan.now) }
    ensures shelf { OnlyRead (S.told shelf.old) (S.told shelf.new) }
{
    let files = read_files(alloc, plan, shelf)?;
    let clocks = check_rest(alloc, plan, ticks)?;
    let library = files.decode(alloc)?;
    Ok(Ready { library, clocks })
}

/// Checks a plan as `check_plan` does for so many ticks, but answers its clocks alone, or the same first fault.
/// The audio files are read, each once, and none is kept: at most one of them is held at a time.
pub fn check_clocks<S: Shelf>(
    alloc: Global,
    plan: &Plan,
    ticks: u64,
    shelf: &mut S,
) -> Result<ClockMap, CheckEnd>
    requires plan { IsWellFormed plan.now }
    requires few { ticks ≤ 1000000000 }
    // The plan is found to be one with some audio files and these clocks, and nothing else is found.
    ensures found { IfOk result
        (λ clocks. ForSome (S.told shelf.old).files (λ files. FitsBy files plan.now ticks clocks)) }
    // Whatever the shelf tells, they are the clocks of the plan, which has no others, and the plan has no other fault
    // than one of files.
    ensures map { IfOk result (λ clocks. OnlyClocks plan.now clocks) }
    ensures safe { OnOk result (IsUngapped plan.now) }
    ensures short { OnOk result (first_name (is_too_long plan.now ticks) plan.now.sinks ≡ None) }
    ensures fault { IfErr result
        (HaltsFor (S.told shelf.old) (S.told shelf.new) (λ files fault. IsFound files plan.now ticks (Fails fault))) }
    ensures shelf { OnlyRead (S.told shelf.old) (S.told shelf.new) }
{
    check_files(alloc, plan, shelf)?;
    check_rest(alloc, plan, ticks)
}

// Checks all of a plan but its audio files, if it is to be rendered for so many ticks, and answers its clocks.
// The faults come in this order: outputs that may have gaps, clocks, and outputs too long for their files.
fn check_rest(alloc: Global, plan: &Plan, ticks: u64) -> Result<ClockMap, CheckEnd>
    requires plan { IsWellFormed plan.now }
    requires few { ticks ≤ 1000000000 }
    ensures found { IfOk result (λ clocks. (files : Files) (library : Sounds) → IsLoaded files plan.now library
        → IsLibrary library → IsFound files plan.now ticks (Fits library clocks)) }
    ensures map { IfOk result (λ clocks. OnlyClocks plan.now clocks) }
    ensures safe { OnOk result (IsUngapped plan.now) }
    ensures short { OnOk result (first_name (is_too_long plan.now ticks) plan.now.sinks ≡ None) }
    ensures fault { IfErr result (RestHalts plan.now ticks) }
{
    check_gaps(alloc, plan)?;
    let clocks = find_clocks(alloc, plan)?;
    check_lengths(alloc, plan, ticks)?;
    Ok(clocks)
}
