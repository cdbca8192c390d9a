// The audio files of a plan.
ghost use Rattle.std.specs.Prelude.{◌≡◌, ◌≤◌, ℕ, IfOk, IfErr, OnOk};
ghost use Rattle.std.specs.Option.{ForSome};
ghost use Rattle.plan_core.specs.Plans.{IsWellFormed};
ghost use Rattle.stations.specs.Findings.{Fails, IsFound, rules_of};
ghost use Rattle.station_check.specs.Halts.{HaltsFor, load_halt};
ghost use Rattle.track_library.specs.Loads.{AreLoaded, CanLoad};
ghost use Rattle.liq_base.specs.Shelves.{OnlyRead};

use crate::CheckEnd;
use liq_base::Shelf;
use liq_base::limits::{MAX_ALL_BYTES, MAX_FILE_BYTES};
use plan_core::Plan;
use stations::StationFault;
use std::alloc::Global;
use track_library::{LoadFault, PlanFiles, Sizes, find_files, try_files};

/// How many bytes an audio file, and all audio files of a plan, may count for.
const SIZES: Sizes = Sizes {
    file: MAX_FILE_BYTES,
    all: MAX_ALL_BYTES,
};

/// Reads the audio files of a plan, each once, and keeps their bytes; none is decoded yet.
/// The `Err` has the first fault of their loading: a read that failed, want of memory, or a refusal of the plan.
pub fn read_files<S: Shelf>(
    alloc: Global,
    plan: &Plan,
    shelf: &mut S,
) -> Result<PlanFiles, CheckEnd>
    requires { IsWellFormed plan.now }
    ensures loaded { IfOk result (AreLoaded (S.told shelf.old).files (rules_of plan.now) plan.now.nodes) }
    ensures fault { IfErr result (HaltsFor (S.told shelf.old) (S.told shelf.new)
        (λ files fault. (ticks : ℕ) → IsFound files plan.now ticks (Fails fault))) }
    ensures shelf { OnlyRead (S.told shelf.old) (S.told shelf.new) }
{
    match find_files(alloc, plan, shelf, SIZES) {
        Ok(files) => Ok(files),
        Err(fault) => Err(halt_of(fault)),
    }
}

/// Checks that the audio files of a plan can be loaded: `Ok` if so, and else the first fault of that.
/// Each is read once, and none is kept.
pub fn check_files<S: Shelf>(alloc: Global, plan: &Plan, shelf: &mut S) -> Result<(), CheckEnd>
    requires { IsWellFormed plan.now }
    ensures can { OnOk result (ForSome (S.told shelf.old).files
        (λ files. CanLoad (rules_of plan.now) files plan.now.nodes)) }
    ensures fault { IfErr result (HaltsFor (S.told shelf.old) (S.told shelf.new)
        (λ files fault. (ticks : ℕ) → IsFound files plan.now ticks (Fails fault))) }
    ensures shelf { OnlyRead (S.told shelf.old) (S.told shelf.new) }
{
    match try_files(alloc, plan, shelf, SIZES) {
        Ok(()) => Ok(()),
        Err(fault) => Err(halt_of(fault)),
    }
}

// How a check ends at a fault of files: a read that failed, want of memory, or a refusal of the plan.
fn halt_of(fault: LoadFault) -> CheckEnd
    ensures { result ≡ load_halt fault }
{
    match fault {
        LoadFault::ReadFault(_) => CheckEnd::Read,
        LoadFault::Memory => CheckEnd::Memory,
        _ => CheckEnd::Refused(StationFault::Files(fault)),
    }
}
