//! The lines of a week: when in it no case of a plan's switch holds, which case is never chosen, and how long it is
//! silent. `docs/formats.md`, "The week of a station", has them.
#![tactic(auto)]

mod above;
mod below;
mod cases;
mod lines;
mod switches;

ghost use Rattle.std.specs.Prelude.{◌≡◌, [], false, length, IfOk, OnOk};
ghost use Rattle.fallible_infer.specs.Infallible.{mark_at};
ghost use Rattle.plan_core.specs.Plans.{IsWellFormed};
ghost use Rattle.week_plan.specs.Tables.{IsTableOf};
ghost use Rattle.week_lines.specs.Weeks.{AreLines, IsWeek, some_silent};

use below::below_crossfades;
use lines::push_sum;
use liq_base::Memory;
use plan_core::Plan;
use std::alloc::Global;
use switches::push_switches;
use week_plan::{filled, seconds_told};

/// What is told of a plan's week, as text: when no case of a switch holds, which cases are never chosen, and how long
/// it is silent in all. `marks` says of each source whether it never falls silent.
pub fn week(alloc: Global, plan: &Plan, marks: &[bool]) -> Result<Vec<u8>, Memory>
    requires { IsWellFormed plan.now }
    ensures { IfOk result (λ text. IsWeek plan.now (mark_at marks.now) text.items) }
{
    let mut text = Vec::new(alloc);
    push_plan(alloc, &mut text, plan, marks)?;
    Ok(text)
}

// Appends the lines about each switch of a plan, and then for how long in the week it is silent in all. `marks` says of
// each source whether it never falls silent.
fn push_plan(alloc: Global, into: &mut Vec<u8>, plan: &Plan, marks: &[bool]) -> Result<(), Memory>
    requires plan { IsWellFormed plan.now }
    requires empty { into.old.items ≡ [] }
    ensures { OnOk result (IsWeek plan.now (mark_at marks.now) into.new.items) }
{
    let mut silent = filled(alloc, false)?;
    push_lines(alloc, into, &mut silent, plan, marks)?;
    push_sum(into, u64::from(seconds_told(&silent)))?;
    Ok(())
}

// Appends what is told of each switch. Adds to `silent`, a table of bits, the seconds of the week at which one of them
// is silent. `marks` says of each source whether it never falls silent.
fn push_lines(
    alloc: Global,
    into: &mut Vec<u8>,
    silent: &mut [u64],
    plan: &Plan,
    marks: &[bool],
) -> Result<(), Memory>
    requires plan { IsWellFormed plan.now }
    requires empty { into.old.items ≡ [] }
    requires none { IsTableOf (λ at. false) silent.old }
    ensures lines { OnOk result (AreLines plan.now (mark_at marks.now) into.new.items) }
    ensures silent { OnOk result (IsTableOf (some_silent plan.now (length plan.now.nodes)) silent.new) }
{
    let below = below_crossfades(alloc, plan.nodes.as_slice())?;
    push_switches(alloc, into, silent, plan, marks, &below)
}
