// The hours and the windows of switches, kept for the next switch with the same cases.
ghost use Rattle.std.specs.Prelude.{◌≡◌, [], IfOk, OnOk, map};
ghost use Rattle.time_pred.specs.View.{view_shared};
ghost use Rattle.week_windows.specs.Known.{IsKnown};
ghost use Rattle.week_windows.specs.Windows.{case_windows, hole_spans};

use crate::cases::{Hours, holes_of, hours_of};
use crate::told::{ToldCases, windows_kept};
use crate::windows::Windows;
use liq_base::Memory;
use std::alloc::Global;
use std::mem;
use time_pred::SharedPred;
use week_plan::{Span, same_preds};

/// The predicates of the cases that were looked at last, and their hours; those of the cases before; and the windows of
/// the lists of cases that were counted.
#[derive(Debug, Drop)]
pub struct Known<'a> {
    pub preds: &'a [SharedPred],
    pub hours: Hours,
    pub older_preds: &'a [SharedPred],
    pub older: Hours,
    pub told: Vec<ToldCases<'a>>,
}

/// What is kept before any switch was looked at: twice the hours of a switch without cases, and no windows.
pub fn unknown<'a>(alloc: Global) -> Result<Known<'a>, Memory>
    ensures { IfOk result IsKnown }
{
    let hours = hours_of(alloc, &[])?;
    let older = hours_of(alloc, &[])?;
    Ok(Known {
        preds: &[],
        hours,
        older_preds: &[],
        older,
        told: Vec::new(alloc),
    })
}

/// Sees to it that `known` holds the hours of the cases with these predicates, in order. They are the seconds of the
/// week at which each case is chosen. Nothing is counted if the cases are those looked at last, or those before them.
pub fn hours_again<'a>(
    alloc: Global,
    known: &mut Known<'a>,
    preds: &'a [SharedPred],
) -> Result<(), Memory>
    requires { IsKnown known.old }
    ensures known { OnOk result (IsKnown known.new) }
    ensures preds { OnOk result (map view_shared known.new.preds.now ≡ map view_shared preds.now) }
{
    if same_preds(known.preds, preds) {
        return Ok(());
    }
    turn(known);
    if same_preds(known.preds, preds) {
        return Ok(());
    }
    known.hours = hours_of(alloc, preds)?;
    known.preds = preds;
    Ok(())
}

// Exchanges the cases looked at last and their hours with those before them. So the older ones are at hand again, or
// are the ones that new hours replace.
fn turn(known: &mut Known<'_>)
    requires { IsKnown known.old }
    ensures { IsKnown known.new }
{
    let preds = known.preds;
    known.preds = known.older_preds;
    known.older_preds = preds;
    mem::swap(&mut known.hours, &mut known.older);
}

/// The windows of each case of a switch, by the predicates of the cases, in order. They are kept for later switches.
pub fn windows_again<'a>(
    alloc: Global,
    known: &mut Known<'a>,
    preds: &'a [SharedPred],
) -> Result<Vec<Windows>, Memory>
    requires { IsKnown known.old }
    ensures known { OnOk result (IsKnown known.new) }
    ensures windows { IfOk result (λ all. all.items ≡ case_windows [] (map view_shared preds.now)) }
{
    windows_kept(alloc, &mut known.told, preds)
}

/// The spans of the week at which no case holds, of the cases that were looked at last.
pub fn known_holes(alloc: Global, known: &Known<'_>) -> Result<Vec<Span>, Memory>
    requires { IsKnown known.now }
    ensures { IfOk result (λ spans. spans.items ≡ hole_spans (map view_shared known.now.preds.now)) }
{
    let spans = holes_of(alloc, &known.hours)?;
    Ok(spans)
}
