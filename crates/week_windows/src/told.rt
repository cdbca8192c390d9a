// The windows of lists of cases, kept for the next switch with the same one.
ghost use Rattle.std.specs.Prelude.{◌≡◌, ◌<◌, [], All, IfOk, IfSome, OnOk, length, map};
ghost use Rattle.time_pred.specs.View.{view_shared};
ghost use Rattle.week_windows.specs.Told.{IsTold};
ghost use Rattle.week_windows.specs.Windows.{case_windows};

use crate::cases::{hours_of, windows_each};
use crate::windows::Windows;
use liq_base::Memory;
use std::alloc::Global;
use time_pred::SharedPred;
use week_plan::same_preds;

/// Of how many lists of cases the windows are kept.
const MOST: usize = 256;

/// The predicates of cases, and the windows of each.
#[derive(Debug, Drop)]
pub struct ToldCases<'a> {
    pub preds: &'a [SharedPred],
    pub windows: Vec<Windows>,
}

/// The windows of each case of a switch, by the predicates of the cases, in order. If `told` keeps those of the same
/// cases, they are copied; else they are counted and kept there for later switches.
pub fn windows_kept<'a>(
    alloc: Global,
    told: &mut Vec<ToldCases<'a>>,
    preds: &'a [SharedPred],
) -> Result<Vec<Windows>, Memory>
    requires { All IsTold told.old.items }
    ensures told { OnOk result (All IsTold told.new.items) }
    ensures windows { IfOk result (λ all. all.items ≡ case_windows [] (map view_shared preds.now)) }
{
    match windows_among(told, preds) {
        Some(windows) => copied(alloc, windows),
        None => windows_anew(alloc, told, preds),
    }
}

// The windows that are kept of a switch with these cases, if there are any.
fn windows_among<'a>(told: &'a [ToldCases<'_>], preds: &[SharedPred]) -> Option<&'a [Windows]>
    requires { All IsTold told.now }
    ensures { IfSome result (λ windows. windows.now ≡ case_windows [] (map view_shared preds.now)) }
{
    for one in told {
        if same_preds(one.preds, preds) {
            return Some(&one.windows);
        }
    }
    None
}

// A copy of a list of windows.
fn copied(alloc: Global, windows: &[Windows]) -> Result<Vec<Windows>, Memory>
    ensures { IfOk result (λ all. all.items ≡ windows.now) }
{
    let mut all = Vec::new(alloc);
    for one in windows {
        all.push(*one)?;
    }
    Ok(all)
}

// Counts the windows of cases of which none are kept, keeps them, and answers them.
fn windows_anew<'a>(
    alloc: Global,
    told: &mut Vec<ToldCases<'a>>,
    preds: &'a [SharedPred],
) -> Result<Vec<Windows>, Memory>
    requires { All IsTold told.old.items }
    ensures told { OnOk result (All IsTold told.new.items) }
    ensures windows { IfOk result (λ all. all.items ≡ case_windows [] (map view_shared preds.now)) }
{
    let windows = windows_of(alloc, preds)?;
    let all = copied(alloc, &windows)?;
    make_room(told);
    keep(told, ToldCases { preds, windows })?;
    Ok(all)
}

// The windows of each of these cases of a switch, counted anew.
fn windows_of(alloc: Global, preds: &[SharedPred]) -> Result<Vec<Windows>, Memory>
    ensures { IfOk result (λ all. all.items ≡ case_windows [] (map view_shared preds.now)) }
{
    let hours = hours_of(alloc, preds)?;
    let all = windows_each(alloc, &hours.cases)?;
    Ok(all)
}

// Drops all windows that are kept, once as many lists of cases are kept as may be.
fn make_room(told: &mut Vec<ToldCases<'_>>)
    requires { All IsTold told.old.items }
    ensures { All IsTold told.new.items }
{
    if told.len() >= MOST {
        told.clear();
    }
}

// Keeps the windows of one more list of cases.
fn keep<'a>(told: &mut Vec<ToldCases<'a>>, one: ToldCases<'a>) -> Result<(), Memory>
    requires told { All IsTold told.old.items }
    requires one { IsTold one }
    ensures { OnOk result (All IsTold told.new.items) }
{
    told.push(one)?;
    Ok(())
}
