// The windows of the cases of a switch.
ghost use Rattle.std.specs.Prelude.{◌≡◌, ◌<◌, ℕ, ◌&&◌, [], true, false, IfOk, OnOk, map, not};
ghost use Rattle.std.specs.List.{list_any};
ghost use Rattle.time_pred.specs.Predicates.{holds};
ghost use Rattle.time_pred.specs.View.{view_shared};
ghost use Rattle.week_plan.specs.Spans.{some_case_holds};
ghost use Rattle.week_plan.specs.Tables.{IsTable, IsTableOf, is_told};
ghost use Rattle.week_windows.specs.Windows.{case_spans, in_all, lengths_of, spans_from, spans_in};

use crate::windows::{Windows, windows_in};
use liq_base::Memory;
use std::alloc::Global;
use time_pred::SharedPred;
use week_plan::{Span, Way, filled, join, laws, same_pred, spans_of, table_of};

/// When in the week each case of a switch is the first that holds, and when none holds.
#[derive(Debug, Drop)]
pub struct Hours {
    /// The spans of each case.
    pub cases: Vec<Vec<Span>>,

    /// The table of the seconds at which none holds.
    pub none: Vec<u64>,
}

/// The hours of each case of a switch, by the predicates of the cases, in order.
pub fn hours_of(alloc: Global, preds: &[SharedPred]) -> Result<Hours, Memory>
    ensures cases { IfOk result (λ hours. map spans_in hours.cases.items ≡ case_spans [] (map view_shared preds.now)) }
    ensures none { IfOk result (λ hours. IsTableOf (λ at. not (some_case_holds (map view_shared preds.now) at))
        hours.none.items) }
{
    let mut none = filled(alloc, true)?;
    let cases = cases_of(alloc, &mut none, preds)?;
    Ok(Hours { cases, none })
}

/// The spans of the week at which no case of a switch holds, by the hours of its cases.
pub fn holes_of(alloc: Global, hours: &Hours) -> Result<Vec<Span>, Memory>
    requires { IsTable hours.now.none.items }
    ensures { IfOk result (λ spans. spans.items ≡ spans_from (is_told hours.now.none.items) 0 604800) }
{
    let spans = left_spans(alloc, &hours.none)?;
    Ok(spans)
}

/// How many windows each case has in the week, and how long they are, by the spans of seconds of each.
pub fn windows_each(alloc: Global, cases: &[Vec<Span>]) -> Result<Vec<Windows>, Memory>
    ensures { IfOk result (λ all. all.items ≡ map (λ spans. in_all (lengths_of (spans_in spans))) cases.now) }
{
    let mut all = Vec::new(alloc);
    for spans in cases {
        all.push(windows_in(spans))?;
    }
    Ok(all)
}

// The spans of each case. `free`, a table of all seconds, is left with those at which none holds.
fn cases_of(alloc: Global, free: &mut [u64], preds: &[SharedPred]) -> Result<Vec<Vec<Span>>, Memory>
    requires { IsTableOf (λ at. true) free.old }
    ensures cases { IfOk result (λ cases. map spans_in cases.items ≡ case_spans [] (map view_shared preds.now)) }
    ensures free { OnOk result (IsTableOf (λ at. not (some_case_holds (map view_shared preds.now) at)) free.new) }
{
    let mut cases = Vec::new(alloc);
    push_cases(alloc, &mut cases, free, preds)?;
    Ok(cases)
}

// Appends to `into`, which is empty, the spans of the seconds at which each case holds and none before it. `free` has a
// bit for each second of the week, all set at first; it is left with those at which no case holds.
fn push_cases(
    alloc: Global,
    into: &mut Vec<Vec<Span>>,
    free: &mut [u64],
    preds: &[SharedPred],
) -> Result<(), Memory>
    requires none { into.old.items ≡ [] }
    requires free { IsTableOf (λ at. true) free.old }
    ensures cases { OnOk result (map spans_in into.new.items ≡ case_spans [] (map view_shared preds.now)) }
    ensures free { OnOk result (IsTableOf (λ at. not (some_case_holds (map view_shared preds.now) at)) free.new) }
{
    for (k, pred) in preds.iter().enumerate() {
        let again = stands_among(pred, &preds[..k]);
        let spans = take_case(alloc, free, pred, again)?;
        into.push(spans)?;
    }
    Ok(())
}

// Whether one of these earlier predicates is the same: then the later one has no second of its own.
fn stands_among(pred: &SharedPred, earlier: &[SharedPred]) -> bool
    ensures { result ≡ true → (at : ℕ) → holds (view_shared pred.now) at ≡ true
        → list_any (λ p. holds (view_shared p) at) earlier.now ≡ true }
{
    for other in earlier {
        if same_pred(pred, other) {
            return true;
        }
    }
    false
}

// The spans of a case, among the seconds in the table `free`, at which no case before it holds; it takes them from
// there. `again` says that its predicate is that of a case before it: then it has none.
fn take_case(
    alloc: Global,
    free: &mut [u64],
    pred: &SharedPred,
    again: bool,
) -> Result<Vec<Span>, Memory>
    requires free { IsTable free.old }
    requires again { again ≡ true → (at : ℕ) → at < 604800 → holds (view_shared pred.now) at ≡ true
        → is_told free.old at ≡ false }
    ensures spans { IfOk result (λ spans. spans.items
        ≡ spans_from (λ at. holds (view_shared pred.now) at && is_told free.old at) 0 604800) }
    ensures free { OnOk result
        (IsTableOf (λ at. is_told free.old at && not (holds (view_shared pred.now) at)) free.new) }
{
    if again {
        return Ok(Vec::new(alloc));
    }
    let mut table = table_of(alloc, pred.as_pred())?;
    let spans = take(alloc, free, &mut table)?;
    Ok(spans)
}

// The spans of the seconds that are both in `table` and in `free`, which are tables with a bit for each second of the
// week; they are taken out of `free`.
fn take(alloc: Global, free: &mut [u64], table: &mut [u64]) -> Result<Vec<Span>, Memory>
    requires free { IsTable free.old }
    requires table { IsTable table.old }
    ensures spans { IfOk result (λ spans. spans.items
        ≡ spans_from (λ at. is_told table.old at && is_told free.old at) 0 604800) }
    ensures free { OnOk result
        (IsTableOf (λ at. is_told free.old at && not (is_told table.old at)) free.new) }
{
    join(table, free, Way::Both);
    join(free, table, Way::Without);
    let spans = left_spans(alloc, table)?;
    Ok(spans)
}

// The spans of the seconds in a table.
fn left_spans(alloc: Global, table: &[u64]) -> Result<Vec<Span>, Memory>
    requires { IsTable table.now }
    ensures { IfOk result (λ spans. spans.items ≡ spans_from (is_told table.now) 0 604800) }
{
    let spans = spans_of(alloc, table)?;
    laws::one_list();
    Ok(spans)
}
