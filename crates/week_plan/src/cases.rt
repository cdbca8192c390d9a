// What is told of the cases of a switch.
ghost use Rattle.std.specs.Prelude.{◌≡◌, ◌<◌, ℕ, ◌&&◌, [], true, IfOk, OnOk, length, map, not};
ghost use Rattle.time_pred.specs.Predicates.{holds};
ghost use Rattle.time_pred.specs.View.{view_shared};
ghost use Rattle.week_plan.specs.Cases.{AreFates, IsFateBy, IsKept};
ghost use Rattle.week_plan.specs.Spans.{some_case_holds};
ghost use Rattle.week_plan.specs.Tables.{IsTable, IsTableOf, is_told};

use crate::preds::table_of;
use crate::same::same_pred;
use crate::table::{Way, filled, join, meet};
use liq_base::Memory;
use std::alloc::Global;
use time_pred::SharedPred;

/// What becomes of a case of a switch in a week.
#[derive(Clone, Copy, Debug, PartialEq, Eq)]
pub enum Fate {
    /// It may be chosen at some second.
    Chosen,

    /// It holds at some second, but wherever it does, a case before it holds whose source never falls silent.
    Hidden,

    /// It holds at no second.
    Never,
}

/// What is told of a switch: the table of its holes, the seconds at which no case holds, and what becomes of each case.
#[derive(Debug, Drop)]
pub struct Seen {
    pub holes: Vec<u64>,
    pub fates: Vec<Fate>,
}

/// Looks at a `switch` over the week: finds the seconds at which no case holds (`holes`), and what becomes of each
/// case: it may be chosen, is hidden by cases before it, or never holds. `preds` are the predicates in order, and
/// `sure` tells of each case whether its source never falls silent.
pub fn look(alloc: Global, preds: &[SharedPred], sure: &[bool]) -> Result<Seen, Memory>
    requires { length sure.now ≡ length preds.now }
    ensures holes { IfOk result (λ look. IsTableOf (λ at. not (some_case_holds (map view_shared preds.now) at))
        look.holes.items) }
    ensures fates { IfOk result (λ look. AreFates (map view_shared preds.now) sure.now look.fates.items) }
{
    let mut holes = filled(alloc, true)?;
    let fates = fates_of(alloc, &mut holes, preds, sure)?;
    Ok(Seen { holes, fates })
}

// What becomes of each case of a `switch` over the week, in order: it may be chosen, is hidden by cases before it, or
// never holds. `sure` tells of each whether its source never falls silent. `holes` is a table of all seconds, and loses
// those at which one of these cases holds.
fn fates_of(
    alloc: Global,
    holes: &mut [u64],
    preds: &[SharedPred],
    sure: &[bool],
) -> Result<Vec<Fate>, Memory>
    requires size { length sure.now ≡ length preds.now }
    requires holes { IsTableOf (λ at. true) holes.old }
    ensures holes { OnOk result (IsTableOf (λ at. not (some_case_holds (map view_shared preds.now) at)) holes.new) }
    ensures fates { IfOk result (λ fates. AreFates (map view_shared preds.now) sure.now fates.items) }
{
    let mut free = filled(alloc, true)?;
    let mut fates = Vec::new(alloc);
    push_fates(alloc, &mut fates, holes, &mut free, preds, sure)?;
    Ok(fates)
}

// Appends what becomes of each case of a `switch`. `sure` tells of each whether its source never falls silent. `holes`
// has the seconds at which no case held yet, and `free` those at which none of the sure ones did; each case takes its
// own from `holes`, and a sure one from `free` too.
fn push_fates(
    alloc: Global,
    into: &mut Vec<Fate>,
    holes: &mut [u64],
    free: &mut [u64],
    preds: &[SharedPred],
    sure: &[bool],
) -> Result<(), Memory>
    requires size { length sure.now ≡ length preds.now }
    requires none { into.old.items ≡ [] }
    requires holes { IsTableOf (λ at. true) holes.old }
    requires free { IsTableOf (λ at. true) free.old }
    ensures holes { OnOk result (IsTableOf (λ at. not (some_case_holds (map view_shared preds.now) at)) holes.new) }
    ensures fates { OnOk result (AreFates (map view_shared preds.now) sure.now into.new.items) }
{
    let mut kept = filled(alloc, false)?;
    push_each_fate(alloc, into, holes, free, preds, sure, &mut kept)?;
    Ok(())
}

// Appends what becomes of each case of a `switch`. Takes its seconds from `holes`, and from `free` too if its source
// never falls silent. `kept` is room for a case's table, which stays for the next case with the same predicate.
fn push_each_fate(
    alloc: Global,
    into: &mut Vec<Fate>,
    holes: &mut [u64],
    free: &mut [u64],
    preds: &[SharedPred],
    sure: &[bool],
    kept: &mut Vec<u64>,
) -> Result<(), Memory>
    requires size { length sure.now ≡ length preds.now }
    requires none { into.old.items ≡ [] }
    requires holes { IsTableOf (λ at. true) holes.old }
    requires free { IsTableOf (λ at. true) free.old }
    ensures holes { OnOk result (IsTableOf (λ at. not (some_case_holds (map view_shared preds.now) at)) holes.new) }
    ensures fates { OnOk result (AreFates (map view_shared preds.now) sure.now into.new.items) }
{
    for (k, pred) in preds.iter().enumerate() {
        keep_table(alloc, kept, preds, k, pred)?;
        let fate = take_case(holes, free, kept, sure[k]);
        into.push(fate)?;
    }
    Ok(())
}

// Makes in `kept` the table of the seconds of the week at which case k, with the predicate `pred`, holds. If case k - 1
// has the same predicate, that table is there already, which saves the work.
fn keep_table(
    alloc: Global,
    kept: &mut Vec<u64>,
    preds: &[SharedPred],
    k: usize,
    pred: &SharedPred,
) -> Result<(), Memory>
    requires here { k < length preds.now }
    requires kept { IsKept preds.now k kept.old.items }
    ensures { OnOk result (IsTableOf (holds (view_shared pred.now)) kept.new.items) }
{
    if k > 0 && same_pred(&preds[k - 1], pred) {
        return Ok(());
    }
    *kept = table_of(alloc, pred.as_pred())?;
    Ok(())
}

// What becomes of a case that holds at the seconds of `table`, and may be chosen at those that are `free`. They are
// taken out of the holes, and, if its source never falls silent (`sure`), of the free ones.
fn take_case(holes: &mut [u64], free: &mut [u64], table: &[u64], sure: bool) -> Fate
    requires holes { IsTable holes.old }
    requires free { IsTable free.old }
    requires table { IsTable table.now }
    ensures fate { IsFateBy (is_told table.now) (λ at. is_told table.now at && is_told free.old at) result }
    ensures holes { IsTableOf (λ at. is_told holes.old at && not (is_told table.now at)) holes.new }
    ensures free { IsTableOf (λ at. is_told free.old at && not (is_told table.now at && sure)) free.new }
{
    let fate = fate_of(table, free);
    join(holes, table, Way::Without);
    take_if(free, table, sure);
    fate
}

// Takes the seconds of `table` out of the table `from`, if `sure` says that the source of the case never falls silent.
fn take_if(from: &mut [u64], table: &[u64], sure: bool)
    requires from { IsTable from.old }
    requires table { IsTable table.now }
    ensures table { IsTable from.new }
    ensures same { (at : ℕ) → at < 604800
        → is_told from.new at ≡ (is_told from.old at && not (is_told table.now at && sure)) }
{
    if sure {
        join(from, table, Way::Without);
    }
}

// What becomes of a case that holds at the seconds of `table`: it may be chosen if one of them is `free`, and else it
// is hidden by cases before it, or holds at none.
fn fate_of(table: &[u64], free: &[u64]) -> Fate
    requires table { IsTable table.now }
    requires free { IsTable free.now }
    ensures { IsFateBy (is_told table.now) (λ at. is_told table.now at && is_told free.now at) result }
{
    if meet(table, free) {
        Fate::Chosen
    } else if meet(table, table) {
        Fate::Hidden
    } else {
        Fate::Never
    }
}
