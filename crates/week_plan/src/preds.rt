// The table of a predicate.
ghost use Rattle.std.specs.Prelude.{IfOk, not};
ghost use Rattle.std.specs.List.{list_all, list_any};
ghost use Rattle.time_pred.specs.Predicates.{holds};
ghost use Rattle.time_pred.specs.View.{view_pred};
ghost use Rattle.week_plan.specs.Tables.{IsTable, IsTableOf, is_told};

use crate::leaves::{minutes_of, repeated_table};
use crate::table::{Way, filled, join};
use liq_base::Memory;
use std::alloc::Global;
use time_pred::Pred;

/// The table of the seconds of the week at which a predicate holds: a word for each minute, and in it a bit for each
/// second. A time mark or an interval is tabled up to where it comes back, and repeated.
#[cycle(table)]
pub fn table_of(alloc: Global, pred: &Pred) -> Result<Vec<u64>, Memory>
    ensures { IfOk result (λ words. IsTableOf (holds (view_pred pred.now)) words.items) }
{
    match pred {
        Pred::Always => filled(alloc, true),
        Pred::Never => filled(alloc, false),
        Pred::At(mark) => repeated_table(alloc, pred, minutes_of(*mark)),
        Pred::Between(from, to) => {
            repeated_table(alloc, pred, minutes_of(*from).max(minutes_of(*to)))
        }
        Pred::Not(inner) => {
            let table = table_of(alloc, inner)?;
            turned(alloc, &table)
        }
        Pred::All(parts) => all_table(alloc, parts),
        Pred::Any(parts) => any_table(alloc, parts),
    }
}

// The table of the seconds of the week at which all of these predicates hold, the parts of an `and`.
#[cycle(table)]
fn all_table(alloc: Global, parts: &[Pred]) -> Result<Vec<u64>, Memory>
    ensures { IfOk result (λ words. IsTableOf (λ at. list_all (λ p. holds (view_pred p) at) parts.now) words.items) }
{
    let mut words = filled(alloc, true)?;
    for part in parts {
        let table = table_of(alloc, part)?;
        join(&mut words, &table, Way::Both);
    }
    Ok(words)
}

// The table of the seconds of the week at which at least one of these predicates holds, the parts of an `or`.
#[cycle(table)]
fn any_table(alloc: Global, parts: &[Pred]) -> Result<Vec<u64>, Memory>
    ensures { IfOk result (λ words. IsTableOf (λ at. list_any (λ p. holds (view_pred p) at) parts.now) words.items) }
{
    let mut words = filled(alloc, false)?;
    for part in parts {
        let table = table_of(alloc, part)?;
        join(&mut words, &table, Way::Either);
    }
    Ok(words)
}

// The complement of a table of the week: the seconds that are not in `table`.
fn turned(alloc: Global, table: &[u64]) -> Result<Vec<u64>, Memory>
    requires { IsTable table.now }
    ensures { IfOk result (λ words. IsTableOf (λ at. not (is_told table.now at)) words.items) }
{
    let mut words = filled(alloc, true)?;
    join(&mut words, table, Way::Without);
    Ok(words)
}
