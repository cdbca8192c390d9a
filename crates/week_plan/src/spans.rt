// The spans of a table.
ghost use Rattle.std.specs.Prelude.{◌≡◌, ◌≤◌, [], IfOk, OnOk};
ghost use Rattle.week_plan.specs.Spans.{AreSpansOf, with_span};
ghost use Rattle.week_plan.specs.Tables.{IsTable, is_told};

use crate::Span;
use crate::stretch::{WEEK, stretch_from};
use liq_base::Memory;
use std::alloc::Global;

/// The spans of the seconds that a table of the week has: in order, each as long as it can be.
pub fn spans_of(alloc: Global, words: &[u64]) -> Result<Vec<Span>, Memory>
    requires { IsTable words.now }
    ensures { IfOk result (λ spans. AreSpansOf (is_told words.now) spans.items) }
{
    let mut spans = Vec::new(alloc);
    push_spans(&mut spans, words)?;
    Ok(spans)
}

// Appends the spans of the seconds that a table of the week has, in order, each as long as it can be.
fn push_spans(into: &mut Vec<Span>, words: &[u64]) -> Result<(), Memory>
    requires none { into.old.items ≡ [] }
    requires table { IsTable words.now }
    ensures { OnOk result (AreSpansOf (is_told words.now) into.new.items) }
{
    // Each second is told from `since` up to `at`.
    let mut since = 0;
    let mut at = 0;
    while at < WEEK {
        let here = at;
        let next = stretch_from(words, at);
        at = next.end;
        if !next.told {
            push_span(into, since, here)?;
            since = at;
        }
    }
    push_span(into, since, WEEK)?;
    Ok(())
}

// Appends the span from a second up to another, unless it is empty.
fn push_span(into: &mut Vec<Span>, from: u32, to: u32) -> Result<(), Memory>
    ensures { OnOk result (into.new.items ≡ with_span into.old.items from to) }
{
    if from < to {
        into.push(Span { from, to })?;
    }
    Ok(())
}
