// The hours of the switches of a plan.
ghost use Rattle.std.specs.Prelude.{◌≡◌, ◌≤◌, ◌^◌, ◌+◌, ◌∷◌, [], IfOk, OnOk, codes, length, map, min};
ghost use Rattle.json.specs.Token.{begin_array, key};
ghost use Rattle.station_facts.specs.Hours.{AreHours, cases_in, cases_to, hours_object, most_spans, source_hours};
ghost use Rattle.station_facts.specs.Hours.{span_list, spans_member, switch_object, switch_of, switches_from};
ghost use Rattle.station_facts.specs.Hours.{switches_object, week_object};
ghost use Rattle.station_facts.specs.Members.{Adds, each, list_member};
ghost use Rattle.time_pred.specs.View.{view_shared};
ghost use Rattle.week_windows.specs.Known.{IsKnown};
ghost use Rattle.week_windows.specs.Windows.{case_spans, hole_spans, spans_in};

use crate::members::{Out, begin, begin_list, end, end_list, push_count, push_number};
use json::Writer;
use liq_base::Memory;
use plan_core::{Node, Op, Plan};
use std::alloc::Global;
use time_pred::SharedPred;
use week_plan::Span;
use week_windows::{Known, hours_again, known_holes, unknown};

/// How many spans are told in all, at most.
const MOST_OF_ALL: u64 = 100_000;

/// How many spans are told of a case, at most.
const MOST_OF_CASE: u64 = 2000;

/// Tells, as one object of JSON, when in the week each case of each switch of a plan is the first that holds, and when
/// none holds. `ats` has the byte of the script at which the call of each source begins.
pub fn tell_hours(alloc: Global, plan: &Plan, ats: &[usize]) -> Result<Vec<u8>, Memory>
    requires { length ats.now ≡ length plan.now.nodes }
    ensures { IfOk result (λ told. AreHours plan.now ats.now told.items) }
{
    let mut out = Writer::new(Vec::new(alloc));
    push_week(alloc, &mut out, plan, ats)?;
    Ok(out.into_inner())
}

// Writes the whole JSON object of the hours of a plan: when in the week each case of its switches holds.
fn push_week(alloc: Global, out: &mut Out, plan: &Plan, ats: &[usize]) -> Result<(), Memory>
    ensures { OnOk result (Adds out.old out.new (week_object plan.now ats.now)) }
{
    let nodes = plan.nodes.as_slice();
    let mut known = unknown(alloc)?;
    push_switches(alloc, out, nodes, ats, most_spans(nodes), &mut known)?;
    Ok(())
}

// Writes the JSON object of the switches among these sources; `ats` has the byte at which the call of each begins.
// Of a case with more than `most` spans of the week only their number is told.
// `known` keeps the hours of the switches before, since the next one may have the same cases.
fn push_switches<'a>(
    alloc: Global,
    out: &mut Out,
    nodes: &'a [Node],
    ats: &[usize],
    most: u64,
    known: &mut Known<'a>,
) -> Result<(), Memory>
    requires { IsKnown known.old }
    ensures { OnOk result (Adds out.old out.new (switches_object most nodes.now ats.now)) }
{
    begin(out)?;
    push_number(out, "most", most)?;
    begin_list(out, "switches")?;
    push_each_switch(alloc, out, nodes, ats, most, known)?;
    end_list(out)?;
    end(out)?;
    Ok(())
}

// How many spans are told of a case at most: 2000, or, if there are many cases, so few that all of them have no more
// than 100,000.
fn most_spans(nodes: &[Node]) -> u64
    ensures { result ≡ most_spans nodes.now }
{
    let share = MOST_OF_ALL / all_cases(nodes).max(1);
    share.min(MOST_OF_CASE)
}

// How many cases these sources have, with one for the hours of each switch at which none holds.
// Where they are more than 100,000, it is 100,001: then no span is told, and more need not be known.
fn all_cases(nodes: &[Node]) -> u64
    ensures { result ≡ cases_to 0 nodes.now }
{
    let mut all = 0;
    for node in nodes {
        all = more_cases(all, &node.op);
    }
    all
}

// How many cases this source and others with `all` cases have. Where they are more than 100,000, it is 100,001, so that
// the sum cannot overflow.
fn more_cases(all: u64, op: &Op) -> u64
    requires { all ≤ 100001 }
    ensures is { result ≡ min (all + cases_in op.now) 100001 }
    ensures most { result ≤ 100001 }
{
    (all + cases_in(op)).min(MOST_OF_ALL + 1)
}

// How many cases a switch has, and one more for the seconds at which none holds; 0 of another source.
fn cases_in(op: &Op) -> u64
    ensures is { result ≡ cases_in op.now }
    ensures small { result ≤ 2 ^ 63 }
{
    match op {
        Op::Switch { preds, .. } => preds.as_slice().len() as u64 + 1,
        _ => 0,
    }
}

// Writes the object of each switch among these sources, and passes over all others.
// `ats` has the byte at which the call of each source begins; at most `most` spans are told of a case.
// The hours of the last switches are kept in `known`, since the next one may have the same cases.
fn push_each_switch<'a>(
    alloc: Global,
    out: &mut Out,
    nodes: &'a [Node],
    ats: &[usize],
    most: u64,
    known: &mut Known<'a>,
) -> Result<(), Memory>
    requires { IsKnown known.old }
    ensures { OnOk result (Adds out.old out.new (switches_from most 0 nodes.now ats.now)) }
{
    for (k, node) in nodes.iter().enumerate() {
        let Some(at) = ats.get(k) else {
            return Ok(());
        };
        push_source(alloc, out, &node.op, k, *at, most, known)?;
    }
    Ok(())
}

// Writes the object of source `number` if it is a switch, and otherwise nothing; its call begins at byte `at`.
// At most `most` spans are told of a case; `known` keeps the hours of the last switches for the next one.
fn push_source<'a>(
    alloc: Global,
    out: &mut Out,
    op: &'a Op,
    number: usize,
    at: usize,
    most: u64,
    known: &mut Known<'a>,
) -> Result<(), Memory>
    requires { IsKnown known.old }
    ensures known { OnOk result (IsKnown known.new) }
    ensures told { OnOk result (Adds out.old out.new (source_hours most number op.now at)) }
{
    match op {
        Op::Switch { preds, .. } => {
            push_switch(alloc, out, preds.as_slice(), number, at, most, known)
        }
        _ => Ok(()),
    }
}

// Finds the hours of switch `number` from the predicates of its cases, and writes its object; its call begins at byte
// `at`, and at most `most` spans are told of a case. The hours stay in `known`, and are not found anew for equal cases.
fn push_switch<'a>(
    alloc: Global,
    out: &mut Out,
    preds: &'a [SharedPred],
    number: usize,
    at: usize,
    most: u64,
    known: &mut Known<'a>,
) -> Result<(), Memory>
    requires { IsKnown known.old }
    ensures known { OnOk result (IsKnown known.new) }
    ensures told { OnOk result (Adds out.old out.new (switch_object most number (map view_shared preds.now) at)) }
{
    hours_again(alloc, known, preds)?;
    let none = known_holes(alloc, known)?;
    push_hours(out, &known.hours.cases, &none, number, at, most)?;
    Ok(())
}

// Writes the object of switch `number`, whose call begins at byte `at` of the script.
// `cases` has the spans of the week of each case, and `none` those at which no case holds.
// Of a case with more than `most` spans only their number is told.
fn push_hours(
    out: &mut Out,
    cases: &[Vec<Span>],
    none: &[Span],
    number: usize,
    at: usize,
    most: u64,
) -> Result<(), Memory>
    ensures { OnOk result (Adds out.old out.new (switch_of most number (map spans_in cases.now) none.now at)) }
{
    begin(out)?;
    push_number(out, "source", number as u64)?;
    push_number(out, "at", at as u64)?;
    push_cases(out, cases, most)?;
    push_none(out, none, most)?;
    end(out)?;
    Ok(())
}

// Writes the member `cases` of a switch, a list with the spans of each case, unless these are more than `most`.
fn push_cases(out: &mut Out, cases: &[Vec<Span>], most: u64) -> Result<(), Memory>
    ensures { OnOk result (Adds out.old out.new
        (list_member (codes "cases") (hours_object most) (map spans_in cases.now))) }
{
    begin_list(out, "cases")?;
    push_each_case(out, cases, most)?;
    end_list(out)
}

// Writes the object of each case of a switch, one after another: its spans of the week, unless more than `most`.
fn push_each_case(out: &mut Out, cases: &[Vec<Span>], most: u64) -> Result<(), Memory>
    ensures { OnOk result (Adds out.old out.new (each (hours_object most) (map spans_in cases.now))) }
{
    for spans in cases {
        push_spans(out, spans, most)?;
    }
    Ok(())
}

// Writes the member `none` of a switch, the spans at which no case holds, unless these are more than `most`.
fn push_none(out: &mut Out, spans: &[Span], most: u64) -> Result<(), Memory>
    ensures { OnOk result (Adds out.old out.new (key (codes "none") ∷ hours_object most spans.now)) }
{
    push_key(out, "none")?;
    push_spans(out, spans, most)?;
    Ok(())
}

// Writes the name of a member of a JSON object; its value is to follow.
fn push_key(out: &mut Out, name: &str) -> Result<(), Memory>
    ensures { OnOk result (Adds out.old out.new (key name.now ∷ [])) }
{
    out.key(name)?;
    Ok(())
}

// Writes the JSON object of a case: how many spans of the week it has, and these, unless they are more than `most`.
fn push_spans(out: &mut Out, spans: &[Span], most: u64) -> Result<(), Memory>
    ensures { OnOk result (Adds out.old out.new (hours_object most spans.now)) }
{
    begin(out)?;
    push_number(out, "count", spans.len() as u64)?;
    push_told(out, spans, most)?;
    end(out)
}

// Writes the member `spans` of a case, the list of them; nothing if they are more than `most`.
fn push_told(out: &mut Out, spans: &[Span], most: u64) -> Result<(), Memory>
    ensures { OnOk result (Adds out.old out.new (spans_member most spans.now)) }
{
    if spans.len() as u64 > most {
        return Ok(());
    }
    begin_list(out, "spans")?;
    push_each_span(out, spans)?;
    end_list(out)
}

// Writes each span of the week, as an item of a list.
fn push_each_span(out: &mut Out, spans: &[Span]) -> Result<(), Memory>
    ensures { OnOk result (Adds out.old out.new (each span_list spans.now)) }
{
    for span in spans {
        push_span(out, *span)?;
    }
    Ok(())
}

// Writes a span of the week as a list of two: its first second, and the second after its last one.
fn push_span(out: &mut Out, span: Span) -> Result<(), Memory>
    ensures { OnOk result (Adds out.old out.new (span_list span)) }
{
    begin_pair(out)?;
    push_count(out, u64::from(span.from))?;
    push_count(out, u64::from(span.to))?;
    end_list(out)
}

// Writes the start of a JSON list which is an item of another list, for the two seconds of a span.
fn begin_pair(out: &mut Out) -> Result<(), Memory>
    ensures { OnOk result (Adds out.old out.new (begin_array ∷ [])) }
{
    out.begin_array()?;
    Ok(())
}
