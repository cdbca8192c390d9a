// The report of a check.
ghost use Rattle.std.specs.Prelude.{◌≡◌, ◌++◌, ℕ, Bool, codes, IfOk, OnOk, string_bytes};
ghost use Rattle.plan_core.specs.Plans.{IsWellFormed};
ghost use Rattle.fallible_infer.specs.Infallible.{IsMarking, mark_at};
ghost use Rattle.stations.specs.Reports.{check_report_of, clock_name, fallible_word, main_name};
ghost use Rattle.stations.specs.Stations.{Station};
ghost use Rattle.station_check.specs.Steps.{sink_line};

use crate::buffers::push_buffers;
use clock_infer::{ClockMap, NodeClock};
use fallible_infer::infallible;
use liq_base::Memory;
use plan_core::{Plan, SinkPlan};
use std::alloc::Global;

/// Makes the report of a check. First comes a line for each output: its clock, and whether its source is infallible,
/// that is, never silent. Then comes a line for each buffer: the main clocks of its feed and of its reader, the samples
/// that it gathers before it plays, and the chunks that it may hold.
pub fn check_report(alloc: Global, plan: &Plan, clocks: &ClockMap) -> Result<String, Memory>
    requires { IsWellFormed plan.now }
    ensures { IfOk result (λ text. (mark : ℕ → Bool) × IsMarking plan.now.nodes mark
        × ((station : Station) → station.plan ≡ plan.now → station.clocks ≡ clocks.now
        → string_bytes text ≡ check_report_of station mark)) }
{
    let marks = infallible(alloc, plan)?;
    let mut text = String::new(alloc);
    for sink in plan.sinks.as_slice() {
        push_sink(alloc, &mut text, clocks, &marks, sink)?;
    }
    push_buffers(alloc, &mut text, plan, clocks)?;
    Ok(text)
}

// Adds to a check's report the line of a sink, if it is an output; `marks` says which nodes are infallible.
fn push_sink(
    alloc: Global,
    text: &mut String,
    clocks: &ClockMap,
    marks: &[bool],
    sink: &SinkPlan,
) -> Result<(), Memory>
    ensures { OnOk result (string_bytes text.new ≡ string_bytes text.old
        ++ sink_line clocks.now (mark_at marks.now) sink.now) }
{
    if let SinkPlan::Output { name, node, .. } = sink {
        let infallible = marks.get(*node as usize).copied().unwrap_or(false);
        let line = output_line(alloc, name.as_str(), clock_name(clocks, *node), infallible)?;
        text.push_str(&line)?;
    }
    Ok(())
}

// The line of a check's report for the output of this name: the clock of its source, and whether that is infallible.
fn output_line(alloc: Global, name: &str, clock: &str, infallible: bool) -> Result<String, Memory>
    ensures { IfOk result (λ line. string_bytes line
        ≡ codes "output " ++ name.now ++ codes " clock " ++ clock.now ++ codes " " ++ fallible_word infallible
        ++ codes "\n") }
{
    let word = fallible_word(infallible);
    Ok(format!(in alloc; "output {name} clock {clock} {word}\n")?)
}

// The word in a report for a source that always has a cell, or does not.
fn fallible_word(infallible: bool) -> &'static str
    ensures { result.now ≡ fallible_word infallible }
{
    if infallible { "infallible" } else { "fallible" }
}

// The name of the main clock of a node; empty if it lies in a sub-clock. A node that is not there counts as one of main
// clock 0.
fn clock_name(clocks: &ClockMap, node: u32) -> &str
    ensures { result.now ≡ clock_name clocks.now node }
{
    let clock = clocks.of.as_slice().get(node as usize).copied();
    main_name(clocks, clock.unwrap_or(NodeClock::Main(0)))
}

/// The name of a main clock; empty for a sub-clock, which has none.
pub fn main_name(clocks: &ClockMap, clock: NodeClock) -> &str
    ensures { result.now ≡ main_name clocks.now.names clock }
{
    match clock {
        NodeClock::Main(number) => match clocks.names.as_slice().get(number as usize) {
            Some(name) => name.as_str(),
            None => "",
        },
        NodeClock::Sub(_) => "",
    }
}
