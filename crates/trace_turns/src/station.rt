// What a replay runs over.
ghost use Rattle.std.specs.Prelude.{◌≡◌, length, slice_index_or, IfOk};
ghost use Rattle.stream_meaning.specs.Instants.{Setting, same_clock};
ghost use Rattle.clock_ticks.specs.Engines.{outputs_of};
ghost use Rattle.trace_turns.specs.Turns.{is_output_in, outputs_in};

use crate::turn::NoSink;
use clock_infer::{ClockMap, NodeClock};
use fixed_text::WeekSecond;
use frame_core::Library;
use liq_base::Memory;
use plan_core::{Plan, SinkPlan};
use std::alloc::Global;

/// A plan with its clocks, its files and its start second.
#[derive(Clone, Copy)]
pub struct Station<'a> {
    pub plan: &'a Plan,
    pub clocks: &'a ClockMap,
    pub library: &'a Library,
    pub start: WeekSecond,
}

/// By a buffer's number, the main clocks of its feed and of its reader, the reader's node, and how many cells the
/// reader takes in a tick at most, with its prefill. There an empty take counts as the samples of a tick, `frame`.
#[derive(Drop)]
pub struct Sides {
    pub feeders: Vec<u32>,
    pub readers: Vec<u32>,
    pub nodes: Vec<u32>,
    pub reaches: Vec<u64>,
    pub frame: u64,
}

/// The clock in which a node lies, looked up in `clocks`; main clock 0 if there is no such node.
pub fn clock_at(clocks: &[NodeClock], node: u32) -> NodeClock
    ensures { result ≡ slice_index_or clocks.now node (NodeClock.Main 0) }
{
    match clocks.get(node as usize) {
        Some(clock) => *clock,
        None => NodeClock::Main(0),
    }
}

// Whether `of`, the clock of a node, is main clock `clock`.
fn is_main(of: NodeClock, clock: u32) -> bool
    ensures { result ≡ same_clock of (NodeClock.Main clock) }
{
    match of {
        NodeClock::Main(m) => m == clock,
        NodeClock::Sub(_) => false,
    }
}

// Whether a sink of a plan is an output whose node lies in main clock `clock`.
fn is_output(sink: &SinkPlan, clocks: &[NodeClock], clock: u32) -> bool
    ensures { result ≡ is_output_in clocks.now clock sink.now }
{
    match sink {
        SinkPlan::Output { node, .. } => is_main(clock_at(clocks, *node), clock),
        SinkPlan::Feed { .. } => false,
    }
}

// Makes sinks that keep nothing, one for each output of main clock `clock` among these sinks of a plan.
// `clocks` has the clock of each node.
fn count_outputs(
    alloc: Global,
    sinks: &[SinkPlan],
    clocks: &[NodeClock],
    clock: u32,
) -> Result<Vec<NoSink>, Memory>
    ensures { IfOk result (λ outs. length outs.items ≡ outputs_in clocks.now clock sinks.now) }
{
    let mut outs = Vec::new(alloc);
    for sink in sinks {
        if !is_output(sink, clocks, clock) {
            continue;
        }
        outs.push(NoSink)?;
    }
    Ok(outs)
}

/// Makes sinks that keep nothing, one for each output of main clock `clock`: an engine needs them, and a trace is
/// judged without a file.
#[tactic(auto, using(crate::proofs::Beginning::outputs_count))]
pub fn sinks_of(
    alloc: Global,
    plan: &Plan,
    clocks: &ClockMap,
    clock: u32,
) -> Result<Vec<NoSink>, Memory>
    ensures { IfOk result (λ outs. (setting : Setting) → setting.plan ≡ plan.now → setting.clocks ≡ clocks.now.of
        → length outs.items ≡ length (outputs_of setting clock)) }
{
    count_outputs(alloc, plan.sinks.as_slice(), clocks.of.as_slice(), clock)
}
