// The buffers of a plan, with what a trace tells of them.
ghost use Rattle.std.specs.Prelude.{◌≡◌, ◌<◌, ◌≤◌, ℕ, [], true, false, All, Some, length, map, slice_get};
ghost use Rattle.std.specs.Prelude.{slice_index_or, IfOk};
ghost use Rattle.plan_core.specs.Plans.{IsBuffer, IsWellFormed};
ghost use Rattle.stream_meaning.specs.Instants.{Setting};
ghost use Rattle.run_records.specs.Buffers.{main_of};
ghost use Rattle.trace_turns.specs.Logs.{AreNew, new_state};
ghost use Rattle.trace_records.specs.Traces.{pair_of, text_of};
ghost use Rattle.trace_records.specs.Told.{are_legal};
ghost use Rattle.trace_turns.specs.Answering.{BufferState};
ghost use Rattle.plan_core.specs.declared.sink.BufferPlan.{BufferPlan as ThePlan};
ghost use Rattle.trace_turns.specs.Turns.{AreEnds, AreSides};

use crate::ends::Ends;
use crate::flat::flatten;
use crate::station::{Sides, clock_at};
use crate::told::ToldBuffer;
use buffer_ends::BufferLog;
use buffer_sides::{feeders, main_of, readers};
use clock_infer::{ClockMap, NodeClock};
use liq_base::Memory;
use plan_core::{BufferPlan, Op, Plan};
use std::alloc::Global;
use std::collections::VecDeque;
use trace_records::are_legal;

// Makes a buffer of this capacity that answers as its log in a trace tells, before any run.
// Beside it come its `Ends`: for each window of the log, how many puts and how many takes there are up to its end.
fn told_buffer(alloc: Global, capacity: u32, log: &BufferLog) -> Result<(ToldBuffer, Ends), Memory>
    ensures buffer { IfOk result (λ r. r.0 ≡ new_state capacity (map pair_of log.now)) }
    ensures ends { IfOk result (λ r. AreEnds (map pair_of log.now) r.1) }
{
    let (puts, put_ends) = flatten(alloc, &log.windows, true)?;
    let (takes, take_ends) = flatten(alloc, &log.windows, false)?;
    let buffer = ToldBuffer {
        capacity,
        puts,
        takes,
        fed: false,
        read: false,
        put_at: 0,
        take_at: 0,
        got: 0,
        opened: 0,
        put: 0,
        gone: 0,
        held: VecDeque::new(alloc),
        spare: VecDeque::new(alloc),
    };
    Ok((
        buffer,
        Ends {
            puts: put_ends,
            takes: take_ends,
        },
    ))
}

/// Makes the buffers of a plan, each of which answers as its log in a trace tells; `logs` has one log for each plan.
/// Beside them come their `Ends`: for each window, how many puts and takes of the buffer there are up to its end.
pub fn told_buffers(
    alloc: Global,
    plans: &[BufferPlan],
    logs: &[BufferLog],
) -> Result<(Vec<ToldBuffer>, Vec<Ends>), Memory>
    requires { length logs.now ≡ length plans.now }
    ensures buffers_long { IfOk result (λ r. length r.0.items ≡ length plans.now) }
    ensures ends_long { IfOk result (λ r. length r.1.items ≡ length plans.now) }
    ensures new { IfOk result (λ r. AreNew plans.now logs.now (length plans.now) r.0.items r.1.items) }
{
    let mut buffers = Vec::new(alloc);
    let mut ends = Vec::new(alloc);
    for b in 0..plans.len() {
        buffers.reserve(1)?;
        ends.reserve(1)?;
        let (buffer, end) = told_buffer(alloc, plans[b].capacity, &logs[b])?;
        buffers.push_reserved(buffer);
        ends.push_reserved(end);
    }
    Ok((buffers, ends))
}

// The main clock to which each of these nodes belongs, in their order.
fn mains_of(
    alloc: Global,
    plan: &Plan,
    clocks: &ClockMap,
    nodes: &[u32],
) -> Result<Vec<u32>, Memory>
    ensures size { IfOk result (λ mains. length mains.items ≡ length nodes.now) }
    ensures each { IfOk result (λ mains. (setting : Setting) → setting.plan ≡ plan.now → setting.clocks ≡ clocks.now.of
        → (b : ℕ) → b < length nodes.now → slice_index_or mains.items b 0
        ≡ main_of setting (slice_index_or nodes.now b 0)) }
{
    let mut mains = Vec::new(alloc);
    for node in nodes {
        mains.push(main_of(plan, clocks, *node))?;
    }
    Ok(mains)
}

// The overlap of the crossfade that is this node, in cells; 0 for any other node.
fn overlap_of(plan: &Plan, node: u32) -> u64 {
    let Some(node) = plan.nodes.as_slice().get(node as usize) else {
        return 0;
    };
    match node.op {
        Op::Crossfade { overlap } => u64::from(overlap),
        _ => 0,
    }
}

// A bound on the cells that this node, the reader of a buffer, takes in a tick; an empty take counts as a tick.
// The walk goes up from the node through the crossfades over it to the main clock.
// For n samples of a crossfade its sub-clock runs at most 2n and twice (overlap + 1) instants: `times` and `more`.
fn reach_of(plan: &Plan, clocks: &ClockMap, node: u32) -> u64 {
    let frame = u64::from(plan.frame);
    let mut times = 1u64;
    let mut more = 0u64;
    let mut at = node;
    for _level in 0..plan.nodes.len() {
        match clock_at(clocks.of.as_slice(), at) {
            NodeClock::Main(_) => break,
            NodeClock::Sub(crossfade) => {
                let overlap = overlap_of(plan, crossfade);
                let twice = overlap.saturating_add(1).saturating_mul(2);
                more = more.saturating_add(times.saturating_mul(twice));
                times = times.saturating_mul(2);
                at = crossfade;
            }
        }
    }
    let run = times.saturating_mul(frame).saturating_add(more);
    run.saturating_mul(2)
        .saturating_add(frame.saturating_mul(3))
}

// By a buffer's number, a bound on the cells that its reader takes in a tick, with the cells of its prefill.
// `nodes` has, by a buffer's number, the node that reads it.
fn reaches_of(
    alloc: Global,
    plan: &Plan,
    clocks: &ClockMap,
    nodes: &[u32],
) -> Result<Vec<u64>, Memory> {
    let mut reaches = Vec::new(alloc);
    for b in 0..nodes.len() {
        let pre = match plan.buffers.as_slice().get(b) {
            Some(buffer) => buffer.pre,
            None => 0,
        };
        reaches.push(reach_of(plan, clocks, nodes[b]).saturating_add(pre))?;
    }
    Ok(reaches)
}

/// Finds, for each buffer of a plan, the main clocks of its feed and of its reader, and the node that reads it.
/// To these comes a bound on the cells which that node takes in a tick, with the prefill.
pub fn sides_of(alloc: Global, plan: &Plan, clocks: &ClockMap) -> Result<Sides, Memory>
    requires { IsWellFormed plan.now }
    ensures { IfOk result (λ sides. (setting : Setting) → setting.plan ≡ plan.now → setting.clocks ≡ clocks.now.of
        → AreSides setting sides.feeders.items sides.readers.items) }
{
    let fed = feeders(alloc, plan)?;
    let read = readers(alloc, plan)?;
    let feeders = mains_of(alloc, plan, clocks, &fed)?;
    let readers = mains_of(alloc, plan, clocks, &read)?;
    let reaches = reaches_of(alloc, plan, clocks, &read)?;
    Ok(Sides {
        feeders,
        readers,
        nodes: read,
        reaches,
        frame: u64::from(plan.frame),
    })
}

/// Whether each buffer's windows, as a trace tells them in `logs`, are legal: a queue of its capacity can have
/// answered so.
pub fn all_legal(plans: &[BufferPlan], logs: &[BufferLog]) -> bool
    requires buffers { All IsBuffer plans.now }
    requires many { length logs.now ≡ length plans.now }
    ensures yes { result ≡ true → (b : ℕ) (plan : ThePlan) → slice_get plans.now b ≡ Some plan
        → are_legal plan.capacity 0 (text_of logs.now b) ≡ true }
    ensures no { result ≡ false → (b : ℕ) × (plan : ThePlan) × (slice_get plans.now b ≡ Some plan)
        × (are_legal plan.capacity 0 (text_of logs.now b) ≡ false) }
{
    for b in 0..plans.len() {
        if !is_legal_log(plans[b].capacity, &logs[b]) {
            return false;
        }
    }
    true
}

// Whether the windows of a buffer, as its log tells them, are legal: a queue of this capacity can have answered so.
fn is_legal_log(capacity: u32, log: &BufferLog) -> bool
    requires { 1 ≤ capacity }
    ensures { result ≡ are_legal capacity 0 (map pair_of log.now) }
{
    are_legal(capacity, &log.windows)
}

/// Whether a trace tells of no take of a buffer whose reader's clock does not run; the clocks below `running` do.
/// `readers` has the main clock of the reader of each buffer.
pub fn unread_stay(buffers: &[ToldBuffer], readers: &[u32], running: u32) -> bool
    requires { length readers.now ≡ length buffers.now }
    ensures yes { result ≡ true → (b : ℕ) (d : BufferState) → b < length buffers.now
        → running ≤ slice_index_or readers.now b 0 → (slice_index_or buffers.now b d).takes ≡ [] }
    ensures no { result ≡ false → (b : ℕ) × (b < length buffers.now) × (running ≤ slice_index_or readers.now b 0)
        × ((d : BufferState) → (slice_index_or buffers.now b d).takes ≡ [] → ⊥) }
{
    for b in 0..buffers.len() {
        if readers[b] >= running && has_takes(&buffers[b]) {
            return false;
        }
    }
    true
}

// Whether the trace tells of some take of a buffer.
fn has_takes(buffer: &ToldBuffer) -> bool
    ensures yes { result ≡ true → buffer.now.takes ≡ [] → ⊥ }
    ensures no { result ≡ false → buffer.now.takes ≡ [] }
{
    !buffer.takes.is_empty()
}
