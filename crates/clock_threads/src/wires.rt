// The wires of a plan's buffers.
ghost use Rattle.std.specs.Prelude.{◌≡◌, ◌<◌, length, slice_index_or, IfOk};
ghost use Rattle.plan_core.specs.declared.sink.BufferPlan.{BufferPlan as ThePlan};
ghost use Rattle.plan_core.specs.Plans.{IsWellFormed};
ghost use Rattle.stream_meaning.specs.Instants.{Setting};
ghost use Rattle.clock_threads.specs.Plans.{AreFirstWires, IsWireAt, over};

use buffer_sides::{feeders, main_of, readers};
use clock_infer::ClockMap;
use liq_base::Memory;
use plan_core::{BufferPlan, Plan};
use std::alloc::Global;

/// The main clock of a buffer's feed, that of its reader, and how many chunks it holds at most. If the reader's clock
/// does not run, `to` is the feed's.
#[derive(Clone, Copy, Debug, Drop)]
pub struct Wire {
    pub from: u32,
    pub to: u32,
    pub capacity: u32,
}

// The buffer with this number; the plan is known to have one.
fn buffer_at(buffers: &[BufferPlan], number: usize) -> &BufferPlan
    requires { number < length buffers.now }
    ensures { (d : ThePlan) → result.now ≡ slice_index_or buffers.now number d }
{
    &buffers[number]
}

// The wire of a buffer: the main clocks of its two ends and its capacity in chunks. Node `feed` fills the buffer, and
// node `reads` reads it. If the reader's clock does not run, `to` is the feed's clock, too.
fn wire_of(plan: &Plan, clocks: &ClockMap, feed: u32, reads: u32, buffer: &BufferPlan) -> Wire
    ensures { (other : Setting)
        → IsWireAt (over plan.now clocks.now.of other) clocks.now.running feed reads buffer.now.capacity result }
{
    let capacity = buffer.capacity;
    let from = main_of(plan, clocks, feed);
    let to = main_of(plan, clocks, reads);
    if to < clocks.running {
        return Wire { from, to, capacity };
    }
    Wire {
        from,
        to: from,
        capacity,
    }
}

// For each buffer of a plan, its wire: from which main clock it is filled, at which it is read, and its capacity. Where
// there are 2^32 buffers or more, it answers as if memory were refused.
pub(crate) fn wires_of(alloc: Global, plan: &Plan, clocks: &ClockMap) -> Result<Vec<Wire>, Memory>
    requires { IsWellFormed plan.now }
    ensures wires { IfOk result (λ wires. AreFirstWires plan.now clocks.now (length plan.now.buffers) wires.items) }
    ensures few { IfOk result (λ wires. length wires.items < 4294967296) }
{
    let buffers = plan.buffers.as_slice();
    if u32::try_from(buffers.len()).is_err() {
        return Err(Memory);
    }
    let fed = feeders(alloc, plan)?;
    let read = readers(alloc, plan)?;
    let mut wires = Vec::with_capacity(alloc, buffers.len())?;
    for b in 0..buffers.len() {
        let wire = wire_of(plan, clocks, fed[b], read[b], buffer_at(buffers, b));
        wires.push(wire)?;
    }
    Ok(wires)
}
