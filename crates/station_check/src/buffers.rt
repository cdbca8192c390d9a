// The lines of buffers in the report of a check.
ghost use Rattle.std.specs.Prelude.{◌≡◌, ◌++◌, [], length, OnOk, slice_index_or, string_bytes};
ghost use Rattle.plan_core.specs.Plans.{IsWellFormed};
ghost use Rattle.run_records.specs.Buffers.{main_of};
ghost use Rattle.buffer_sides.specs.Sides.{AreFeeders, AreReaders};
ghost use Rattle.stations.specs.Reports.{buffer_lines, joining_line};
ghost use Rattle.stations.specs.Stations.{Station, bare};
ghost use Rattle.station_check.specs.Steps.{IsOf};

use crate::report::main_name;
use buffer_sides::{feeders, main_of, readers};
use clock_infer::{ClockMap, NodeClock};
use liq_base::Memory;
use plan_core::{BufferPlan, Plan};
use std::alloc::Global;
use std::fmt::Write;

/// Adds to a check's report a line for each buffer of a plan, in order.
pub fn push_buffers(
    alloc: Global,
    text: &mut String,
    plan: &Plan,
    clocks: &ClockMap,
) -> Result<(), Memory>
    requires { IsWellFormed plan.now }
    ensures { OnOk result ((station : Station) → IsOf plan.now clocks.now station
        → string_bytes text.new ≡ string_bytes text.old ++ buffer_lines station 0 plan.now.buffers) }
{
    let fed = feeders(alloc, plan)?;
    let read = readers(alloc, plan)?;
    push_lines(text, plan, clocks, &fed, &read)
}

// Adds to a check's report the lines of a plan's buffers, where `fed` has the node that feeds each, and `read` the one
// that reads it.
fn push_lines(
    text: &mut String,
    plan: &Plan,
    clocks: &ClockMap,
    fed: &[u32],
    read: &[u32],
) -> Result<(), Memory>
    requires many_fed { length fed.now ≡ length plan.now.buffers }
    requires many_read { length read.now ≡ length plan.now.buffers }
    requires fed { AreFeeders plan.now.sinks fed.now }
    requires read { AreReaders plan.now 0 plan.now.nodes read.now }
    ensures { OnOk result ((station : Station) → IsOf plan.now clocks.now station
        → string_bytes text.new ≡ string_bytes text.old ++ buffer_lines station 0 plan.now.buffers) }
{
    let buffers = plan.buffers.as_slice();
    let mut number = 0;
    while number < buffers.len() {
        let from = clock_name(plan, clocks, fed[number]);
        let to = clock_name(plan, clocks, read[number]);
        push_line(text, number, from, to, &buffers[number])?;
        number += 1;
    }
    Ok(())
}

// The name of the main clock to which a node belongs, also where it lies in a sub-clock of it.
fn clock_name<'a>(plan: &Plan, clocks: &'a ClockMap, node: u32) -> &'a str
    ensures { (station : Station) → IsOf plan.now clocks.now station
        → result.now ≡ slice_index_or clocks.now.names (main_of (bare station) node) [] }
{
    main_name(clocks, NodeClock::Main(main_of(plan, clocks, node)))
}

// Adds to a check's report the line of buffer `number`, fed in the main clock `from` and read in the main clock `to`.
// The line ends with the samples that the reader gathers before it plays, and the chunks that the buffer may hold.
fn push_line(
    text: &mut String,
    number: usize,
    from: &str,
    to: &str,
    plan: &BufferPlan,
) -> Result<(), Memory>
    ensures { OnOk result (string_bytes text.new ≡ string_bytes text.old
        ++ joining_line number from.now to.now plan.now) }
{
    write!(text, "buffer {number} from {from} to {to}")?;
    write!(text, " pre {} capacity {}\n", plan.pre, plan.capacity)?;
    Ok(())
}
