// The report of a rendering.
ghost use Rattle.std.specs.Prelude.{◌≡◌, ◌≤◌, ◌<◌, ◌*◌, ◌++◌, ◌^◌, IfOk, OnOk, ℕ, codes, decimal, length, string_bytes};
ghost use Rattle.run_records.specs.Records.{Run};
ghost use Rattle.stations.specs.Stations.{Station};
ghost use Rattle.stations.specs.Streams.{gaps_in_order};
ghost use Rattle.stations.specs.Reports.{counted_part, rendered_line, rendered_lines, report_of};
ghost use Rattle.station_render.specs.Renders.{written};
ghost use Rattle.station_render.specs.Runs.{IsTold, counted_lines};

use crate::Rendered;
use buffer_ends::Counts;
use liq_base::Memory;
use plan_core::{Plan, SinkPlan};
use std::alloc::{AllocError, Global};

/// The report of a rendering of so many ticks, at most 1000000000: a line for each output, in sink order, with its
/// gaps, and a line for each buffer, with its counts.
pub fn report(alloc: Global, plan: &Plan, ticks: u64, rendered: &Rendered) -> Result<String, Memory>
    requires few { ticks ≤ 1000000000 }
    requires many { length rendered.now.gaps.items ≡ length (written plan.now.sinks) }
    ensures { IfOk result (λ text. (station : Station) → (run : Run) → station.plan ≡ plan.now → station.ticks ≡ ticks
        → IsTold station run rendered.now
        → string_bytes text ≡ report_of station run) }
{
    let mut text = output_lines(alloc, plan, ticks, &rendered.gaps)?;
    push_buffers(alloc, &mut text, &rendered.counts)?;
    Ok(text)
}

// The report's lines on the outputs, in sink order. `gaps` has for each at how many instants it was given nothing.
fn output_lines(alloc: Global, plan: &Plan, ticks: u64, gaps: &[u64]) -> Result<String, Memory>
    requires few { ticks ≤ 1000000000 }
    requires many { length gaps.now ≡ length (written plan.now.sinks) }
    ensures { IfOk result (λ text. (station : Station) → (run : Run) → station.plan ≡ plan.now → station.ticks ≡ ticks
        → gaps.now ≡ gaps_in_order station run
        → string_bytes text ≡ rendered_lines station run plan.now.sinks) }
{
    let samples = ticks * u64::from(plan.frame);
    let mut text = String::new(alloc);
    let mut place = 0;
    for sink in plan.sinks.as_slice() {
        let SinkPlan::Output { name, .. } = sink else {
            continue;
        };
        push_line(alloc, &mut text, name.as_str(), samples, gaps[place])?;
        place += 1;
    }
    Ok(text)
}

// Appends a report's line on an output: its name, its samples on each side, and its gaps.
fn push_line(
    alloc: Global,
    text: &mut String,
    name: &str,
    samples: u64,
    gaps: u64,
) -> Result<(), AllocError>
    ensures { OnOk result (string_bytes text.new ≡ string_bytes text.old ++ rendered_line name.now samples gaps) }
{
    push_counts(alloc, text, name, samples, gaps)?;
    text.push_str("\n")
}

/// Appends a report's line on an output without the end of the line: its name, its samples on each side, and its
/// gaps.
pub fn push_counts(
    alloc: Global,
    text: &mut String,
    name: &str,
    samples: u64,
    gaps: u64,
) -> Result<(), AllocError>
    ensures { OnOk result (string_bytes text.new ≡ string_bytes text.old ++ counted_part name.now samples gaps) }
{
    text.push_str("output ")?;
    text.push_str(name)?;
    text.push_str(" samples ")?;
    text.push_str(&samples.to_string(alloc)?)?;
    text.push_str(" gaps ")?;
    text.push_str(&gaps.to_string(alloc)?)
}

// Appends a report's line for each buffer: how often its puts and its takes succeeded and failed.
fn push_buffers(alloc: Global, text: &mut String, counts: &[Counts]) -> Result<(), AllocError>
    ensures { OnOk result (string_bytes text.new ≡ string_bytes text.old ++ counted_lines 0 counts.now) }
{
    for buffer in 0..counts.len() {
        let one = &counts[buffer];
        push_puts(alloc, text, buffer, one)?;
        push_takes(alloc, text, one)?;
    }
    Ok(())
}

// Appends the first half of a report's line on a buffer: its number, and how its puts were answered.
fn push_puts(
    alloc: Global,
    text: &mut String,
    buffer: usize,
    counts: &Counts,
) -> Result<(), AllocError>
    ensures { OnOk result (string_bytes text.new ≡ string_bytes text.old
        ++ (codes "buffer " ++ decimal buffer ++ codes " accepted " ++ decimal counts.now.accepted ++ codes " full "
        ++ decimal counts.now.full)) }
{
    text.push_str("buffer ")?;
    text.push_str(&buffer.to_string(alloc)?)?;
    text.push_str(" accepted ")?;
    text.push_str(&counts.accepted.to_string(alloc)?)?;
    text.push_str(" full ")?;
    text.push_str(&counts.full.to_string(alloc)?)
}

// Appends the second half of a report's line on a buffer: how its takes were answered.
fn push_takes(alloc: Global, text: &mut String, counts: &Counts) -> Result<(), AllocError>
    ensures { OnOk result (string_bytes text.new ≡ string_bytes text.old
        ++ (codes " got " ++ decimal counts.now.got ++ codes " empty " ++ decimal counts.now.empty ++ codes "\n")) }
{
    text.push_str(" got ")?;
    text.push_str(&counts.got.to_string(alloc)?)?;
    text.push_str(" empty ")?;
    text.push_str(&counts.empty.to_string(alloc)?)?;
    text.push_str("\n")
}
