// The summary that is printed of a rendered workload.
ghost use Rattle.std.specs.Prelude.{◌≡◌, ◌≤◌, ◌++◌, IfOk, OnOk, length, string_bytes};
ghost use Rattle.run_records.specs.Records.{Run};
ghost use Rattle.stations.specs.Stations.{Station};
ghost use Rattle.stations.specs.Streams.{gaps_in_order};
ghost use Rattle.station_render.specs.Renders.{written};
ghost use Rattle.station_jobs.specs.Summary.{sum_at, sum_part, summed_lines};

use crate::samples::sum_at;
use liq_base::{Memory, SureShelf};
use plan_core::{Plan, SinkPlan};
use station_render::push_counts;
use std::alloc::Global;

/// The summary of a workload that was rendered for so many ticks, at most 1000000000, into this shelf: a line for each
/// output, in the order of the sinks, with its samples, its gaps and the sum of its samples. `gaps` has the gaps of
/// each output, in that order.
pub fn summary(
    alloc: Global,
    plan: &Plan,
    ticks: u64,
    gaps: &[u64],
    shelf: &SureShelf,
) -> Result<String, Memory>
    requires few { ticks ≤ 1000000000 }
    requires many { length gaps.now ≡ length (written plan.now.sinks) }
    ensures { IfOk result (λ text. (station : Station) → (run : Run) → station.plan ≡ plan.now → station.ticks ≡ ticks
        → gaps.now ≡ gaps_in_order station run
        → string_bytes text ≡ summed_lines station run shelf.now plan.now.sinks) }
{
    let samples = ticks * u64::from(plan.frame);
    let mut text = String::new(alloc);
    let mut place = 0;
    for sink in plan.sinks.as_slice() {
        let SinkPlan::Output { name, .. } = sink else {
            continue;
        };
        let name = name.as_str();
        push_counts(alloc, &mut text, name, samples, gaps[place])?;
        push_sum(alloc, &mut text, shelf, name)?;
        place += 1;
    }
    Ok(text)
}

// Appends to the summary the last part of an output's line: ` sum `, the sum of the samples in the file of this name,
// and a line feed.
fn push_sum(alloc: Global, text: &mut String, shelf: &SureShelf, name: &str) -> Result<(), Memory>
    ensures { OnOk result (string_bytes text.new ≡ string_bytes text.old ++ sum_part (sum_at shelf.now name.now)) }
{
    let sum = sum_at(alloc, shelf, name)?;
    text.push_str(" sum ")?;
    text.push_str(&sum.to_string(alloc)?)?;
    text.push_str("\n")?;
    Ok(())
}
