// Outputs that need an infallible source.
ghost use Rattle.std.specs.Prelude.{◌≡◌, IfOk, IfErr, OnOk};
ghost use Rattle.plan_core.specs.Plans.{IsWellFormed};
ghost use Rattle.stations.specs.Findings.{sink_name};
ghost use Rattle.station_check.specs.Steps.{IsUngapped};
ghost use Rattle.station_check.specs.Halts.{GapHalts};

use crate::CheckEnd;
use fallible_infer::{check_outputs, infallible};
use liq_base::{Memory, Text};
use plan_core::{Plan, SinkPlan};
use stations::StationFault;
use std::alloc::Global;

/// A copy of the name of an output, for a refusal; empty for a feed of a buffer, which has none.
pub fn output_name(alloc: Global, sink: &SinkPlan) -> Result<Text, Memory>
    ensures { IfOk result (λ name. name ≡ sink_name sink.now) }
{
    match sink {
        SinkPlan::Output { name, .. } => name.copy(alloc),
        SinkPlan::Feed { .. } => Text::from_str(alloc, ""),
    }
}

/// Refuses the first output of a plan that may have gaps though the script does not allow it.
/// Such an output needs an infallible source, one that offers a cell at each instant, and has none.
pub fn check_gaps(alloc: Global, plan: &Plan) -> Result<(), CheckEnd>
    requires { IsWellFormed plan.now }
    ensures safe { OnOk result (IsUngapped plan.now) }
    ensures fault { IfErr result (GapHalts plan.now) }
{
    let marks = infallible(alloc, plan)?;
    if let Err(fault) = check_outputs(plan, &marks) {
        let name = output_name(alloc, &plan.sinks.as_slice()[fault.sink as usize])?;
        return Err(CheckEnd::Refused(StationFault::FallibleOutput(name)));
    }
    Ok(())
}
