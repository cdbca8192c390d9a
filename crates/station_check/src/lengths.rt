// Outputs that are too long for the header of their files.
ghost use Rattle.std.specs.Prelude.{◌≡◌, ◌≤◌, IfErr, None, OnOk, is_none};
ghost use Rattle.plan_core.specs.Plans.{IsWellFormed};
ghost use Rattle.stations.specs.Findings.{first_name, is_too_long, node_kind};
ghost use Rattle.wav_io.specs.Header.{header_at};
ghost use Rattle.station_check.specs.Halts.{LengthHalts};

use crate::CheckEnd;
use crate::gaps::output_name;
use liq_base::Kind;
use liq_base::limits::MAX_RATE;
use plan_core::{Plan, SinkPlan};
use stations::StationFault;
use std::alloc::Global;
use wav_io::{header, header_wide};

/// Refuses the first output of a plan that is too long after so many ticks: the size field of its WAV header cannot
/// hold its bytes. `Ok` says that no output is.
pub fn check_lengths(alloc: Global, plan: &Plan, ticks: u64) -> Result<(), CheckEnd>
    requires plan { IsWellFormed plan.now }
    requires few { ticks ≤ 1000000000 }
    ensures short { OnOk result (first_name (is_too_long plan.now ticks) plan.now.sinks ≡ None) }
    ensures fault { IfErr result (LengthHalts plan.now ticks) }
{
    for sink in plan.sinks.as_slice() {
        if is_too_long(plan, ticks, sink) {
            let name = output_name(alloc, sink)?;
            return Err(CheckEnd::Refused(StationFault::OutputTooLong(name)));
        }
    }
    Ok(())
}

// Whether the node of this number is mono or stereo; stereo if there is none.
fn kind_at(plan: &Plan, node: u32) -> Kind
    ensures { result ≡ node_kind plan.now node }
{
    match plan.nodes.as_slice().get(node as usize) {
        Some(node) => node.kind,
        None => Kind::Stereo,
    }
}

// Whether a sink is an output that is too long for the header of its file after so many ticks.
fn is_too_long(plan: &Plan, ticks: u64, sink: &SinkPlan) -> bool
    requires plan { IsWellFormed plan.now }
    requires few { ticks ≤ 1000000000 }
    ensures { result ≡ is_too_long plan.now ticks sink.now }
{
    match sink {
        SinkPlan::Output { node, wide, .. } => {
            let kind = kind_at(plan, *node);
            has_no_header(*wide, kind, plan.rate, ticks * u64::from(plan.frame))
        }
        SinkPlan::Feed { .. } => false,
    }
}

// Whether so many samples of each channel are too many for a WAV file: its size has no room in the header.
// A sample has 24 bits if the file is `wide`, and otherwise 16; `kind` is mono or stereo.
fn has_no_header(wide: bool, kind: Kind, rate: u32, samples: u64) -> bool
    requires { rate ≤ MAX_RATE }
    ensures { result ≡ is_none (header_at wide kind rate samples) }
{
    if wide {
        header_wide(kind, rate, samples).is_none()
    } else {
        header(kind, rate, samples).is_none()
    }
}
