// Plans of many nodes.
ghost use Rattle.std.specs.Prelude.{◌≡◌, ◌<◌, ◌≤◌, ◌+◌, [], false, length, IfOk, OnOk};
ghost use Rattle.liq_base.specs.declared.limits.TheConstants.{MIN_RATE, MAX_RATE, MAX_FRAME};
ghost use Rattle.plan_core.specs.Plans.{IsWellFormed, with_output};
ghost use Rattle.plan_samples.specs.Stereos.{IsStereo};

use crate::nodes::{push_amplified, push_blank, push_crossfade, push_sum};
use liq_base::{Memory, Text};
use plan_core::{Draft, Plan, PlanFault, laws};
use std::alloc::Global;

/// A stereo plan of so many nodes: a blank, and nodes that amplify it by 1. With `chained` each stands over the one
/// before it, and otherwise all stand over the blank. An output writes the blank. `TooManySources` comes for more than
/// 4096 nodes.
pub fn plan_over(alloc: Global, count: u32, chained: bool) -> Result<Plan, PlanFault>
    ensures well_formed { IfOk result IsWellFormed }
{
    let mut draft = begun(alloc);
    push_blank(alloc, &mut draft)?;
    for number in 1..count {
        let child = if chained { number - 1 } else { 0 };
        push_amplified(alloc, &mut draft, child)?;
    }
    write(alloc, &mut draft, 0)?;
    Ok(draft.into_plan())
}

/// A stereo plan of so many crossfades, at least one, each in the sub-clock of the one before it: nodes 0 and 1 are a
/// blank and its crossfade, which an output writes, and nodes 3n - 1, 3n and 3n + 1 are another blank, its crossfade,
/// and the sum of that crossfade and of the blank before, which nobody uses. `TooManySources` comes for more than 1365
/// crossfades.
pub fn plan_of_nested_crossfades(alloc: Global, count: u32) -> Result<Plan, PlanFault>
    ensures well_formed { IfOk result IsWellFormed }
{
    let mut draft = begun(alloc);
    let mut blank = push_blank(alloc, &mut draft)?;
    push_crossfade(alloc, &mut draft, blank)?;
    for _ in 1..count {
        blank = push_nested(alloc, &mut draft, blank)?;
    }
    write(alloc, &mut draft, 1)?;
    Ok(draft.into_plan())
}

// A plan in the making without nodes, at 44100 samples a second in ticks of 1764.
fn begun(alloc: Global) -> Draft
    ensures stereo { IsStereo result }
    ensures nodes { result.nodes ≡ [] }
{
    begun_at(alloc, 44_100, 1764)
}

// A plan in the making without nodes, at so many samples a second in ticks of `frame` samples. The call of a law does
// nothing: it serves the contract.
pub(crate) fn begun_at(alloc: Global, rate: u32, frame: u32) -> Draft
    requires rate { (MIN_RATE ≤ rate) × (rate ≤ MAX_RATE) }
    requires frame { (1 ≤ frame) × (frame ≤ MAX_FRAME) }
    ensures stereo { IsStereo result }
    ensures empty { result ≡ record { rate = rate; frame = frame; nodes = []; sinks = []; buffers = [] } }
{
    laws::an_empty_plan_is_well_formed();
    Draft::new(alloc, rate, frame)
}

// Adds an output of this node, without a name, to a plan in the making. No bytes are written here.
pub(crate) fn write(alloc: Global, draft: &mut Draft, node: u32) -> Result<(), Memory>
    requires well_formed { IsWellFormed draft.old }
    requires node { node < length draft.old.nodes }
    ensures well_formed { OnOk result (IsWellFormed draft.new) }
    ensures nodes { OnOk result (draft.new.nodes ≡ draft.old.nodes) }
    ensures added { OnOk result (draft.new ≡ with_output draft.old [] node false false) }
{
    draft.push_output(Text::from_string(String::new(alloc)), node, false, false)?;
    Ok(())
}

// Adds a blank, a crossfade of it, and the sum of that crossfade and of node `outer`, which nobody uses. Answers the
// blank.
fn push_nested(alloc: Global, draft: &mut Draft, outer: u32) -> Result<u32, PlanFault>
    requires stereo { IsStereo draft.old }
    requires outer { outer < length draft.old.nodes }
    ensures stereo { OnOk result (IsStereo draft.new) }
    ensures inner { IfOk result (λ inner. inner < length draft.new.nodes) }
    ensures size { OnOk result (length draft.new.nodes ≡ length draft.old.nodes + 3) }
{
    let inner = push_blank(alloc, draft)?;
    let crossfade = push_crossfade(alloc, draft, inner)?;
    push_sum(alloc, draft, crossfade, outer)?;
    Ok(inner)
}
