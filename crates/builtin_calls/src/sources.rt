// The sources that a call's arguments give its parameters.
ghost use Rattle.std.specs.Prelude.{◌≡◌, ◌<◌, All, IfOk, length, map, slice_get, []};
ghost use Rattle.time_pred.specs.View.{view_shared};
ghost use Rattle.script_values.specs.Gives.{Gives};
ghost use Rattle.script_values.specs.View.{view_value};
ghost use Rattle.script_values.specs.Views.{view_given};
ghost use Rattle.script_values.specs.Values.{many};
ghost use Rattle.builtin_calls.specs.Parts.{is_kind, nodes_from, of_kind, pair_in, case_of, pairs_from, pairs_of};
ghost use Rattle.builtin_calls.specs.Parts.{plain_pairs, plain_source, plain_sources, pred_of, source_of, sources_of};

use crate::parts::plain;
use liq_base::Kind;
use plan_core::Draft;
use script_values::{Given, Stop, Value};
use std::alloc::Global;
use time_pred::SharedPred;

/// The sources of a `switch`, and the predicate of each.
#[derive(Drop)]
pub(crate) struct Pairs {
    pub(crate) preds: Vec<SharedPred>,
    pub(crate) sources: Vec<u32>,
}

/// Takes the first argument without a label, a source of this kind, and gives the number of its node. None, or a value
/// that is no such source, is stuck, for typing refuses it. `plan` tells the kind of each node.
#[tactic(auto, unfolding(crate::specs::Parts::plain_source))]
pub(crate) fn plain_source(plan: &Draft, kind: Kind, given: &mut Vec<Given>) -> Result<u32, Stop>
    ensures given { Gives (λ n. (n, map view_given given.new.items)) result
        (plain_source plan.now.nodes kind (map view_given given.old.items)) }
    ensures there { IfOk result (λ n. n < length plan.now.nodes) }
{
    let value = plain(given)?;
    let source = as_source(plan, kind, value)?;
    Ok(source)
}

/// Takes the first argument without a label, a list of sources of this kind, and gives the numbers of their nodes.
/// Anything else is stuck, for typing refuses it. `plan` tells the kind of each node.
#[tactic(auto, unfolding(crate::specs::Parts::plain_sources))]
pub(crate) fn plain_sources(
    alloc: Global,
    plan: &Draft,
    kind: Kind,
    given: &mut Vec<Given>,
) -> Result<Vec<u32>, Stop>
    ensures given { Gives (λ ns. (ns.items, map view_given given.new.items)) result
        (plain_sources plan.now.nodes kind (map view_given given.old.items)) }
    ensures there { IfOk result (λ ns. All (λ n. n < length plan.now.nodes) ns.items) }
{
    let value = plain(given)?;
    let sources = as_sources(alloc, plan, kind, value)?;
    Ok(sources)
}

/// Takes the first argument without a label, the cases of a `switch`, and gives their predicates of time and the nodes
/// of their sources, which are of this kind. Anything else is stuck, for typing refuses it. `plan` tells the kind of
/// each node.
#[tactic(auto, unfolding(crate::specs::Parts::plain_pairs))]
pub(crate) fn plain_pairs(
    alloc: Global,
    plan: &Draft,
    kind: Kind,
    given: &mut Vec<Given>,
) -> Result<Pairs, Stop>
    ensures given { Gives (λ ps. ((map view_shared ps.preds.items, ps.sources.items), map view_given given.new.items))
        result (plain_pairs plan.now.nodes kind (map view_given given.old.items)) }
    ensures there { IfOk result (λ ps. All (λ n. n < length plan.now.nodes) ps.sources.items) }
{
    let value = plain(given)?;
    let pairs = as_pairs(alloc, plan, kind, value)?;
    Ok(pairs)
}

// The number of the node of a value that is a source of this kind. The value is dropped. Any other value is stuck.
fn as_source(plan: &Draft, kind: Kind, value: Value) -> Result<u32, Stop>
    ensures given { Gives (λ n. n) result (source_of plan.now.nodes kind (view_value value)) }
    ensures there { IfOk result (λ n. n < length plan.now.nodes) }
{
    source_of(plan, kind, &value)
}

/// The numbers of the nodes of a value that is a list of sources of this kind. The value is dropped. Any other value is
/// stuck.
fn as_sources(alloc: Global, plan: &Draft, kind: Kind, value: Value) -> Result<Vec<u32>, Stop>
    ensures given { Gives (λ ns. ns.items) result (sources_of plan.now.nodes kind (view_value value)) }
    ensures there { IfOk result (λ ns. All (λ n. n < length plan.now.nodes) ns.items) }
{
    sources_of(alloc, plan, kind, &value)
}

/// The cases of a `switch` from a value that is a list of tuples, with sources of this kind. The value is dropped. Any
/// other value is stuck.
fn as_pairs(alloc: Global, plan: &Draft, kind: Kind, value: Value) -> Result<Pairs, Stop>
    ensures given { Gives (λ ps. (map view_shared ps.preds.items, ps.sources.items)) result
        (pairs_of plan.now.nodes kind (view_value value)) }
    ensures there { IfOk result (λ ps. All (λ n. n < length plan.now.nodes) ps.sources.items) }
{
    pairs_of(alloc, plan, kind, &value)
}

/// Whether two kinds, each mono or stereo, are the same.
fn is_kind(wanted: Kind, kind: Kind) -> bool
    ensures { result ≡ is_kind wanted kind }
{
    match (wanted, kind) {
        (Kind::Mono, Kind::Mono) => true,
        (Kind::Mono, Kind::Stereo) => false,
        (Kind::Stereo, Kind::Mono) => false,
        (Kind::Stereo, Kind::Stereo) => true,
    }
}

// The number of the node of a value that is a source of this kind. Another value is stuck: typing refuses such a call.
#[tactic(auto, unfolding(crate::specs::Parts::source_of))]
fn source_of(plan: &Draft, kind: Kind, value: &Value) -> Result<u32, Stop>
    ensures given { Gives (λ n. n) result (source_of plan.now.nodes kind (view_value value.now)) }
    ensures there { IfOk result (λ n. n < length plan.now.nodes) }
{
    match value {
        Value::Source(number) => of_kind(plan, kind, *number),
        _ => Err(Stop::Stuck),
    }
}

/// Checks that the node of this number is in the plan and of this kind, and gives the number. What fails is stuck:
/// typing refuses it.
fn of_kind(plan: &Draft, kind: Kind, number: u32) -> Result<u32, Stop>
    ensures given { Gives (λ n. n) result (of_kind kind number (slice_get plan.now.nodes number)) }
    ensures there { IfOk result (λ n. n < length plan.now.nodes) }
{
    match plan.plan().nodes.as_slice().get(number as usize) {
        None => Err(Stop::Stuck),
        Some(node) => {
            if is_kind(kind, node.kind) {
                Ok(number)
            } else {
                Err(Stop::Stuck)
            }
        }
    }
}

// The numbers of the nodes of a value that is a list of sources of this kind. Another value is stuck: typing refuses
// such a call.
#[tactic(auto, unfolding(crate::specs::Parts::sources_of))]
fn sources_of(alloc: Global, plan: &Draft, kind: Kind, value: &Value) -> Result<Vec<u32>, Stop>
    ensures given { Gives (λ ns. ns.items) result (sources_of plan.now.nodes kind (view_value value.now)) }
    ensures there { IfOk result (λ ns. All (λ n. n < length plan.now.nodes) ns.items) }
{
    match value {
        Value::Listed(parts) => sources_in(alloc, plan, kind, parts),
        _ => Err(Stop::Stuck),
    }
}

/// The numbers of the nodes of these values, each of which is a source of this kind. One that is none is stuck, for
/// typing refuses it.
fn sources_in(alloc: Global, plan: &Draft, kind: Kind, parts: &[Value]) -> Result<Vec<u32>, Stop>
    ensures given { Gives (λ ns. ns.items) result
        (nodes_from plan.now.nodes kind (many (map view_value parts.now)) []) }
    ensures there { IfOk result (λ ns. All (λ n. n < length plan.now.nodes) ns.items) }
{
    let mut sources = Vec::new(alloc);
    for part in parts {
        let source = source_of(plan, kind, part)?;
        sources.push(source)?;
    }
    Ok(sources)
}

/// The predicate of time, such as `8h-12h`, that a value is; it is shared. Another value is stuck: typing refuses such
/// a call.
#[tactic(auto, unfolding(crate::specs::Parts::pred_of))]
fn pred_of(value: &Value) -> Result<SharedPred, Stop>
    ensures { Gives (λ p. view_shared p) result (pred_of (view_value value.now)) }
{
    match value {
        Value::Pred(pred) => Ok(pred.share()?),
        _ => Err(Stop::Stuck),
    }
}

// The case of a `switch` that a value is, a tuple: its predicate of time, and the node of its source, which is of this
// kind. Another value is stuck: typing refuses such a call.
#[tactic(auto, unfolding(crate::specs::Parts::case_of))]
fn pair_of(plan: &Draft, kind: Kind, value: &Value) -> Result<(SharedPred, u32), Stop>
    ensures given { Gives (λ x. (view_shared x.0, x.1)) result (case_of plan.now.nodes kind (view_value value.now)) }
    ensures there { IfOk result (λ x. x.1 < length plan.now.nodes) }
{
    match value {
        Value::Tuple(parts) => pair_in(plan, kind, parts),
        _ => Err(Stop::Stuck),
    }
}

/// The case of a `switch` whose tuple has these parts: a predicate of time, and the node of a source of this kind.
/// Anything but two parts is stuck.
#[tactic(auto, unfolding(crate::specs::Parts::pair_in))]
fn pair_in(plan: &Draft, kind: Kind, parts: &[Value]) -> Result<(SharedPred, u32), Stop>
    ensures given { Gives (λ x. (view_shared x.0, x.1)) result
        (pair_in plan.now.nodes kind (many (map view_value parts.now))) }
    ensures there { IfOk result (λ x. x.1 < length plan.now.nodes) }
{
    match parts {
        [] => Err(Stop::Stuck),
        [_] => Err(Stop::Stuck),
        [first, second] => {
            let pred = pred_of(first)?;
            let source = source_of(plan, kind, second)?;
            Ok((pred, source))
        }
        [_, _, _, ..] => Err(Stop::Stuck),
    }
}

/// The cases of a `switch` from these values, each a tuple: the predicates of time, and the nodes of the sources, in
/// order. Another value among them is stuck, for typing refuses it.
fn pairs_in(alloc: Global, plan: &Draft, kind: Kind, parts: &[Value]) -> Result<Pairs, Stop>
    ensures given { Gives (λ ps. (map view_shared ps.preds.items, ps.sources.items)) result
        (pairs_from plan.now.nodes kind (many (map view_value parts.now)) [] []) }
    ensures there { IfOk result (λ ps. All (λ n. n < length plan.now.nodes) ps.sources.items) }
{
    let mut preds = Vec::new(alloc);
    let mut sources = Vec::new(alloc);
    for part in parts {
        let pair = pair_of(plan, kind, part)?;
        preds.push(pair.0)?;
        sources.push(pair.1)?;
    }
    Ok(Pairs { preds, sources })
}

/// The cases of a `switch` from a value that is a list of tuples: the predicates of time, and the nodes of the sources,
/// in order. Another value is stuck: typing refuses such a call.
#[tactic(auto, unfolding(crate::specs::Parts::pairs_of))]
fn pairs_of(alloc: Global, plan: &Draft, kind: Kind, value: &Value) -> Result<Pairs, Stop>
    ensures given { Gives (λ ps. (map view_shared ps.preds.items, ps.sources.items)) result
        (pairs_of plan.now.nodes kind (view_value value.now)) }
    ensures there { IfOk result (λ ps. All (λ n. n < length plan.now.nodes) ps.sources.items) }
{
    match value {
        Value::Listed(parts) => pairs_in(alloc, plan, kind, parts),
        _ => Err(Stop::Stuck),
    }
}
