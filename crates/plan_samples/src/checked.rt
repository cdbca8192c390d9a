// A plan that is made node by node, of which nothing has to be known before.
ghost use Rattle.std.specs.Prelude.{◌≡◌, ◌<◌, ◌≤◌, ◌∷◌, Some, [], length, All, IfSome, OnSome, IsNone, true, false};
ghost use Rattle.liq_base.specs.declared.limits.TheConstants.{MIN_RATE, MAX_RATE, MAX_FRAME};
ghost use Rattle.plan_core.specs.declared.sink.SinkPlan.TheVariants.{Output};
ghost use Rattle.plan_core.specs.Plans.{IsBuffer, IsWellFormed, with_buffer, with_node, with_output};
ghost use Rattle.plan_samples.specs.Stereos.{stereo_node, AreFeeds, CanStand, IsSuited, IsStereo, sole_node};

use crate::plans::{begun_at, write};
use liq_base::Kind;
use liq_base::limits::{MAX_CAPACITY, MAX_CHILDREN, MAX_CROSSFADES, MAX_OVERLAP, MAX_PREFILL};
use plan_core::{BufferPlan, Draft, Items, Node, Op, Plan};
use std::alloc::Global;
use std::marker::Model;

/// A plan of stereo nodes that is being made. Each node is looked at before it is added, so that callers owe nothing
/// for it. Contracts see the plan. It has no output before its end.
#[derive(Debug, Drop)]
pub struct CheckedDraft {
    draft: Draft,
}

impl Model for CheckedDraft {
    ghost use Rattle.std.specs.Prelude.{◌≡◌, []};
    ghost use Rattle.std.specs.Coded.{codes};
    ghost use Rattle.time_pred.specs.Stored.{predicate_code};
    ghost use Rattle.plan_core.specs.declared.plan.Plan.{Plan};
    ghost use Rattle.plan_samples.specs.Stereos.{AreFeeds, IsStereo};

    ghost Value = { Plan };

    ghost coded = { Prim.hlevel (codes, predicate_code) };

    ghost view = { λ d. d.draft };

    ghost invariant = { λ d. IsStereo d.draft × AreFeeds d.draft.sinks };
}

impl CheckedDraft {
    /// A plan in the making without nodes, at 44100 samples a second in ticks of 1764.
    pub fn new(alloc: Global) -> CheckedDraft
        ensures { result ≡ record { rate = 44100; frame = 1764; nodes = []; sinks = []; buffers = [] } }
    {
        CheckedDraft::of(alloc, 44_100, 1764)
    }

    /// A plan in the making without nodes, at so many samples a second in ticks of `frame` samples.
    pub fn of(alloc: Global, rate: u32, frame: u32) -> CheckedDraft
        requires rate { (MIN_RATE ≤ rate) × (rate ≤ MAX_RATE) }
        requires frame { (1 ≤ frame) × (frame ≤ MAX_FRAME) }
        ensures { result ≡ record { rate = rate; frame = frame; nodes = []; sinks = []; buffers = [] } }
    {
        CheckedDraft {
            draft: begun_at(alloc, rate, frame),
        }
    }

    /// Adds a node over these children, and answers its number. `None` comes where the node may not stand over them,
    /// where 4096 nodes are there, or where memory is refused; then the plan is as it was.
    pub fn push(&mut self, op: Op, children: Vec<u32>) -> Option<u32>
        ensures number { IfSome result (λ number. number ≡ length self.old.nodes) }
        ensures added { OnSome result (self.new ≡ with_node self.old (stereo_node op children.items)) }
        ensures unchanged { IsNone result → self.new ≡ self.old }
    {
        let node = Node {
            op,
            kind: Kind::Stereo,
            children: Items::from_vec(children),
        };
        push_fitting(&mut self.draft, node)
    }

    /// Adds a buffer, its feed from the node `source`, and its reader, and answers the reader's number. `None` comes
    /// where the node is not there, where a plan has no such buffer, where 4096 nodes are there, or where memory is
    /// refused; then the plan is as it was.
    pub fn push_buffer(&mut self, alloc: Global, source: u32, buffer: BufferPlan) -> Option<u32>
        ensures number { IfSome result (λ number. number ≡ length self.old.nodes) }
        ensures added { OnSome result (self.new ≡ with_buffer self.old source Kind.Stereo buffer) }
        ensures unchanged { IsNone result → self.new ≡ self.old }
    {
        push_fed(alloc, &mut self.draft, source, buffer)
    }

    /// The plan, with an output of this node, without a name. `None` comes where the node is not there, or where memory
    /// is refused.
    pub fn into_plan(self, alloc: Global, node: u32) -> Option<Plan>
        ensures well_formed { IfSome result IsWellFormed }
        ensures made { IfSome result (λ plan. plan ≡ with_output self [] node false false) }
        ensures sole { IfSome result (λ plan. sole_node plan.sinks ≡ Some node) }
        ensures alone { IfSome result (λ plan. plan.buffers ≡ [] → plan.sinks ≡ Output [] node false false ∷ []) }
    {
        let mut draft = self.draft;
        if node as usize >= draft.plan().nodes.len() {
            return None;
        }
        match write(alloc, &mut draft, node) {
            Ok(()) => Some(draft.into_plan()),
            Err(_) => None,
        }
    }
}

// Adds this node to a plan in the making, and answers its number; nothing where it may not stand over its children,
// where 4096 nodes are there, or where memory is refused.
fn push_fitting(draft: &mut Draft, node: Node) -> Option<u32>
    requires stereo { IsStereo draft.old }
    requires kind { node.kind ≡ Kind.Stereo }
    ensures stereo { IsStereo draft.new }
    ensures sinks { draft.new.sinks ≡ draft.old.sinks }
    ensures number { IfSome result (λ number. number ≡ length draft.old.nodes) }
    ensures added { OnSome result (draft.new ≡ with_node draft.old node) }
    ensures unchanged { IsNone result → draft.new ≡ draft.old }
{
    if !fits(draft, &node) {
        return None;
    }
    draft.push_node(node).ok()
}

// Adds a buffer that the node `source` feeds, if that is there and a plan may have the buffer, and answers the number
// of the node that reads it.
fn push_fed(alloc: Global, draft: &mut Draft, source: u32, buffer: BufferPlan) -> Option<u32>
    requires stereo { IsStereo draft.old }
    requires feeds { AreFeeds draft.old.sinks }
    ensures stereo { IsStereo draft.new }
    ensures feeds { AreFeeds draft.new.sinks }
    ensures number { IfSome result (λ number. number ≡ length draft.old.nodes) }
    ensures added { OnSome result (draft.new ≡ with_buffer draft.old source Kind.Stereo buffer) }
    ensures unchanged { IsNone result → draft.new ≡ draft.old }
{
    if source as usize >= draft.plan().nodes.len() || !is_buffer(buffer) {
        return None;
    }
    match draft.push_buffer(alloc, source, Kind::Stereo, buffer) {
        Ok(number) => Some(number),
        Err(_) => None,
    }
}

// Whether a plan may have a buffer of this capacity and prefill.
fn is_buffer(buffer: BufferPlan) -> bool
    ensures { result ≡ true → IsBuffer buffer }
{
    buffer.pre <= u64::from(MAX_PREFILL) && buffer.capacity >= 1 && buffer.capacity <= MAX_CAPACITY
}

// Whether this stereo node may be added to a plan in the making: its children are there and suit its operator, and
// not too many crossfades come.
fn fits(draft: &Draft, node: &Node) -> bool
    requires stereo { IsStereo draft.now }
    requires kind { node.now.kind ≡ Kind.Stereo }
    ensures { result ≡ true → CanStand draft.now node.now }
{
    let children = node.children.as_slice();
    if children.len() > MAX_CHILDREN as usize {
        return false;
    }
    if !are_below(children, draft.plan().nodes.len()) {
        return false;
    }
    suits(&node.op, children.len()) && draft.crossfades_from(node) <= MAX_CROSSFADES
}

// Whether each number is below the count, as those of nodes that are there are.
fn are_below(numbers: &[u32], count: usize) -> bool
    ensures { result ≡ true → All (λ number. number < count) numbers.now }
{
    numbers.iter().all(|number| (*number as usize) < count)
}

// Whether a stereo node of this operator may have so many stereo children, with its numbers in range. Buffers, and
// `Mean` and `Stereo`, which change the kind, may not be added so. An operator that is not named takes any number of
// children.
fn suits(op: &Op, children: usize) -> bool
    ensures { result ≡ true → IsSuited op.now children }
{
    match op {
        Op::Single(_) | Op::Playlist { .. } | Op::Blank { .. } | Op::Fail => children == 0,
        Op::Square { pitch } => children == 0 && pitch.millionths > 0,
        Op::Switch { preds, .. } => children == preds.len(),
        Op::Amplify { .. } | Op::Clock(_) => children == 1,
        Op::Crossfade { overlap } => children == 1 && *overlap >= 1 && *overlap <= MAX_OVERLAP,
        Op::Mean | Op::Stereo | Op::Buffer(_) => false,
        _ => true,
    }
}
