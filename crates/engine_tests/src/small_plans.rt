//! Small plans, as tables of their nodes, the clocks of these, and the file that the first node plays. Its samples are
//! 1, 2 and 3.
ghost use Rattle.std.specs.Prelude.{◌≡◌, ◌≤◌, [], Some, IfOk, length, slice_get, true};
ghost use Rattle.plan_core.specs.Plans.{IsWellFormed};
ghost use Rattle.plan_samples.specs.Stereos.{sole_node};
ghost use Rattle.frame_core.specs.Library.{IsLibrary};

use clock_infer::{ClockMap, NodeClock};
use fixed_text::TimeMark;
use frame_core::{Library, Track};
use liq_base::{Kind, Text};
use plan_core::{BufferPlan, Op, Plan, Preds};
use plan_samples::CheckedDraft;
use std::alloc::{AllocError, Global};
use std::process::Abort;
use std::test::Fail;
use time_pred::{Pred, SharedPred};

/// An operator of a small plan.
#[derive(Clone, Copy)]
pub(crate) enum Small {
    /// The file, played again and again.
    Single,

    /// The file, played once.
    Once,

    /// Zeros in tracks of so many samples, or in one track where it is 0.
    Blank(u64),

    /// A fallback that minds tracks.
    Fallback,
    Rotate,
    Random(u64),
    Sum,

    /// A crossfade whose overlap has two samples.
    Crossfade,

    /// A switch over one child, which is always eligible.
    Always,

    /// A switch over one child, which is eligible from one mark to another.
    Between(TimeMark, TimeMark),
}

/// A node of a small plan.
#[derive(Clone, Copy)]
pub(crate) enum Row {
    /// A node over these.
    Node(Small, &'static [u32]),

    /// The reader of a buffer of one chunk, which this node feeds, with a prefill of one sample.
    Reader(u32),
}

// An empty text, for files whose name does not matter.
fn no_name(alloc: Global) -> Text
    ensures { result ≡ [] }
{
    Text::from_string(String::new(alloc))
}

// The operator of a switch that minds tracks, with one case, which has this predicate.
fn switch(alloc: Global, pred: Pred) -> Result<Op, AllocError> {
    let Ok(shared) = SharedPred::new(alloc, pred) else {
        return Err(AllocError);
    };
    let preds = Preds::from_vec(Vec::from_array(alloc, [shared])?);
    Ok(Op::Switch {
        sensitive: true,
        preds,
    })
}

// The operator of a small plan's node, as a plan has it.
fn op_of(alloc: Global, small: Small) -> Result<Op, AllocError> {
    Ok(match small {
        Small::Single => Op::Single(no_name(alloc)),
        Small::Once => Op::Playlist {
            file: no_name(alloc),
            again: false,
        },
        Small::Blank(track) => Op::Blank { track },
        Small::Fallback => Op::Fallback { sensitive: true },
        Small::Rotate => Op::Rotate,
        Small::Random(seed) => Op::Random { seed },
        Small::Sum => Op::Add { normalize: false },
        Small::Crossfade => Op::Crossfade { overlap: 2 },
        Small::Always => return switch(alloc, Pred::Always),
        Small::Between(from, to) => return switch(alloc, Pred::Between(from, to)),
    })
}

const ONE_CHUNK: BufferPlan = BufferPlan {
    pre: 1,
    capacity: 1,
};

// Adds a node of a small plan to the draft, and answers its number. `None` says that it may not stand there, or that
// memory was refused.
fn push(alloc: Global, draft: &mut CheckedDraft, row: Row) -> Result<Option<u32>, AllocError> {
    match row {
        Row::Node(small, children) => {
            let children = Vec::from_slice(alloc, children)?;
            Ok(draft.push(op_of(alloc, small)?, children))
        }
        Row::Reader(source) => Ok(draft.push_buffer(alloc, source, ONE_CHUNK)),
    }
}

// Adds the nodes of a small plan to the draft, in order; a node that may not stand there fails the test.
fn push_all(alloc: Global, draft: &mut CheckedDraft, rows: &[Row]) -> Result<(), Fail> {
    for row in rows {
        if push(alloc, draft, *row)?.is_none() {
            return Err(Fail::from("no node"));
        }
    }
    Ok(())
}

/// Makes the plan of these stereo nodes at 8000 samples a second, in ticks of `frame` samples, with one output, of the
/// node of number `node`. A table that makes no plan fails the test.
pub(crate) fn plan_of(
    rt: &impl Abort,
    alloc: Global,
    frame: u32,
    rows: &[Row],
    node: u32,
) -> Result<Plan, Fail>
    ensures well_formed { IfOk result IsWellFormed }
    ensures sinks { IfOk result (λ plan. sole_node plan.sinks ≡ Some node) }
{
    assert!(rt; frame >= 1 && frame <= 65_536);
    let mut draft = CheckedDraft::of(alloc, 8000, frame);
    push_all(alloc, &mut draft, rows)?;
    match draft.into_plan(alloc, node) {
        Some(plan) => Ok(plan),
        None => Err(Fail::from("no plan")),
    }
}

/// The library of a small plan with so many nodes, at most five: one file with three samples, which the first node
/// plays.
pub(crate) fn one_of(alloc: Global, count: usize) -> Result<Library, AllocError>
    requires some { 1 ≤ count }
    requires few { count ≤ 5 }
    ensures library { IfOk result (λ library. IsLibrary library) }
    ensures leaves { IfOk result (λ library. length library.leaves ≡ count) }
{
    let file = Track::new(Kind::Mono, Vec::from_slice(alloc, &[1, 2, 3])?);
    let first = Vec::from_slice(alloc, &[0])?;
    let rest = [
        first,
        Vec::new(alloc),
        Vec::new(alloc),
        Vec::new(alloc),
        Vec::new(alloc),
    ];
    let mut leaves = Vec::from_array(alloc, rest)?;
    leaves.truncate(count);
    let files = Vec::from_array(alloc, [file])?;
    let names = Vec::from_array(alloc, [no_name(alloc)])?;
    Ok(Library::new(files, names, leaves))
}

// Whether a node's clock is the main clock of this number.
fn is_main(clock: NodeClock, number: u32) -> bool
    ensures { result ≡ true → clock ≡ NodeClock.Main number }
{
    match clock {
        NodeClock::Main(main) => main == number,
        NodeClock::Sub(_) => false,
    }
}

/// Whether a node lies in the main clock of this number, by the map of its plan's clocks. False where it lies in a
/// crossfade's clock, or is no node.
pub(crate) fn lies_in(clocks: &ClockMap, node: u32, number: u32) -> bool
    ensures { result ≡ true → slice_get clocks.now.of node ≡ Some (NodeClock.Main number) }
{
    match clocks.of.as_slice().get(node as usize) {
        Some(clock) => is_main(*clock, number),
        None => false,
    }
}
