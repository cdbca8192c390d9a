// What is red in a picture, and why.
ghost use Rattle.std.specs.Prelude.{◌≡◌, ◌++◌, [], IfOk, OnOk, codes, map, if◌then◌else◌};
ghost use Rattle.std.specs.List.{list_any};
ghost use Rattle.fallible_infer.specs.Infallible.{mark_at};
ghost use Rattle.time_pred.specs.Predicates.{is_always};
ghost use Rattle.time_pred.specs.View.{view_shared};
ghost use Rattle.plan_blames.specs.Blames.{asking, asking_words, asks, both_names, childless_words, clock_asks};
ghost use Rattle.plan_blames.specs.Blames.{clock_red, clock_words, edge_red, either_asks, name_text, nested_words};
ghost use Rattle.plan_blames.specs.Blames.{node_red, reason, reason_words, red_words, refused_node, shared_words};

use crate::ids::id_of;
use crate::texts::{push_named, push_number, push_plain, push_quoted};
use clock_infer::{ClockFault, ClockMap, ClockName};
use liq_base::Memory;
use plan_core::{Node, Op, SinkPlan};
use std::alloc::Global;
use time_pred::SharedPred;

/// Whether source `number` is marked in a list that has a mark for each source; `false` where there is no such source.
pub fn mark(marks: &[bool], number: usize) -> bool
    ensures { result ≡ mark_at marks.now number }
{
    marks.get(number).copied().unwrap_or(false)
}

/// Whether a picture of the plan shows source `k`, whose operator is `op`, red. If the plan is refused because it may
/// fall silent (`silent`), `reds` tells it, with a mark for each source. Otherwise it is so for a fault of clocks.
pub fn is_red(
    alloc: Global,
    silent: bool,
    reds: &[bool],
    clocks: &Result<ClockMap, ClockFault>,
    k: usize,
    op: &Op,
) -> Result<bool, Memory>
    ensures { IfOk result (λ red. red ≡ node_red silent reds.now clocks.now k op.now) }
{
    if silent {
        Ok(mark(reds, k))
    } else {
        is_clock_red(alloc, clocks, k as u64, op)
    }
}

// Whether a picture shows source k, of operator `op`, red for a fault of clocks. It does if the source has that fault,
// or asks for one of the two clocks in it. Too many clocks and want of memory make no source red.
fn is_clock_red(
    alloc: Global,
    clocks: &Result<ClockMap, ClockFault>,
    k: u64,
    op: &Op,
) -> Result<bool, Memory>
    ensures { IfOk result (λ red. red ≡ clock_red clocks.now k op.now) }
{
    match clocks {
        Ok(_) => Ok(false),
        Err(
            ClockFault::TwoClocks {
                node,
                first,
                second,
            },
        ) => Ok(either_asks(alloc, first, second, k, op)? || *node as u64 == k),
        Err(ClockFault::Nested { node }) => Ok(*node as u64 == k),
        Err(ClockFault::TooManyClocks) => Ok(false),
        Err(ClockFault::Memory) => Ok(false),
    }
}

// Whether source k asks for one of these two clocks, which would both drive one source.
fn either_asks(
    alloc: Global,
    first: &ClockName,
    second: &ClockName,
    k: u64,
    op: &Op,
) -> Result<bool, Memory>
    ensures { IfOk result (λ yes. yes ≡ either_asks first.now second.now k op.now) }
{
    let one = asks(alloc, first, k, op)?;
    let other = asks(alloc, second, k, op)?;
    Ok(one || other)
}

// Whether source k asks for the clock of this name: it is a `clock(..)` of that id, or the crossfade whose own clock it
// is. An output asks for a main clock of any name (`AnyMain`), and no source does.
fn asks(alloc: Global, name: &ClockName, k: u64, op: &Op) -> Result<bool, Memory>
    ensures { IfOk result (λ yes. yes ≡ asks name.now k op.now) }
{
    match name {
        ClockName::Named(id) => clock_asks(alloc, id.as_str(), k, op),
        ClockName::Sub(crossfade) => Ok(*crossfade as u64 == k),
        ClockName::AnyMain => Ok(false),
    }
}

// Whether source k is a `clock(..)` whose clock has this id.
fn clock_asks(alloc: Global, id: &str, k: u64, op: &Op) -> Result<bool, Memory>
    ensures { IfOk result (λ yes. yes ≡ clock_asks id.now k op.now) }
{
    match op {
        Op::Clock(written) => {
            let own = id_of(alloc, k, written)?;
            Ok(id == own.as_str())
        }
        _ => Ok(false),
    }
}

/// Whether a picture draws the edge from source `child` to its parent `k` red. If the plan is refused because it may
/// fall silent (`silent`), both must be marked in `reds`. Otherwise `k` must be the crossfade that lies in its own
/// clock.
pub fn is_edge_red(
    silent: bool,
    reds: &[bool],
    clocks: &Result<ClockMap, ClockFault>,
    k: u64,
    child: u64,
) -> bool
    ensures { result ≡ edge_red silent reds.now clocks.now k child }
{
    if silent {
        return mark(reds, k as usize) && mark(reds, child as usize);
    }
    match clocks {
        Err(ClockFault::Nested { node }) => *node as u64 == k,
        _ => false,
    }
}

/// Appends the lines that say why source k is red. If the plan is refused for a silence (`silent`), that is its own
/// reason if it is to blame (`red`); otherwise it is a fault of clocks.
pub fn push_red_words(
    alloc: Global,
    into: &mut Vec<u8>,
    silent: bool,
    red: bool,
    clocks: &Result<ClockMap, ClockFault>,
    k: u64,
    node: &Node,
) -> Result<(), Memory>
    ensures { OnOk result (into.new.items ≡ into.old.items ++ red_words silent red clocks.now k node.now) }
{
    if silent {
        push_reason_words(into, red, node)
    } else {
        push_clock_words(alloc, into, clocks, k, &node.op)
    }
}

// Appends to a source's label in a picture why it may offer nothing, if it is red.
fn push_reason_words(into: &mut Vec<u8>, red: bool, node: &Node) -> Result<(), Memory>
    ensures { OnOk result (into.new.items ≡ into.old.items ++ reason_words red node.now) }
{
    if red {
        push_reason(into, &node.op, node.children.as_slice())
    } else {
        Ok(())
    }
}

// Appends to a red source's label why it may offer nothing, if the cause lies in itself and not in a child.
fn push_reason(into: &mut Vec<u8>, op: &Op, children: &[u32]) -> Result<(), Memory>
    ensures { OnOk result (into.new.items ≡ into.old.items ++ reason op.now children.now) }
{
    match op {
        Op::Playlist { .. } => push_plain(into, b"\\nmay have no file to play"),
        Op::Buffer(_) => push_plain(into, b"\\nmay run dry"),
        Op::Fail => push_plain(into, b"\\nnever plays"),
        Op::Switch { preds, .. } => push_switch_reason(into, preds.as_slice()),
        _ => push_childless(into, children),
    }
}

// Appends to a switch's label that no case of it is always true, if none is by its form.
fn push_switch_reason(into: &mut Vec<u8>, preds: &[SharedPred]) -> Result<(), Memory>
    ensures { OnOk result (into.new.items ≡ into.old.items
        ++ (if list_any is_always (map view_shared preds.now) then [] else codes "\\nno case is always true")) }
{
    if some_always(preds) {
        Ok(())
    } else {
        push_plain(into, b"\\nno case is always true")
    }
}

// Whether a case of a switch has a predicate that is always true by its form.
fn some_always(preds: &[SharedPred]) -> bool
    ensures { result ≡ list_any is_always (map view_shared preds.now) }
{
    for pred in preds {
        if pred.always() {
            return true;
        }
    }
    false
}

// Appends to a source's label that it has nothing to play, if it has no children.
fn push_childless(into: &mut Vec<u8>, children: &[u32]) -> Result<(), Memory>
    ensures { OnOk result (into.new.items ≡ into.old.items ++ childless_words children.now) }
{
    if children.is_empty() {
        push_plain(into, b"\\nhas nothing to play")
    } else {
        Ok(())
    }
}

// Appends to the label of source k in a picture its part in a fault of clocks, if it has one.
fn push_clock_words(
    alloc: Global,
    into: &mut Vec<u8>,
    clocks: &Result<ClockMap, ClockFault>,
    k: u64,
    op: &Op,
) -> Result<(), Memory>
    ensures { OnOk result (into.new.items ≡ into.old.items ++ clock_words clocks.now k op.now) }
{
    match clocks {
        Ok(_) => Ok(()),
        Err(
            ClockFault::TwoClocks {
                node,
                first,
                second,
            },
        ) => push_two_clocks(alloc, into, *node as u64 == k, first, second, k, op),
        Err(ClockFault::Nested { node }) => push_nested(into, *node as u64 == k),
        Err(ClockFault::TooManyClocks) => Ok(()),
        Err(ClockFault::Memory) => Ok(()),
    }
}

// Appends to a source's label that it lies in its own clock, if it is the crossfade with that fault (`is_it`).
fn push_nested(into: &mut Vec<u8>, is_it: bool) -> Result<(), Memory>
    ensures { OnOk result (into.new.items ≡ into.old.items ++ nested_words is_it) }
{
    if is_it {
        push_plain(into, b"\\nE27 lies in its own clock")
    } else {
        Ok(())
    }
}

// Appends the lines of source k where the clocks `first` and `second` would drive one source. If that is source k
// (`is_it`), its label names both; if source k asks for one of them, its label says so.
fn push_two_clocks(
    alloc: Global,
    into: &mut Vec<u8>,
    is_it: bool,
    first: &ClockName,
    second: &ClockName,
    k: u64,
    op: &Op,
) -> Result<(), Memory>
    ensures { OnOk result (into.new.items ≡ into.old.items
        ++ (shared_words is_it first.now second.now
        ++ asking_words (either_asks first.now second.now k op.now) k op.now)) }
{
    push_shared(into, is_it, first, second)?;
    let asks = either_asks(alloc, first, second, k, op)?;
    push_asking_words(alloc, into, asks, k, op)
}

// Appends to a source's label that two clocks, `first` and `second`, would drive it, and which. Nothing is appended if
// it is not the source with that fault (`is_it`).
fn push_shared(
    into: &mut Vec<u8>,
    is_it: bool,
    first: &ClockName,
    second: &ClockName,
) -> Result<(), Memory>
    ensures { OnOk result (into.new.items ≡ into.old.items ++ shared_words is_it first.now second.now) }
{
    if is_it {
        push_both(into, first, second)
    } else {
        Ok(())
    }
}

// Appends to the label of a source, which has that fault, which two clocks would drive it.
fn push_both(into: &mut Vec<u8>, first: &ClockName, second: &ClockName) -> Result<(), Memory>
    ensures { OnOk result (into.new.items ≡ into.old.items
        ++ (codes "\\nE26 under clocks " ++ both_names first.now second.now)) }
{
    push_plain(into, b"\\nE26 under clocks ")?;
    push_names(into, first, second)
}

/// Appends the names of two clocks that were asked for, with `and` between.
pub fn push_names(into: &mut Vec<u8>, first: &ClockName, second: &ClockName) -> Result<(), Memory>
    ensures { OnOk result (into.new.items ≡ into.old.items ++ both_names first.now second.now) }
{
    push_name(into, first)?;
    into.extend_from_slice(b" and ")?;
    push_name(into, second)
}

// Appends how a picture calls a clock that was asked for: its id, the crossfade whose own clock it is, or an output.
fn push_name(into: &mut Vec<u8>, name: &ClockName) -> Result<(), Memory>
    ensures { OnOk result (into.new.items ≡ into.old.items ++ name_text name.now) }
{
    match name {
        ClockName::Named(id) => push_named(into, b"", id.as_str()),
        ClockName::Sub(k) => push_number(into, b"crossfade ", *k as u64),
        ClockName::AnyMain => push_plain(into, b"an output"),
    }
}

// Appends to the label of source k which clock it wants for what it plays, if it asks for one (`asks`).
fn push_asking_words(
    alloc: Global,
    into: &mut Vec<u8>,
    asks: bool,
    k: u64,
    op: &Op,
) -> Result<(), Memory>
    ensures { OnOk result (into.new.items ≡ into.old.items ++ asking_words asks k op.now) }
{
    if asks {
        push_asking(alloc, into, k, op)
    } else {
        Ok(())
    }
}

// Appends to the label of source k, which asks for a clock, the clock that it wants for what it plays. A `clock(..)`
// names its clock by its id; any other that asks is a crossfade.
fn push_asking(alloc: Global, into: &mut Vec<u8>, k: u64, op: &Op) -> Result<(), Memory>
    ensures { OnOk result (into.new.items ≡ into.old.items ++ asking k op.now) }
{
    match op {
        Op::Clock(written) => {
            let id = id_of(alloc, k, written)?;
            push_quoted(into, b"\\nwants clock ", id.as_str(), b" for what it plays")
        }
        _ => push_plain(into, b"\\nwants its own clock for what it plays"),
    }
}

/// The number of the source that plays into a refused sink, an output or the feed of a buffer; 0 where there is no
/// such sink.
pub fn refused_node(sinks: &[SinkPlan], sink: u32) -> u32
    ensures { result ≡ refused_node sinks.now sink }
{
    match sinks.get(sink as usize) {
        Some(SinkPlan::Output { node, .. }) => *node,
        Some(SinkPlan::Feed { node, .. }) => *node,
        None => 0,
    }
}
