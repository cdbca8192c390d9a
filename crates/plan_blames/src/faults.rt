// A fault of clocks: the heading, and a region round the sources that would share a clock.
ghost use Rattle.std.specs.Prelude.{◌≡◌, ◌++◌, [], ◌∷◌, OnOk, slice_index};
ghost use Rattle.plan_blames.specs.Faults.{children_at, fault_region, fault_text, heading, own_label, red_member};
ghost use Rattle.plan_blames.specs.Faults.{red_members, red_region, red_rest, shared_label, shares, told_text};

use crate::blames::push_names;
use crate::texts::{push_between, push_number, push_plain};
use clock_infer::{ClockFault, ClockName};
use liq_base::Memory;
use plan_core::Node;

/// Appends to a picture its heading for a fault of clocks, and the region round the sources it concerns. If the plan is
/// refused because it may fall silent (`silent`), nothing is appended. `groups` has for each source the number of its
/// group, which shares one clock.
pub fn push_fault(
    into: &mut Vec<u8>,
    silent: bool,
    nodes: &[Node],
    fault: &ClockFault,
    groups: &[u32],
) -> Result<(), Memory>
    ensures { OnOk result (into.new.items ≡ into.old.items
        ++ fault_text silent nodes.now fault.now (λ k. slice_index groups.now k)) }
{
    if silent {
        return Ok(());
    }
    push_told(into, fault)?;
    push_region(into, nodes, fault, groups)
}

// Appends to a picture its heading for a fault of clocks, in red, as graphviz reads it.
fn push_told(into: &mut Vec<u8>, fault: &ClockFault) -> Result<(), Memory>
    ensures { OnOk result (into.new.items ≡ into.old.items ++ told_text fault.now) }
{
    push_plain(into, b"labelloc=t; fontcolor=\"#b3261e\"; label=\"")?;
    push_heading(into, fault)?;
    push_plain(into, b"\";\n")
}

// Appends the words of a picture's heading for a fault of clocks: its number and what it is. Want of memory has none.
fn push_heading(into: &mut Vec<u8>, fault: &ClockFault) -> Result<(), Memory>
    ensures { OnOk result (into.new.items ≡ into.old.items ++ heading fault.now) }
{
    match fault {
        ClockFault::TwoClocks { .. } => {
            push_plain(into, b"E26 a source would be driven by two clocks")
        }
        ClockFault::Nested { .. } => push_plain(into, b"E27 a crossfade lies in its own clock"),
        ClockFault::TooManyClocks => push_plain(into, b"E28 more than 64 clocks would run"),
        ClockFault::Memory => Ok(()),
    }
}

// Appends the region round the sources that a fault of clocks concerns: those that would share a clock, or that lie in
// a crossfade's own clock. Other faults have none. `groups` has the number of each source's group.
fn push_region(
    into: &mut Vec<u8>,
    nodes: &[Node],
    fault: &ClockFault,
    groups: &[u32],
) -> Result<(), Memory>
    ensures { OnOk result (into.new.items ≡ into.old.items
        ++ fault_region nodes.now fault.now (λ k. slice_index groups.now k)) }
{
    match fault {
        ClockFault::TwoClocks {
            node,
            first,
            second,
        } => push_shared_region(into, nodes, *node, first, second, groups),
        ClockFault::Nested { node } => push_own_region(into, nodes, *node, groups),
        ClockFault::TooManyClocks => Ok(()),
        ClockFault::Memory => Ok(()),
    }
}

// Appends the region round the group of source `node`, which two clocks, `first` and `second`, would drive. `groups`
// has for each source the number of its group, which must share one clock.
fn push_shared_region(
    into: &mut Vec<u8>,
    nodes: &[Node],
    node: u32,
    first: &ClockName,
    second: &ClockName,
    groups: &[u32],
) -> Result<(), Memory>
    ensures { OnOk result (into.new.items ≡ into.old.items
        ++ red_region (shared_label first.now second.now) (λ k. slice_index groups.now k) (node ∷ []) nodes.now) }
{
    push_plain(into, b"subgraph cluster_red { label=\"")?;
    push_shared_label(into, first, second)?;
    push_red_rest(into, groups, &[node], nodes)?;
    Ok(())
}

// Appends the label of the region round sources that must share one clock, for which both of these clocks are wanted.
fn push_shared_label(
    into: &mut Vec<u8>,
    first: &ClockName,
    second: &ClockName,
) -> Result<(), Memory>
    ensures { OnOk result (into.new.items ≡ into.old.items ++ shared_label first.now second.now) }
{
    push_plain(into, b"one clock for all of these, but ")?;
    push_names(into, first, second)?;
    push_plain(into, b" are wanted")
}

// Appends the region round what lies in the own clock of crossfade `node`: the groups of its children. `groups` has for
// each source the number of its group, which must share one clock.
fn push_own_region(
    into: &mut Vec<u8>,
    nodes: &[Node],
    node: u32,
    groups: &[u32],
) -> Result<(), Memory>
    ensures { OnOk result (into.new.items ≡ into.old.items
        ++ red_region (own_label node) (λ k. slice_index groups.now k) (children_at nodes.now node) nodes.now) }
{
    push_plain(into, b"subgraph cluster_red { label=\"")?;
    push_own_label(into, node as u64)?;
    push_own_rest(into, nodes, node, groups)?;
    Ok(())
}

// Appends the label of the region round what lies in the own clock of crossfade k.
fn push_own_label(into: &mut Vec<u8>, k: u64) -> Result<(), Memory>
    ensures { OnOk result (into.new.items ≡ into.old.items ++ own_label k) }
{
    push_number(into, b"own clock of crossfade ", k)
}

// Appends the rest of a region, after its label, round the groups of the children of crossfade `node`. `groups` has for
// each source the number of its group, which must share one clock.
fn push_own_rest(
    into: &mut Vec<u8>,
    nodes: &[Node],
    node: u32,
    groups: &[u32],
) -> Result<(), Memory>
    ensures { OnOk result (into.new.items ≡ into.old.items
        ++ red_rest (λ k. slice_index groups.now k) (children_at nodes.now node) nodes.now) }
{
    match nodes.get(node as usize) {
        Some(crossfade) => push_red_rest(into, groups, crossfade.children.as_slice(), nodes),
        None => push_red_rest(into, groups, &[], nodes),
    }
}

// Appends the rest of a region, after its label: how it looks, and all sources in the groups of the sources `these`.
// `groups` has for each source the number of its group.
fn push_red_rest(
    into: &mut Vec<u8>,
    groups: &[u32],
    these: &[u32],
    nodes: &[Node],
) -> Result<(), Memory>
    ensures { OnOk result (into.new.items ≡ into.old.items
        ++ red_rest (λ k. slice_index groups.now k) these.now nodes.now) }
{
    push_plain(
        into,
        b"\"; style=\"rounded,dashed\"; color=\"#b3261e\"; fontsize=11;\n",
    )?;
    push_red_members(into, groups, these, nodes)?;
    push_plain(into, b"}\n")?;
    Ok(())
}

// Appends to a region the names of its sources: those that must share a clock with one of `these`. `groups` has for
// each source the number of its group, which must share one clock.
fn push_red_members(
    into: &mut Vec<u8>,
    groups: &[u32],
    these: &[u32],
    nodes: &[Node],
) -> Result<(), Memory>
    ensures { OnOk result (into.new.items ≡ into.old.items
        ++ red_members (λ k. slice_index groups.now k) these.now nodes.now) }
{
    for (k, _node) in nodes.iter().enumerate() {
        push_red_member(into, shares(groups, these, k as u64), k as u64)?;
    }
    Ok(())
}

// Appends to a region the name of source k, if the source belongs in it (`is_in`).
fn push_red_member(into: &mut Vec<u8>, is_in: bool, k: u64) -> Result<(), Memory>
    ensures { OnOk result (into.new.items ≡ into.old.items ++ red_member is_in k) }
{
    if is_in {
        push_between(into, b"n", k, b"; ")
    } else {
        Ok(())
    }
}

// Whether source k must share a clock with one of `these`: it is in the same group. `groups` has for each source the
// number of its group.
fn shares(groups: &[u32], these: &[u32], k: u64) -> bool
    ensures { result ≡ shares (λ source. slice_index groups.now source) these.now k }
{
    let own = group_of(groups, k);
    for source in these {
        if group_of(groups, *source as u64) == own {
            return true;
        }
    }
    false
}

// The number of a source's group, which has the sources that must share a clock; 0 where there is no such source.
fn group_of(groups: &[u32], source: u64) -> u32
    ensures { result ≡ slice_index groups.now source }
{
    groups.get(source as usize).copied().unwrap_or(0)
}
