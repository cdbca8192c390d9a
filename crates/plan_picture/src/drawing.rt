// The picture of a plan.
ghost use Rattle.std.specs.Prelude.{◌≡◌, ◌++◌, IfOk, OnOk, codes, slice_index};
ghost use Rattle.std.specs.Option.{is_some};
ghost use Rattle.plan_core.specs.Plans.{IsWellFormed};
ghost use Rattle.fallible_infer.specs.Infallible.{mark_at};
ghost use Rattle.plan_picture.specs.Edges.{sink_texts};
ghost use Rattle.plan_picture.specs.Regions.{regions_of};
ghost use Rattle.plan_picture.specs.Pictures.{beginning, IsPicture, picture_with, reds};

use crate::boxes::push_nodes;
use crate::edges::{push_edges, push_sinks};
use crate::regions::push_regions;
use clock_infer::{ClockFault, ClockMap, groups_of};
use liq_base::Memory;
use plan_blames::{push_plain, reds, refused_node};
use plan_core::Plan;
use std::alloc::Global;

/// The text from which graphviz draws a plan: a box for each source and output, an edge wherever one plays another, and
/// a region for each clock. A source that may offer nothing by `marks` has a dashed box. In red stands why the plan is
/// refused: the sink of the number `refused` may fall silent, or there are no clocks. Where two clocks meet, or a
/// crossfade lies in its own clock, a red region lies round the sources that would share one.
pub fn picture(
    alloc: Global,
    plan: &Plan,
    marks: &[bool],
    refused: Option<u32>,
    clocks: &Result<ClockMap, ClockFault>,
) -> Result<Vec<u8>, Memory>
    requires { IsWellFormed plan.now }
    ensures { IfOk result (λ text. IsPicture plan.now (mark_at marks.now) refused clocks.now text.items) }
{
    let red = all_reds(alloc, plan, marks, refused)?;
    let groups = groups_of(alloc, plan.nodes.as_slice())?;
    let mut text = Vec::new(alloc);
    push_picture(
        alloc, &mut text, plan, marks, refused, clocks, &groups, &red,
    )?;
    Ok(text)
}

// Of each source whether it is to blame for a silence; an empty list where no output was refused. `marks` says which
// sources always offer something, and `refused` is the number of the output that may fall silent.
fn all_reds(
    alloc: Global,
    plan: &Plan,
    marks: &[bool],
    refused: Option<u32>,
) -> Result<Vec<bool>, Memory>
    ensures { IfOk result (λ red. red.items ≡ reds plan.now (mark_at marks.now) refused) }
{
    match refused {
        Some(sink) => {
            let node = refused_node(plan.sinks.as_slice(), sink);
            reds(alloc, plan.nodes.as_slice(), marks, node)
        }
        None => Ok(Vec::new(alloc)),
    }
}

// Appends the whole graphviz text of a plan. `marks` says which sources always offer something, `refused` which sink
// may fall silent and must not. `clocks` has the plan's clocks, or why there are none. `groups` has the group of each
// source, those that share a clock, and `red` whether it is to blame for a silence.
fn push_picture(
    alloc: Global,
    into: &mut Vec<u8>,
    plan: &Plan,
    marks: &[bool],
    refused: Option<u32>,
    clocks: &Result<ClockMap, ClockFault>,
    groups: &[u32],
    red: &[bool],
) -> Result<(), Memory>
    requires { IsWellFormed plan.now }
    ensures { OnOk result (into.new.items ≡ into.old.items
        ++ picture_with plan.now (mark_at marks.now) refused clocks.now (λ k. slice_index groups.now k)
        (is_some refused) red.now) }
{
    let silent = refused.is_some();
    push_beginning(into)?;
    push_nodes(
        alloc,
        into,
        plan,
        plan.nodes.as_slice(),
        marks,
        silent,
        red,
        clocks,
    )?;
    push_edges(into, plan.nodes.as_slice(), silent, red, clocks)?;
    push_rest(into, plan, marks, refused, silent, clocks, groups)
}

// Appends what comes after the edges between sources: the outputs, the edges through buffers, and the regions of
// clocks. `marks` says which sources always offer something, `refused` which sink may fall silent, and `silent` that
// one does. `clocks` has the clocks, or why there are none, and `groups` the group of each source.
fn push_rest(
    into: &mut Vec<u8>,
    plan: &Plan,
    marks: &[bool],
    refused: Option<u32>,
    silent: bool,
    clocks: &Result<ClockMap, ClockFault>,
    groups: &[u32],
) -> Result<(), Memory>
    requires { IsWellFormed plan.now }
    ensures { OnOk result (into.new.items ≡ into.old.items
        ++ (sink_texts plan.now plan.now.sinks (mark_at marks.now) refused
        ++ (regions_of plan.now silent clocks.now (λ k. slice_index groups.now k) ++ codes "}\n"))) }
{
    push_sinks(into, plan, plan.sinks.as_slice(), marks, refused)?;
    push_regions(into, plan, silent, clocks, groups)?;
    push_plain(into, b"}\n")
}

// Appends the beginning of each picture: direction, fonts and the usual look of boxes and edges.
fn push_beginning(into: &mut Vec<u8>) -> Result<(), Memory>
    ensures { OnOk result (into.new.items ≡ into.old.items ++ beginning) }
{
    into.extend_from_slice(
        b"digraph station {\nrankdir=LR; bgcolor=\"#ffffff\"; fontname=\"DejaVu Sans,Helvetica,sans-serif\"; \
        fontsize=12; labeljust=l; nodesep=0.25; ranksep=0.5;\n\
        node [shape=box, style=\"filled,rounded\", fillcolor=\"#ffffff\", color=\"#3a4450\", fontname=\"DejaVu \
        Sans,Helvetica,sans-serif\", fontsize=11, margin=\"0.12,0.06\", height=0.4];\n\
        edge [color=\"#3a4450\", fontname=\"DejaVu Sans,Helvetica,sans-serif\", fontsize=9, arrowsize=0.7];\n",
    )?;
    Ok(())
}
