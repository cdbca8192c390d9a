// The boxes: sources and outputs.
ghost use Rattle.std.specs.Prelude.{◌≡◌, ◌<◌, ◌++◌, OnOk, codes};
ghost use Rattle.fallible_infer.specs.Infallible.{mark_at};
ghost use Rattle.plan_picture.specs.Boxes.{border, box_end, box_front, box_label, fallible_words, is_refused, node_box};
ghost use Rattle.plan_picture.specs.Boxes.{node_boxes, output_box, output_front, output_label, red_style, sheet};
ghost use Rattle.plan_picture.specs.Boxes.{silence_words};

use crate::words::push_words;
use clock_infer::{ClockFault, ClockMap};
use liq_base::{Memory, Text};
use plan_blames::{
    is_red, mark, push_between, push_escaped, push_number, push_plain, push_red_words,
};
use plan_core::{Node, Plan};
use std::alloc::Global;

/// Appends a box for each source, dashed unless it always offers something (`marks`), and red where it is to blame for
/// a fault. If the plan is refused for a silence (`silent`), `reds` says which sources are to blame; else the fault is
/// that of `clocks`, if they have one.
pub fn push_nodes(
    alloc: Global,
    into: &mut Vec<u8>,
    plan: &Plan,
    nodes: &[Node],
    marks: &[bool],
    silent: bool,
    reds: &[bool],
    clocks: &Result<ClockMap, ClockFault>,
) -> Result<(), Memory>
    requires { 0 < plan.now.rate }
    ensures { OnOk result (into.new.items ≡ into.old.items
        ++ node_boxes plan.now nodes.now (mark_at marks.now) silent reds.now clocks.now) }
{
    for (k, node) in nodes.iter().enumerate() {
        let red = is_red(alloc, silent, reds, clocks, k, &node.op)?;
        push_node(
            alloc,
            into,
            plan,
            silent,
            clocks,
            k as u64,
            node,
            mark(marks, k),
            red,
        )?;
    }
    Ok(())
}

// Appends the box of source k. It is dashed unless the source always offers something (`infallible`), and red where it
// is to blame for a fault (`red`). The fault is a silence where `silent` is true, and else that of `clocks`.
fn push_node(
    alloc: Global,
    into: &mut Vec<u8>,
    plan: &Plan,
    silent: bool,
    clocks: &Result<ClockMap, ClockFault>,
    k: u64,
    node: &Node,
    infallible: bool,
    red: bool,
) -> Result<(), Memory>
    requires { 0 < plan.now.rate }
    ensures { OnOk result (into.new.items ≡ into.old.items
        ++ node_box plan.now silent clocks.now k node.now infallible red) }
{
    push_front(into, k)?;
    push_label(alloc, into, plan, silent, clocks, k, node, red)?;
    push_end(into, infallible, red)
}

// Appends the beginning of the box of source k, up to its label, which begins with the number.
fn push_front(into: &mut Vec<u8>, k: u64) -> Result<(), Memory>
    ensures { OnOk result (into.new.items ≡ into.old.items ++ box_front k) }
{
    push_number(into, b"n", k)?;
    push_between(into, b" [label=\"", k, b"  ")
}

// Appends the label of source k: what it does, and where it is `red` why. The reason is a silence where the plan is
// refused for one (`silent`), and else the fault in `clocks`.
fn push_label(
    alloc: Global,
    into: &mut Vec<u8>,
    plan: &Plan,
    silent: bool,
    clocks: &Result<ClockMap, ClockFault>,
    k: u64,
    node: &Node,
    red: bool,
) -> Result<(), Memory>
    requires { 0 < plan.now.rate }
    ensures { OnOk result (into.new.items ≡ into.old.items ++ box_label plan.now silent clocks.now k node.now red) }
{
    push_words(alloc, into, plan, k, &node.op)?;
    push_red_words(alloc, into, silent, red, clocks, k, node)
}

// Appends the end of the box of a source, after its label, which says how it is drawn: dashed unless it always offers
// something (`infallible`), and red where it is to blame for a fault (`red`).
fn push_end(into: &mut Vec<u8>, infallible: bool, red: bool) -> Result<(), Memory>
    ensures { OnOk result (into.new.items ≡ into.old.items ++ box_end infallible red) }
{
    push_plain(into, b"\"")?;
    push_border(into, infallible)?;
    push_style(into, red)
}

// Appends that the border of a source's box is dashed, unless the source always offers something (`infallible`); else
// nothing.
fn push_border(into: &mut Vec<u8>, infallible: bool) -> Result<(), Memory>
    ensures { OnOk result (into.new.items ≡ into.old.items ++ border infallible) }
{
    if infallible {
        Ok(())
    } else {
        push_plain(into, b", style=\"filled,rounded,dashed\"")
    }
}

// Appends the end of the box of a source: that it is red, if it is to blame for a fault, and the closing bracket.
fn push_style(into: &mut Vec<u8>, red: bool) -> Result<(), Memory>
    ensures { OnOk result (into.new.items ≡ into.old.items ++ (red_style red ++ codes "];\n")) }
{
    push_red(into, red)?;
    push_plain(into, b"];\n")
}

// Appends the attributes that draw a box in red, where it is to blame for a fault; nothing else.
fn push_red(into: &mut Vec<u8>, red: bool) -> Result<(), Memory>
    ensures { OnOk result (into.new.items ≡ into.old.items ++ red_style red) }
{
    if red {
        push_plain(
            into,
            b", color=\"#b3261e\", penwidth=2.2, fontcolor=\"#b3261e\"",
        )
    } else {
        Ok(())
    }
}

/// Appends the box of output k, drawn as a sheet of paper: `fallible` is what the script says of it, `infallible`
/// whether its source always offers something, and `red` whether the output was refused.
pub fn push_output(
    into: &mut Vec<u8>,
    k: u64,
    name: &Text,
    fallible: bool,
    infallible: bool,
    red: bool,
) -> Result<(), Memory>
    ensures { OnOk result (into.new.items ≡ into.old.items ++ output_box k name.now fallible infallible red) }
{
    push_sheet(into, k, infallible, red)?;
    push_output_label(into, name, fallible, red)
}

// Appends the beginning of the box of output k, a sheet of paper, up to its label. It is dashed unless its source
// always offers something (`infallible`), and red where the output is refused (`red`).
fn push_sheet(into: &mut Vec<u8>, k: u64, infallible: bool, red: bool) -> Result<(), Memory>
    ensures { OnOk result (into.new.items ≡ into.old.items ++ output_front k infallible red) }
{
    push_number(into, b"s", k)?;
    push_sheet_style(into, infallible)?;
    push_red(into, red)
}

// Appends the attributes that draw an output's box as a sheet of paper: dashed, if its source may offer nothing.
fn push_sheet_style(into: &mut Vec<u8>, infallible: bool) -> Result<(), Memory>
    ensures { OnOk result (into.new.items ≡ into.old.items ++ sheet infallible) }
{
    if infallible {
        push_plain(
            into,
            b" [shape=note, margin=\"0.16,0.08\", style=\"filled\"",
        )
    } else {
        push_plain(
            into,
            b" [shape=note, margin=\"0.16,0.08\", style=\"filled,dashed\"",
        )
    }
}

// Appends the label of an output's sheet, to the end of the line; `red` says that the output is refused (E25).
fn push_output_label(
    into: &mut Vec<u8>,
    name: &Text,
    fallible: bool,
    red: bool,
) -> Result<(), Memory>
    ensures { OnOk result (into.new.items ≡ into.old.items
        ++ (codes ", label=\"" ++ (output_label name.now fallible red ++ codes "\"];\n"))) }
{
    push_plain(into, b", label=\"")?;
    push_output_words(into, name, fallible, red)?;
    push_plain(into, b"\"];\n")
}

// Appends what the label of an output says: its name, that the script lets it be fallible, where it does, and that it
// may fall silent, where it is refused for that (`red`).
fn push_output_words(
    into: &mut Vec<u8>,
    name: &Text,
    fallible: bool,
    red: bool,
) -> Result<(), Memory>
    ensures { OnOk result (into.new.items ≡ into.old.items ++ output_label name.now fallible red) }
{
    push_escaped(into, name.as_str().as_bytes())?;
    push_fallible(into, fallible)?;
    push_silence(into, red)
}

// Appends that the script lets an output be fallible, if it does.
fn push_fallible(into: &mut Vec<u8>, fallible: bool) -> Result<(), Memory>
    ensures { OnOk result (into.new.items ≡ into.old.items ++ fallible_words fallible) }
{
    if fallible {
        push_plain(into, b"\\nfallible")
    } else {
        Ok(())
    }
}

// Appends that an output may fall silent, which is fault E25, if it was refused for that (`red`).
fn push_silence(into: &mut Vec<u8>, red: bool) -> Result<(), Memory>
    ensures { OnOk result (into.new.items ≡ into.old.items ++ silence_words red) }
{
    if red {
        push_plain(into, b"\\nE25 may fall silent")
    } else {
        Ok(())
    }
}

/// Whether sink k is the one that was refused, whose number `refused` has; `None` says that none was.
pub fn is_refused(refused: Option<u32>, k: u64) -> bool
    ensures { result ≡ is_refused refused k }
{
    match refused {
        Some(sink) => sink as u64 == k,
        None => false,
    }
}
