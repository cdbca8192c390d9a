// What is told of a plan.
ghost use Rattle.std.specs.Prelude.{◌≡◌, ◌++◌, ◌∷◌, [], OnOk, Some, codes, decimal, if◌then◌else◌, map, nat_eq};
ghost use Rattle.std.specs.Prelude.{slice_get};
ghost use Rattle.json.specs.Token.{number};
ghost use Rattle.station_facts.specs.Members.{Adds, by_threes, each, flag_member, list_member, member_by_threes};
ghost use Rattle.station_facts.specs.Members.{number_member, text_member};
ghost use Rattle.station_facts.specs.Plans.{clock_members, length_members, main_members, name_members, op_members};
ghost use Rattle.station_facts.specs.Plans.{output_object, plan_members, side_members, source_object, windows_object};
ghost use Rattle.time_pred.specs.View.{view_shared};
ghost use Rattle.week_windows.specs.Known.{IsKnown};
ghost use Rattle.week_windows.specs.Windows.{case_windows};

use crate::inferred::Inferred;
use crate::members::{
    Out, begin, begin_list, bits_of, end, end_list, push_count, push_flag, push_kind, push_number,
    push_text,
};
use clock_infer::{ClockFault, ClockMap, NodeClock};
use liq_base::{Memory, Text};
use plan_core::{Node, Op, Plan, SinkPlan};
use std::alloc::Global;
use time_pred::SharedPred;
use week_windows::{Known, Windows, unknown, windows_again};

/// Writes to `out` what a plan is, as members of a JSON object: its rate, its tick, its outputs and its sources.
/// `ats` has the byte of the script at which the call of each source begins.
/// `inferred` says which sources are never silent, and in which clocks the sources lie.
pub fn push_plan(
    alloc: Global,
    out: &mut Out,
    plan: &Plan,
    ats: &[usize],
    inferred: &Inferred,
) -> Result<(), Memory>
    ensures { OnOk result (Adds out.old out.new (plan_members plan.now ats.now inferred.now)) }
{
    push_number(out, "rate", u64::from(plan.rate))?;
    push_number(out, "tick", u64::from(plan.frame))?;
    push_outputs(out, plan, inferred)?;
    push_sources(alloc, out, plan.nodes.as_slice(), &inferred.marks, ats)
}

// Writes the member `outputs` of a plan, a list with an object for each output.
fn push_outputs(out: &mut Out, plan: &Plan, inferred: &Inferred) -> Result<(), Memory>
    ensures { OnOk result (Adds out.old out.new
        (list_member (codes "outputs") (output_object plan.now inferred.now) plan.now.sinks)) }
{
    begin_list(out, "outputs")?;
    push_each_output(out, plan, inferred)?;
    end_list(out)
}

// Writes the object of each output of a plan, one after another.
fn push_each_output(out: &mut Out, plan: &Plan, inferred: &Inferred) -> Result<(), Memory>
    ensures { OnOk result
        (Adds out.old out.new (each (output_object plan.now inferred.now) plan.now.sinks)) }
{
    for sink in plan.sinks.as_slice() {
        push_output(out, plan, inferred, sink)?;
    }
    Ok(())
}

// Writes the object of an output: its file, its source, its format and its clock. Of a feed of a buffer nothing is
// written.
fn push_output(
    out: &mut Out,
    plan: &Plan,
    inferred: &Inferred,
    sink: &SinkPlan,
) -> Result<(), Memory>
    ensures { OnOk result (Adds out.old out.new (output_object plan.now inferred.now sink.now)) }
{
    match sink {
        SinkPlan::Output {
            name,
            node,
            fallible,
            wide,
        } => {
            begin(out)?;
            push_text(out, "name", name.as_str())?;
            push_number(out, "source", u64::from(*node))?;
            push_number(out, "bits", bits_of(*wide))?;
            push_flag(out, "fallible", *fallible)?;
            push_sides(out, plan.nodes.as_slice(), *node)?;
            push_clock(out, &inferred.clocks, *node)?;
            end(out)?;
            Ok(())
        }
        SinkPlan::Feed { .. } => Ok(()),
    }
}

// Writes the member `sides`, how many channels this node has.
fn push_sides(out: &mut Out, nodes: &[Node], node: u32) -> Result<(), Memory>
    ensures { OnOk result (Adds out.old out.new (side_members (slice_get nodes.now node))) }
{
    match nodes.get(node as usize) {
        Some(node) => push_kind(out, node.kind),
        None => Ok(()),
    }
}

// Writes the member `clock`, the name of the main clock of this node. Nothing is written for a node of a sub-clock, or
// where `clocks` is a fault since the plan has none.
fn push_clock(out: &mut Out, clocks: &Result<ClockMap, ClockFault>, node: u32) -> Result<(), Memory>
    ensures { OnOk result (Adds out.old out.new (clock_members clocks.now node)) }
{
    match clocks {
        Ok(clocks) => push_clock_of(out, clocks, node),
        Err(_) => Ok(()),
    }
}

// Writes the member `clock`, the name of the clock of this node if that is a main one; nothing if it is a sub-clock.
fn push_clock_of(out: &mut Out, clocks: &ClockMap, node: u32) -> Result<(), Memory>
    ensures { OnOk result (Adds out.old out.new (main_members clocks.now (slice_get clocks.now.of node))) }
{
    match clocks.of.as_slice().get(node as usize) {
        Some(clock) => push_main_clock(out, clocks, *clock),
        None => Ok(()),
    }
}

// Writes the member `clock`, the name of this clock if it is a main one; nothing for a sub-clock.
fn push_main_clock(out: &mut Out, clocks: &ClockMap, clock: NodeClock) -> Result<(), Memory>
    ensures { OnOk result (Adds out.old out.new (main_members clocks.now (Some clock))) }
{
    match clock {
        NodeClock::Main(number) => push_clock_name(out, clocks.names.as_slice(), number),
        NodeClock::Sub(_) => Ok(()),
    }
}

// Writes the member `clock`, the name of the main clock of this number.
fn push_clock_name(out: &mut Out, names: &[Text], number: u32) -> Result<(), Memory>
    ensures { OnOk result (Adds out.old out.new (name_members (slice_get names.now number))) }
{
    match names.get(number as usize) {
        Some(name) => push_text(out, "clock", name.as_str()),
        None => Ok(()),
    }
}

// Writes the member `sources` of a plan, a list with an object for each node.
// `marks` has of each whether it is never silent, and `ats` the byte of the script at which its call begins.
fn push_sources(
    alloc: Global,
    out: &mut Out,
    nodes: &[Node],
    marks: &[bool],
    ats: &[usize],
) -> Result<(), Memory>
    ensures { OnOk result (Adds out.old out.new
        (member_by_threes (codes "sources") source_object nodes.now marks.now ats.now)) }
{
    let mut known = unknown(alloc)?;
    begin_list(out, "sources")?;
    push_each_source(alloc, out, nodes, marks, ats, &mut known)?;
    end_list(out)
}

// Writes the object of each source, one after another; it ends where `marks` or `ats` have no more.
// The windows that were found are kept in `known`, since a later switch may have the same cases.
fn push_each_source<'a>(
    alloc: Global,
    out: &mut Out,
    nodes: &'a [Node],
    marks: &[bool],
    ats: &[usize],
    known: &mut Known<'a>,
) -> Result<(), Memory>
    requires { IsKnown known.old }
    ensures { OnOk result (Adds out.old out.new (by_threes source_object nodes.now marks.now ats.now)) }
{
    for (k, node) in nodes.iter().enumerate() {
        let Some(always) = marks.get(k) else {
            return Ok(());
        };
        let Some(at) = ats.get(k) else {
            return Ok(());
        };
        push_source(alloc, out, node, *always, *at, known)?;
    }
    Ok(())
}

// Writes the JSON object of a source: its operator, its channels, its children, and two facts from elsewhere.
// `always` says that it is never silent, and `at` is the byte of the script at which its call begins.
// `known` keeps the windows of the switches before, for one with the same cases.
fn push_source<'a>(
    alloc: Global,
    out: &mut Out,
    node: &'a Node,
    always: bool,
    at: usize,
    known: &mut Known<'a>,
) -> Result<(), Memory>
    requires { IsKnown known.old }
    ensures known { OnOk result (IsKnown known.new) }
    ensures told { OnOk result (Adds out.old out.new (source_object node.now always at)) }
{
    begin(out)?;
    push_op(alloc, out, &node.op, known)?;
    push_kind(out, node.kind)?;
    push_children(out, node.children.as_slice())?;
    push_flag(out, "always", always)?;
    push_number(out, "at", at as u64)?;
    end(out)?;
    Ok(())
}

// Writes the member `children` of a source, a list of their numbers.
fn push_children(out: &mut Out, children: &[u32]) -> Result<(), Memory>
    ensures { OnOk result (Adds out.old out.new
        (list_member (codes "children") (λ child. number (decimal child) ∷ []) children.now)) }
{
    begin_list(out, "children")?;
    push_each_child(out, children)?;
    end_list(out)
}

// Writes the number of each child, as an item of a list.
fn push_each_child(out: &mut Out, children: &[u32]) -> Result<(), Memory>
    ensures { OnOk result (Adds out.old out.new (each (λ child. number (decimal child) ∷ []) children.now)) }
{
    for child in children {
        push_count(out, u64::from(*child))?;
    }
    Ok(())
}

// Writes the member `op`, the operator of a source, and members for what it has beside its children.
// `known` keeps the windows of the switches before, for one with the same cases.
fn push_op<'a>(
    alloc: Global,
    out: &mut Out,
    op: &'a Op,
    known: &mut Known<'a>,
) -> Result<(), Memory>
    requires { IsKnown known.old }
    ensures known { OnOk result (IsKnown known.new) }
    ensures told { OnOk result (Adds out.old out.new (op_members op.now)) }
{
    match op {
        Op::Single(file) => push_file(out, "single", file),
        Op::Playlist { file, again } => {
            push_file(out, "playlist", file)?;
            push_flag(out, "again", *again)?;
            Ok(())
        }
        Op::Blank { track } => push_sized(out, "blank", "track", *track),
        Op::Square { .. } => push_word(out, "square"),
        Op::Fail => push_word(out, "fail"),
        Op::Fallback { sensitive } => push_choice(out, "fallback", *sensitive),
        Op::Switch { sensitive, preds } => {
            push_switch(alloc, out, *sensitive, preds.as_slice(), known)
        }
        Op::Sequence => push_word(out, "sequence"),
        Op::Rotate => push_word(out, "rotate"),
        Op::Random { .. } => push_word(out, "random"),
        Op::Add { .. } => push_word(out, "add"),
        Op::Amplify { .. } => push_word(out, "amplify"),
        Op::Mean => push_word(out, "mean"),
        Op::Stereo => push_word(out, "stereo"),
        Op::Crossfade { overlap } => push_sized(out, "crossfade", "overlap", u64::from(*overlap)),
        Op::Buffer(_) => push_word(out, "buffer"),
        Op::Clock(_) => push_word(out, "clock"),
    }
}

// Writes the member `op`, the word of the language for an operator.
fn push_word(out: &mut Out, word: &str) -> Result<(), Memory>
    ensures { OnOk result (Adds out.old out.new (text_member (codes "op") word.now)) }
{
    push_text(out, "op", word)
}

// Writes the members `op` and `file` of an operator that plays a file or a list: its word, and the name.
fn push_file(out: &mut Out, word: &str, file: &Text) -> Result<(), Memory>
    ensures { OnOk result (Adds out.old out.new
        (text_member (codes "op") word.now ++ text_member (codes "file") file.now)) }
{
    push_word(out, word)?;
    push_text(out, "file", file.as_str())
}

// Writes the member `op`, the word for an operator, and a member `name` with a number that it has.
fn push_sized(out: &mut Out, word: &str, name: &str, size: u64) -> Result<(), Memory>
    ensures { OnOk result (Adds out.old out.new
        (text_member (codes "op") word.now ++ number_member name.now size)) }
{
    push_word(out, word)?;
    push_number(out, name, size)
}

// Writes the members `op` and `sensitive` of an operator that chooses: its word, and whether it is track-sensitive.
fn push_choice(out: &mut Out, word: &str, sensitive: bool) -> Result<(), Memory>
    ensures { OnOk result (Adds out.old out.new
        (text_member (codes "op") word.now ++ flag_member (codes "sensitive") sensitive)) }
{
    push_word(out, word)?;
    push_flag(out, "sensitive", sensitive)?;
    Ok(())
}

// Writes the members of a switch: its word, whether it is track-sensitive, and for each case its windows of the week,
// found from its predicate. `known` keeps those of the switches before, which serve again where the cases are the same.
fn push_switch<'a>(
    alloc: Global,
    out: &mut Out,
    sensitive: bool,
    preds: &'a [SharedPred],
    known: &mut Known<'a>,
) -> Result<(), Memory>
    requires { IsKnown known.old }
    ensures known { OnOk result (IsKnown known.new) }
    ensures told { OnOk result (Adds out.old out.new (text_member (codes "op") (codes "switch")
        ++ (flag_member (codes "sensitive") sensitive
        ++ list_member (codes "windows") windows_object (case_windows [] (map view_shared preds.now))))) }
{
    let windows = windows_again(alloc, known, preds)?;
    push_word(out, "switch")?;
    push_flag(out, "sensitive", sensitive)?;
    push_windows(out, &windows)?;
    Ok(())
}

// Writes the member `windows` of a switch, a list with an object for each case.
fn push_windows(out: &mut Out, windows: &[Windows]) -> Result<(), Memory>
    ensures { OnOk result (Adds out.old out.new (list_member (codes "windows") windows_object windows.now)) }
{
    begin_list(out, "windows")?;
    push_each_window(out, windows)?;
    end_list(out)
}

// Writes the object of the windows of each case, one after another.
fn push_each_window(out: &mut Out, windows: &[Windows]) -> Result<(), Memory>
    ensures { OnOk result (Adds out.old out.new (each windows_object windows.now)) }
{
    for one in windows {
        push_window(out, *one)?;
    }
    Ok(())
}

// Writes the object of the windows of a case: how many it has in the week, and how long they are, if it has any.
fn push_window(out: &mut Out, windows: Windows) -> Result<(), Memory>
    ensures { OnOk result (Adds out.old out.new (windows_object windows)) }
{
    begin(out)?;
    push_number(out, "count", windows.count)?;
    push_lengths(out, windows)?;
    end(out)
}

// Writes the members `shortest` and `longest`, how many seconds these windows have; nothing if there is no window.
fn push_lengths(out: &mut Out, windows: Windows) -> Result<(), Memory>
    ensures { OnOk result (Adds out.old out.new
        (if nat_eq windows.count 0 then [] else length_members windows)) }
{
    if windows.count == 0 {
        return Ok(());
    }
    push_number(out, "shortest", windows.shortest)?;
    push_number(out, "longest", windows.longest)?;
    Ok(())
}
