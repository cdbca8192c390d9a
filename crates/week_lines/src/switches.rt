// What is told of the switches of a plan.
ghost use Rattle.std.specs.Prelude.{◌≡◌, ◌↔◌, ◌++◌, [], ◌&&◌, ◌||◌, ℕ, All, Bool, List, Some, true, false, not, length};
ghost use Rattle.std.specs.Prelude.{get_or, map, slice_get, IfOk, OnOk};
ghost use Rattle.fallible_infer.specs.Infallible.{mark_at};
ghost use Rattle.plan_core.specs.Plans.{IsWellFormed};
ghost use Rattle.time_pred.specs.View.{view_shared};
ghost use Rattle.week_plan.specs.Looked.{IsLooked};
ghost use Rattle.week_plan.specs.Spans.{AreSpansOf, IsDaily, some_case_holds};
ghost use Rattle.week_plan.specs.Tables.{IsTable, IsTableOf, is_told};
ghost use Rattle.week_plan.specs.declared.span.Span.{Span};
ghost use Rattle.week_lines.specs.Instead.{IsBelow};
ghost use Rattle.week_lines.specs.Weeks.{AreLines, IsOfSource, IsSwitchText, fates_text, holes_text, is_silence};
ghost use Rattle.week_lines.specs.Weeks.{is_silent, some_silent};

use crate::above::{Instead, instead_of};
use crate::below::is_marked;
use crate::cases::push_cases;
use crate::lines::push_hole;
use liq_base::Memory;
use plan_core::{Node, Op, Plan};
use std::alloc::Global;
use time_pred::SharedPred;
use week_plan::{Looked, Seen, Span, Way, is_daily, join, look_kept, spans_of};

/// A switch: its number, what plays in its place, whether a track that runs ends first, and whether it follows the
/// clock of a crossfade.
#[derive(Clone, Copy)]
pub struct Switch {
    pub number: usize,
    pub instead: Instead,
    pub sensitive: bool,
    pub below: bool,
}

/// Appends what is told of each switch, in the order of sources, and adds to `silent`, a table of bits, the seconds of
/// the week at which one is silent. Of each source `marks` says whether it never falls silent, and `below` whether it
/// lies below a crossfade.
pub fn push_switches(
    alloc: Global,
    into: &mut Vec<u8>,
    silent: &mut [u64],
    plan: &Plan,
    marks: &[bool],
    below: &[bool],
) -> Result<(), Memory>
    requires plan { IsWellFormed plan.now }
    requires empty { into.old.items ≡ [] }
    requires none { IsTableOf (λ at. false) silent.old }
    requires below { (number : ℕ) → (get_or below.now number false ≡ true) ↔ IsBelow plan.now.nodes number }
    ensures lines { OnOk result (AreLines plan.now (mark_at marks.now) into.new.items) }
    ensures silent { OnOk result (IsTableOf (some_silent plan.now (length plan.now.nodes)) silent.new) }
{
    let mut kept = Vec::new(alloc);
    push_each(alloc, into, silent, plan, marks, below, &mut kept)?;
    Ok(())
}

// Appends what is told of each switch, and adds to `silent` the seconds at which one is silent. Of each source `marks`
// says whether it never falls silent, and `below` whether it lies below a crossfade. `kept` holds what was found of
// switches, since a later one may have the same cases.
fn push_each<'a>(
    alloc: Global,
    into: &mut Vec<u8>,
    silent: &mut [u64],
    plan: &'a Plan,
    marks: &[bool],
    below: &[bool],
    kept: &mut Vec<Looked<'a>>,
) -> Result<(), Memory>
    requires plan { IsWellFormed plan.now }
    requires empty { into.old.items ≡ [] }
    requires none { IsTableOf (λ at. false) silent.old }
    requires below { (number : ℕ) → (get_or below.now number false ≡ true) ↔ IsBelow plan.now.nodes number }
    requires kept { All IsLooked kept.old.items }
    ensures lines { OnOk result (AreLines plan.now (mark_at marks.now) into.new.items) }
    ensures silent { OnOk result (IsTableOf (some_silent plan.now (length plan.now.nodes)) silent.new) }
{
    let nodes = plan.nodes.as_slice();
    for number in 0..nodes.len() {
        push_node(
            alloc,
            into,
            silent,
            plan,
            &nodes[number],
            marks,
            below,
            number,
            kept,
        )?;
    }
    Ok(())
}

// If source `number`, whose node this is, is a switch, appends what is told of it and adds to `silent` the seconds at
// which it is silent. Of each source `marks` says whether it never falls silent, and `below` whether it lies below a
// crossfade. `kept` holds what was found of earlier switches.
fn push_node<'a>(
    alloc: Global,
    into: &mut Vec<u8>,
    silent: &mut [u64],
    plan: &Plan,
    node: &'a Node,
    marks: &[bool],
    below: &[bool],
    number: usize,
    kept: &mut Vec<Looked<'a>>,
) -> Result<(), Memory>
    requires plan { IsWellFormed plan.now }
    requires node { slice_get plan.now.nodes number ≡ Some node.now }
    requires table { IsTable silent.old }
    requires below { (get_or below.now number false ≡ true) ↔ IsBelow plan.now.nodes number }
    requires kept { All IsLooked kept.old.items }
    ensures text { OnOk result ((own : List ℕ)
        × IsOfSource plan.now (mark_at marks.now) number node.now.op node.now.children own
        × (into.new.items ≡ into.old.items ++ own)) }
    ensures silent { OnOk result
        (IsTableOf (λ at. is_told silent.old at || is_silent plan.now number at) silent.new) }
    ensures kept { OnOk result (All IsLooked kept.new.items) }
{
    match &node.op {
        Op::Switch { sensitive, preds } => {
            let switch = Switch {
                number,
                instead: instead_of(plan, number),
                sensitive: *sensitive,
                below: is_marked(below, number),
            };
            push_looked(
                alloc,
                into,
                silent,
                switch,
                preds.as_slice(),
                node.children.as_slice(),
                marks,
                kept,
            )
        }
        _ => Ok(()),
    }
}

// Appends what is told of a switch whose cases have these predicates and children, and adds its silence to `silent`.
// What is found of the cases is looked up in `kept`, or computed and held there. `marks` says of each source whether it
// never falls silent.
fn push_looked<'a>(
    alloc: Global,
    into: &mut Vec<u8>,
    silent: &mut [u64],
    switch: Switch,
    preds: &'a [SharedPred],
    children: &[u32],
    marks: &[bool],
    kept: &mut Vec<Looked<'a>>,
) -> Result<(), Memory>
    requires size { length children.now ≡ length preds.now }
    requires table { IsTable silent.old }
    requires kept { All IsLooked kept.old.items }
    ensures text { OnOk result ((own : List ℕ)
        × IsSwitchText switch.number switch.instead switch.sensitive switch.below (map view_shared preds.now)
        (map (mark_at marks.now) children.now) own
        × (into.new.items ≡ into.old.items ++ own)) }
    ensures silent { OnOk result (IsTableOf (λ at. is_told silent.old at
        || (is_silence switch.instead && not (some_case_holds (map view_shared preds.now) at))) silent.new) }
    ensures kept { OnOk result (All IsLooked kept.new.items) }
{
    let sure = sure_of(alloc, marks, children)?;
    let place = look_kept(alloc, kept, preds, sure)?;
    push_seen(alloc, into, silent, switch, &kept[place].seen)?;
    Ok(())
}

// Of each child of a switch whether it never falls silent, by the marks of all sources.
fn sure_of(alloc: Global, marks: &[bool], children: &[u32]) -> Result<Vec<bool>, Memory>
    ensures { IfOk result (λ sure. sure.items ≡ map (mark_at marks.now) children.now) }
{
    let mut sure = Vec::new(alloc);
    for child in children {
        sure.push(is_marked(marks, *child as usize))?;
    }
    Ok(sure)
}

// Appends the lines of a switch by what was `seen` of its cases: its holes, at which no case holds, and the cases never
// chosen. Adds the holes to `silent`, a table of bits of the week's seconds, if silence plays then.
fn push_seen(
    alloc: Global,
    into: &mut Vec<u8>,
    silent: &mut [u64],
    switch: Switch,
    seen: &Seen,
) -> Result<(), Memory>
    requires holes { IsTable seen.now.holes.items }
    requires table { IsTable silent.old }
    ensures text { OnOk result ((spans : List Span) × AreSpansOf (is_told seen.now.holes.items) spans
        × (daily : Bool) × ((daily ≡ true) ↔ IsDaily (is_told seen.now.holes.items))
        × (into.new.items ≡ into.old.items
        ++ (holes_text switch.number spans daily switch.instead switch.sensitive switch.below
        ++ fates_text switch.number 0 seen.now.fates.items))) }
    ensures silent { OnOk result (IsTableOf (λ at. is_told silent.old at
        || (is_silence switch.instead && is_told seen.now.holes.items at)) silent.new) }
{
    let spans = spans_of(alloc, &seen.holes)?;
    push_holes(alloc, into, switch, &spans, is_daily(&seen.holes))?;
    push_cases(into, switch.number, &seen.fates)?;
    add_silence(silent, switch.instead, &seen.holes);
    Ok(())
}

// Appends the line about the holes of a switch, if it has some: the `spans` of the week in which no case of it holds,
// which are the same each day if `daily`.
fn push_holes(
    alloc: Global,
    into: &mut Vec<u8>,
    switch: Switch,
    spans: &[Span],
    daily: bool,
) -> Result<(), Memory>
    ensures { OnOk result (into.new.items ≡ into.old.items
        ++ holes_text switch.number spans.now daily switch.instead switch.sensitive switch.below) }
{
    match spans {
        [] => Ok(()),
        [_, ..] => push_hole(
            alloc,
            into,
            switch.number,
            spans,
            daily,
            switch.instead,
            switch.sensitive,
            switch.below,
        ),
    }
}

// Adds the `holes` of a switch, the seconds of the week at which no case of it holds, to `silent`, if silence plays in
// its place. Both are tables of bits.
fn add_silence(silent: &mut [u64], instead: Instead, holes: &[u64])
    requires silent { IsTable silent.old }
    requires holes { IsTable holes.now }
    ensures { IsTableOf (λ at. is_told silent.old at || (is_silence instead && is_told holes.now at)) silent.new }
{
    match instead {
        Instead::Silence => join(silent, holes, Way::Either),
        Instead::Next | Instead::Unknown => {}
    }
}
