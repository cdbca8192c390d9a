// Nodes that offer a cell at each instant.
ghost use Rattle.std.specs.Prelude.{◌≡◌, ◌&&◌, ◌<◌, false, length, map, All, IfOk};
ghost use Rattle.std.specs.List.{list_any, zip};
ghost use Rattle.std.specs.Option.{option_map_or};
ghost use Rattle.plan_core.specs.Plans.{IsWellFormed, HasChildren};
ghost use Rattle.time_pred.specs.Predicates.{is_always};
ghost use Rattle.time_pred.specs.View.{view_shared};
ghost use Rattle.fallible_infer.specs.Infallible.{mark_at, last_of, infallible_by, IsMarking};

use liq_base::Memory;
use plan_core::{Node, Op, Plan};
use std::alloc::Global;
use time_pred::SharedPred;

/// Marks for each node, by its number, whether it is infallible, by the rule of `docs/fallible.md`.
/// Such a node offers a cell at each instant, whatever the time of the week is and whatever buffers answer.
/// One pass is enough, since the children of a node have smaller numbers.
pub fn infallible(alloc: Global, plan: &Plan) -> Result<Vec<bool>, Memory>
    requires { IsWellFormed plan.now }
    ensures size { IfOk result (λ marks. length marks.items ≡ length plan.now.nodes) }
    ensures exact { IfOk result (λ marks. IsMarking plan.now.nodes (mark_at marks.items)) }
{
    let nodes = plan.nodes.as_slice();
    let mut marks = Vec::with_capacity(alloc, nodes.len())?;
    for node in nodes {
        let mark = follows(node, &marks);
        marks.push(mark)?;
    }
    Ok(marks)
}

// Whether some of these children is infallible, that is, always offers a cell; `marks` says it of each node.
fn some_child(children: &[u32], marks: &[bool]) -> bool
    requires { All (λ child. child < length marks.now) children.now }
    ensures { result ≡ list_any (mark_at marks.now) children.now }
{
    for child in children {
        if marks[*child as usize] {
            return true;
        }
    }
    false
}

// Whether some child of a switch is infallible, as `marks` says, and its predicate is always true by its form.
fn some_always(preds: &[SharedPred], children: &[u32], marks: &[bool]) -> bool
    requires number { length children.now ≡ length preds.now }
    requires children { All (λ child. child < length marks.now) children.now }
    ensures { result ≡ list_any (λ pair. is_always pair.0
        && mark_at marks.now pair.1) (zip (map view_shared preds.now) children.now) }
{
    for (k, pred) in preds.iter().enumerate() {
        if pred.always() && marks[children[k] as usize] {
            return true;
        }
    }
    false
}

// Whether the last of these children is infallible, as `marks` says of each node; false if there is none.
// It decides for a sequence, which stays with its last child.
fn last_child(children: &[u32], marks: &[bool]) -> bool
    requires { All (λ child. child < length marks.now) children.now }
    ensures { result ≡ option_map_or (mark_at marks.now) (last_of children.now) false }
{
    match children.last() {
        Some(child) => marks[*child as usize],
        None => false,
    }
}

// Whether a node is infallible, that is, always offers a cell, by its operator and the `marks` of the nodes before it.
// A playlist may end or have no usable file, and a buffer may be empty, so neither is.
fn follows(node: &Node, marks: &[bool]) -> bool
    requires number { HasChildren node.now.op (length node.now.children) }
    requires children { All (λ child. child < length marks.now) node.now.children }
    ensures { result ≡ infallible_by (mark_at marks.now) node.now.op node.now.children }
{
    let children = node.children.as_slice();
    match &node.op {
        Op::Single(_) => true,
        Op::Playlist { .. } => false,
        Op::Blank { .. } => true,
        Op::Square { .. } => true,
        Op::Fail => false,
        Op::Switch { preds, .. } => some_always(preds.as_slice(), children, marks),
        Op::Sequence => last_child(children, marks),
        Op::Buffer(_) => false,
        _ => some_child(children, marks),
    }
}
