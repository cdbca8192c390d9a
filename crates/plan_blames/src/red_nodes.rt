// The sources that are to blame for a silence.
ghost use Rattle.std.specs.Prelude.{◌≡◌, ◌<◌, ◌≤◌, ◌+◌, ◌&&◌, IfOk, drop, false, length};
ghost use Rattle.std.specs.List.{list_any, zip};
ghost use Rattle.fallible_infer.specs.Infallible.{mark_at};
ghost use Rattle.plan_blames.specs.Blames.{is_to_blame, reds_from};
ghost use Rattle.plan_blames.specs.Needs.{needs};

use crate::blames::mark;
use crate::needs::needs;
use liq_base::Memory;
use plan_core::Node;
use std::alloc::Global;

/// Of each source whether it is to blame for a silence: the `refused` one is, and so is each source that may offer
/// nothing and that a source to blame needs. `marks` has of each source whether it always offers something. It goes
/// from the last source to the first, since children stand before their parents.
pub fn reds(
    alloc: Global,
    nodes: &[Node],
    marks: &[bool],
    refused: u32,
) -> Result<Vec<bool>, Memory>
    ensures { IfOk result (λ reds. reds.items ≡ reds_from (mark_at marks.now) refused 0 nodes.now) }
{
    let mut reds = vec![in alloc; false; nodes.len()]?;
    let mut k = nodes.len();
    while k > 0 {
        k -= 1;
        let red = is_to_blame(nodes, &reds, marks, refused, k);
        reds[k] = red;
    }
    Ok(reds)
}

// Whether source k is to blame for a silence: it is the `refused` one, or it may offer nothing, by `marks`, and a
// source to blame needs it. Such a source stands after it, and of all those after it `reds` says already whether they
// are to blame.
fn is_to_blame(nodes: &[Node], reds: &[bool], marks: &[bool], refused: u32, k: usize) -> bool
    requires here { k < length nodes.now }
    requires size { length reds.now ≡ length nodes.now }
    ensures { result ≡ is_to_blame (mark_at marks.now) refused k (drop (k + 1) nodes.now) (drop (k + 1) reds.now) }
{
    k as u64 == refused as u64
        || !mark(marks, k) && is_needed(&nodes[k + 1..], &reds[k + 1..], k as u64)
}

// Whether one of these sources that `reds` marks, a mark for each, needs this child: it would always offer something if
// the child did.
fn is_needed(nodes: &[Node], reds: &[bool], child: u64) -> bool
    requires { length reds.now ≡ length nodes.now }
    ensures { result ≡ list_any (λ pair. pair.1 && needs (pair.0).op (pair.0).children child) (zip nodes.now reds.now) }
{
    for (k, node) in nodes.iter().enumerate() {
        if reds[k] && needs(&node.op, node.children.as_slice(), child) {
            return true;
        }
    }
    false
}
