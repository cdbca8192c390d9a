// Which sources follow the clock of a crossfade.
ghost use Rattle.std.specs.Prelude.{◌≡◌, ◌<◌, ◌↔◌, ◌||◌, ℕ, true, false, length, get_or, nat_eq, All, IfOk};
ghost use Rattle.std.specs.List.{list_any};
ghost use Rattle.plan_core.specs.Plans.{AreNodes};
ghost use Rattle.week_lines.specs.Instead.{IsBelow, is_crossfade};

use liq_base::Memory;
use plan_core::{Node, Op};
use std::alloc::Global;

/// Of each source whether it lies below a crossfade, whose own clock it then follows.
pub fn below_crossfades(alloc: Global, nodes: &[Node]) -> Result<Vec<bool>, Memory>
    requires { AreNodes nodes.now }
    ensures { IfOk result (λ below. (number : ℕ) → (get_or below.items number false ≡ true) ↔ IsBelow nodes.now
        number) }
{
    let mut below = vec![in alloc; false; nodes.len()]?;
    mark_below(&mut below, nodes);
    Ok(below)
}

// Marks in `below`, where nothing is marked before, each source that lies below a crossfade. It goes from the last
// source to the first, since the children of a source stand before it.
fn mark_below(below: &mut [bool], nodes: &[Node])
    requires nodes { AreNodes nodes.now }
    requires size { length below.old ≡ length nodes.now }
    requires none { (number : ℕ) → get_or below.old number false ≡ false }
    ensures { (number : ℕ) → (get_or below.new number false ≡ true) ↔ IsBelow nodes.now number }
{
    for k in 0..nodes.len() {
        let n = nodes.len() - 1 - k;
        let node = &nodes[n];
        if !is_over(below, n, node) {
            continue;
        }
        mark_all(below, node.children.as_slice());
    }
}

// Whether node n is a crossfade, or lies below one; then its children lie below one.
fn is_over(below: &[bool], n: usize, node: &Node) -> bool
    ensures { result ≡ (is_crossfade node.now.op || get_or below.now n false) }
{
    is_crossfade(&node.op) || is_marked(below, n)
}

// Whether an operator is a crossfade.
fn is_crossfade(op: &Op) -> bool
    ensures { result ≡ is_crossfade op.now }
{
    match op {
        Op::Crossfade { .. } => true,
        _ => false,
    }
}

// Marks these children of a source as lying below a crossfade.
fn mark_all(below: &mut [bool], children: &[u32])
    ensures size { length below.new ≡ length below.old }
    ensures marked { (n : ℕ) → n < length below.old → get_or below.new n false
        ≡ (get_or below.old n false || list_any (λ child. nat_eq child n) children.now) }
{
    for child in children {
        let n = *child as usize;
        if n < below.len() {
            below[n] = true;
        }
    }
}

/// Whether source n is marked in a list that has a mark for each source; `false` where there is no such source.
pub fn is_marked(marks: &[bool], n: usize) -> bool
    ensures { result ≡ get_or marks.now n false }
{
    match marks.get(n) {
        Some(mark) => *mark,
        None => false,
    }
}
