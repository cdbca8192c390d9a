// The sources for which a source may offer nothing.
ghost use Rattle.std.specs.Prelude.{◌≡◌, ◌≢◌, ℕ, IfSome, IsNone, false, true, map, slice_get};
ghost use Rattle.fallible_infer.specs.Infallible.{last_of};
ghost use Rattle.time_pred.specs.Predicates.{is_always};
ghost use Rattle.time_pred.specs.View.{view_shared};
ghost use Rattle.plan_blames.specs.Needs.{HasOther, IsAlone, IsOnly, is_last, needs, some_case, some_child};

use plan_core::Op;
use time_pred::SharedPred;

/// Whether a source that may offer nothing, of this operator over these children, needs this child: it would always
/// offer something if the child did. So it is with the child of a switch's case that is always true by its form, the
/// last child of a sequence, and each child of any other source.
pub fn needs(op: &Op, children: &[u32], child: u64) -> bool
    ensures { result ≡ needs op.now children.now child }
{
    match op {
        Op::Switch { preds, .. } => is_sure(preds.as_slice(), children, child),
        Op::Sequence => is_last(children, child),
        _ => contains(children, child),
    }
}

// Whether a switch with these predicates and children has a case for `child` that is always true by its form.
fn is_sure(preds: &[SharedPred], children: &[u32], child: u64) -> bool
    ensures { result ≡ some_case (map view_shared preds.now) children.now child }
{
    let count = preds.len().min(children.len());
    for k in 0..count {
        if preds[k].always() && children[k] as u64 == child {
            return true;
        }
    }
    false
}

// Whether `child` is the last of a sequence's children, which it plays for good in the end.
fn is_last(children: &[u32], child: u64) -> bool
    ensures { result ≡ is_last children.now child }
{
    match children.last() {
        Some(last) => *last as u64 == child,
        None => false,
    }
}

// Whether `child` is one of these children.
fn contains(children: &[u32], child: u64) -> bool
    ensures { result ≡ some_child children.now child }
{
    for other in children {
        if *other as u64 == child {
            return true;
        }
    }
    false
}

/// The one source that a source of this operator over these children needs, where it may offer nothing; `None` where it
/// needs none, or several.
pub fn only_needed(op: &Op, children: &[u32]) -> Option<u32>
    ensures { IsOnly (needs op.now children.now) result }
{
    match op {
        Op::Switch { preds, .. } => only_sure(preds.as_slice(), children),
        Op::Sequence => only_last(children),
        _ => only_child(children),
    }
}

// The one child of a switch that has cases whose predicate is always true by its form; `None` where none has, or
// several.
fn only_sure(preds: &[SharedPred], children: &[u32]) -> Option<u32>
    ensures { IsOnly (some_case (map view_shared preds.now) children.now) result }
{
    match first_sure(preds, children) {
        Some(first) => lone_sure(preds, children, first),
        None => None,
    }
}

// The child of a switch's first case whose predicate is always true by its form; `None` where there is no such case.
fn first_sure(preds: &[SharedPred], children: &[u32]) -> Option<u32>
    ensures some { IfSome result (λ child. some_case (map view_shared preds.now) children.now child ≡ true) }
    ensures none { IsNone result → (child : ℕ) → some_case (map view_shared preds.now) children.now child ≡ false }
{
    let count = preds.len().min(children.len());
    for k in 0..count {
        if preds[k].always() {
            return Some(children[k]);
        }
    }
    None
}

// `first`, a child of a switch that has a case always true by its form, if no other child has one; otherwise `None`.
fn lone_sure(preds: &[SharedPred], children: &[u32], first: u32) -> Option<u32>
    requires { some_case (map view_shared preds.now) children.now first ≡ true }
    ensures { IsOnly (some_case (map view_shared preds.now) children.now) result }
{
    if other_sure(preds, children, first) {
        return None;
    }
    Some(first)
}

// Whether a switch has a case always true by its form whose child is another one than `first`.
fn other_sure(preds: &[SharedPred], children: &[u32], first: u32) -> bool
    ensures yes { result ≡ true → HasOther (some_case (map view_shared preds.now) children.now) first }
    ensures no { result ≡ false → IsAlone (some_case (map view_shared preds.now) children.now) first }
{
    let count = preds.len().min(children.len());
    for k in 0..count {
        if is_other_case(&preds[k], children[k], first) {
            return true;
        }
    }
    false
}

// Whether a case of a switch, a predicate with its child, is always true by its form and leads to another child than
// `first`.
fn is_other_case(pred: &SharedPred, child: u32, first: u32) -> bool
    ensures yes { result ≡ true → (is_always (view_shared pred.now) ≡ true) × (child ≢ first) }
    ensures no { result ≡ false → is_always (view_shared pred.now) ≡ true → child ≡ first }
{
    if pred.always() { child != first } else { false }
}

// The one child that a sequence needs, its last; `None` where it has no child.
fn only_last(children: &[u32]) -> Option<u32>
    ensures { IsOnly (is_last children.now) result }
{
    last_of(children)
}

// The last of a source's children; `None` where it has none.
fn last_of(children: &[u32]) -> Option<u32>
    ensures { result ≡ last_of children.now }
{
    children.last().copied()
}

// The one child that all children of a source are; `None` where it has no child, or two that differ.
fn only_child(children: &[u32]) -> Option<u32>
    ensures { IsOnly (some_child children.now) result }
{
    match first_of(children) {
        Some(first) => lone_child(children, first),
        None => None,
    }
}

// The first of a source's children; `None` where it has none.
fn first_of(children: &[u32]) -> Option<u32>
    ensures { result ≡ slice_get children.now 0 }
{
    children.first().copied()
}

// `first`, if all children of a source are that one; otherwise `None`.
fn lone_child(children: &[u32], first: u32) -> Option<u32>
    requires { some_child children.now first ≡ true }
    ensures { IsOnly (some_child children.now) result }
{
    if other_child(children, first) {
        return None;
    }
    Some(first)
}

// Whether a source has another child than `first`.
fn other_child(children: &[u32], first: u32) -> bool
    ensures yes { result ≡ true → HasOther (some_child children.now) first }
    ensures no { result ≡ false → IsAlone (some_child children.now) first }
{
    for child in children {
        if *child != first {
            return true;
        }
    }
    false
}
