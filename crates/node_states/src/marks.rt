// Which children of a node that chooses are eligible, and for how long.
ghost use Rattle.std.specs.Prelude.{◌≡◌, ◌<◌, ◌≤◌, ◌+◌, ◌%◌, ℕ, length, map};
ghost use Rattle.liq_base.specs.declared.memory.Kind.{Kind};
ghost use Rattle.plan_core.specs.Plans.{HasChildren};
ghost use Rattle.stream_meaning.specs.Operators.{Choice, Eligible, marks_at, Picks, work_of};
ghost use Rattle.time_pred.specs.Predicates.{holds};
ghost use Rattle.time_pred.specs.View.{view_shared};

use fixed_text::WeekSecond;
use plan_core::Op;
use time_pred::SharedPred;

// The seconds of a week.
const WEEK: u32 = 604_800;

/// Sets in `marks`, for each child of a node that chooses, whether it may be chosen at this second of the week.
/// Of a switch those children may be chosen whose predicate holds, and of any other node all.
pub fn mark_eligible(op: &Op, at: WeekSecond, marks: &mut [bool])
    requires { HasChildren op.now (length marks.old) }
    ensures { (rate i : ℕ) (kind : Kind) (choice : Choice) (eligible : Eligible)
        → work_of rate i kind op.now ≡ Picks choice eligible
        → marks.new ≡ marks_at eligible at.second (length marks.old) }
{
    match op {
        Op::Switch { preds, .. } => test_all(preds.as_slice(), at, marks),
        _ => marks.fill(true),
    }
}

// Sets a mark for each child of a switch, whether its predicate holds at this second of the week.
fn test_all(preds: &[SharedPred], at: WeekSecond, marks: &mut [bool])
    requires { length marks.old ≡ length preds.now }
    ensures { marks.new ≡ map (λ pred. holds (view_shared pred) at.second) preds.now }
{
    for child in 0..preds.len() {
        marks[child] = preds[child].holds(at);
    }
}

/// For how many seconds from this one on the same children of a node may be chosen; this second is the first of them.
/// It is at least 1 and at most a week, and may be fewer than it could be.
pub fn steady_seconds(op: &Op, at: WeekSecond) -> u32
    ensures some { 0 < result }
    ensures most { result ≤ 604800 }
    ensures stays { (rate i : ℕ) (kind : Kind) (choice : Choice) (eligible : Eligible) (j children : ℕ)
        → work_of rate i kind op.now ≡ Picks choice eligible → j < result
        → marks_at eligible ((at.second + j) % 604800) children ≡ marks_at eligible at.second children }
{
    match op {
        Op::Switch { preds, .. } => least_steady(preds.as_slice(), at),
        _ => WEEK,
    }
}

// For how many seconds from this one on, at most a week, each predicate of a switch stays true or false as it is now.
// This second is the first of them.
fn least_steady(preds: &[SharedPred], at: WeekSecond) -> u32
    ensures some { 0 < result }
    ensures most { result ≤ 604800 }
    ensures stays { (j : ℕ) → j < result
        → map (λ pred. holds (view_shared pred) ((at.second + j) % 604800)) preds.now
        ≡ map (λ pred. holds (view_shared pred) at.second) preds.now }
{
    let mut least = WEEK;
    for pred in preds {
        least = pred.steady(at).min(least);
    }
    least
}
