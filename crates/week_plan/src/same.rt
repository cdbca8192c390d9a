// Whether predicates are the same, part by part.
ghost use Rattle.std.specs.Prelude.{◌≡◌, true, map};
ghost use Rattle.time_pred.specs.Predicates.{Always, At, Between, Never};
ghost use Rattle.time_pred.specs.View.{view_pred, view_shared};

use fixed_text::TimeMark;
use time_pred::{Pred, SharedPred};

/// Whether two lists have predicates that are written alike, in the same order. It takes no memory.
pub fn same_preds(preds: &[SharedPred], others: &[SharedPred]) -> bool
    ensures { result ≡ true → map view_shared preds.now ≡ map view_shared others.now }
{
    if preds.len() != others.len() {
        return false;
    }
    for k in 0..preds.len() {
        if !same_pred(&preds[k], &others[k]) {
            return false;
        }
    }
    true
}

/// Whether two predicates are written alike, which is more than that they hold at the same times. It takes no memory.
pub fn same_pred(pred: &SharedPred, other: &SharedPred) -> bool
    ensures { result ≡ true → view_shared pred.now ≡ view_shared other.now }
{
    is_same(pred.as_pred(), other.as_pred())
}

// Whether two predicates are written alike, part by part. A predicate with the same meaning in another form is told as
// different.
#[cycle(same)]
fn is_same(pred: &Pred, other: &Pred) -> bool
    ensures { result ≡ true → view_pred pred.now ≡ view_pred other.now }
{
    match pred {
        Pred::Always => is_always(other),
        Pred::Never => is_never(other),
        Pred::At(mark) => is_mark(*mark, other),
        Pred::Between(from, to) => is_interval(*from, *to, other),
        Pred::Not(inner) => match other {
            Pred::Not(turned) => is_same(inner, turned),
            _ => false,
        },
        Pred::All(parts) => match other {
            Pred::All(others) => all_same(parts, others),
            _ => false,
        },
        Pred::Any(parts) => match other {
            Pred::Any(others) => all_same(parts, others),
            _ => false,
        },
    }
}

// Whether two lists, the parts of two `and`s or of two `or`s, have predicates that are written alike, in the same
// order.
#[cycle(same)]
fn all_same(parts: &[Pred], others: &[Pred]) -> bool
    ensures { result ≡ true → map view_pred parts.now ≡ map view_pred others.now }
{
    if parts.len() != others.len() {
        return false;
    }
    for k in 0..parts.len() {
        if !is_same(&parts[k], &others[k]) {
            return false;
        }
    }
    true
}

// Whether a predicate is written `true`.
fn is_always(pred: &Pred) -> bool
    ensures { result ≡ true → Always ≡ view_pred pred.now }
{
    match pred {
        Pred::Always => true,
        _ => false,
    }
}

// Whether a predicate is written `false`.
fn is_never(pred: &Pred) -> bool
    ensures { result ≡ true → Never ≡ view_pred pred.now }
{
    match pred {
        Pred::Never => true,
        _ => false,
    }
}

// Whether a predicate is a time mark, such as `8h`, and this one.
fn is_mark(mark: TimeMark, pred: &Pred) -> bool
    ensures { result ≡ true → At mark ≡ view_pred pred.now }
{
    match pred {
        Pred::At(other) => is_one(mark, *other),
        _ => false,
    }
}

// Whether a predicate is an interval of time, such as `8h-12h`, that begins at the mark `from` and ends at `to`.
fn is_interval(from: TimeMark, to: TimeMark, pred: &Pred) -> bool
    ensures { result ≡ true → Between from to ≡ view_pred pred.now }
{
    match pred {
        Pred::Between(since, until) => is_both(from, *since, to, *until),
        _ => false,
    }
}

// Whether two intervals of time have the same marks: `from` and `since` begin them, `to` and `until` end them.
fn is_both(from: TimeMark, since: TimeMark, to: TimeMark, until: TimeMark) -> bool
    ensures from { result ≡ true → from ≡ since }
    ensures to { result ≡ true → to ≡ until }
{
    if is_one(from, since) {
        return is_one(to, until);
    }
    false
}

// Whether two time marks, such as `8h`, are the same.
fn is_one(mark: TimeMark, other: TimeMark) -> bool
    ensures { result ≡ true → mark ≡ other }
{
    mark == other
}
