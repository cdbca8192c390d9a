// Predicates, by form and at a second of the week.
ghost use Rattle.std.specs.Prelude.{◌≡◌, ◌<◌, ◌≤◌, ℕ, IsTrue, true, IfOk, map};
ghost use Rattle.std.specs.List.{list_all, list_any};
ghost use Rattle.time_pred.specs.Predicates.{holds, is_always, is_never};
ghost use Rattle.time_pred.specs.Marks.{Stays};
ghost use Rattle.time_pred.specs.View.{view_pred};

use crate::mark::{WEEK, is_at, is_between, steady_at, steady_between};
use fixed_text::{TimeMark, WeekSecond};
use liq_base::Memory;
use std::alloc::Global;

/// A predicate of a script on the time of the week. `docs/language.md`, "Predicates and time", says when it holds.
#[derive(Debug, Drop)]
pub enum Pred {
    /// `true`: at every second.
    Always,

    /// `false`: at no second.
    Never,

    /// A mark alone.
    At(TimeMark),

    /// The interval from one mark to another, the second left out.
    Between(TimeMark, TimeMark),

    /// Where the other does not hold.
    Not(Box<Pred>),

    /// Where all parts hold.
    All(Vec<Pred>),

    /// Where at least one part holds.
    Any(Vec<Pred>),
}

impl Pred {
    /// Whether the predicate holds at this second of the week. It takes no memory.
    #[cycle(holds)]
    pub fn holds(&self, at: WeekSecond) -> bool
        ensures { result ≡ holds (view_pred self.now) at.second }
    {
        match self {
            Pred::Always => true,
            Pred::Never => false,
            Pred::At(mark) => is_at(*mark, at),
            Pred::Between(from, to) => is_between(*from, *to, at),
            Pred::Not(inner) => !inner.holds(at),
            Pred::All(parts) => all_hold(parts, at),
            Pred::Any(parts) => some_holds(parts, at),
        }
    }

    /// A number of seconds from this one on, at least 1 and at most a week, for which the answer of `holds` stays. It
    /// takes no memory.
    #[cycle(steady)]
    pub fn steady(&self, at: WeekSecond) -> u32
        ensures stays { Stays (holds (view_pred self.now)) at.second result }
        ensures some { 0 < result }
        ensures most { result ≤ 604800 }
    {
        match self {
            Pred::Always | Pred::Never => WEEK,
            Pred::At(mark) => steady_at(*mark, at),
            Pred::Between(from, to) => steady_between(*from, *to, at),
            Pred::Not(inner) => inner.steady(at),
            Pred::All(parts) => steady_all(parts, at),
            Pred::Any(parts) => steady_all(parts, at),
        }
    }

    /// A copy of the predicate with all its parts, which shares nothing with it.
    #[cycle(copy)]
    pub fn copy(&self, alloc: Global) -> Result<Pred, Memory>
        ensures { IfOk result (λ copy. view_pred copy ≡ view_pred self.now) }
    {
        match self {
            Pred::Always => Ok(Pred::Always),
            Pred::Never => Ok(Pred::Never),
            Pred::At(mark) => Ok(Pred::At(*mark)),
            Pred::Between(from, to) => Ok(Pred::Between(*from, *to)),
            Pred::Not(inner) => Ok(Pred::Not(Box::new(alloc, inner.copy(alloc)?)?)),
            Pred::All(parts) => Ok(Pred::All(copies(alloc, parts)?)),
            Pred::Any(parts) => Ok(Pred::Any(copies(alloc, parts)?)),
        }
    }

    /// Whether the predicate is always true by its form. A mark or an interval is not, also one that covers its period.
    /// It takes no memory.
    pub fn always(&self) -> bool
        ensures by_form { result ≡ is_always (view_pred self.now) }
        ensures sound { IsTrue result → (at : ℕ) → holds (view_pred self.now) at ≡ true }
    {
        is_always(self)
    }
}

// Copies of these predicates, in their order.
#[cycle(copy)]
fn copies(alloc: Global, parts: &[Pred]) -> Result<Vec<Pred>, Memory>
    ensures { IfOk result (λ copies. map view_pred copies.items ≡ map view_pred parts.now) }
{
    let mut copies = Vec::new(alloc);
    for part in parts {
        copies.push(part.copy(alloc)?)?;
    }
    Ok(copies)
}

// For how many seconds from this one on, at least 1 and at most a week, each of these predicates keeps its answer: the
// least of what each tells, or a week if there are none.
#[cycle(steady)]
fn steady_all(parts: &[Pred], at: WeekSecond) -> u32
    ensures all { Stays (λ second. list_all (λ p. holds (view_pred p) second) parts.now) at.second result }
    ensures any { Stays (λ second. list_any (λ p. holds (view_pred p) second) parts.now) at.second result }
    ensures some { 0 < result }
    ensures most { result ≤ 604800 }
{
    let mut least = WEEK;
    for part in parts {
        least = part.steady(at).min(least);
    }
    least
}

// Whether all of these predicates hold at a second of the week.
#[cycle(holds)]
fn all_hold(parts: &[Pred], at: WeekSecond) -> bool
    ensures { result ≡ list_all (λ p. holds (view_pred p) at.second) parts.now }
{
    for part in parts {
        if !part.holds(at) {
            return false;
        }
    }
    true
}

// Whether one of these predicates holds at a second of the week.
#[cycle(holds)]
fn some_holds(parts: &[Pred], at: WeekSecond) -> bool
    ensures { result ≡ list_any (λ p. holds (view_pred p) at.second) parts.now }
{
    for part in parts {
        if part.holds(at) {
            return true;
        }
    }
    false
}

// Whether a predicate is always true by its form alone, whatever its time marks are: `true`, and what `not`, `and` and
// `or` make of such.
#[cycle(form)]
fn is_always(pred: &Pred) -> bool
    ensures { result ≡ is_always (view_pred pred.now) }
{
    match pred {
        Pred::Always => true,
        Pred::Never | Pred::At(_) | Pred::Between(..) => false,
        Pred::Not(inner) => is_never(inner),
        Pred::All(parts) => all_always(parts),
        Pred::Any(parts) => some_always(parts),
    }
}

// Whether a predicate is never true by its form alone, whatever its time marks are: `false`, and what `not`, `and` and
// `or` make of such.
#[cycle(form)]
fn is_never(pred: &Pred) -> bool
    ensures { result ≡ is_never (view_pred pred.now) }
{
    match pred {
        Pred::Never => true,
        Pred::Always | Pred::At(_) | Pred::Between(..) => false,
        Pred::Not(inner) => is_always(inner),
        Pred::All(parts) => some_never(parts),
        Pred::Any(parts) => all_never(parts),
    }
}

// Whether all of these predicates are always true by their form.
#[cycle(form)]
fn all_always(parts: &[Pred]) -> bool
    ensures { result ≡ list_all (λ p. is_always (view_pred p)) parts.now }
{
    for part in parts {
        if !is_always(part) {
            return false;
        }
    }
    true
}

// Whether one of these predicates is always true by its form.
#[cycle(form)]
fn some_always(parts: &[Pred]) -> bool
    ensures { result ≡ list_any (λ p. is_always (view_pred p)) parts.now }
{
    for part in parts {
        if is_always(part) {
            return true;
        }
    }
    false
}

// Whether all of these predicates are never true by their form.
#[cycle(form)]
fn all_never(parts: &[Pred]) -> bool
    ensures { result ≡ list_all (λ p. is_never (view_pred p)) parts.now }
{
    for part in parts {
        if !is_never(part) {
            return false;
        }
    }
    true
}

// Whether one of these predicates is never true by its form.
#[cycle(form)]
fn some_never(parts: &[Pred]) -> bool
    ensures { result ≡ list_any (λ p. is_never (view_pred p)) parts.now }
{
    for part in parts {
        if is_never(part) {
            return true;
        }
    }
    false
}
