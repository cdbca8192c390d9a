// A predicate that is held in several places.
ghost use Rattle.std.specs.Prelude.{◌≡◌, ◌<◌, ◌≤◌, ℕ, IsTrue, true, IfOk};
ghost use Rattle.time_pred.specs.Predicates.{holds, is_always};
ghost use Rattle.time_pred.specs.Marks.{Stays};
ghost use Rattle.time_pred.specs.View.{view_pred, view_shared};

use crate::Pred;
use fixed_text::WeekSecond;
use liq_base::Memory;
use std::alloc::Global;
use std::sync::Arc;

/// A predicate that values of a script and switches of a plan hold together, in any threads: its terms are held once,
/// however many switches have it. Contracts see its tree.
#[derive(Debug, Drop)]
pub struct SharedPred {
    pred: Arc<Pred>,
}

impl SharedPred {
    /// Takes in a predicate that values of a script and switches of a plan can then share; it is held in one place so
    /// far.
    pub fn new(alloc: Global, pred: Pred) -> Result<SharedPred, Memory>
        ensures { IfOk result (λ made. view_shared made ≡ view_pred pred) }
    {
        Ok(SharedPred {
            pred: Arc::new(alloc, pred)?,
        })
    }

    /// The same predicate for one more place that holds it. No term is copied.
    pub fn share(&self) -> Result<SharedPred, Memory>
        ensures { IfOk result (λ other. view_shared other ≡ view_shared self.now) }
    {
        Ok(SharedPred {
            pred: self.pred.clone()?,
        })
    }

    /// A view of the predicate itself, to be read.
    pub fn as_pred(&self) -> &Pred
        ensures { view_pred result.now ≡ view_shared self.now }
    {
        &self.pred
    }

    /// Whether the predicate holds at this second of the week. It takes no memory.
    pub fn holds(&self, at: WeekSecond) -> bool
        ensures { result ≡ holds (view_shared self.now) at.second }
    {
        self.pred.holds(at)
    }

    /// A number of seconds from this one on, at least 1 and at most a week, for which the answer of `holds` stays; it
    /// may stay longer. It takes no memory.
    pub fn steady(&self, at: WeekSecond) -> u32
        ensures stays { Stays (holds (view_shared self.now)) at.second result }
        ensures some { 0 < result }
        ensures most { result ≤ 604800 }
    {
        self.pred.steady(at)
    }

    /// Whether the predicate is always true by its form. It takes no memory.
    pub fn always(&self) -> bool
        ensures by_form { result ≡ is_always (view_shared self.now) }
        ensures sound { IsTrue result → (at : ℕ) → holds (view_shared self.now) at ≡ true }
    {
        self.pred.always()
    }
}
