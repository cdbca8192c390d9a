// What two types leave to compare while variables are bound to make them equal.
ghost use Rattle.std.specs.Prelude.{◌≡◌};
ghost use Rattle.type_terms.specs.Agenda.{agenda_of, empty_agenda};

use crate::ty::Ty;
use indexmap::IndexSet;
use std::alloc::Global;

/// The pairs that are still to be compared, as copies, so that variables can be bound meanwhile, and the pairs of
/// variables that were taken apart.
#[derive(Drop)]
pub struct Agenda {
    pub work: Vec<(Ty, Ty)>,
    pub seen: IndexSet<(u64, u64)>,
}

impl Agenda {
    /// An agenda of unification with nothing to compare.
    pub fn new(alloc: Global) -> Agenda
        ensures { agenda_of result ≡ empty_agenda }
    {
        Agenda {
            work: Vec::new(alloc),
            seen: IndexSet::new(alloc),
        }
    }
}
