// Which variables the types of names hold.
ghost use Rattle.std.specs.Prelude.{◌≡◌, ◌∷◌, [], List, OnOk};
ghost use Rattle.type_terms.specs.Agrees.{Follows};
ghost use Rattle.type_terms.specs.Table.{Table, IsOver};
ghost use Rattle.type_terms.specs.Term.{Term, term_of};
ghost use Rattle.general_types.specs.Holding.{AreThere, IsHeldBy, is_held};
ghost use Rattle.general_types.specs.Renewing.{AreHeldBy, counted_in};
ghost use Rattle.general_types.specs.Walks.{held, held_of};

use crate::renewing::{push_bound_kinds, push_bound_types, renew_both};
use crate::walking::{Reached, walk};
use indexmap::IndexSet;
use liq_base::Memory;
use std::alloc::Global;
use std::marker::Model;
use type_terms::{Subst, Ty};

/// Adds to `reached`, the free variables found so far, those in the type `name` of a name, with all that is bound
/// followed.
fn add_name(alloc: Global, subst: &Subst, reached: &mut Reached, name: &Ty) -> Result<(), Memory>
    requires over { IsOver subst.now (term_of name.now) }
    ensures { OnOk result ((names : List Term) → AreHeldBy subst.now names (held_of reached.old)
        → AreHeldBy subst.now (term_of name.now ∷ names) (held_of reached.new)) }
{
    let mut work = Vec::new(alloc);
    work.push(name)?;
    walk(&mut work, subst, reached)
}

/// The variables that the types of names hold: those in which a def that follows is not general.
#[derive(Drop)]
pub struct Held {
    reached: Reached,
    // So many variables there were, and so many of them were bound to nothing, when it was looked at last.
    type_count: usize,
    kind_count: usize,
    free_count: usize,
}

impl Model for Held {
    ghost use Rattle.general_types.specs.Holding.{HeldVariables, held_code};

    ghost Value = { HeldVariables };

    ghost coded = { held_code };

    ghost view = { λ s. record {
      types = s.reached.types.keys;
      kinds = s.reached.kinds.keys;
      passed = s.reached.passed.keys;
      type_count = s.type_count;
      kind_count = s.kind_count;
      free_count = s.free_count;
    } };
}

impl Held {
    /// The free variables of no names: none. It takes no memory.
    pub fn new(alloc: Global) -> Held
        ensures none { (s : Table) → IsHeldBy s [] result }
    {
        Held {
            reached: Reached {
                types: IndexSet::new(alloc),
                kinds: IndexSet::new(alloc),
                passed: IndexSet::new(alloc),
            },
            type_count: 0,
            kind_count: 0,
            free_count: 0,
        }
    }

    /// Whether the type variable of this number is held: it is free in the type of an earlier name, and so a later
    /// def is not general in it.
    pub fn holds_type(&self, number: u64) -> bool
        ensures { result ≡ is_held self.now.types number }
    {
        self.reached.types.contains(&number)
    }

    /// Whether the kind variable of this number is held: it is free in the type of an earlier name, and so a later
    /// def is not general in it.
    pub fn holds_kind(&self, number: u64) -> bool
        ensures { result ≡ is_held self.now.kinds number }
    {
        self.reached.kinds.contains(&number)
    }

    /// Adds what a further name's type holds. It takes time that grows with the type, and goes behind each bound
    /// variable once for all names.
    ///
    /// Where memory runs out, some of it may have been added.
    pub fn add(&mut self, alloc: Global, subst: &Subst, name: &Ty) -> Result<(), Memory>
        requires over { IsOver subst.now (term_of name.now) }
        ensures held { OnOk result ((names : List Term) → IsHeldBy subst.now names self.old
            → IsHeldBy subst.now (term_of name.now ∷ names) self.new) }
    {
        add_name(alloc, subst, &mut self.reached, name)?;
        self.count(subst);
        Ok(())
    }

    /// What the same names hold now that more is bound. Where none of the variables that were there is bound since, it
    /// looks only at the new ones; else at each held variable, with further time only for those that were bound.
    ///
    /// Where memory runs out, some of it may have been done.
    pub fn renew(&mut self, alloc: Global, subst: &Subst) -> Result<(), Memory>
        requires there { AreThere subst.now self.old }
        ensures held { OnOk result ((s : Table) (names : List Term) → Follows s subst.now → IsHeldBy s names self.old
            → IsHeldBy subst.now names self.new) }
    {
        if subst.free_among(self.type_count, self.kind_count) == self.free_count {
            self.count(subst);
            return Ok(());
        }
        self.renew_bound(alloc, subst)?;
        self.count(subst);
        Ok(())
    }

    // Notes how many variables the substitution has now, and how many of them are free, so that `renew` sees whether
    // any was bound since.
    fn count(&mut self, subst: &Subst)
        ensures { self.new ≡ counted_in subst.now self.old }
    {
        self.type_count = subst.type_count();
        self.kind_count = subst.kind_count();
        self.free_count = subst.free_among(self.type_count, self.kind_count);
    }

    // Puts in the place of each held variable that is bound now the free variables of what it is bound to.
    fn renew_bound(&mut self, alloc: Global, subst: &Subst) -> Result<(), Memory>
        requires there { AreThere subst.now self.old }
        ensures held { OnOk result ((s : Table) (names : List Term) → Follows s subst.now
            → AreHeldBy s names (held self.old.types self.old.kinds self.old.passed)
            → AreHeldBy subst.now names (held self.new.types self.new.kinds self.new.passed)) }
    {
        let mut types = Vec::new(alloc);
        let mut kinds = Vec::new(alloc);
        push_bound_types(subst, self.reached.types.as_slice(), &mut types)?;
        push_bound_kinds(subst, self.reached.kinds.as_slice(), &mut kinds)?;
        renew_both(alloc, subst, &mut self.reached, &types, &kinds)
    }
}
