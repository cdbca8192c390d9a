// Substitutions, and the most general unifier over one.
ghost use Rattle.std.specs.Prelude.{◌≡◌, ◌≢◌, ◌+◌, ◌<◌, ◌↔◌, ◌++◌, ℕ, None, Some, List, [], ◌∷◌, length, true, false};
ghost use Rattle.std.specs.Prelude.{option_map, option_copied, IfOk, OnOk, OnErr, IsTrue, IsNone, IfSome};
ghost use Rattle.std.specs.Bool.{OnTrue, OnFalse};
ghost use Rattle.type_terms.specs.Agrees.{HasBoundType, HasNewKind, HasNewType, SameVariables};
ghost use Rattle.type_terms.specs.Counting.{free_among as the_free_among};
ghost use Rattle.type_terms.specs.Extends.{Extends, HasDefaults};
ghost use Rattle.type_terms.specs.Ground.{Assignment, IsNumber};
ghost use Rattle.type_terms.specs.Resolved.{IsUnbound};
ghost use Rattle.type_terms.specs.Table.{table, IsOver, IsSound, Solves, bound_at, kind_at, number_at};
ghost use Rattle.type_terms.specs.Term.{kind_meaning, meaning, source_term, term_of, variable};
ghost use Rattle.type_terms.specs.declared.ty.KindTerm.TheVariants.{Var};

use crate::differ::resolve_kind;
use crate::free_counts::{free_kinds_behind, free_types_behind};
use crate::naming::MOST_LEVELS;
use crate::occurs::{are_among, mark};
use crate::resolving::{MOST_PLACES, allow, settle};
use crate::table::Bindings;
use crate::ty::{KindTerm, Ty};
use crate::type_variable::TypeVariable;
use crate::unifier::unify_in;
use liq_base::Memory;
use std::alloc::Global;
use std::marker::Model;

/// Binds variables, and keeps which of them are number variables.
///
/// The numbers of its type variables, and of its kind variables, are those that it has handed out, from 0.
/// A number variable can only be int or decimal in the end.
#[derive(Drop)]
pub struct Subst {
    bindings: Bindings,
    // How many variables are bound to nothing.
    free: usize,
}

impl Model for Subst {
    ghost use Rattle.type_terms.specs.Bound.{table_of};
    ghost use Rattle.type_terms.specs.Table.{Table};
    ghost use Rattle.type_terms.specs.Codes.{table_code};
    ghost use Rattle.type_terms.specs.Nested.{IsKept};

    ghost Value = { Table };

    ghost coded = { table_code };

    ghost view = { λ s. table_of s.bindings };

    ghost invariant = { λ s. IsKept (table_of s.bindings) s.bindings.nested.items s.free };
}

impl Subst {
    /// A substitution without variables.
    pub fn new(alloc: Global) -> Result<Subst, Memory>
        ensures { IfOk result (λ s. s ≡ table [] []) }
    {
        Ok(Subst {
            bindings: Bindings {
                types: Vec::new(alloc),
                kinds: Vec::new(alloc),
                nested: Vec::new(alloc),
                left: MOST_PLACES,
            },
            free: 0,
        })
    }

    /// Makes room for so many type variables and kind variables more, so that the lists of them need not grow step by
    /// step.
    pub fn reserve(&mut self, types: usize, kinds: usize) -> Result<(), Memory>
        ensures same { self.new ≡ self.old }
    {
        self.bindings.types.reserve(types)?;
        self.bindings.nested.reserve(types)?;
        self.bindings.kinds.reserve(kinds)?;
        Ok(())
    }

    /// Takes so many places (nodes of types) from those that may be built or compared; where fewer are left, as if
    /// memory had run out.
    pub fn spend(&mut self, places: u64) -> Result<(), Memory>
        ensures same { self.new ≡ self.old }
    {
        self.bindings.left = self.bindings.left.checked_sub(places).ok_or(Memory)?;
        Ok(())
    }

    /// A new type variable that is bound to nothing. Its number is how many there were.
    ///
    /// A number variable where `number` is true. Where memory runs out nothing changes.
    pub fn fresh(&mut self, number: bool) -> Result<Ty, Memory>
        ensures next { IfOk result (λ t. term_of t ≡ variable (length self.old.types)) }
        ensures grown { OnOk result (self.new ≡ table (self.old.types ++ record {
          number = number;
          bound = None;
        } ∷ []) self.old.kinds) }
        ensures free { OnOk result (HasNewType self.old self.new (IsTrue number) (length self.old.types)) }
        ensures err { OnErr result (self.new ≡ self.old) }
    {
        let next = self.bindings.types.len() as u64;
        self.bindings.nested.push(false)?;
        self.bindings.types.push(TypeVariable::new(number))?;
        allow(&mut self.bindings.left);
        self.free += 1;
        Ok(Ty::Var(next))
    }

    /// A new type variable that is bound to the type, and is no number variable. Its number is how many there were.
    ///
    /// The new variable cannot stand in a type over the older ones, so it is bound without a search.
    /// Where memory runs out nothing changes.
    pub fn fresh_bound(&mut self, ty: Ty) -> Result<u64, Memory>
        requires over { IsOver self.old (term_of ty) }
        ensures next { IfOk result (λ n. n ≡ length self.old.types) }
        ensures grown { OnOk result (self.new ≡ table (self.old.types ++ record {
          number = false;
          bound = Some (term_of ty);
        } ∷ []) self.old.kinds) }
        ensures bound { IfOk result (λ n. HasBoundType self.old self.new n (term_of ty)) }
        ensures err { OnErr result (self.new ≡ self.old) }
    {
        let next = self.bindings.types.len() as u64;
        self.bindings.types.reserve(1)?;
        self.bindings.nested.push(false)?;
        mark(&mut self.bindings.nested, &ty);
        self.bindings
            .types
            .push_reserved(TypeVariable::bound_to(ty));
        allow(&mut self.bindings.left);
        Ok(next)
    }

    /// A new kind variable that is bound to nothing. Its number is how many there were.
    ///
    /// Where memory runs out nothing changes.
    pub fn fresh_kind(&mut self) -> Result<KindTerm, Memory>
        ensures next { IfOk result (λ k. k ≡ Var (length self.old.kinds)) }
        ensures grown { OnOk result (self.new ≡ table self.old.types (self.old.kinds ++ None ∷ [])) }
        ensures free { OnOk result (HasNewKind self.old self.new (length self.old.kinds)) }
        ensures err { OnErr result (self.new ≡ self.old) }
    {
        let next = self.bindings.kinds.len() as u64;
        self.bindings.kinds.push(None)?;
        self.free += 1;
        Ok(KindTerm::Var(next))
    }

    /// What a type variable is bound to; `None` for one that is bound to nothing.
    pub fn bound(&self, var: u64) -> Option<&Ty>
        ensures none { IsNone result ↔ (bound_at self.now.types var ≡ None) }
        ensures some { IfSome result (λ t. bound_at self.now.types var ≡ Some (term_of t.now)) }
    {
        let variable = self.bindings.types.get(var as usize)?;
        variable.bound()
    }

    /// What a kind variable is bound to; `None` for one that is bound to nothing.
    pub fn bound_kind(&self, var: u64) -> Option<KindTerm>
        ensures { result ≡ kind_at self.now.kinds var }
    {
        let bound = self.bindings.kinds.get(var as usize)?;
        *bound
    }

    /// Whether the type variable of this number is a number variable, one that can only be int or decimal in the end.
    pub fn is_number(&self, var: u64) -> bool
        ensures { result ≡ number_at self.now.types var }
    {
        match self.bindings.types.get(var as usize) {
            Some(variable) => variable.is_number(),
            None => false,
        }
    }

    /// How many type variables the substitution has handed out.
    pub fn type_count(&self) -> usize
        ensures { result ≡ length self.now.types }
    {
        self.bindings.types.len()
    }

    /// How many kind variables the substitution has handed out.
    pub fn kind_count(&self) -> usize
        ensures { result ≡ length self.now.kinds }
    {
        self.bindings.kinds.len()
    }

    /// How many of the first so many type variables and kind variables are bound to nothing. It looks only at those
    /// behind them.
    pub fn free_among(&self, types: usize, kinds: usize) -> usize
        ensures { result ≡ the_free_among self.now types kinds }
    {
        let later_types = free_types_behind(&self.bindings.types, types);
        let later_kinds = free_kinds_behind(&self.bindings.kinds, kinds);
        self.free - later_types - later_kinds
    }

    /// Whether each variable that stands in the type is one that this substitution has handed out.
    pub fn covers(&self, alloc: Global, ty: &Ty) -> Result<bool, Memory>
        ensures { IfOk result (λ yes. IsTrue yes ↔ IsOver self.now (term_of ty.now)) }
    {
        are_among(alloc, &self.bindings.types, &self.bindings.kinds, ty)
    }

    /// A law, by a function that does nothing: each assignment to the variables that are bound to nothing, with int or
    /// decimal for each number variable, is that of a solution.
    pub fn extends_each_assignment(&self)
        ensures { (p : Assignment) → ((k : ℕ) → number_at self.now.types k ≡ true → IsNumber (p.type_of k))
            → (a : Assignment) × Extends self.now p a }
    {
        let _ = &self.bindings.types;
    }

    /// A law, by a function that does nothing: one solution has stereo for each kind variable, and int for each type
    /// variable, that is bound to nothing.
    pub fn has_defaults(&self)
        ensures { HasDefaults self.now }
    {
        let _ = &self.bindings.types;
    }

    /// A law, by a function that does nothing: what variables are bound to is over variables that are there, and no
    /// variable stands in what it is bound to.
    pub fn is_sound(&self)
        ensures { IsSound self.now }
    {
        let _ = &self.bindings.types;
    }
}

/// Binds variables so that exactly those solutions are left at which the two types are the same.
///
/// `false` where there is none. Nothing is bound then, nor where memory runs out.
/// A type with more than a thousand levels is given up as if memory had run out, and so is what takes more than some
/// four million steps: comparing pairs of bound types, taking one such pair apart, searching one type for a variable.
pub fn unify(alloc: Global, subst: &mut Subst, left: &Ty, right: &Ty) -> Result<bool, Memory>
    requires left { IsOver subst.old (term_of left.now) }
    requires right { IsOver subst.old (term_of right.now) }
    ensures most_general { IfOk result (λ yes. OnTrue yes ((a : Assignment) → Solves a subst.new
        ↔ (Solves a subst.old × (meaning a (term_of left.now) ≡ meaning a (term_of right.now))))) }
    ensures solvable { IfOk result (λ yes. OnTrue yes ((a : Assignment) × Solves a subst.new)) }
    ensures none { IfOk result (λ yes. OnFalse yes ((a : Assignment) → Solves a subst.old
        → meaning a (term_of left.now) ≢ meaning a (term_of right.now))) }
    ensures unchanged { IfOk result (λ yes. OnFalse yes (subst.new ≡ subst.old)) }
    ensures same_variables { IfOk result (λ yes. OnTrue yes (SameVariables subst.old subst.new)) }
    ensures err { OnErr result (subst.new ≡ subst.old) }
{
    unify_in(alloc, &mut subst.bindings, &mut subst.free, left, right)
}

/// The kind with all that is bound put in: a channel count, or a variable that is bound to nothing.
pub fn resolved_kind(subst: &Subst, kind: KindTerm) -> KindTerm
    requires { IsOver subst.now (source_term kind) }
    ensures unbound { IsUnbound subst.now (source_term result) }
    ensures same { (a : Assignment) → Solves a subst.now → kind_meaning a result ≡ kind_meaning a kind }
{
    resolve_kind(&subst.bindings.kinds, kind)
}

/// The type with all that is bound put in.
///
/// A type of more than a thousand levels, or of more places than are left, is given up as if memory had run out.
pub fn resolved(alloc: Global, subst: &Subst, ty: &Ty) -> Result<Ty, Memory>
    requires { IsOver subst.now (term_of ty.now) }
    ensures unbound { IfOk result (λ t. IsUnbound subst.now (term_of t)) }
    ensures same { IfOk result (λ t. (a : Assignment) → Solves a subst.now
        → meaning a (term_of t) ≡ meaning a (term_of ty.now)) }
{
    let mut nodes = subst.bindings.left;
    settle(
        alloc,
        &subst.bindings.types,
        &subst.bindings.kinds,
        ty,
        MOST_LEVELS,
        &mut nodes,
    )
}
