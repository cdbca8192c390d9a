// What the variables of a substitution are bound to.
ghost use Rattle.std.specs.Prelude.{◌≡◌, ◌<◌, ℕ, None, Option, List, length, true};
ghost use Rattle.type_terms.specs.Bound.{table_of};
ghost use Rattle.type_terms.specs.Ground.{Assignment};
ghost use Rattle.type_terms.specs.Nested.{AreMarked, mark_at};
ghost use Rattle.type_terms.specs.Table.{Binds, BindsKind, IsOver, IsSound, MeetsBindings, bound_at, kind_at};
ghost use Rattle.type_terms.specs.Term.{InTerm, meaning, term_of, variable};
ghost use Rattle.type_terms.specs.Undo.{Frees, FreesKind, IsKindTrail, IsTrail};
ghost use Rattle.type_terms.specs.Variables.{Variable};
ghost use Rattle.type_terms.specs.declared.ty.KindTerm.{KindTerm};

use crate::occurs::{mark, resolve};
use crate::ty::{KindTerm, Ty};
use crate::type_variable::TypeVariable;

/// What type variables and kind variables are bound to.
#[derive(Drop)]
pub struct Bindings {
    pub types: Vec<TypeVariable>,
    pub kinds: Vec<Option<KindTerm>>,
    // Whether a type variable may stand in what another is bound to.
    pub nested: Vec<bool>,
    // How many places may still be built or compared.
    pub left: u64,
}

impl Bindings {
    /// The type itself, or where it is a bound variable what that is bound to in the end.
    pub fn resolve<'a>(&'a self, ty: &'a Ty) -> &'a Ty
        requires sound { IsSound (table_of self.now) }
        requires over { IsOver (table_of self.now) (term_of ty.now) }
        ensures value { (a : Assignment) → MeetsBindings self.now.types.items a
            → meaning a (term_of result.now) ≡ meaning a (term_of ty.now) }
        ensures free { (k : ℕ) → term_of result.now ≡ variable k → bound_at self.now.types.items k ≡ None }
        ensures over { IsOver (table_of self.now) (term_of result.now) }
    {
        resolve(&self.types, ty)
    }

    /// Binds the free type variable `x` to the type, and marks in `nested` the variables that stand in the type: only
    /// those are searched for in bindings later.
    pub fn bind_type(&mut self, x: u64, ty: Ty)
        requires marked { AreMarked self.old.types.items self.old.nested.items }
        requires inside { x < length self.old.types.items }
        requires free { bound_at self.old.types.items x ≡ None }
        requires over { InTerm (λ n. n < length self.old.types.items) (λ _. Unit {0}) (term_of ty) }
        ensures binds { Binds x (term_of ty) self.old.types.items self.new.types.items }
        ensures same_kinds { self.new.kinds.items ≡ self.old.kinds.items }
        ensures marked { AreMarked self.new.types.items self.new.nested.items }
        ensures marks_kept { (k : ℕ) → mark_at self.old.nested.items k ≡ true → mark_at self.new.nested.items k ≡ true }
    {
        mark(&mut self.nested, &ty);
        bind_type(&mut self.types, x, ty);
    }

    /// Binds the free kind variable `x` to `k`.
    pub fn bind_kind(&mut self, x: u64, k: KindTerm)
        requires inside { x < length self.old.kinds.items }
        requires free { kind_at self.old.kinds.items x ≡ None }
        ensures binds { BindsKind x k self.old.kinds.items self.new.kinds.items }
        ensures same_types { self.new.types.items ≡ self.old.types.items }
        ensures same_marks { self.new.nested.items ≡ self.old.nested.items }
    {
        self.kinds[x as usize] = Some(k);
    }
}

/// Binds the free type variable `x`, an index of `types`, to the type.
fn bind_type(types: &mut [TypeVariable], x: u64, ty: Ty)
    requires inside { x < length types.old }
    requires free { bound_at types.old x ≡ None }
    ensures { Binds x (term_of ty) types.old types.new }
{
    let variable = &mut types[x as usize];
    variable.bind(ty);
}

/// Takes the binding of type variable `x` away.
fn free_type(types: &mut [TypeVariable], x: u64)
    requires { x < length types.old }
    ensures { Frees x types.old types.new }
{
    let variable = &mut types[x as usize];
    variable.free();
}

/// Takes the binding of kind variable `x` away.
fn free_kind(kinds: &mut [Option<KindTerm>], x: u64)
    requires { x < length kinds.old }
    ensures { FreesKind x kinds.old kinds.new }
{
    kinds[x as usize] = None;
}

/// Takes the bindings of the type variables in `trail` away again, which unification has bound in vain.
pub fn free_types(types: &mut [TypeVariable], trail: &[u64])
    requires { (vs : List Variable) × IsTrail trail.now vs types.old }
    ensures { (vs : List Variable) → IsTrail trail.now vs types.old → types.new ≡ vs }
{
    for x in trail {
        free_type(types, *x);
    }
}

/// Takes the bindings of the kind variables in `trail` away again, which unification has bound in vain.
pub fn free_kinds(kinds: &mut [Option<KindTerm>], trail: &[u64])
    requires { (ks : List (Option KindTerm)) × IsKindTrail trail.now ks kinds.old }
    ensures { (ks : List (Option KindTerm)) → IsKindTrail trail.now ks kinds.old → kinds.new ≡ ks }
{
    for x in trail {
        free_kind(kinds, *x);
    }
}
