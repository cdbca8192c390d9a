// The names in scope.
ghost use Rattle.std.specs.Prelude.{◌≡◌, ℕ, List, map};
ghost use Rattle.std.specs.Str.{bytes_eq};
ghost use Rattle.std.proofs.Props.{props};
ghost use Rattle.indexmap.specs.IndexMap.{get_by};
ghost use Rattle.name_scope.specs.Places.{last_place};

use indexmap::IndexMap;
use liq_base::Memory;
use std::alloc::Global;
use typing_rules::Parameter;

/// What a name is bound to, by the token of the name that is bound: a value, or a def with its parameters.
#[derive(Drop)]
pub enum Bound<'a> {
    Value(u32),
    Function(u32, Vec<Parameter<'a>>),
}

/// A name and what it is bound to.
#[derive(Drop)]
pub struct Binding<'a> {
    pub name: &'a str,
    pub bound: Bound<'a>,
}

/// The names that statements bind, or those of one def's parameters and inner bindings.
#[derive(Drop)]
pub struct Scope<'a> {
    /// The bindings, the newest last.
    bindings: Vec<Binding<'a>>,

    /// The place of the newest binding of each name.
    places: IndexMap<&'a str, usize>,

    ghost newest: { (name : List ℕ) → get_by (λ key. bytes_eq name key.now) places ≡ last_place name
        (map (λ b. b.name.now) bindings.items) } by { Prim.hlevel props },
}

impl<'a> Scope<'a> {
    ghost use Rattle.std.specs.Prelude.{◌∷◌, [], OnOk, option_map};
    ghost use Rattle.typing_rules.specs.Scoping.{bound as the_bound};
    ghost use Rattle.name_scope.specs.Seen.{seen_bound, in_scope};

    /// A scope in which no name is bound. It takes no memory.
    pub fn new(alloc: Global) -> Scope<'a>
        ensures empty { in_scope result ≡ [] }
    {
        Scope {
            bindings: Vec::new(alloc),
            places: IndexMap::new(alloc),
        }
    }

    /// Binds a name in this scope, which hides an older binding of the name.
    pub fn bind(&mut self, name: &'a str, bound: Bound<'a>) -> Result<(), Memory>
        ensures bound { OnOk result (in_scope self.new ≡ (name.entry.now, seen_bound bound.entry) ∷ in_scope self.old) }
    {
        self.bindings.reserve(1)?;
        let place = self.bindings.len();
        self.places.insert(name, place)?;
        self.bindings.push_reserved(Binding { name, bound });
        Ok(())
    }

    /// What a name is bound to by the newest binding of it; `None` where it is not bound in this scope.
    pub fn find(&self, name: &str) -> Option<&Bound<'a>>
        ensures found { option_map (λ b. seen_bound b.now) result ≡ the_bound name.now (in_scope self.now) }
    {
        if self.bindings.is_empty() {
            return None;
        }
        match self.places.get(name) {
            Some(place) => Some(&self.bindings[*place].bound),
            None => None,
        }
    }
}

/// The names that are seen in a def's body, or those of statements alone: the inner ones hide the outer ones.
#[derive(Clone, Copy)]
pub struct Scopes<'s, 'a> {
    pub inner: &'s Scope<'a>,
    pub outer: &'s Scope<'a>,
}

impl<'s, 'a> Scopes<'s, 'a> {
    ghost use Rattle.std.specs.Prelude.{option_map};
    ghost use Rattle.typing_rules.specs.Scoping.{bound as the_bound};
    ghost use Rattle.name_scope.specs.Seen.{seen_bound, both_scopes};

    /// What a name is bound to in the inner scope, or else in the outer one; `None` where neither binds it.
    pub fn find(&self, name: &str) -> Option<&'s Bound<'a>>
        ensures found { option_map (λ b. seen_bound b.now) result ≡ the_bound name.now (both_scopes self.now) }
    {
        match self.inner.find(name) {
            Some(bound) => Some(bound),
            None => self.outer.find(name),
        }
    }
}
