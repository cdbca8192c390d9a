// The defs that statements have bound, with a look-up by token.
ghost use Rattle.std.specs.Prelude.{◌≡◌, ◌++◌, ◌∷◌, [], ℕ, None, OnErr, OnOk, Some, cond, length, nat_eq, option_map};
ghost use Rattle.std.specs.Option.{option_or};
ghost use Rattle.liq_base.specs.At.{at_token};
ghost use Rattle.expression_types.specs.Tables.{def_seen};

use crate::environment::KnownDef;
use liq_base::{Memory, TokenTable};
use std::alloc::Global;
use std::marker::Model;

/// The defs that statements have bound, the oldest first, with a look-up of the first one at a token in one step.
/// Contracts see the list of them.
#[derive(Drop)]
pub struct Defs<'a> {
    all: Vec<KnownDef<'a>>,
    // By its token the place of the first def there.
    places: TokenTable<usize>,
}

impl<'a> Model for Defs<'a> {
    ghost use Rattle.std.specs.Prelude.{List};
    ghost use Rattle.std.specs.Coded.{codes};
    ghost use Rattle.script_grammar.specs.contracts.tree.Def as def;
    ghost use Rattle.type_terms.specs.contracts.ty.Ty as ty;
    ghost use Rattle.expression_types.specs.declared.environment.KnownDef.{KnownDef};

    ghost Value = { List KnownDef };

    ghost coded = { Prim.hlevel (codes, def.the_row.coded, ty.the_row.coded) };

    ghost use Rattle.expression_types.specs.Tables.{ArePlaces};

    ghost view = { λ d. d.all.items };

    ghost invariant = { λ d. ArePlaces d.places d.all.items };
}

/// Notes that the def whose name stands at token `at` has index `place` among the defs. Where a def is noted at this
/// token already, it stays, since a look-up finds the first. Where memory runs out nothing changes.
fn note(places: &mut TokenTable<usize>, at: u32, place: usize) -> Result<(), Memory>
    ensures noted { OnOk result ((t : ℕ) → at_token t places.new
        ≡ option_or (at_token t places.old) (cond (nat_eq at t) (Some place) None)) }
    ensures err { OnErr result ((t : ℕ) → at_token t places.new ≡ at_token t places.old) }
{
    if places.get(at).is_some() {
        return Ok(());
    }
    places.put(at, place)
}

impl<'a> Defs<'a> {
    /// A list of no defs.
    pub fn new(alloc: Global) -> Defs<'a>
        ensures { result ≡ [] }
    {
        Defs {
            all: Vec::new(alloc),
            places: TokenTable::new(alloc),
        }
    }

    /// How many defs statements have bound.
    pub fn len(&self) -> usize
        ensures { result ≡ length self.now }
    {
        self.all.len()
    }

    /// All defs that statements have bound, the oldest first.
    pub fn as_slice(&self) -> &[KnownDef<'a>]
        ensures { result.now ≡ self.now }
    {
        &self.all
    }

    /// Adds a def, the newest. Where memory runs out nothing changes.
    pub fn push(&mut self, def: KnownDef<'a>) -> Result<(), Memory>
        ensures pushed { OnOk result (self.new ≡ self.old ++ def.entry ∷ []) }
        ensures err { OnErr result (self.new ≡ self.old) }
    {
        self.all.reserve(1)?;
        let place = self.all.len();
        note(&mut self.places, def.at, place)?;
        self.all.push_reserved(def);
        Ok(())
    }

    /// The first def whose name stands at token `at`; `None` if there is none.
    pub fn find(&self, at: u32) -> Option<&KnownDef<'a>>
        ensures { option_map (λ d. d.now) result ≡ def_seen at self.now }
    {
        let place = self.places.get(at)?;
        self.all.get(place)
    }
}
