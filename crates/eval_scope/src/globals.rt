// The values of the bindings of statements, with a table of where each token's stands.
ghost use Rattle.std.specs.Prelude.{◌≡◌, ◌++◌, ◌∷◌, [], OnOk, map, option_map};
ghost use Rattle.eval_scope.specs.Places.{IsTable, is_slot};
ghost use Rattle.script_values.specs.Slots.{value_at_token};
ghost use Rattle.script_values.specs.View.{view_value};
ghost use Rattle.script_values.specs.Views.{view_slot};

use crate::places::note;
use liq_base::{Memory, TokenTable};
use script_values::{Slot, Value};
use std::alloc::Global;

/// The values of the bindings of statements, with a table that has for a token the index of its first binding.
#[derive(Drop)]
pub struct Globals {
    pub all: Vec<Slot>,
    places: TokenTable<u32>,
    ghost table: { IsTable is_slot places all.items },
}

impl Globals {
    /// No bindings.
    pub fn new(alloc: Global) -> Globals
        ensures { result.all.items ≡ [] }
    {
        Globals {
            all: Vec::new(alloc),
            places: TokenTable::new(alloc),
        }
    }

    /// Adds a binding behind the others. Where memory is refused, the list of them is as it was.
    pub fn push(&mut self, slot: Slot) -> Result<(), Memory>
        ensures { OnOk result (self.new.all.items ≡ self.old.all.items ++ slot ∷ []) }
    {
        let at = slot.at;
        let place = self.all.len();
        self.all.push(slot)?;
        match note(&mut self.places, at, place) {
            Ok(()) => Ok(()),
            Err(fault) => {
                let _ = self.all.pop();
                Err(fault)
            }
        }
    }

    /// The value of the first binding whose name stands at token `at`; `None` if there is none.
    pub fn find(&self, at: u32) -> Option<&Value>
        ensures { option_map (λ v. view_value v.now) result ≡ value_at_token at (map view_slot self.now.all.items) }
    {
        let place = self.places.get(at)?;
        let slot = self.all.get(place as usize)?;
        Some(&slot.value)
    }
}
