// The uses of a script, with a table of where each token's stands.
ghost use Rattle.std.specs.Prelude.{◌≡◌, IfOk, option_map};
ghost use Rattle.eval_scope.specs.Places.{IsTable, is_use};
ghost use Rattle.typing_rules.specs.Uses.{use_at};

use crate::places::note;
use liq_base::{Memory, TokenTable};
use std::alloc::Global;
use typing_rules::Use;

/// The uses of a script, with a table that has for a token the index of its first use.
#[derive(Drop)]
pub struct Uses<'a> {
    pub all: &'a [Use],
    places: TokenTable<u32>,
    ghost table: { IsTable is_use places all.now },
}

impl<'a> Uses<'a> {
    /// The uses of a script, with a table of their tokens.
    pub fn new(alloc: Global, all: &'a [Use]) -> Result<Uses<'a>, Memory>
        ensures { IfOk result (λ u. u.all.now ≡ all.entry.now) }
    {
        let mut places = TokenTable::new(alloc);
        for (place, one) in all.iter().enumerate() {
            note(&mut places, one.at, place)?;
        }
        Ok(Uses { all, places })
    }

    /// What the name at token `at` stands for; `None` if there is no use of it.
    pub fn find(&self, at: u32) -> Option<&'a Use>
        ensures { option_map (λ u. u.now) result ≡ use_at at self.now.all.now }
    {
        let place = self.places.get(at)?;
        self.all.get(place as usize)
    }
}
