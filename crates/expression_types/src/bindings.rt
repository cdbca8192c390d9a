// What statements have bound, with a look-up by token.
ghost use Rattle.std.specs.Prelude.{◌≡◌, ◌++◌, ◌∷◌, [], ℕ, OnErr, OnOk, nat_eq};
ghost use Rattle.std.specs.Option.{option_or};
ghost use Rattle.liq_base.specs.At.{at_token};
ghost use Rattle.expression_types.specs.Tables.{newest_number, number_known};

use crate::environment::Known;
use liq_base::{Memory, TokenTable};
use std::alloc::Global;
use std::marker::Model;

/// What statements have bound, the newest last, and by its token the type variable of the newest value.
#[derive(Drop)]
pub struct Bindings {
    all: Vec<Known>,
    vars: TokenTable<u64>,
}

impl Model for Bindings {
    ghost use Rattle.std.specs.Prelude.{◌≡◌, ℕ, List, nat_eq};
    ghost use Rattle.liq_base.specs.At.{at_token};
    ghost use Rattle.expression_types.specs.Tables.{newest_number};
    ghost use Rattle.expression_types.specs.declared.environment.Known.{Known};

    ghost Value = { List Known };

    ghost view = { λ b. b.all.items };

    ghost invariant = { λ b. (t : ℕ) → at_token t b.vars ≡ newest_number t b.all.items };
}

/// Notes a bound value in the table `vars`: under the token of its name the type variable that is its type. A def has
/// none, and is not noted. Where memory runs out nothing changes.
fn note(vars: &mut TokenTable<u64>, known: Known) -> Result<(), Memory>
    ensures noted { OnOk result ((t : ℕ) → at_token t vars.new
        ≡ option_or (number_known t known) (at_token t vars.old)) }
    ensures err { OnErr result ((t : ℕ) → at_token t vars.new ≡ at_token t vars.old) }
{
    match known {
        Known::Function(_) => Ok(()),
        Known::Value(name) => {
            vars.put(name.at, name.var)?;
            Ok(())
        }
    }
}

impl Bindings {
    /// A list of no bindings.
    pub fn new(alloc: Global) -> Bindings
        ensures { result ≡ [] }
    {
        Bindings {
            all: Vec::new(alloc),
            vars: TokenTable::new(alloc),
        }
    }

    /// Makes room for `more` bindings, so that their list need not grow step by step.
    pub fn reserve(&mut self, more: usize) -> Result<(), Memory>
        ensures same { self.new ≡ self.old }
    {
        self.all.reserve(more)?;
        Ok(())
    }

    /// Adds a binding, the newest. Where memory runs out nothing changes.
    pub fn push(&mut self, known: Known) -> Result<(), Memory>
        ensures pushed { OnOk result (self.new ≡ self.old ++ known ∷ []) }
        ensures err { OnErr result (self.new ≡ self.old) }
    {
        self.all.reserve(1)?;
        note(&mut self.vars, known)?;
        self.all.push_reserved(known);
        Ok(())
    }

    /// The number of the type variable of the newest value whose name stands at token `at`; `None` if there is none.
    pub fn var(&self, at: u32) -> Option<u64>
        ensures { result ≡ newest_number at self.now }
    {
        self.vars.get(at)
    }
}
