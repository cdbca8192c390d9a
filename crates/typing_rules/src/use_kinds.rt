// The kinds of a use.
ghost use Rattle.std.specs.Prelude.{◌≡◌, List, [], ◌∷◌, ◌++◌, IfOk, OnOk, OnErr};
ghost use Rattle.typing_rules.specs.declared.uses.KindOf.{KindOf};

use crate::uses::KindOf;
use liq_base::Memory;
use std::alloc::Global;
use std::marker::Model;

/// The kinds of a use, in the order of the open kinds of what it stands for. Contracts see the list.
#[derive(Drop)]
pub struct UseKinds {
    kinds: Vec<KindOf>,
}

impl Model for UseKinds {
    ghost Value = { List KindOf };

    ghost view = { λ s. s.kinds.items };
}

impl UseKinds {
    /// No kinds. It takes no memory.
    pub fn new(alloc: Global) -> UseKinds
        ensures { result ≡ [] }
    {
        UseKinds {
            kinds: Vec::new(alloc),
        }
    }

    /// No kinds, with room for so many.
    pub fn with_room(alloc: Global, room: usize) -> Result<UseKinds, Memory>
        ensures { IfOk result (λ kinds. kinds ≡ []) }
    {
        Ok(UseKinds {
            kinds: Vec::with_capacity(alloc, room)?,
        })
    }

    /// The kinds of a `Vec`. It takes no memory.
    pub fn from_vec(kinds: Vec<KindOf>) -> UseKinds
        ensures { result ≡ kinds.items }
    {
        UseKinds { kinds }
    }

    /// The kinds of the use as a slice, to be read.
    pub fn as_slice(&self) -> &[KindOf]
        ensures { result.now ≡ self.now }
    {
        self.kinds.as_slice()
    }

    /// Adds a kind at the end. Where memory is refused, the list is as it was.
    pub fn push(&mut self, kind: KindOf) -> Result<(), Memory>
        ensures added { OnOk result (self.new ≡ self.old ++ kind ∷ []) }
        ensures unchanged { OnErr result (self.new ≡ self.old) }
    {
        self.kinds.push(kind)?;
        Ok(())
    }
}
