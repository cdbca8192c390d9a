// The lists that the nodes of a plan play.
ghost use Rattle.std.specs.Prelude.{◌≡◌, ◌<◌, ◌++◌, ◌∷◌, [], length, map, slice_index_or, OnOk};
ghost use Rattle.std.specs.List.{All};
ghost use Rattle.std.specs.Option.{IfSome};
ghost use Rattle.frame_core.specs.Library.{chosen_lists};

use crate::audio::new_number;
use indexmap::IndexMap;
use liq_base::Memory;
use plan_core::Op;
use std::alloc::Global;
use std::marker::Model;

/// The numbers of the files that each node plays, in order, as one list for each node that was added. Nodes that play
/// one list of audio files share it.
#[derive(Drop)]
pub struct LeafLists {
    lists: Vec<Vec<u32>>,
    // For each node the number of its list.
    numbers: Vec<u32>,
    // For each list of audio files the number of the list that a node had first from it.
    played: IndexMap<String, u32>,
}

impl Model for LeafLists {
    ghost use Rattle.std.specs.Prelude.{ℕ, ◌<◌, List, length, map};
    ghost use Rattle.std.specs.List.{All};
    ghost use Rattle.frame_core.specs.Library.{chosen_lists};

    ghost Value = { List (List ℕ) };

    ghost view = { λ l. chosen_lists (map (λ v. v.items) l.lists.items) l.numbers.items };

    ghost invariant = { λ l. All (λ number. number < length l.lists.items) l.numbers.items };
}

impl LeafLists {
    /// The lists of files that nodes play, before the first node is added.
    pub fn new(alloc: Global) -> LeafLists
        ensures { result ≡ [] }
    {
        LeafLists {
            lists: Vec::new(alloc),
            numbers: Vec::new(alloc),
            played: IndexMap::new(alloc),
        }
    }

    /// Adds the list of the next node, `leaf`: the numbers of the files that it plays, in order. The node's operator
    /// `op` tells whether it may share the list of an earlier node: only playlists do.
    pub fn push(&mut self, alloc: Global, op: &Op, leaf: Vec<u32>) -> Result<(), Memory>
        ensures { OnOk result (self.new ≡ self.old ++ leaf.items ∷ []) }
    {
        match op {
            Op::Playlist { file, again: _ } => self.push_played(alloc, file.as_str(), leaf),
            _ => {
                self.push_own(leaf)?;
                Ok(())
            }
        }
    }

    // Adds `leaf`, the list of a playlist whose names stand in this file. Where an earlier node has the same list from
    // this file, both share it, so that it is held once.
    fn push_played(&mut self, alloc: Global, file: &str, leaf: Vec<u32>) -> Result<(), Memory>
        ensures { OnOk result (self.new ≡ self.old ++ leaf.items ∷ []) }
    {
        let before = self.played.get(file).copied();
        if let Some(number) = if_same(&self.lists, before, &leaf) {
            self.numbers.push(number)?;
            return Ok(());
        }
        let number = self.push_own(leaf)?;
        self.played.insert(String::from_str(alloc, file)?, number)?;
        Ok(())
    }

    // Adds `leaf` as a list that the next node shares with no earlier one, and answers its number among the different
    // lists.
    fn push_own(&mut self, leaf: Vec<u32>) -> Result<u32, Memory>
        ensures { OnOk result (self.new ≡ self.old ++ leaf.items ∷ []) }
    {
        let number = new_number(self.lists.len())?;
        self.lists.push(leaf)?;
        self.numbers.push(number)?;
        Ok(number)
    }

    /// Takes this apart: the different lists of files that nodes play, and for each node the number of its list among
    /// them.
    pub fn into_lists(self) -> (Vec<Vec<u32>>, Vec<u32>)
        ensures lists { chosen_lists (map (λ v. v.items) result.0.items) result.1.items ≡ self }
        ensures there { All (λ number. number < length result.0.items) result.1.items }
    {
        let LeafLists {
            lists,
            numbers,
            played: _,
        } = self;
        (lists, numbers)
    }
}

// Whether the list of this number among `lists` has the same files as `leaf`, so that two nodes can share it: then its
// number, else `None`. Where `number` is `None`, there is no earlier list.
fn if_same(lists: &[Vec<u32>], number: Option<u32>, leaf: &[u32]) -> Option<u32>
    ensures { IfSome result (λ number. (number < length lists.now)
        × (slice_index_or (map (λ v. v.items) lists.now) number [] ≡ leaf.now)) }
{
    let number = number?;
    match lists.get(number as usize) {
        Some(list) if list.as_slice() == leaf => Some(number),
        _ => None,
    }
}
