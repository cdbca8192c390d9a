// The lists that were read on the walk.
ghost use Rattle.std.specs.Prelude.{◌≡◌, ◌≤◌, ◌<◌, ◌++◌, ◌∷◌, [], length, Ok, None, IfOk, IfErr, OnOk};
ghost use Rattle.std.specs.Option.{ForSome};
ghost use Rattle.track_library.specs.Walk.{Ends, use_list, entry_of};
ghost use Rattle.track_library.specs.Reads.{FirstRead};
ghost use Rattle.track_library.specs.States.{lists_of, names_at};
ghost use Rattle.liq_base.specs.Shelves.{OnlyRead};

use crate::fault::{LoadFault, fault_of};
use crate::list::read_list;
use crate::reading::fetch;
use indexmap::IndexMap;
use liq_base::limits::MAX_LIST_BYTES;
use liq_base::{Memory, Shelf, Text};
use std::alloc::Global;

/// The lists that were read: the names of each.
#[derive(Drop)]
pub struct ReadLists {
    pub lists: IndexMap<String, Vec<Text>>,
}

impl ReadLists {
    /// Finds the place of the list file of this name among those that were read on the walk. It is read where it was
    /// not read before. A list that cannot be used is a fault of the load.
    pub fn find<S: Shelf>(
        &mut self,
        alloc: Global,
        shelf: &mut S,
        name: &str,
    ) -> Result<usize, LoadFault>
        ensures used { IfOk result
            (λ at. ForSome (S.told shelf.old).files (λ files. use_list files (lists_of self.old) name.now
            ≡ Ok (lists_of self.new, names_at (lists_of self.new) at))) }
        ensures within { IfOk result (λ at. at < length (lists_of self.new)) }
        ensures fault { IfErr result
            (Ends (S.told shelf.old) (S.told shelf.new) (λ _. FirstRead (lists_of self.old) name.now)
            (λ files. use_list files (lists_of self.old) name.now)) }
        ensures shelf { OnlyRead (S.told shelf.old) (S.told shelf.new) }
    {
        if let Some(at) = self.lists.get_index_of(name) {
            return Ok(at);
        }
        match fetch(alloc, shelf, name, MAX_LIST_BYTES)? {
            Ok(bytes) => {
                let names = read_list(alloc, &bytes)?;
                Ok(self.add(alloc, name, names)?)
            }
            Err(fault) => Err(fault_of(alloc, name, fault)?),
        }
    }

    /// Adds a list that was not read before, with its names, and answers its place.
    fn add(&mut self, alloc: Global, name: &str, names: Vec<Text>) -> Result<usize, Memory>
        requires { entry_of name.now (lists_of self.old) ≡ None }
        ensures at { IfOk result (λ at. at ≡ length (lists_of self.old)) }
        ensures added { OnOk result (lists_of self.new ≡ lists_of self.old ++ (name.now, names.items) ∷ []) }
    {
        let at = self.lists.len();
        self.lists.insert(String::from_str(alloc, name)?, names)?;
        Ok(at)
    }

    /// The names of audio files in the list at this place among those that were read; none past the end.
    pub fn names(&self, at: usize) -> &[Text]
        requires { at < length (lists_of self.now) }
        ensures { result.now ≡ names_at (lists_of self.now) at }
    {
        match self.lists.get_index(at) {
            Some((_, names)) => names.as_slice(),
            None => &[],
        }
    }
}
