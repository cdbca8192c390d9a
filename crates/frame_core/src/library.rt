// The audio files of a plan, and the files that each leaf plays.
ghost use Rattle.std.specs.Prelude.{◌≡◌, ◌<◌, ◌≤◌, ◌+◌, length, map};
ghost use Rattle.std.specs.List.{All};
ghost use Rattle.frame_core.specs.Library.{IsLibrary, Sounds, chosen_lists, sound_at, title_at, tracks_of};
ghost use Rattle.frame_core.specs.Sounds.{cell_of, lefts_from, length_of, rights_from};

use crate::{Cell, Track};
use liq_base::{Kind, Text};
use std::marker::Model;

/// The audio files of a plan, each once, with their names, and for each of its nodes the numbers of the files that it
/// plays, in order.
#[derive(Debug, Drop)]
pub struct Library {
    files: Vec<Track>,
    names: Vec<Text>,
    // The lists that nodes play, and for each node the number of its own; no numbers: each node has the list at its
    // place.
    lists: Vec<Vec<u32>>,
    numbers: Option<Vec<u32>>,
}

impl Model for Library {
    ghost use Rattle.std.specs.Prelude.{map};
    ghost use Rattle.frame_core.specs.Library.{IsKept, Sounds, leaves_of};

    ghost Value = { Sounds };

    ghost view = { λ l. record {
      files = l.files.items;
      names = l.names.items;
      leaves = leaves_of l.numbers (map (λ v. v.items) l.lists.items);
    } };

    ghost invariant = { λ l. IsKept l.files.items l.names.items (map (λ v. v.items) l.lists.items) l.numbers };
}

impl Library {
    /// The library of these files with their names. `leaves` has for each node the numbers of the files that it
    /// plays, which are places in `files` from 0.
    pub fn new(files: Vec<Track>, names: Vec<Text>, leaves: Vec<Vec<u32>>) -> Library
        requires { IsLibrary (record {
          files = files.items;
          names = names.items;
          leaves = map (λ v. v.items) leaves.items;
        }) }
        ensures { result ≡ record {
          files = files.items;
          names = names.items;
          leaves = map (λ v. v.items) leaves.items;
        } }
    {
        Library {
            files,
            names,
            lists: leaves,
            numbers: None,
        }
    }

    /// The library of these files with their names, where nodes may share the lists of files that they play. `numbers`
    /// has for each node the number of its list, counted from 0.
    pub fn of_lists(
        files: Vec<Track>,
        names: Vec<Text>,
        lists: Vec<Vec<u32>>,
        numbers: Vec<u32>,
    ) -> Library
        requires library { IsLibrary (record {
          files = files.items;
          names = names.items;
          leaves = chosen_lists (map (λ v. v.items) lists.items) numbers.items;
        }) }
        requires there { All (λ number. number < length lists.items) numbers.items }
        ensures { result ≡ record {
          files = files.items;
          names = names.items;
          leaves = chosen_lists (map (λ v. v.items) lists.items) numbers.items;
        } }
    {
        Library {
            files,
            names,
            lists,
            numbers: Some(numbers),
        }
    }

    // The numbers of the files that a leaf (a node that plays files) plays, in order. Where nodes share lists,
    // `numbers` tells which one is the leaf's; otherwise it is the one at its place.
    fn list(&self, leaf: u32) -> &[u32]
        requires { leaf < length self.now.leaves }
        ensures list { result.now ≡ tracks_of self.now leaf }
        ensures library { IsLibrary self.now }
    {
        match &self.numbers {
            Some(numbers) => self.lists[numbers[leaf as usize] as usize].as_slice(),
            None => self.lists[leaf as usize].as_slice(),
        }
    }

    /// How many files a leaf (a node that plays files) plays. The library is well formed: each of them has whole
    /// blocks and at least one sample.
    pub fn tracks(&self, leaf: u32) -> u32
        requires { leaf < length self.now.leaves }
        ensures count { result ≡ length (tracks_of self.now leaf) }
        ensures library { IsLibrary self.now }
    {
        self.list(leaf).len() as u32
    }

    /// How many samples each channel of the file has that a leaf (a node that plays files) plays at place `track` of
    /// its list: at least 1.
    pub fn samples(&self, leaf: u32, track: u32) -> u64
        requires leaf { leaf < length self.now.leaves }
        requires track { track < length (tracks_of self.now leaf) }
        ensures samples { result ≡ length_of (sound_at self.now leaf track) }
        ensures some { 0 < result }
    {
        let file = self.list(leaf)[track as usize];
        self.files[file as usize].samples()
    }

    /// Writes the samples of the file that a leaf (a node that plays files) plays at place `track` of its list, from
    /// sample `at` on, for as many cells as the slices are long. They are those that `cell` has for a source of this
    /// kind.
    pub fn read(
        &self,
        leaf: u32,
        track: u32,
        at: u64,
        kind: Kind,
        left: &mut [i16],
        right: &mut [i16],
    )
        requires leaf { leaf < length self.now.leaves }
        requires track { track < length (tracks_of self.now leaf) }
        requires same { length right.old ≡ length left.old }
        requires within { at + length left.old ≤ length_of (sound_at self.now leaf track) }
        ensures left { left.new ≡ lefts_from (sound_at self.now leaf track) kind at (length left.old) }
        ensures right { right.new ≡ rights_from (sound_at self.now leaf track) kind at (length left.old) }
    {
        let file = self.list(leaf)[track as usize];
        self.files[file as usize].read(at, kind, left, right);
    }

    /// The cell at sample `at` of the file that a leaf plays at place `track` of its list, in a source of this kind,
    /// with the file's title. Samples and places are counted from 0.
    pub fn cell(&self, leaf: u32, track: u32, at: u64, kind: Kind) -> Cell
        requires leaf { leaf < length self.now.leaves }
        requires track { track < length (tracks_of self.now leaf) }
        requires at { at < length_of (sound_at self.now leaf track) }
        ensures { result ≡ cell_of (sound_at self.now leaf track) (title_at self.now leaf track) kind at }
    {
        let file = self.list(leaf)[track as usize];
        self.files[file as usize].cell(file + 1, at, kind)
    }

    /// The names of the files, in their order: title k + 1 stands for name k.
    pub fn names(&self) -> &[Text]
        ensures { result.now ≡ self.now.names }
    {
        self.names.as_slice()
    }
}
