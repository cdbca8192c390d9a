// The walk over the nodes of a plan.
ghost use Rattle.std.specs.Prelude.{◌≡◌, ◌≤◌, ◌<◌, ◌^◌, [], length, true, Ok, IfOk, IfErr, OnOk, Option};
ghost use Rattle.std.specs.List.{All};
ghost use Rattle.std.specs.Option.{ForSome};
ghost use Rattle.frame_core.specs.Library.{IsLibrary};
ghost use Rattle.track_library.specs.Walk.{Ends, entries_played, leaf_of, nothing_met, single_leaf, use_audio};
ghost use Rattle.track_library.specs.Loads.{AreLoaded, CanLoad, HaveWalked, LoadEnds, rules_for};
ghost use Rattle.track_library.specs.Reads.{EntriesRead, FirstRead, LeafReads};
ghost use Rattle.track_library.specs.Singles.{HasOne};
ghost use Rattle.track_library.specs.States.{heard_of, AreRules, IsHeard, IsKept, Keeps, Plays, walked_of, with_found};
ghost use Rattle.track_library.specs.declared.rules.Rules.{Rules};
ghost use Rattle.liq_base.specs.Files.{Files};
ghost use Rattle.liq_base.specs.Shelves.{OnlyRead};

use crate::audio::AudioFiles;
use crate::fault::{LoadFault, Unusable, fault_of};
use crate::leaf_lists::LeafLists;
use crate::plan_files::PlanFiles;
use crate::read_lists::ReadLists;
use crate::rules::{Rules, Sizes};
use frame_core::Library;
use indexmap::IndexMap;
use liq_base::{Memory, Shelf, Text};
use plan_core::{Op, Plan};
use std::alloc::Global;

/// What the walk over a plan's nodes has read: the lists and the audio files.
#[derive(Drop)]
pub struct Walk {
    pub lists: ReadLists,
    pub audio: AudioFiles,
}

impl Walk {
    /// A walk over a plan's nodes that has read nothing; `keeps` says whether it keeps the audio files that are used.
    fn new(alloc: Global, keeps: bool) -> Walk
        ensures unread { walked_of result ≡ nothing_met }
        ensures keeps { result.audio.keeps ≡ keeps }
        ensures kept { (rules : Rules) (told : Option Files) → IsKept rules told result.audio }
    {
        Walk {
            lists: ReadLists {
                lists: IndexMap::new(alloc),
            },
            audio: AudioFiles {
                names: IndexMap::new(alloc),
                titles: Vec::new(alloc),
                bytes: 0,
                keeps,
                files: Vec::new(alloc),
            },
        }
    }

    /// Finds the leaf of a node with this operator: the numbers of the audio files that it plays, in order. Files and
    /// lists that were not met before are read. The leaf is empty where the node plays no files.
    fn find_leaf<S: Shelf>(
        &mut self,
        alloc: Global,
        shelf: &mut S,
        op: &Op,
        rules: Rules,
    ) -> Result<Vec<u32>, LoadFault>
        requires heard { IsHeard (heard_of self.old.audio) }
        requires rules { AreRules rules }
        ensures leaf { IfOk result
            (λ leaf. ForSome (S.told shelf.old).files (λ files. leaf_of rules files op.now (walked_of self.old)
            ≡ Ok (walked_of self.new, leaf.items))) }
        ensures fault { IfErr result
            (Ends (S.told shelf.old) (S.told shelf.new) (λ files. LeafReads rules files op.now (walked_of self.old))
            (λ files. leaf_of rules files op.now (walked_of self.old))) }
        ensures plays { IfOk result (λ leaf. Plays (heard_of self.old.audio) (heard_of self.new.audio) leaf.items) }
        ensures kept { OnOk result (Keeps rules (S.told shelf.old).files self.old.audio self.new.audio) }
        ensures single { IfOk result (λ leaf. HasOne op.now leaf.items) }
        ensures shelf { OnlyRead (S.told shelf.old) (S.told shelf.new) }
    {
        match op {
            Op::Single(name) => find_single(alloc, shelf, &mut self.audio, name.as_str(), rules),
            Op::Playlist { file, again: _ } => {
                let at = self.lists.find(alloc, shelf, file.as_str())?;
                play_entries(alloc, shelf, &mut self.audio, self.lists.names(at), rules)
            }
            _ => Ok(Vec::new(alloc)),
        }
    }

    /// Ends the walk, and hands on what it found: the audio files that are used, and their names. `leaves` has the
    /// numbers of the files that each node plays. What is known of names and lists is dropped.
    fn into_files(self, leaves: LeafLists) -> PlanFiles
        requires { IsLibrary (record {
          files = self.audio.files.items;
          names = self.audio.titles.items;
          leaves = leaves;
        }) }
        ensures same { result ≡ record {
          files = self.audio.files.items;
          names = self.audio.titles.items;
          leaves = leaves;
        } }
        ensures library { IsLibrary result }
    {
        let Walk { lists: _, audio } = self;
        let AudioFiles {
            names: _,
            titles,
            bytes: _,
            keeps: _,
            files,
        } = audio;
        PlanFiles::new(files, titles, leaves)
    }
}

/// Loads the audio files of a plan for its engine, each once and changed to the rate of the plan, with the numbers of
/// those that each node plays. `sizes` has how many bytes one file and all of them may count for. All are read, and
/// whether they may be loaded is known, before one is decoded.
pub fn load<S: Shelf>(
    alloc: Global,
    plan: &Plan,
    shelf: &mut S,
    sizes: Sizes,
) -> Result<Library, LoadFault>
    requires { AreRules (rules_for plan.now sizes) }
    ensures loaded { IfOk result (AreLoaded (S.told shelf.old).files (rules_for plan.now sizes) plan.now.nodes) }
    ensures fault { IfErr result
        (LoadEnds (S.told shelf.old) (S.told shelf.new) (rules_for plan.now sizes) plan.now.nodes) }
    ensures shelf { OnlyRead (S.told shelf.old) (S.told shelf.new) }
{
    let files = find_files(alloc, plan, shelf, sizes)?;
    Ok(files.decode(alloc)?)
}

/// Reads the audio files of a plan, as `load` does, and leaves them undecoded: no memory is taken for samples. `sizes`
/// has how many bytes one file and all of them may count for.
pub fn find_files<S: Shelf>(
    alloc: Global,
    plan: &Plan,
    shelf: &mut S,
    sizes: Sizes,
) -> Result<PlanFiles, LoadFault>
    requires { AreRules (rules_for plan.now sizes) }
    ensures loaded { IfOk result (AreLoaded (S.told shelf.old).files (rules_for plan.now sizes) plan.now.nodes) }
    ensures fault { IfErr result
        (LoadEnds (S.told shelf.old) (S.told shelf.new) (rules_for plan.now sizes) plan.now.nodes) }
    ensures shelf { OnlyRead (S.told shelf.old) (S.told shelf.new) }
{
    let rules = Rules {
        rate: plan.rate,
        file: sizes.file,
        all: sizes.all,
    };
    let mut walk = Walk::new(alloc, true);
    let mut leaves = LeafLists::new(alloc);
    walk_nodes(alloc, plan, shelf, rules, &mut walk, &mut leaves)?;
    Ok(walk.into_files(leaves))
}

/// Whether the audio files of a plan can be loaded; if not, the fault is the one that `load` would answer. They are
/// read as `find_files` reads them, and none is kept: at most one of them is held at a time.
pub fn try_files<S: Shelf>(
    alloc: Global,
    plan: &Plan,
    shelf: &mut S,
    sizes: Sizes,
) -> Result<(), LoadFault>
    requires { AreRules (rules_for plan.now sizes) }
    ensures can { OnOk result (ForSome (S.told shelf.old).files
        (λ files. CanLoad (rules_for plan.now sizes) files plan.now.nodes)) }
    ensures fault { IfErr result
        (LoadEnds (S.told shelf.old) (S.told shelf.new) (rules_for plan.now sizes) plan.now.nodes) }
    ensures shelf { OnlyRead (S.told shelf.old) (S.told shelf.new) }
{
    let rules = Rules {
        rate: plan.rate,
        file: sizes.file,
        all: sizes.all,
    };
    let mut walk = Walk::new(alloc, false);
    let mut leaves = LeafLists::new(alloc);
    walk_nodes(alloc, plan, shelf, rules, &mut walk, &mut leaves)?;
    Ok(())
}

/// Reads the audio files and lists that the nodes of a plan play, node after node. `walk` keeps what was read, and
/// `leaves` gets for each node the numbers of the files that it plays.
fn walk_nodes<S: Shelf>(
    alloc: Global,
    plan: &Plan,
    shelf: &mut S,
    rules: Rules,
    walk: &mut Walk,
    leaves: &mut LeafLists,
) -> Result<(), LoadFault>
    requires rules { AreRules rules }
    requires unread { walked_of walk.old ≡ nothing_met }
    requires empty { leaves.old ≡ [] }
    ensures walked { OnOk result (HaveWalked (S.told shelf.old).files rules plan.now.nodes walk.new leaves.new) }
    ensures kept { OnOk result (Keeps rules (S.told shelf.old).files walk.old.audio walk.new.audio) }
    ensures fault { IfErr result (LoadEnds (S.told shelf.old) (S.told shelf.new) rules plan.now.nodes) }
    ensures shelf { OnlyRead (S.told shelf.old) (S.told shelf.new) }
{
    for node in plan.nodes.as_slice() {
        let leaf = walk.find_leaf(alloc, shelf, &node.op, rules)?;
        leaves.push(alloc, &node.op, leaf)?;
    }
    Ok(())
}

/// The leaf of a `single` with this file name: the number of the file, alone in a list. `audio` has the files met so
/// far, and gets this one if it is new. A file that cannot be used is a fault of the load, since a `single` plays
/// nothing else.
fn find_single<S: Shelf>(
    alloc: Global,
    shelf: &mut S,
    audio: &mut AudioFiles,
    name: &str,
    rules: Rules,
) -> Result<Vec<u32>, LoadFault>
    requires heard { IsHeard (heard_of audio.old) }
    requires rules { AreRules rules }
    ensures leaf { IfOk result
        (λ leaf. ForSome (S.told shelf.old).files
        (λ files. single_leaf name.now (use_audio rules files (heard_of audio.old) name.now)
        ≡ Ok (heard_of audio.new, leaf.items))) }
    ensures fault { IfErr result
        (Ends (S.told shelf.old) (S.told shelf.new) (λ _. FirstRead (heard_of audio.old).names name.now)
        (λ files. single_leaf name.now (use_audio rules files (heard_of audio.old) name.now))) }
    ensures plays { IfOk result (λ leaf. Plays (heard_of audio.old) (heard_of audio.new) leaf.items) }
    ensures kept { OnOk result (Keeps rules (S.told shelf.old).files audio.old audio.new) }
    ensures one { IfOk result (λ leaf. length leaf.items ≡ 1) }
    ensures shelf { OnlyRead (S.told shelf.old) (S.told shelf.new) }
{
    match audio.find(alloc, shelf, name, rules)? {
        Ok(number) => {
            let mut leaf = Vec::new(alloc);
            leaf.push(number)?;
            Ok(leaf)
        }
        Err(fault) => Err(fault_of(alloc, name, fault)?),
    }
}

/// Adds the file that was found for an entry of a playlist to the playlist's leaf, by its number. An entry whose file
/// cannot be used is left out.
fn push_found(leaf: &mut Vec<u32>, found: Result<u32, Unusable>) -> Result<(), Memory>
    ensures { OnOk result (leaf.new.items ≡ with_found leaf.old.items found) }
{
    if let Ok(number) = found {
        leaf.push(number)?;
    }
    Ok(())
}

/// The leaf of a playlist with these entries (`names`): the numbers of their audio files, in order. `audio` has the
/// files met so far, and gets those that are new. An entry whose file cannot be used is left out. More entries than 32
/// bits can count are refused, as if there was no memory.
fn play_entries<S: Shelf>(
    alloc: Global,
    shelf: &mut S,
    audio: &mut AudioFiles,
    names: &[Text],
    rules: Rules,
) -> Result<Vec<u32>, LoadFault>
    requires heard { IsHeard (heard_of audio.old) }
    requires rules { AreRules rules }
    ensures leaf { IfOk result
        (λ leaf. ForSome (S.told shelf.old).files
        (λ files. entries_played rules files names.now (Ok (heard_of audio.old, []))
        ≡ Ok (heard_of audio.new, leaf.items))) }
    ensures fault { IfErr result
        (Ends (S.told shelf.old) (S.told shelf.new)
        (λ files. EntriesRead rules files names.now (Ok (heard_of audio.old, [])))
        (λ files. entries_played rules files names.now (Ok (heard_of audio.old, [])))) }
    ensures plays { IfOk result (λ leaf. Plays (heard_of audio.old) (heard_of audio.new) leaf.items) }
    ensures kept { OnOk result (Keeps rules (S.told shelf.old).files audio.old audio.new) }
    ensures shelf { OnlyRead (S.told shelf.old) (S.told shelf.new) }
{
    let mut leaf = Vec::new(alloc);
    for name in names {
        let found = audio.find(alloc, shelf, name.as_str(), rules)?;
        push_found(&mut leaf, found)?;
    }
    match u32::try_from(leaf.len()) {
        Ok(_) => Ok(leaf),
        Err(_) => Err(LoadFault::Memory),
    }
}
