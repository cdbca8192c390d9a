// The files that a plan plays, each once.
ghost use Rattle.std.specs.Prelude.{◌≡◌, [], OnOk, IfOk};
ghost use Rattle.std.specs.Str.{bytes_eq};
ghost use Rattle.indexmap.specs.IndexSet.{insert_all, insert_key};
ghost use Rattle.station_facts.specs.Files.{entries_in, list_in, lists_of, single_in, singles, sounds_of};

use indexmap::IndexSet;
use liq_base::{Memory, Text};
use plan_core::{Node, Op, Plan};
use sound_looks::ListLook;
use std::alloc::Global;

/// Names, each once, in the order in which they were met.
pub type Names = IndexSet<Text>;

/// The names of the lists that the playlists of a plan play, each once.
pub fn lists_of(alloc: Global, plan: &Plan) -> Result<Names, Memory>
    ensures { IfOk result (λ names. names.keys ≡ lists_of plan.now) }
{
    let mut names = IndexSet::new(alloc);
    for node in plan.nodes.as_slice() {
        add_list(alloc, &mut names, node)?;
    }
    Ok(names)
}

// Adds to `names` the list that a source plays, if it is a playlist.
fn add_list(alloc: Global, names: &mut Names, node: &Node) -> Result<(), Memory>
    ensures { OnOk result (names.new.keys ≡ insert_all bytes_eq names.old.keys (list_in node.now.op)) }
{
    match &node.op {
        Op::Playlist { file, again: _ } => add(alloc, names, file),
        _ => Ok(()),
    }
}

/// The names of the audio files of a plan, each once: those of `single`, and those in its lists as `looks` found them.
pub fn sounds_of(alloc: Global, plan: &Plan, looks: &[ListLook]) -> Result<Names, Memory>
    ensures { IfOk result (λ names. names.keys ≡ sounds_of plan.now looks.now) }
{
    let mut names = singles_of(alloc, plan)?;
    for look in looks {
        add_entries(alloc, &mut names, look)?;
    }
    Ok(names)
}

// The names of the files that the sources of a plan play by `single`, each once.
fn singles_of(alloc: Global, plan: &Plan) -> Result<Names, Memory>
    ensures { IfOk result (λ names. names.keys ≡ insert_all bytes_eq [] (singles plan.now.nodes)) }
{
    let mut names = IndexSet::new(alloc);
    for node in plan.nodes.as_slice() {
        add_single(alloc, &mut names, node)?;
    }
    Ok(names)
}

// Adds to `names` the file that a source plays, if it is a `single`.
fn add_single(alloc: Global, names: &mut Names, node: &Node) -> Result<(), Memory>
    ensures { OnOk result (names.new.keys ≡ insert_all bytes_eq names.old.keys (single_in node.now.op)) }
{
    match &node.op {
        Op::Single(name) => add(alloc, names, name),
        _ => Ok(()),
    }
}

// Adds to `names` the audio files in a list, if a look could read it.
fn add_entries(alloc: Global, names: &mut Names, look: &ListLook) -> Result<(), Memory>
    ensures { OnOk result (names.new.keys ≡ insert_all bytes_eq names.old.keys (entries_in look.now)) }
{
    match look {
        ListLook::Names {
            names: entries,
            skipped: _,
        } => add_all(alloc, names, entries.as_slice()),
        _ => Ok(()),
    }
}

// Adds to `names` each of these file names that is not there yet.
fn add_all(alloc: Global, names: &mut Names, more: &[Text]) -> Result<(), Memory>
    ensures { OnOk result (names.new.keys ≡ insert_all bytes_eq names.old.keys more.now) }
{
    for name in more {
        add(alloc, names, name)?;
    }
    Ok(())
}

// Adds a copy of a file name to `names`, if it is not there yet.
fn add(alloc: Global, names: &mut Names, name: &Text) -> Result<(), Memory>
    ensures { OnOk result (names.new.keys ≡ insert_key bytes_eq names.old.keys name.now) }
{
    names.insert(name.copy(alloc)?)?;
    Ok(())
}
