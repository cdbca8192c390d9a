// The audio files of a plan, before they are decoded.
ghost use Rattle.std.specs.Prelude.{◌≡◌, IfOk};
ghost use Rattle.frame_core.specs.Library.{IsLibrary};

use crate::leaf_lists::LeafLists;
use crate::undecoded::Undecoded;
use frame_core::{Library, Track};
use liq_base::{Memory, Text};
use std::alloc::Global;
use std::marker::Model;

/// The audio files of a plan, each once, with their names, and for each of its nodes the numbers of the files that it
/// plays, in order: as the library that they are once they are decoded.
#[derive(Drop)]
pub struct PlanFiles {
    files: Vec<Undecoded>,
    names: Vec<Text>,
    leaves: LeafLists,
}

impl Model for PlanFiles {
    ghost use Rattle.frame_core.specs.Library.{IsLibrary, Sounds};

    ghost Value = { Sounds };

    ghost view = { λ p. record { files = p.files.items; names = p.names.items; leaves = p.leaves } };

    ghost invariant = { λ p. IsLibrary (record { files = p.files.items; names = p.names.items; leaves = p.leaves }) };
}

impl PlanFiles {
    /// Puts together the audio files of a plan, not decoded: the files, their names, and the numbers of the files that
    /// each node plays.
    pub fn new(files: Vec<Undecoded>, names: Vec<Text>, leaves: LeafLists) -> PlanFiles
        requires { IsLibrary (record { files = files.items; names = names.items; leaves = leaves }) }
        ensures { result ≡ record { files = files.items; names = names.items; leaves = leaves } }
    {
        PlanFiles {
            files,
            names,
            leaves,
        }
    }

    /// The library of the files. They are decoded one after another, and the bytes of each are given back once it is.
    pub fn decode(self, alloc: Global) -> Result<Library, Memory>
        ensures library { IfOk result (λ library. library ≡ self) }
    {
        let PlanFiles {
            files,
            names,
            leaves,
        } = self;
        let tracks = decode_each(alloc, files)?;
        let (lists, numbers) = leaves.into_lists();
        Ok(Library::of_lists(tracks, names, lists, numbers))
    }
}

// Decodes these audio files, one after another, into the tracks that the engine plays, in their order.
fn decode_each(alloc: Global, files: Vec<Undecoded>) -> Result<Vec<Track>, Memory>
    ensures tracks { IfOk result (λ tracks. tracks.items ≡ files.items) }
{
    let mut tracks = Vec::new(alloc);
    for file in files {
        let track = file.decode(alloc)?;
        tracks.push(track)?;
    }
    Ok(tracks)
}
