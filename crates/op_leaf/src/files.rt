// The audio files of a node, one after the other.
ghost use Rattle.std.specs.Prelude.{◌≡◌, ◌<◌, ◌≤◌, ◌+◌, ◌&&◌, ℕ, length, suc, nat_eq, None, IsSome, if◌then◌else◌};
ghost use Rattle.frame_core.specs.Library.{IsLibrary, Sounds};
ghost use Rattle.frame_core.specs.Slots.{title_of};
ghost use Rattle.op_leaf.specs.Inner.{LieInFile, lefts_of, rights_of, stretch_from};
ghost use Rattle.op_leaf.specs.Leaves.{files_slot};
ghost use Rattle.op_leaf.specs.Standing.{FilesArePlacedIn, FilesStandAt};

use frame_core::{Cell, Library};
use liq_base::Kind;

/// The state of a node's files between two instants.
#[derive(Debug, Drop)]
pub struct FilesState {
    /// The node whose files these are.
    pub node: u32,

    /// Whether they begin again after the last one.
    pub again: bool,

    /// The kind of the source.
    pub kind: Kind,

    /// The file that is played, among those of the node; past the last one where they are over.
    pub track: u32,

    /// The sample in this file, counted from 0.
    pub at: u64,
}

impl FilesState {
    /// The files of a node in a source of this kind, at the start of the first one. `again` says whether they begin
    /// again after the last one.
    pub fn new(node: u32, again: bool, kind: Kind) -> FilesState
        ensures start { result ≡ record { node = node; again = again; kind = kind; track = 0; at = 0 } }
        ensures placed { (library : Sounds) → IsLibrary library → node < length library.leaves
            → FilesArePlacedIn library result }
    {
        FilesState {
            node,
            again,
            kind,
            track: 0,
            at: 0,
        }
    }

    /// The cell that it offers, with the title of its file; `None` past the last file.
    pub fn offer(&self, library: &Library) -> Option<Cell>
        requires { FilesArePlacedIn library.now self.now }
        ensures offered { (p : ℕ) → FilesStandAt library.now self.now p
            → result ≡ files_slot library.now self.now.node self.now.again self.now.kind p }
        ensures ahead { IsSome result → LieInFile library.now self.now 1 }
    {
        if self.track < library.tracks(self.node) {
            Some(library.cell(self.node, self.track, self.at, self.kind))
        } else {
            None
        }
    }

    /// How many cells, from the offered one on and at most `most`, are of the file that is played. Past the last file,
    /// where none is offered, it is `most`.
    pub fn stretch(&self, library: &Library, most: u32) -> u32
        requires placed { FilesArePlacedIn library.now self.now }
        requires some { 0 < most }
        ensures stretch { (p : ℕ) → FilesStandAt library.now self.now p
            → IsSome (files_slot library.now self.now.node self.now.again self.now.kind p)
            → result ≡ stretch_from (files_slot library.now self.now.node self.now.again self.now.kind) p most }
        ensures titled { (p j : ℕ) → FilesStandAt library.now self.now p
            → IsSome (files_slot library.now self.now.node self.now.again self.now.kind p) → j < result
            → title_of (files_slot library.now self.now.node self.now.again self.now.kind (p + j))
            ≡ title_of (files_slot library.now self.now.node self.now.again self.now.kind p) }
        ensures within { result ≤ most }
        ensures some { 0 < result }
        ensures ahead { LieInFile library.now self.now 1 → LieInFile library.now self.now result }
    {
        if self.track >= library.tracks(self.node) {
            return most;
        }
        let left = library.samples(self.node, self.track) - self.at;
        u64::from(most).min(left) as u32
    }

    /// Writes the samples of both sides of as many cells as the slices are long, and goes on behind them. They lie in
    /// the file that is played; at its end it goes to the next file.
    pub fn run(&mut self, library: &Library, left: &mut [i16], right: &mut [i16])
        requires placed { FilesArePlacedIn library.now self.old }
        requires same { length right.old ≡ length left.old }
        requires some { 0 < length left.old }
        requires ahead { LieInFile library.now self.old (length left.old) }
        ensures node { self.new.node ≡ self.old.node }
        ensures again { self.new.again ≡ self.old.again }
        ensures kind { self.new.kind ≡ self.old.kind }
        ensures placed { FilesArePlacedIn library.now self.new }
        ensures stands { (p : ℕ) → FilesStandAt library.now self.old p
            → FilesStandAt library.now self.new (p + length left.old) }
        ensures left { (p : ℕ) → FilesStandAt library.now self.old p
            → left.new ≡ lefts_of (files_slot library.now self.old.node self.old.again self.old.kind) p
            (length left.old) }
        ensures right { (p : ℕ) → FilesStandAt library.now self.old p
            → right.new ≡ rights_of (files_slot library.now self.old.node self.old.again self.old.kind) p
            (length left.old) }
    {
        library.read(self.node, self.track, self.at, self.kind, left, right);
        let samples = library.samples(self.node, self.track);
        let count = left.len() as u64;
        if count < samples - self.at {
            self.at += count;
        } else {
            self.at = 0;
            self.track = track_after(self.track, library.tracks(self.node), self.again);
        }
    }

    /// Goes on by one cell, or stays past the last file.
    pub fn advance(&mut self, library: &Library)
        requires { FilesArePlacedIn library.now self.old }
        ensures node { self.new.node ≡ self.old.node }
        ensures again { self.new.again ≡ self.old.again }
        ensures kind { self.new.kind ≡ self.old.kind }
        ensures placed { FilesArePlacedIn library.now self.new }
        ensures stands { (p : ℕ) → FilesStandAt library.now self.old p
            → IsSome (files_slot library.now self.old.node self.old.again self.old.kind p)
            → FilesStandAt library.now self.new (suc p) }
        ensures stays { (p : ℕ) → FilesStandAt library.now self.old p
            → files_slot library.now self.old.node self.old.again self.old.kind p ≡ None → self.new ≡ self.old }
    {
        let tracks = library.tracks(self.node);
        if self.track >= tracks {
            return;
        }
        let samples = library.samples(self.node, self.track);
        if self.at + 1 < samples {
            self.at += 1;
        } else {
            self.at = 0;
            self.track = track_after(self.track, tracks, self.again);
        }
    }
}

// The number of the file after file `track` of `tracks` files, from 0. After the last one it is the first where they
// begin again, and else `tracks`, which is past the last.
fn track_after(track: u32, tracks: u32, again: bool) -> u32
    requires { track < tracks }
    ensures { result ≡ (if again && nat_eq (track + 1) tracks then 0 else track + 1) }
{
    if again && track + 1 == tracks {
        0
    } else {
        track + 1
    }
}
