// What a leaf plays, and where it stands.
ghost use Rattle.std.specs.Prelude.{◌≡◌, ◌<◌, ◌≤◌, ◌+◌, ℕ, suc, true, pos, None, IsSome, length, map};
ghost use Rattle.std.specs.List.{range_with_len};
ghost use Rattle.op_leaf.specs.Inner.{LiesAhead, lefts_of, rights_of, stretch_from};
ghost use Rattle.frame_core.specs.Library.{IsLibrary, Sounds};
ghost use Rattle.frame_core.specs.Slots.{title_of, goes_on, is_inner};
ghost use Rattle.op_leaf.specs.Leaves.{leaf_slot, HasRate, HasTracksOf};
ghost use Rattle.op_leaf.specs.Standing.{leaf_of, IsPlacedIn, StandsAt};

use crate::blank::Blank;
use crate::files::FilesState;
use crate::square::Square;
use fixed_text::Decimal;
use frame_core::{Cell, Library, goes_on};
use liq_base::Kind;

/// What a node without children plays. `docs/streams.md` has the rules.
#[derive(Clone, Copy, Debug, PartialEq, Eq)]
pub enum Leaf {
    /// The audio files of a node, in a source of this kind: once, or again and again.
    Files {
        node: u32,
        again: bool,
        kind: Kind,
    },

    /// Zeros in tracks of this many samples; 0 is one track without end.
    Blank {
        track: u64,
    },

    /// A square wave of this many periods a second, at this many samples a second, which is above 0.
    Square {
        pitch: Decimal,
        rate: u32,
        kind: Kind,
    },

    /// Nothing.
    Never,
}

/// The state of a leaf between two instants: where it stands in its files, in its blank track or in the period of its
/// wave.
#[derive(Debug, Drop)]
pub struct LeafState {
    cursor: Cursor,
}

/// What a leaf plays, and where it stands in it.
#[derive(Debug, Drop)]
enum Cursor {
    Track(FilesState),
    Silence(Blank),
    Wave(Square),
    Nothing,
}

impl LeafState {
    /// The state of a leaf before its first cell: at the start of its files, its track or its period.
    pub fn new(leaf: Leaf) -> LeafState
        requires { HasRate leaf }
        ensures leaf { leaf_of result ≡ leaf }
        ensures placed { (library : Sounds) → IsLibrary library → HasTracksOf library leaf → IsPlacedIn library result }
        ensures stands { (library : Sounds) → StandsAt library result 0 }
    {
        let cursor = match leaf {
            Leaf::Files { node, again, kind } => Cursor::Track(FilesState::new(node, again, kind)),
            Leaf::Blank { track } => Cursor::Silence(Blank::new(track)),
            Leaf::Square { pitch, rate, kind } => Cursor::Wave(Square::new(pitch, rate, kind)),
            Leaf::Never => Cursor::Nothing,
        };
        LeafState { cursor }
    }

    /// The cell that it offers, or `None`. All calls on one state are given one library.
    pub fn offer(&self, library: &Library) -> Option<Cell>
        requires { IsPlacedIn library.now self.now }
        ensures offered { (p : ℕ) → StandsAt library.now self.now p
            → result ≡ leaf_slot library.now (leaf_of self.now) p }
        ensures ahead { IsSome result → LiesAhead library.now self.now 1 }
    {
        match &self.cursor {
            Cursor::Track(files) => files.offer(library),
            Cursor::Silence(blank) => Some(blank.offer()),
            Cursor::Wave(square) => Some(square.offer()),
            Cursor::Nothing => None,
        }
    }

    /// How many cells, from the offered one on and at most `most`, are of one track. They have one title. Where nothing
    /// is offered, it is `most`.
    pub fn stretch(&self, library: &Library, most: u32) -> u32
        requires placed { IsPlacedIn library.now self.now }
        requires some { 0 < most }
        ensures stretch { (p : ℕ) → StandsAt library.now self.now p
            → IsSome (leaf_slot library.now (leaf_of self.now) p)
            → result ≡ stretch_from (leaf_slot library.now (leaf_of self.now)) p most }
        ensures titled { (p j : ℕ) → StandsAt library.now self.now p
            → IsSome (leaf_slot library.now (leaf_of self.now) p) → j < result
            → title_of (leaf_slot library.now (leaf_of self.now) (p + j))
            ≡ title_of (leaf_slot library.now (leaf_of self.now) p) }
        ensures within { result ≤ most }
        ensures some { 0 < result }
        ensures ahead { LiesAhead library.now self.now 1 → LiesAhead library.now self.now result }
    {
        match &self.cursor {
            Cursor::Track(files) => files.stretch(library, most),
            Cursor::Silence(blank) => blank.stretch(most),
            Cursor::Wave(_) => most,
            Cursor::Nothing => most,
        }
    }

    /// How many cells, from the offered one on and at most `most`, go on with the track of this title; 0 where none is
    /// offered, or it is of another or begins one. There may be more.
    pub fn rest(&self, library: &Library, title: u32, most: u32) -> u32
        requires placed { IsPlacedIn library.now self.now }
        ensures inner { (p j : ℕ) → StandsAt library.now self.now p → j < result
            → is_inner (leaf_slot library.now (leaf_of self.now) (p + j)) ≡ true }
        ensures titled { (p j : ℕ) → StandsAt library.now self.now p → j < result
            → title_of (leaf_slot library.now (leaf_of self.now) (p + j)) ≡ title }
        ensures within { result ≤ most }
        ensures ahead { 0 < result → LiesAhead library.now self.now result }
    {
        if most == 0 || !goes_on(title, self.offer(library)) {
            return 0;
        }
        self.stretch(library, most)
    }

    /// Writes the samples of both sides of as many cells as the slices are long, and goes on behind them. They are the
    /// offered cell and those behind it in its track.
    pub fn run(&mut self, library: &Library, left: &mut [i16], right: &mut [i16])
        requires placed { IsPlacedIn library.now self.old }
        requires same { length right.old ≡ length left.old }
        requires some { 0 < length left.old }
        requires ahead { LiesAhead library.now self.old (length left.old) }
        ensures leaf { leaf_of self.new ≡ leaf_of self.old }
        ensures placed { IsPlacedIn library.now self.new }
        ensures stands { (p : ℕ) → StandsAt library.now self.old p
            → StandsAt library.now self.new (p + length left.old) }
        ensures left { (p : ℕ) → StandsAt library.now self.old p
            → left.new ≡ lefts_of (leaf_slot library.now (leaf_of self.old)) p (length left.old) }
        ensures right { (p : ℕ) → StandsAt library.now self.old p
            → right.new ≡ rights_of (leaf_slot library.now (leaf_of self.old)) p (length left.old) }
    {
        match &mut self.cursor {
            Cursor::Track(files) => files.run(library, left, right),
            Cursor::Silence(blank) => {
                silence(left);
                silence(right);
                blank.run(left.len() as u64);
            }
            Cursor::Wave(square) => square.run(left, right),
            Cursor::Nothing => {}
        }
    }

    /// Goes on by the cell that it offers. Where it offers nothing it stays.
    pub fn advance(&mut self, library: &Library)
        requires { IsPlacedIn library.now self.old }
        ensures leaf { leaf_of self.new ≡ leaf_of self.old }
        ensures placed { IsPlacedIn library.now self.new }
        ensures stands { (p : ℕ) → StandsAt library.now self.old p → IsSome (leaf_slot library.now (leaf_of self.old) p)
            → StandsAt library.now self.new (suc p) }
        ensures stays { (p : ℕ) → StandsAt library.now self.old p → leaf_slot library.now (leaf_of self.old) p ≡ None
            → self.new ≡ self.old }
    {
        match &mut self.cursor {
            Cursor::Track(files) => files.advance(library),
            Cursor::Silence(blank) => blank.advance(),
            Cursor::Wave(square) => square.advance(),
            Cursor::Nothing => {}
        }
    }
}

// Fills these samples with zeros.
fn silence(into: &mut [i16])
    ensures { (p : ℕ) → into.new ≡ map (λ q. pos 0) (range_with_len p (length into.old)) }
{
    for at in 0..into.len() {
        into[at] = 0;
    }
}
