// Zeros, cut into tracks.
ghost use Rattle.std.specs.Prelude.{◌≡◌, ◌<◌, ◌≤◌, ◌+◌, ℕ, suc, Some};
ghost use Rattle.op_leaf.specs.Inner.{LieInTrack, stretch_from};
ghost use Rattle.op_leaf.specs.Leaves.{blank_cell};
ghost use Rattle.op_leaf.specs.Standing.{BlankIsPlaced, BlankStandsAt};

use frame_core::Cell;

/// The state of a blank between two instants.
#[derive(Debug, Drop)]
pub struct Blank {
    /// The length of a track in samples; 0 is endless.
    pub track: u64,

    /// The sample in the track, counted from 0; in an endless one 0 at first, and 1 from then on.
    pub at: u64,
}

impl Blank {
    /// A blank at its start. `track` is the length of a track in samples; 0 is endless.
    pub fn new(track: u64) -> Blank
        ensures track { result.track ≡ track }
        ensures placed { BlankIsPlaced result }
        ensures stands { BlankStandsAt result 0 }
    {
        Blank { track, at: 0 }
    }

    /// The cell that it offers: zeros, which begin a track at each multiple of its length.
    pub fn offer(&self) -> Cell
        ensures { (p : ℕ) → BlankStandsAt self.now p → result ≡ blank_cell self.now.track p }
    {
        Cell {
            left: 0,
            right: 0,
            first: self.at == 0,
            title: 0,
        }
    }

    /// How many cells, from the offered one on and at most `most`, are of the track that is played: all of `most` in an
    /// endless one.
    pub fn stretch(&self, most: u32) -> u32
        requires placed { BlankIsPlaced self.now }
        requires some { 0 < most }
        ensures stretch { (p : ℕ) → BlankStandsAt self.now p
            → result ≡ stretch_from (λ q. Some (blank_cell self.now.track q)) p most }
        ensures within { result ≤ most }
        ensures some { 0 < result }
        ensures ahead { LieInTrack self.now result }
    {
        if self.track == 0 {
            return most;
        }
        u64::from(most).min(self.track - self.at) as u32
    }

    /// Goes on by `count` samples, which lie in its track.
    pub fn run(&mut self, count: u64)
        requires some { 0 < count }
        requires ahead { LieInTrack self.old count }
        ensures track { self.new.track ≡ self.old.track }
        ensures placed { BlankIsPlaced self.new }
        ensures stands { (p : ℕ) → BlankStandsAt self.old p → BlankStandsAt self.new (p + count) }
    {
        if self.track == 0 {
            self.at = 1;
        } else if count < self.track - self.at {
            self.at += count;
        } else {
            self.at = 0;
        }
    }

    /// Goes on by one cell.
    pub fn advance(&mut self)
        ensures track { self.new.track ≡ self.old.track }
        ensures placed { BlankIsPlaced self.new }
        ensures stands { (p : ℕ) → BlankStandsAt self.old p → BlankStandsAt self.new (suc p) }
    {
        if self.track == 0 {
            self.at = 1;
        } else if self.at < self.track - 1 {
            self.at += 1;
        } else {
            self.at = 0;
        }
    }
}
