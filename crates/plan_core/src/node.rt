// A node of a plan, and what it does.
ghost use Rattle.std.specs.Prelude.{◌≡◌, IfSome, IsNone};
ghost use Rattle.plan_core.specs.Plans.{buffer_read, IsNoReader};

use crate::{Items, Preds};
use fixed_text::Decimal;
use liq_base::{Kind, Text};

/// What a node does. `docs/plans.md` has a line for each.
#[derive(Debug, Drop)]
pub enum Op {
    /// The audio file of this name, repeated without end.
    Single(Text),

    /// The usable audio files of the list of this name, once or, with `again`, repeated without end.
    Playlist { file: Text, again: bool },

    /// Zeros, cut into tracks of so many samples; 0 makes one endless track.
    Blank { track: u64 },

    /// A square wave of this pitch in hertz, above 0.
    Square { pitch: Decimal },

    /// Nothing.
    Fail,

    /// The first child that is ready; with `sensitive` it changes at the end of a track alone.
    Fallback { sensitive: bool },

    /// The first child that is ready and whose predicate holds; there are as many predicates as children.
    Switch { sensitive: bool, preds: Preds },

    /// The children in order, each for one track, and then the last one.
    Sequence,

    /// A child that is ready, for one track each: the children in a ring, in their order.
    Rotate,

    /// A child that is ready, for one track each: chosen by chance, which the words of this seed decide.
    Random { seed: u64 },

    /// The mean of the children that are ready, or with no `normalize` their sum, cut to the range of a sample.
    Add { normalize: bool },

    /// The child, each sample times this factor.
    Amplify { factor: Decimal },

    /// The mean of the two sides of a stereo child.
    Mean,

    /// A mono child on both sides.
    Stereo,

    /// The child, each track mixed into the one before over so many samples: 1 to `MAX_OVERLAP`.
    Crossfade { overlap: u32 },

    /// What is read from the buffer of this number.
    Buffer(u32),

    /// The child, in the clock of this id; without one it has a clock of its own.
    Clock(Text),
}

impl Op {
    /// The number of the buffer that a node of this operator reads; `None` where it is no reader.
    pub fn buffer_read(&self) -> Option<u32>
        ensures same { result ≡ buffer_read self.now }
        ensures reader { IfSome result (λ buffer. self.now ≡ Op.Buffer buffer) }
        ensures none { IsNone result → IsNoReader self.now }
    {
        match self {
            Op::Buffer(buffer) => Some(*buffer),
            _ => None,
        }
    }
}

/// A node of a plan: what it does, how many channels it has, and its children by their numbers, which are smaller
/// than its own.
#[derive(Debug, Drop)]
pub struct Node {
    pub op: Op,
    pub kind: Kind,
    pub children: Items<u32>,
}
