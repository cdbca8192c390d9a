// A byte sink.
ghost use Rattle.std.specs.Prelude.{length, OnOk, OnErr};
ghost use Rattle.liq_base.specs.Pieces.{HasRoom, SinkTold, TookPiece, TookPart};

use std::fmt;

/// A device did not do what it was asked.
#[derive(Clone, Copy, Debug, PartialEq, Eq, Hash)]
pub struct Failed;

impl fmt::Display for Failed {
    // Writes in words that a device failed.
    fn fmt<W: fmt::Write>(&self, f: &mut fmt::Formatter<W>) -> fmt::Result {
        write!(f, "a device failed")
    }
}

impl std::error::Error for Failed {}

/// Takes bytes, piece by piece. It takes no memory. The rules stand in `docs/shelves.md`.
pub trait Sink {
    /// What it tells of itself. No call changes which of its facts are told, nor its name, and its count of faults
    /// never falls.
    ghost told: { Self → SinkTold };

    /// Adds the piece to the bytes held. After `Failed` it holds a prefix of the piece more. A piece that failed is
    /// counted too. Where the room is told, the piece must fit in it.
    fn append(&mut self, piece: &[u8]) -> Result<(), Failed>
        requires { HasRoom (told self.old).room (length piece.now) }
        ensures took { OnOk result (TookPiece piece.now (told self.old) (told self.new)) }
        ensures part { OnErr result (TookPart piece.now (told self.old) (told self.new)) };
}
