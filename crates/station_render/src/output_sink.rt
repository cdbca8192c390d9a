// The sink of an output.
ghost use Rattle.std.specs.Prelude.{◌≡◌, true, false, [], ◌∷◌, OnOk, OnErr};
ghost use Rattle.liq_base.specs.Pieces.{HasRoom, TookPart};
ghost use Rattle.station_render.specs.OutputSinks.{HasEnded, MayHaveTaken};

use liq_base::{Failed, Sink};

/// The sink of an output. Where the bytes of its samples are odd it keeps room for one byte, which comes behind them.
/// What it tells as its name says this too, beside the name: whether a byte is owed, whether there is room for it, and
/// for how many bytes it was created.
pub(crate) struct OutputSink<O> {
    pub sink: O,

    /// Whether the bytes of its samples are odd.
    pub odd: bool,
}

impl<O: Sink> Sink for OutputSink<O> {
    ghost use Rattle.station_render.specs.OutputSinks.{output_told};

    ghost told = { output_told O.told };

    // Appends a piece of the output's file to the plain sink within.
    fn append(&mut self, piece: &[u8]) -> Result<(), Failed> {
        self.sink.append(piece)
    }
}

/// Ends an output before it is closed: if all went `well`, its sink gets the last zero byte of a file with an odd
/// number of sample bytes.
pub(crate) fn end_if<O: Sink>(well: bool, output: &mut OutputSink<O>) -> Result<(), Failed>
    requires { well ≡ true → output.old.odd ≡ true → HasRoom (O.told output.old.sink).room 1 }
    ensures same { well ≡ false → output.new.sink ≡ output.old.sink }
    ensures ended { OnOk result (well ≡ true
        → HasEnded output.old.odd (O.told output.old.sink) (O.told output.new.sink)) }
    ensures well { OnErr result (well ≡ true) }
    ensures odd { OnErr result (output.old.odd ≡ true) }
    ensures part { OnErr result (TookPart (0 ∷ []) (O.told output.old.sink) (O.told output.new.sink)) }
    ensures taken { MayHaveTaken (O.told output.old.sink) (O.told output.new.sink) }
{
    if !well || !output.odd {
        return Ok(());
    }
    output.sink.append(&[0])
}
