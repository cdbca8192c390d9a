// A file that is written at once.
ghost use Rattle.std.specs.Prelude.{◌≡◌, ◌∷◌, [], IsErrOf, OnErr, OnOk, length};
ghost use Rattle.liq_base.specs.Counts.{Rose};
ghost use Rattle.liq_base.specs.Pieces.{HasRoom, TookPart};
ghost use Rattle.station_render.specs.Shelves.{TookAtOnce, WroteFiles, WroteUpto, one_file};

use crate::RenderFault;
use liq_base::{Failed, Shelf, Sink};

/// Creates a file of this name with room for exactly these bytes, hands them over as one piece if there are any, and
/// closes it, whatever the piece came to.
pub(crate) fn write_file<S: Shelf>(
    shelf: &mut S,
    name: &str,
    text: &[u8],
) -> Result<(), RenderFault>
    ensures all { OnOk result (WroteFiles (S.told shelf.old) (S.told shelf.new) (name.now
        ∷ []) (one_file name.now text.now)) }
    ensures some { WroteUpto (S.told shelf.old) (S.told shelf.new) (name.now ∷ []) (one_file name.now text.now) }
    ensures cause { IsErrOf result RenderFault.Write → Rose (S.told shelf.old).writes (S.told shelf.new).writes }
{
    let mut sink = shelf.create(name, text.len() as u64)?;
    let wrote = append_any(&mut sink, text);
    let closed = shelf.close(sink);
    wrote?;
    closed?;
    Ok(())
}

// Appends these bytes to a sink as one piece, if there are any; an empty text makes no call.
fn append_any<O: Sink>(sink: &mut O, text: &[u8]) -> Result<(), Failed>
    requires { HasRoom (O.told sink.old).room (length text.now) }
    ensures took { OnOk result (TookAtOnce text.now (O.told sink.old) (O.told sink.new)) }
    ensures part { OnErr result (TookPart text.now (O.told sink.old) (O.told sink.new)) }
{
    if text.is_empty() {
        return Ok(());
    }
    sink.append(text)
}
