// The pieces of a tick go to their sinks.
ghost use Rattle.std.specs.Prelude.{◌≡◌, length, OnOk, IfErr};
ghost use Rattle.clock_outputs.specs.Appends.{BrokeAt, HaveRoom, TookAll};

use crate::Port;
use liq_base::Sink;

/// Appends the piece of each output to its sink, in one piece and in their order. It ends at the first sink that fails,
/// and the error is the place of that sink among the outputs.
pub fn append_all<O: Sink>(outs: &mut Vec<O>, ports: &[Port]) -> Result<(), usize>
    requires sizes { length outs.old.items ≡ length ports.now }
    requires room { HaveRoom O.told ports.now outs.old.items }
    ensures sizes { length outs.new.items ≡ length outs.old.items }
    ensures took { OnOk result (TookAll O.told ports.now (length ports.now) outs.old.items outs.new.items) }
    ensures broke { IfErr result (λ place. BrokeAt O.told place ports.now outs.old.items outs.new.items) }
{
    for k in 0..ports.len() {
        if outs[k].append(ports[k].piece.bytes()).is_err() {
            return Err(k);
        }
    }
    Ok(())
}
