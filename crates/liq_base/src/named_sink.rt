// A sink of a shelf in memory.
ghost use Rattle.std.specs.Prelude.{◌≡◌, ◌-◌, length, IfOk, OnOk, OnErr, is_ok, is_none, string_bytes};
ghost use Rattle.liq_base.specs.Pieces.{HasRoom, TookPiece, TookPart};
ghost use Rattle.liq_base.specs.SinkStates.{appended, listed, empty_sink, named_told};

use crate::closed::{Closed, Entry};
use crate::{Failed, MemSink, Memory, Sink};
use std::alloc::Global;
use std::marker::Model;

/// A sink that a `MemShelf` made: a byte sink in memory with its name, and with the entry of the
/// shelf that it becomes when it is closed. It tells its bytes, its name and its room left, so it
/// fails at the listed calls alone.
#[derive(Debug, Drop)]
pub struct NamedSink {
    name: String,
    sink: MemSink,
    entry: Box<Entry>,
}

impl Model for NamedSink {
    ghost use Rattle.std.specs.Prelude.{string_bytes};
    ghost use Rattle.liq_base.specs.SinkStates.{NamedState};

    ghost Value = { NamedState };

    ghost view = { λ s. record { name = string_bytes s.name; sink = s.sink } };
}

impl NamedSink {
    /// An empty sink of this name, with room for so many bytes reserved. `fails` has of each listed call its number,
    /// from 0, and how many bytes it takes.
    pub(crate) fn new(
        alloc: Global,
        name: &str,
        room: u64,
        fails: Vec<(u64, u64)>,
    ) -> Result<NamedSink, Memory>
        ensures { IfOk result (λ out. out ≡ record { name = name.now; sink = empty_sink room fails.items }) }
    {
        let sink = MemSink::new(alloc, room, fails)?;
        let name = String::from_str(alloc, name)?;
        let entry = Entry::empty(alloc)?;
        Ok(NamedSink { name, sink, entry })
    }

    /// How many appends of the sink failed.
    pub(crate) fn faults(&self) -> u64
        ensures { result ≡ self.now.sink.faults }
    {
        self.sink.faults()
    }

    /// Makes the sink, as its shelf closes it, an entry of the shelf's list of closed sinks, with its name, bytes and
    /// counts. The entry is linked to no other yet. It was made with the sink, so this takes no memory.
    pub(crate) fn into_entry(self) -> Box<Entry>
        ensures name { string_bytes result.value.name ≡ self.name }
        ensures bytes { result.value.bytes.items ≡ self.sink.held }
        ensures left { result.value.left ≡ self.sink.room - length self.sink.held }
        ensures pieces { result.value.pieces ≡ self.sink.calls }
        ensures faults { result.value.faults ≡ self.sink.faults }
    {
        let NamedSink { name, sink, entry } = self;
        let mut entry = entry;
        entry.name = name;
        entry.left = sink.left();
        entry.pieces = sink.calls();
        entry.faults = sink.faults();
        entry.bytes = sink.into_bytes();
        entry
    }
}

impl Sink for NamedSink {
    ghost use Rattle.liq_base.specs.SinkStates.{named_told};

    ghost told = { named_told };

    // Adds a piece, which fits, to the bytes held. Where the call is listed to fail, it takes a front of the piece and
    // fails.
    fn append(&mut self, piece: &[u8]) -> Result<(), Failed>
        requires { HasRoom (named_told self.old).room (length piece.now) }
        ensures next { self.new ≡ record self.old { sink = appended self.old.sink piece.now } }
        ensures answer { is_ok result ≡ is_none (listed self.old.sink.fails self.old.sink.calls) }
        ensures took { OnOk result (TookPiece piece.now (named_told self.old) (named_told self.new)) }
        ensures part { OnErr result (TookPart piece.now (named_told self.old) (named_told self.new)) }
    {
        self.sink.append(piece)
    }
}
