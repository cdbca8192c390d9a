// A sink of a shelf in memory of which no call fails.
ghost use Rattle.std.specs.Prelude.{◌≡◌, ◌++◌, [], length, IfOk, OnOk, Ok, string_bytes};
ghost use Rattle.liq_base.specs.Pieces.{HasRoom};
ghost use Rattle.liq_base.specs.SinkStates.{sure_told};

use crate::closed::Entry;
use crate::{Failed, Memory, Sink};
use std::alloc::Global;
use std::marker::Model;

/// A sink that a `SureShelf` made, which never fails. It tells its bytes, its name and its room
/// left, and its count of faults stands at 0.
#[derive(Debug, Drop)]
pub struct SureSink {
    name: String,
    bytes: Vec<u8>,
    room: u64,
    entry: Box<Entry>,
}

impl Model for SureSink {
    ghost use Rattle.std.specs.Prelude.{◌≤◌, string_bytes, vec_len, vec_capacity};
    ghost use Rattle.liq_base.specs.SinkStates.{SureState};

    ghost Value = { SureState };

    ghost view = { λ s. record { name = string_bytes s.name; held = s.bytes.items; room = s.room } };

    ghost invariant = { λ s. (vec_len s.bytes ≤ s.room) × (s.room ≤ vec_capacity s.bytes) };
}

impl SureSink {
    /// An empty sink of this name, with room for so many bytes reserved.
    pub(crate) fn new(alloc: Global, name: &str, room: u64) -> Result<SureSink, Memory>
        ensures { IfOk result (λ out. out ≡ record { name = name.now; held = []; room = room }) }
    {
        let bytes = Vec::with_capacity(alloc, room as usize)?;
        let name = String::from_str(alloc, name)?;
        let entry = Entry::empty(alloc)?;
        Ok(SureSink {
            name,
            bytes,
            room,
            entry,
        })
    }

    /// Makes the sink, as its shelf closes it, an entry of the shelf's list of closed sinks, with its name and bytes.
    /// The entry was made with the sink, so this takes no memory.
    pub(crate) fn into_entry(self) -> Box<Entry>
        ensures name { string_bytes result.value.name ≡ self.name }
        ensures bytes { result.value.bytes.items ≡ self.held }
    {
        let SureSink {
            name,
            bytes,
            room: _,
            entry,
        } = self;
        let mut entry = entry;
        entry.name = name;
        entry.bytes = bytes;
        entry
    }
}

impl Sink for SureSink {
    ghost use Rattle.liq_base.specs.SinkStates.{sure_told};

    ghost told = { sure_told };

    // Adds a piece, which fits in the room, to the bytes held. It never fails, since the room was reserved with the
    // sink.
    fn append(&mut self, piece: &[u8]) -> Result<(), Failed>
        requires { HasRoom (sure_told self.old).room (length piece.now) }
        ensures next { self.new ≡ record self.old { held = self.old.held ++ piece.now } }
        ensures sure { result ≡ Ok tt }
    {
        self.bytes.extend_from_slice(piece).unwrap();
        Ok(())
    }
}
