// A byte sink in memory, with room for so many bytes, that fails where it is told to.
ghost use Rattle.std.specs.Prelude.{◌≡◌, ◌-◌, length, is_ok, is_none, IfOk, OnOk, OnErr};
ghost use Rattle.liq_base.specs.Pieces.{TookPiece, TookPart};
ghost use Rattle.liq_base.specs.SinkStates.{appended, stops, stop, listed, empty_sink, sink_told};

use crate::{Failed, Memory, Sink};
use std::alloc::Global;
use std::marker::Model;

/// A byte sink in memory. It tells its bytes, and no room left.
///
/// A call that is listed takes as many bytes as listed, cut to the piece and to the room, and
/// fails; a piece past the room fails with nothing taken. Its count of faults rises exactly there.
#[derive(Debug, Drop)]
pub struct MemSink {
    bytes: Vec<u8>,
    room: u64,
    // Of each listed call its number, from 0, and how many bytes it takes.
    fails: Vec<(u64, u64)>,
    calls: u64,
    faults: u64,
}

impl Model for MemSink {
    ghost use Rattle.std.specs.Prelude.{◌≤◌, vec_len, vec_capacity};
    ghost use Rattle.liq_base.specs.SinkStates.{SinkState};

    ghost Value = { SinkState };

    ghost view = { λ s. record {
      held = s.bytes.items;
      room = s.room;
      fails = s.fails.items;
      calls = s.calls;
      faults = s.faults;
    } };

    ghost invariant = { λ s. (vec_len s.bytes ≤ s.room) × (s.room ≤ vec_capacity s.bytes) };
}

impl MemSink {
    /// Makes an empty sink that reserves room for so many bytes. Its append number `k`, from 0, fails after `j` bytes
    /// where `(k, j)` is in `fails`; of a number that stands there twice the first counts.
    pub fn new(alloc: Global, room: u64, fails: Vec<(u64, u64)>) -> Result<MemSink, Memory>
        ensures empty { IfOk result (λ sink. sink ≡ empty_sink room fails.items) }
    {
        let bytes = Vec::with_capacity(alloc, room as usize)?;
        Ok(MemSink {
            bytes,
            room,
            fails,
            calls: 0,
            faults: 0,
        })
    }

    /// The bytes that were appended to the sink and taken.
    pub fn held(&self) -> &[u8]
        ensures held { result.now ≡ self.now.held }
    {
        &self.bytes
    }

    /// How many more bytes the sink has room for.
    pub(crate) fn left(&self) -> u64
        ensures { result ≡ self.now.room - length self.now.held }
    {
        self.room - self.bytes.len() as u64
    }

    /// How many appends of the sink failed.
    pub(crate) fn faults(&self) -> u64
        ensures { result ≡ self.now.faults }
    {
        self.faults
    }

    /// How many appends were made to the sink, whether they failed or not; at most as many as a `u64` counts.
    pub(crate) fn calls(&self) -> u64
        ensures { result ≡ self.now.calls }
    {
        self.calls
    }

    /// Gives up the sink for the bytes that it took, without copying them.
    pub(crate) fn into_bytes(self) -> Vec<u8>
        ensures { result.items ≡ self.held }
    {
        let MemSink { bytes, fails, .. } = self;
        drop(fails);
        bytes
    }
}

/// After how many bytes call number `call` fails; `None` where it is not listed. `fails` has the number of each listed
/// call with the bytes that it takes.
fn find_stop(fails: &[(u64, u64)], call: u64) -> Option<u64>
    ensures { result ≡ listed fails.now call }
{
    for (at, taken) in fails {
        if *at == call {
            return Some(*taken);
        }
    }
    None
}

/// After how many bytes a piece of `size` bytes stops, with room for `left` more; `None` where it is taken whole.
/// `listed_stop` is where its call is listed to fail. Of a piece past the room nothing is taken, unless its call is
/// listed.
fn stop_at(listed_stop: Option<u64>, left: u64, size: u64) -> Option<u64>
    ensures { result ≡ stop listed_stop left size }
{
    match listed_stop {
        Some(at) => Some(at.min(size.min(left))),
        None if size <= left => None,
        None => Some(0),
    }
}

impl Sink for MemSink {
    ghost use Rattle.liq_base.specs.SinkStates.{sink_told};

    ghost told = { sink_told };

    // Adds a piece to the bytes held. Where the call is listed to fail, it takes a front of the piece, counts a fault
    // and fails; a piece past the room fails with nothing taken. The room was reserved, so memory is never wanting.
    fn append(&mut self, piece: &[u8]) -> Result<(), Failed>
        ensures next { self.new ≡ appended self.old piece.now }
        ensures answer { is_ok result ≡ is_none (stops self.old piece.now) }
        ensures took { OnOk result (TookPiece piece.now (sink_told self.old) (sink_told self.new)) }
        ensures part { OnErr result (TookPart piece.now (sink_told self.old) (sink_told self.new)) }
    {
        let stop = stop_at(
            find_stop(&self.fails, self.calls),
            self.left(),
            piece.len() as u64,
        );
        self.calls = self.calls.saturating_add(1);
        match stop {
            None => {
                self.bytes.extend_from_slice(piece).unwrap();
                Ok(())
            }
            Some(at) => {
                self.bytes.extend_from_slice(&piece[..at as usize]).unwrap();
                self.faults = self.faults.saturating_add(1);
                Err(Failed)
            }
        }
    }
}
