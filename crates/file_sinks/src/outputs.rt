// The sink of a file.
ghost use Rattle.std.specs.Prelude.{◌≡◌, ◌≤◌, ◌+◌, ◌-◌, ◌^◌, ◌↔◌, min, length, [], IsOk, IsTrue, OnOk, OnErr, IfOk};
ghost use Rattle.std.specs.Prelude.{IfErr};
ghost use Rattle.std.specs.Option.{ForSome};
ghost use Rattle.std.specs.Io.KnownBytes.{Appends, Keeps};
ghost use Rattle.std.specs.IoError.{error_kind};
ghost use Rattle.liq_base.specs.Counts.{Rose};
ghost use Rattle.liq_base.specs.Pieces.{TookPiece, TookPart};
ghost use Rattle.liq_base.specs.Untold.{faults_alone};
ghost use Rattle.file_sinks.specs.Sinks.{capacity_of, faults_of, kept_of, place_of, room_of, taken_of, tells_of};
ghost use Rattle.file_sinks.specs.Sinks.{writer_of};
ghost use Rattle.file_sinks.specs.Syncs.{MakesCertain};
ghost use Rattle.file_sinks.specs.Writing.{AppendsPart};

use crate::certain::Lasting;
use crate::streams::OutSink;
use liq_base::{Failed, Sink};
use std::alloc::Global;
use std::io;
use std::io::{BufWriter, ErrorKind, Write};

/// Bytes that are kept before they are handed on to a regular file.
pub const KEPT: usize = 65_536;

/// A file that is written: beside its name until it is closed, where that can be, and else in place. It keeps bytes and
/// hands them on when there is no more room for them; for what takes bytes as they come, as a pipe, it keeps none, and
/// none once no more than `KEPT` are to come, so that a failure is told while other outputs are not whole yet. It
/// counts its bytes: it is whole only if it got exactly those that its creation was told. A test may write to another
/// writer than a real file.
#[derive(Drop)]
pub struct FileSink<W: Write + Drop> {
    to: OutSink<BufWriter<W>>,
    room: u64,
    taken: u64,
    place: Place,
}

/// Where the bytes stand until the file is closed.
#[derive(Clone, Copy)]
pub enum Place {
    /// Under the name itself.
    Own,
    /// Under a temporary name, of the output of this number.
    Beside(usize),
}

impl<W: Write + Drop> FileSink<W> {
    /// Makes the sink of a file that writes to `to`: the file is to get `room` bytes in all, and at most `kept` of them
    /// are kept in memory at a time. `place` says under which name its bytes stand. An error is want of memory.
    pub fn new(
        alloc: Global,
        to: W,
        place: Place,
        room: u64,
        kept: usize,
    ) -> io::Result<FileSink<W>>
        ensures writer { IfOk result (λ sink. writer_of sink ≡ to) }
        ensures place { IfOk result (λ sink. place_of sink ≡ place) }
        ensures room { IfOk result (λ sink. room_of sink ≡ room) }
        ensures capacity { IfOk result (λ sink. capacity_of sink ≡ kept) }
        ensures faults { IfOk result (λ sink. faults_of sink ≡ 0) }
        ensures empty { IfOk result (λ sink. taken_of sink ≡ 0) }
        ensures none_kept { IfOk result (λ sink. kept_of sink ≡ []) }
        ensures cause { IfErr result (λ error. error_kind error ≡ ErrorKind.OutOfMemory) }
        ensures succeeds { kept ≡ 0 → IsOk result }
    {
        Ok(FileSink {
            to: OutSink::new(BufWriter::with_capacity(alloc, kept, to)?),
            room,
            taken: 0,
            place,
        })
    }

    /// How often a write to the file failed, counted since the sink was made.
    pub fn faults(&self) -> u64
        ensures { result ≡ faults_of self.now }
    {
        self.to.faults()
    }

    /// Under which name the bytes stand until the file is closed: its own, or a temporary one.
    pub fn place(&self) -> Place
        ensures { result ≡ place_of self.now }
    {
        self.place
    }

    // Whether the file is written whole: no piece failed, it got exactly the bytes that it is to get, and all were
    // handed on.
    pub(crate) fn is_whole(&self) -> bool
        ensures { IsTrue result ↔ (faults_of self.now ≡ 0) × (taken_of self.now ≡ room_of self.now)
            × (kept_of self.now ≡ []) }
    {
        self.to.faults() == 0 && self.taken == self.room && self.to.keeps_nothing()
    }

    /// Hands on to the writer what is kept in memory. After `Failed` the writer got a first part of it.
    pub fn hand_on(&mut self) -> Result<(), Failed>
        ensures bytes { Keeps (tells_of W.contents self.old) (tells_of W.contents self.new) }
        ensures none_kept { OnOk result (kept_of self.new ≡ []) }
        ensures place { place_of self.new ≡ place_of self.old }
        ensures counted { taken_of self.new ≡ taken_of self.old }
        ensures length { room_of self.new ≡ room_of self.old }
        ensures faults { faults_of self.old ≤ faults_of self.new }
        ensures unfailed { OnOk result (faults_of self.new ≡ faults_of self.old) }
        ensures cause { OnErr result (Rose (faults_of self.old) (faults_of self.new)) }
    {
        self.to.hand_on()
    }

    // Ends the sink: the writer, and under which name its bytes stand; what is still kept in memory is let go.
    pub(crate) fn into_writer(self) -> (W, Place)
        ensures writer { result.0 ≡ writer_of self }
        ensures place { result.1 ≡ place_of self }
    {
        let FileSink {
            to,
            room: _,
            taken: _,
            place,
        } = self;
        (to.into_writer().into_parts().0, place)
    }
}

impl<W: Lasting + Drop> FileSink<W> {
    // Has the system make certain on the disk (a sync) what the writer got, and answers whether it is; what is still
    // kept in memory is not among it.
    pub(crate) fn make_certain(&mut self) -> bool
        ensures bytes { Keeps (tells_of W.contents self.old) (tells_of W.contents self.new) }
        ensures place { place_of self.new ≡ place_of self.old }
        ensures faults { faults_of self.new ≡ faults_of self.old }
        ensures kept { kept_of self.new ≡ kept_of self.old }
        ensures synced { ForSome (W.answered (writer_of self.new)) (λ answer. IsTrue result ↔ MakesCertain answer) }
    {
        self.to.make_certain()
    }
}

impl<W: Write + Drop> Sink for FileSink<W> {
    ghost use Rattle.liq_base.specs.Untold.{faults_alone};

    ghost told = { λ s. faults_alone s.to.faults };

    /// Keeps or writes the piece: what was written and then what is kept grow by it, and after `Failed` by a prefix of
    /// it.
    fn append(&mut self, piece: &[u8]) -> Result<(), Failed>
        ensures whole { OnOk result (Appends (tells_of W.contents self.old) (tells_of W.contents self.new) piece.now) }
        ensures front { OnErr result
            (AppendsPart (tells_of W.contents self.old) (tells_of W.contents self.new) piece.now) }
        ensures counted { OnOk result (taken_of self.new ≡ min (taken_of self.old + length piece.now) (2 ^ 64 - 1)) }
        ensures uncounted { OnErr result (taken_of self.new ≡ taken_of self.old) }
        ensures length { room_of self.new ≡ room_of self.old }
        ensures handed_on { OnOk result (room_of self.new - taken_of self.new ≤ 65536 → kept_of self.new ≡ []) }
        ensures took { OnOk result
            (TookPiece piece.now (faults_alone self.old.to.faults) (faults_alone self.new.to.faults)) }
        ensures part { OnErr result
            (TookPart piece.now (faults_alone self.old.to.faults) (faults_alone self.new.to.faults)) }
        ensures unfailed { OnOk result (faults_of self.new ≡ faults_of self.old) }
    {
        let taken = self.taken.saturating_add(piece.len() as u64);
        self.to.append(piece)?;
        if self.room.saturating_sub(taken) <= KEPT as u64 {
            self.to.hand_on()?;
        }
        self.taken = taken;
        Ok(())
    }
}
