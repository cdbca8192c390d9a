// A writer as a byte sink. It tells no bytes and no room left.
ghost use Rattle.std.specs.Prelude.{◌≡◌, ◌≤◌, ◌↔◌, ℕ, [], IsTrue, OnOk, OnErr};
ghost use Rattle.std.specs.Option.{ForSome};
ghost use Rattle.std.specs.Io.Buffered.{writer_buffer, writer_contents, writer_inner};
ghost use Rattle.std.specs.Io.KnownBytes.{Appends, Keeps};
ghost use Rattle.liq_base.specs.Counts.{Rose};
ghost use Rattle.liq_base.specs.Pieces.{TookPiece, TookPart};
ghost use Rattle.liq_base.specs.Untold.{faults_alone};
ghost use Rattle.file_sinks.specs.Syncs.{MakesCertain};
ghost use Rattle.file_sinks.specs.Writing.{AppendsPart};

use crate::certain::{Lasting, make_certain};
use liq_base::{Failed, Sink};
use std::io::{BufWriter, ErrorKind, Write};

/// A writer as a byte sink, which counts its failures. Of a writer whose bytes are known, they grow by each piece.
#[derive(Drop)]
pub struct OutSink<W: Write + Drop> {
    to: W,
    faults: u64,
}

impl<W: Write + Drop> OutSink<W> {
    /// The sink of a writer, with no failure counted so far.
    pub fn new(to: W) -> OutSink<W>
        ensures faults { result.faults ≡ 0 }
        ensures same { result.to ≡ to }
    {
        OutSink { to, faults: 0 }
    }

    /// How often a write to the writer failed, counted since the sink was made.
    pub fn faults(&self) -> u64
        ensures { result ≡ self.now.faults }
    {
        self.faults
    }

    /// The writer to which the pieces of the output go, to look at.
    pub fn writer(&self) -> &W
        ensures { result.now ≡ self.now.to }
    {
        &self.to
    }

    /// Ends the sink and gives its writer back; the count of failures is let go.
    pub fn into_writer(self) -> W
        ensures { result ≡ self.to }
    {
        self.to
    }
}

impl<W: Write + Drop> OutSink<BufWriter<W>> {
    /// Whether the buffered writer has handed on all its bytes, so that it keeps none in memory.
    pub(crate) fn keeps_nothing(&self) -> bool
        ensures { IsTrue result ↔ writer_buffer self.now.to ≡ [] }
    {
        self.to.buffer().is_empty()
    }

    /// Hands on what the buffered writer keeps in memory. After `Failed` a first part of it was handed on.
    pub(crate) fn hand_on(&mut self) -> Result<(), Failed>
        ensures bytes { Keeps (writer_contents W.contents self.old.to) (writer_contents W.contents self.new.to) }
        ensures none_kept { OnOk result (writer_buffer self.new.to ≡ []) }
        ensures faults { self.old.faults ≤ self.new.faults }
        ensures unfailed { OnOk result (self.new.faults ≡ self.old.faults) }
        ensures cause { OnErr result (Rose self.old.faults self.new.faults) }
    {
        if self.to.flush().is_ok() {
            return Ok(());
        }
        self.faults = self.faults.saturating_add(1);
        Err(Failed)
    }
}

impl<W: Lasting + Drop> OutSink<BufWriter<W>> {
    // Has the system make certain on the disk (a sync) what the writer got, and answers whether it is; what is still
    // kept in memory is not among it.
    pub(crate) fn make_certain(&mut self) -> bool
        ensures bytes { Keeps (writer_contents W.contents self.old.to) (writer_contents W.contents self.new.to) }
        ensures kept { writer_buffer self.new.to ≡ writer_buffer self.old.to }
        ensures faults { self.new.faults ≡ self.old.faults }
        ensures synced { ForSome (W.answered (writer_inner self.new.to)) (λ answer. IsTrue result
            ↔ MakesCertain answer) }
    {
        make_certain(self.to.get_mut())
    }
}

impl<W: Write + Drop> Sink for OutSink<W> {
    ghost use Rattle.liq_base.specs.Untold.{faults_alone};

    ghost told = { λ s. faults_alone s.faults };

    /// Writes the piece. After `Failed` the writer got a prefix of it.
    fn append(&mut self, piece: &[u8]) -> Result<(), Failed>
        ensures whole { OnOk result (Appends (W.contents self.old.to) (W.contents self.new.to) piece.now) }
        ensures front { OnErr result (AppendsPart (W.contents self.old.to) (W.contents self.new.to) piece.now) }
        ensures took { OnOk result (TookPiece piece.now (faults_alone self.old.faults) (faults_alone self.new.faults)) }
        ensures part { OnErr result (TookPart piece.now (faults_alone self.old.faults) (faults_alone self.new.faults)) }
        ensures unfailed { OnOk result (self.new.faults ≡ self.old.faults) }
    {
        if write_whole(&mut self.to, piece) {
            return Ok(());
        }
        self.faults = self.faults.saturating_add(1);
        Err(Failed)
    }
}

// Writes the whole piece to a writer, in as many writes as it takes. True says that all went well. A write that takes
// nothing is a failure, and one that was interrupted is made again.
fn write_whole<W: Write>(to: &mut W, piece: &[u8]) -> bool
    ensures whole { IsTrue result → Appends (W.contents to.old) (W.contents to.new) piece.now }
    ensures part { AppendsPart (W.contents to.old) (W.contents to.new) piece.now }
{
    let mut rest = piece;
    for _ in 0..u64::MAX {
        if rest.is_empty() {
            return true;
        }
        match to.write(rest) {
            Ok(0) => return false,
            Ok(count) => rest = &rest[count..],
            Err(error) if error.kind() == ErrorKind::Interrupted => continue,
            Err(_) => return false,
        }
    }
    false
}
