// What makes bytes certain, and the writer of a file all of whose bytes are.
ghost use Rattle.std.specs.Prelude.{◌≡◌, ◌↔◌, ◌⊎◌, List, ℕ, Option, None, OnOk, IfOk, IfErr, IsTrue};
ghost use Rattle.std.specs.Option.{ForSome};
ghost use Rattle.std.specs.Io.KnownBytes.{Keeps};
ghost use Rattle.file_sinks.specs.Sinks.{certain_place, certain_writer, faults_of, place_of, room_of, taken_of};
ghost use Rattle.file_sinks.specs.Sinks.{tells_of, writer_of};
ghost use Rattle.file_sinks.specs.Syncs.{MakesCertain, SaysNoSync, SyncAnswer};

use crate::outputs::{FileSink, Place};
use std::fs::File;
use std::io::{ErrorKind, Write};

/// A writer that can be asked to have made certain what it took.
pub trait Lasting: Write {
    /// What the sync answered behind which nothing was done, where that is known.
    ghost answered: { Self → Option SyncAnswer } = { λ _. None };

    /// Has made certain what was written, or says why not.
    fn sync(&mut self) -> Result<(), ErrorKind>
        ensures bytes { Keeps (Self.contents self.old) (Self.contents self.new) }
        ensures told { ForSome (answered self.new) (λ answer. answer ≡ result) };
}

/// A file of the system tells nothing of itself to a proof, so of this body no clause says that it asks the system.
impl Lasting for File {
    // Asks the system to make certain on the disk what was written to the file.
    fn sync(&mut self) -> Result<(), ErrorKind> {
        match self.sync_all() {
            Ok(()) => Ok(()),
            Err(error) => Err(error.kind()),
        }
    }
}

/// Has the system make certain on the disk what was written to a file, or the names of a folder (a sync). True says
/// that it is, or that what is open knows no sync: a pipe or device told its faults by its writes. False says that the
/// sync failed, where faults may come after the writes.
pub fn make_certain<F: Lasting>(file: &mut F) -> bool
    ensures bytes { Keeps (F.contents file.old) (F.contents file.new) }
    ensures synced { ForSome (F.answered file.new) (λ answer. IsTrue result ↔ MakesCertain answer) }
{
    match file.sync() {
        Ok(()) => true,
        Err(kind) => is_syncless(kind),
    }
}

// Whether a refused sync says that there is no such call for what is open, as for a pipe, rather than that it failed.
fn is_syncless(kind: ErrorKind) -> bool
    ensures { IsTrue result ↔ SaysNoSync kind }
{
    matches!(kind, ErrorKind::InvalidInput | ErrorKind::Unsupported)
}

/// The writer of a file that got exactly its bytes, all of which the system has made certain. A file takes its place by
/// such a value alone, and `FileSink::finish` alone makes one.
#[derive(Drop)]
pub struct Certain<W: Lasting + Drop> {
    writer: W,
    place: Place,
}

impl<W: Lasting + Drop> Certain<W> {
    /// Under which name its bytes stand until the file takes its place: its own, or a temporary one.
    pub fn place(&self) -> Place
        ensures { result ≡ certain_place self.now }
    {
        self.place
    }
}

impl<W: Lasting + Drop> FileSink<W> {
    /// Ends the writing: hands on what is kept, and has the system make certain what the file got. `Ok` has the writer
    /// of a file that is whole and certain. `Err` gives the sink back: it did not get exactly its bytes, or the system
    /// told a fault.
    pub fn finish(self) -> Result<Certain<W>, FileSink<W>>
        ensures faults { OnOk result (faults_of self ≡ 0) }
        ensures length { OnOk result (taken_of self ≡ room_of self) }
        ensures bytes { IfOk result
            (λ certain. Keeps (tells_of W.contents self) (W.contents (certain_writer certain))) }
        ensures synced { IfOk result (λ certain. ForSome (W.answered (certain_writer certain)) MakesCertain) }
        ensures place { IfOk result (λ certain. certain_place certain ≡ place_of self) }
        ensures same { IfErr result (λ sink. Keeps (tells_of W.contents self) (tells_of W.contents sink)) }
        ensures stays { IfErr result (λ sink. place_of sink ≡ place_of self) }
        ensures cause { IfErr result (λ sink. faults_of sink ≡ 0 → taken_of self ≡ room_of self
            → ForSome (W.answered (writer_of sink)) (λ answer. MakesCertain answer → ⊥)) }
    {
        let mut sink = self;
        let is_handed = sink.hand_on().is_ok();
        if is_handed && sink.is_whole() && sink.make_certain() {
            let (writer, place) = sink.into_writer();
            Ok(Certain { writer, place })
        } else {
            Err(sink)
        }
    }
}
