// A place where files are read, created and closed by name.
ghost use Rattle.std.specs.Prelude.{◌≡◌, ◌≢◌, ◌<◌, ℕ, length, IsSomeAnd, IfOk, OnOk, OnErr, IsErrOf, Ok, None};
ghost use Rattle.std.specs.Option.{ForSome};
ghost use Rattle.liq_base.specs.Counts.{Rose};
ghost use Rattle.liq_base.specs.Files.{Found, FrontFound, Closed, ClosedPart, file_at};
ghost use Rattle.liq_base.specs.Shelves.{IsFresh, OnlyClosed, OnlyMade, OnlyRead, ShelfTold};

use crate::{Failed, Memory, Sink};
use std::fmt;

/// What a read came upon.
#[derive(Clone, Copy, Debug, PartialEq, Eq, Hash)]
pub enum Fetched {
    /// The file, whose bytes were added to the list.
    Found,
    /// No file of this name.
    Missing,
    /// A file of more bytes than were allowed.
    TooLarge,
}

/// What a look came upon.
#[derive(Clone, Copy, Debug, PartialEq, Eq, Hash)]
pub enum Looked {
    /// The file, whose first bytes were added to the list, and how many bytes it has.
    Found(u64),
    /// No file of this name.
    Missing,
    /// A file of more bytes than were allowed.
    TooLarge,
}

/// Why a file was neither read nor created.
#[derive(Clone, Copy, Debug, PartialEq, Eq, Hash)]
pub enum ShelfFault {
    /// The device failed.
    Failed,
    /// Memory was refused.
    Memory,
}

impl fmt::Display for ShelfFault {
    // Writes the fault of a shelf in words: a failed device, or want of memory.
    fn fmt<W: fmt::Write>(&self, f: &mut fmt::Formatter<W>) -> fmt::Result {
        match self {
            ShelfFault::Failed => Failed.fmt(f),
            ShelfFault::Memory => Memory.fmt(f),
        }
    }
}

impl std::error::Error for ShelfFault {}

impl From<Memory> for ShelfFault {
    ghost use Rattle.liq_base.specs.declared.shelf.ShelfFault.TheVariants.{Memory as memory_fault};

    ghost from_gives = { λ _ fault. fault ≡ memory_fault };

    // Makes want of memory a fault of a shelf.
    fn from(_memory: Memory) -> ShelfFault {
        ShelfFault::Memory
    }
}

/// Files under names: they are read whole, and created as sinks that a closing puts under their
/// names. The rules stand in `docs/shelves.md`.
pub trait Shelf {
    /// The sinks that it creates.
    type Out: Sink + Send;

    /// What it tells of itself. No call changes which of its facts are told, and no count falls.
    ghost told: { Self → ShelfTold };

    /// Adds the bytes of the file to `into`, if it has at most `most`, and answers whether it was found, missing or too
    /// large; any answer but `Found` leaves `into` as it was.
    fn read(&mut self, name: &str, into: &mut Vec<u8>, most: u64) -> Result<Fetched, ShelfFault>
        ensures found { result ≡ Ok Fetched.Found
            → Found (told self.old).files name.now most into.old.items into.new.items }
        ensures missing { result ≡ Ok Fetched.Missing
            → ForSome (told self.old).files (λ files. file_at files name.now ≡ None) }
        ensures too_large { result ≡ Ok Fetched.TooLarge
            → ForSome (told self.old).files (λ files. IsSomeAnd (file_at files name.now) (λ bytes. most
            < length bytes)) }
        ensures otherwise { result ≢ Ok Fetched.Found → into.new.items ≡ into.old.items }
        ensures cause { IsErrOf result ShelfFault.Failed → Rose (told self.old).reads (told self.new).reads }
        ensures shelf { OnlyRead (told self.old) (told self.new) };

    /// Adds the first bytes of the file to `into`, at least `front` of them or all, if it has at most `most`, and tells
    /// how many it has; any answer but `Found` leaves `into` as it was. Unless a shelf does better, it reads the whole
    /// file.
    fn look(
        &mut self,
        name: &str,
        into: &mut Vec<u8>,
        front: u64,
        most: u64,
    ) -> Result<Looked, ShelfFault>
        ensures found { (size : ℕ) → result ≡ Ok (Looked.Found size)
            → FrontFound (told self.old).files name.now front most size into.old.items into.new.items }
        ensures missing { result ≡ Ok Looked.Missing
            → ForSome (told self.old).files (λ files. file_at files name.now ≡ None) }
        ensures too_large { result ≡ Ok Looked.TooLarge
            → ForSome (told self.old).files (λ files. IsSomeAnd (file_at files name.now) (λ bytes. most
            < length bytes)) }
        ensures otherwise { ((size : ℕ) → result ≢ Ok (Looked.Found size)) → into.new.items ≡ into.old.items }
        ensures cause { IsErrOf result ShelfFault.Failed → Rose (told self.old).reads (told self.new).reads }
        ensures shelf { OnlyRead (told self.old) (told self.new) }
    {
        let before = into.len();
        match self.read(name, into, most)? {
            Fetched::Found => Ok(Looked::Found((into.len() - before) as u64)),
            Fetched::Missing => Ok(Looked::Missing),
            Fetched::TooLarge => Ok(Looked::TooLarge),
        }
    }

    /// Makes an empty sink of this name, with room for so many bytes. The name holds what it held until the sink is
    /// closed.
    fn create(&mut self, name: &str, room: u64) -> Result<Self::Out, ShelfFault>
        ensures fresh { IfOk result (λ out. IsFresh name.now room (told self.old) (Self.Out.told out)) }
        ensures made { OnOk result (OnlyMade name.now (told self.old) (told self.new)) }
        ensures unmade { OnErr result (OnlyRead (told self.old) (told self.new)) }
        ensures cause { IsErrOf result ShelfFault.Failed → Rose (told self.old).writes (told self.new).writes };

    /// Puts the held bytes under the sink's name. After `Failed` the name holds what it held, or a
    /// prefix of the held bytes. It takes no memory.
    fn close(&mut self, out: Self::Out) -> Result<(), Failed>
        ensures closed { OnOk result (Closed (Self.Out.told out) (told self.old).files (told self.new).files) }
        ensures part { OnErr result (ClosedPart (Self.Out.told out) (told self.old).files (told self.new).files) }
        ensures cause { OnErr result (Rose (told self.old).writes (told self.new).writes) }
        ensures shelf { OnlyClosed (Self.Out.told out) (told self.old) (told self.new) };
}
