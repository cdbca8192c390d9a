// A shelf in memory of which no call fails.
ghost use Rattle.std.specs.Prelude.{◌≡◌, ◌≢◌, ◌≤◌, ◌<◌, [], ◌++◌, length, MatchOption, IfOk, OnOk, OnErr, IsErrOf};
ghost use Rattle.std.specs.Prelude.{IsSomeAnd, Some, None, Ok, Err};
ghost use Rattle.std.specs.Option.{ForSome};
ghost use Rattle.std.specs.FinMap.{from_entries};
ghost use Rattle.liq_base.specs.Counts.{Rose};
ghost use Rattle.liq_base.specs.Files.{file_at, with_file, Found};
ghost use Rattle.liq_base.specs.Entries.{given_entries};
ghost use Rattle.liq_base.specs.ShelfStates.{fetched};

use crate::closed::{Closed, fetch_file, find_file};
use crate::sure_sink::SureSink;
use crate::{Failed, Fetched, Shelf, ShelfFault};
use std::alloc::Global;
use std::marker::Model;
use std::mem;

/// A shelf in memory of which no call answers `Failed`: its two counts of faults stand at 0, and
/// so do those of its sinks. Contracts see its files.
#[derive(Debug, Drop)]
pub struct SureShelf {
    alloc: Global,
    given: Vec<(String, Vec<u8>)>,
    closed: Closed,
}

impl Model for SureShelf {
    ghost use Rattle.liq_base.specs.Files.{Files};
    ghost use Rattle.liq_base.specs.Entries.{files_of};
    ghost use Rattle.liq_base.specs.ShelfStates.{files_code};

    ghost Value = { Files };

    ghost coded = { files_code };

    ghost view = { λ s. files_of s.closed s.given.items };
}

impl SureShelf {
    /// A shelf with these files. Where a name stands twice, its first place counts. It takes no
    /// memory.
    pub fn new(alloc: Global, files: Vec<(String, Vec<u8>)>) -> SureShelf
        ensures files { result ≡ from_entries (given_entries files.items) }
    {
        SureShelf {
            alloc,
            given: files,
            closed: Closed::End,
        }
    }

    /// The bytes of the file of this name in the shelf; `None` where there is none. A file that was written goes before
    /// one with which the shelf was made.
    pub fn get(&self, name: &str) -> Option<&[u8]>
        ensures file { MatchOption result (file_at self.now name.now ≡ None)
            (λ bytes. file_at self.now name.now ≡ Some bytes.now) }
    {
        find_file(&self.closed, &self.given, name)
    }
}

impl Shelf for SureShelf {
    type Out = SureSink;

    ghost use Rattle.liq_base.specs.ShelfStates.{sure_shelf_told};

    ghost told = { sure_shelf_told };

    // Adds the bytes of the file of this name to `into`, if it has at most `most`. It never fails but for want of
    // memory.
    fn read(&mut self, name: &str, into: &mut Vec<u8>, most: u64) -> Result<Fetched, ShelfFault>
        ensures next { self.new ≡ self.old }
        ensures answer { result ≢ Err ShelfFault.Memory → result ≡ Ok (fetched (file_at self.old name.now) most) }
        ensures memory { result ≡ Err ShelfFault.Memory → fetched (file_at self.old name.now) most ≡ Fetched.Found }
        ensures found { result ≡ Ok Fetched.Found → Found (Some self.old) name.now most into.old.items into.new.items }
        ensures missing { result ≡ Ok Fetched.Missing
            → ForSome (Some self.old) (λ files. file_at files name.now ≡ None) }
        ensures too_large { result ≡ Ok Fetched.TooLarge
            → ForSome (Some self.old) (λ files. IsSomeAnd (file_at files name.now) (λ bytes. most < length bytes)) }
        ensures otherwise { result ≢ Ok Fetched.Found → into.new.items ≡ into.old.items }
    {
        fetch_file(&self.closed, &self.given, name, into, most)
    }

    // Makes an empty sink of this name in memory, with room for so many bytes. It never fails but for want of memory.
    fn create(&mut self, name: &str, room: u64) -> Result<SureSink, ShelfFault>
        ensures next { self.new ≡ self.old }
        ensures made { IfOk result (λ out. out ≡ record { name = name.now; held = []; room = room }) }
        ensures sure { result ≢ Err ShelfFault.Failed }
    {
        Ok(SureSink::new(self.alloc, name, room)?)
    }

    // Makes the bytes of a sink the file of its name. It never fails.
    fn close(&mut self, out: SureSink) -> Result<(), Failed>
        ensures next { self.new ≡ with_file self.old out.name out.held }
        ensures sure { result ≡ Ok tt }
    {
        let mut entry = out.into_entry();
        entry.next = mem::replace(&mut self.closed, Closed::End);
        self.closed = Closed::File(entry);
        Ok(())
    }
}
