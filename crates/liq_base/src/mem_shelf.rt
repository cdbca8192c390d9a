// A shelf in memory, whose calls fail where it is told to.
ghost use Rattle.std.specs.Prelude.{◌≡◌, ◌≢◌, ◌≤◌, ◌<◌, length, IsSomeAnd, ◌++◌, ◌∷◌, [], not, false, is_ok};
ghost use Rattle.std.specs.Prelude.{MatchOption, IfOk, OnOk, OnErr, IsErrOf, Some, None, Ok, Err};
ghost use Rattle.std.specs.Option.{ForSome};
ghost use Rattle.std.specs.FinMap.{from_entries};
ghost use Rattle.liq_base.specs.Counts.{Rose};
ghost use Rattle.liq_base.specs.Files.{file_at, Found, Closed as ClosedAs, ClosedPart};
ghost use Rattle.liq_base.specs.Shelves.{OnlyClosed, OnlyMade, OnlyRead};
ghost use Rattle.liq_base.specs.SinkStates.{named_told};
ghost use Rattle.liq_base.specs.Entries.{given_entries};
ghost use Rattle.liq_base.specs.ShelfStates.{untouched, shelf_told, read_answer, read_fails, create_fails, close_fails};
ghost use Rattle.liq_base.specs.ShelfStates.{after_read, after_create, after_close, created_sink, raised, appends_of};

use crate::closed::{Closed, fetch_file, find_file};
use crate::named_sink::NamedSink;
use crate::{Failed, Fetched, MemSink, Memory, Shelf, ShelfFault};
use std::alloc::Global;
use std::marker::Model;
use std::mem;

/// A shelf in memory. It tells its files, the names of the sinks that it made, and which it closed; its sinks tell
/// their bytes, name, room left and number of appends.
///
/// Reads, creations and closings are each counted from 0 since the shelf was made, the appends of
/// a sink from 0 since its creation. A call fails exactly where it is listed. The read count rises
/// exactly at the listed reads; the write count rises exactly at the listed creations and closings
/// and where a sink is closed that had failed. A closing that fails leaves the files as they were.
#[derive(Debug, Drop)]
pub struct MemShelf {
    alloc: Global,
    given: Vec<(String, Vec<u8>)>,
    closed: Closed,
    created: Vec<String>,
    reads: u64,
    creates: u64,
    closes: u64,
    failing_reads: Vec<u64>,
    failing_creates: Vec<u64>,
    failing_closes: Vec<u64>,
    failing_appends: Vec<FailingAppend>,
    read_faults: u64,
    write_faults: u64,
}

/// A listed append: call number `call` of the sink of creation number `sink` fails after `taken`
/// bytes.
#[derive(Clone, Copy, Debug)]
struct FailingAppend {
    sink: u32,
    call: u64,
    taken: u64,
}

impl Model for MemShelf {
    ghost use Rattle.std.specs.Prelude.{map, string_bytes};
    ghost use Rattle.liq_base.specs.Entries.{files_of, closings};
    ghost use Rattle.liq_base.specs.ShelfStates.{ShelfState, shelf_code};

    ghost Value = { ShelfState };

    ghost coded = { shelf_code };

    ghost view = { λ s. record {
      files = files_of s.closed s.given.items;
      created = map string_bytes s.created.items;
      closed = closings s.closed;
      reads = s.reads;
      creates = s.creates;
      closes = s.closes;
      failing_reads = s.failing_reads.items;
      failing_creates = s.failing_creates.items;
      failing_closes = s.failing_closes.items;
      failing_appends = s.failing_appends.items;
      read_faults = s.read_faults;
      write_faults = s.write_faults;
    } };
}

impl MemShelf {
    /// A shelf with these files, of which no call fails. Where a name stands twice, its first
    /// place counts. It takes no memory.
    pub fn new(alloc: Global, files: Vec<(String, Vec<u8>)>) -> MemShelf
        ensures untouched { result ≡ untouched (from_entries (given_entries files.items)) }
    {
        MemShelf {
            alloc,
            given: files,
            closed: Closed::End,
            created: Vec::new(alloc),
            reads: 0,
            creates: 0,
            closes: 0,
            failing_reads: Vec::new(alloc),
            failing_creates: Vec::new(alloc),
            failing_closes: Vec::new(alloc),
            failing_appends: Vec::new(alloc),
            read_faults: 0,
            write_faults: 0,
        }
    }

    /// Tells the shelf to let the read of this number, counted from 0, fail.
    pub fn fail_read(&mut self, call: u64) -> Result<(), Memory>
        ensures listed { OnOk result (self.new ≡ record self.old {
          failing_reads = self.old.failing_reads ++ call
              ∷ [];
        }) }
        ensures unchanged { OnErr result (self.new ≡ self.old) }
    {
        self.failing_reads.push(call)?;
        Ok(())
    }

    /// Tells the shelf to let the creation of this number, counted from 0, fail.
    pub fn fail_create(&mut self, call: u64) -> Result<(), Memory>
        ensures listed { OnOk result (self.new ≡ record self.old {
          failing_creates = self.old.failing_creates ++ call
              ∷ [];
        }) }
        ensures unchanged { OnErr result (self.new ≡ self.old) }
    {
        self.failing_creates.push(call)?;
        Ok(())
    }

    /// Tells the shelf to let the closing of this number, counted from 0, fail.
    pub fn fail_close(&mut self, call: u64) -> Result<(), Memory>
        ensures listed { OnOk result (self.new ≡ record self.old {
          failing_closes = self.old.failing_closes ++ call
              ∷ [];
        }) }
        ensures unchanged { OnErr result (self.new ≡ self.old) }
    {
        self.failing_closes.push(call)?;
        Ok(())
    }

    /// Tells the shelf to let an append fail after `taken` bytes: call number `call` of the sink that creation number
    /// `sink` makes, both from 0. A sink takes its list over when it is made.
    pub fn fail_append(&mut self, sink: u32, call: u64, taken: u64) -> Result<(), Memory>
        ensures listed { OnOk result (self.new ≡ record self.old {
          failing_appends = self.old.failing_appends
              ++ (record { sink = sink; call = call; taken = taken }) ∷ [];
        }) }
        ensures unchanged { OnErr result (self.new ≡ self.old) }
    {
        self.failing_appends
            .push(FailingAppend { sink, call, taken })?;
        Ok(())
    }

    /// The bytes of the file of this name in the shelf; `None` where there is none. A file that was written goes before
    /// one with which the shelf was made.
    pub fn get(&self, name: &str) -> Option<&[u8]>
        ensures file { MatchOption result (file_at self.now.files name.now ≡ None)
            (λ bytes. file_at self.now.files name.now ≡ Some bytes.now) }
    {
        find_file(&self.closed, &self.given, name)
    }

    /// Appends a name to the list of the sinks that this shelf made.
    fn note(&mut self, name: &str) -> Result<(), Memory>
        ensures noted { OnOk result (self.new ≡ record self.old { created = self.old.created ++ name.now ∷ [] }) }
        ensures unchanged { OnErr result (self.new ≡ self.old) }
    {
        let name = String::from_str(self.alloc, name)?;
        self.created.push(name)?;
        Ok(())
    }

    /// Counts one more read, and answers whether the shelf was told to let it fail; if so it counts a fault too. Reads
    /// are numbered from 0.
    fn count_read(&mut self) -> bool
        ensures next { self.new ≡ after_read self.old }
        ensures fails { result ≡ read_fails self.old }
        ensures rises { self.old.read_faults ≤ self.new.read_faults }
    {
        let fails = self.failing_reads.contains(&self.reads);
        self.reads = self.reads.saturating_add(1);
        self.read_faults = raise(self.read_faults, fails);
        fails
    }
}

impl Shelf for MemShelf {
    type Out = NamedSink;

    ghost use Rattle.liq_base.specs.ShelfStates.{shelf_told};

    ghost told = { shelf_told };

    // Adds the bytes of the file of this name to `into`, if it has at most `most`; fails where this read is listed to
    // fail.
    fn read(&mut self, name: &str, into: &mut Vec<u8>, most: u64) -> Result<Fetched, ShelfFault>
        ensures next { self.new ≡ after_read self.old }
        ensures answer { result ≢ Err ShelfFault.Memory → result ≡ read_answer self.old name.now most }
        ensures memory { result ≡ Err ShelfFault.Memory → read_answer self.old name.now most ≡ Ok Fetched.Found }
        ensures found { result ≡ Ok Fetched.Found
            → Found (Some self.old.files) name.now most into.old.items into.new.items }
        ensures missing { result ≡ Ok Fetched.Missing
            → ForSome (Some self.old.files) (λ files. file_at files name.now ≡ None) }
        ensures too_large { result ≡ Ok Fetched.TooLarge
            → ForSome (Some self.old.files) (λ files. IsSomeAnd (file_at files name.now) (λ bytes. most
            < length bytes)) }
        ensures otherwise { result ≢ Ok Fetched.Found → into.new.items ≡ into.old.items }
        ensures cause { IsErrOf result ShelfFault.Failed → Rose self.old.read_faults self.new.read_faults }
        ensures shelf { OnlyRead (shelf_told self.old) (shelf_told self.new) }
    {
        if self.count_read() {
            return Err(ShelfFault::Failed);
        }
        fetch_file(&self.closed, &self.given, name, into, most)
    }

    // Makes an empty sink of this name in memory, with this room, and notes its name. Where this creation is listed to
    // fail, it counts a fault and fails. The sink takes over the appends that are listed for it.
    fn create(&mut self, name: &str, room: u64) -> Result<NamedSink, ShelfFault>
        ensures next { OnOk result (self.new ≡ after_create self.old (name.now ∷ [])) }
        ensures refused { OnErr result (self.new ≡ after_create self.old []) }
        ensures answer { result ≢ Err ShelfFault.Memory → is_ok result ≡ not (create_fails self.old) }
        ensures memory { result ≡ Err ShelfFault.Memory → create_fails self.old ≡ false }
        ensures made { IfOk result (λ out. out ≡ created_sink self.old name.now room) }
        ensures made_one { OnOk result (OnlyMade name.now (shelf_told self.old) (shelf_told self.new)) }
        ensures unmade { OnErr result (OnlyRead (shelf_told self.old) (shelf_told self.new)) }
        ensures cause { IsErrOf result ShelfFault.Failed → Rose self.old.write_faults self.new.write_faults }
    {
        let call = self.creates;
        let fails = self.failing_creates.contains(&call);
        self.creates = self.creates.saturating_add(1);
        self.write_faults = raise(self.write_faults, fails);
        if fails {
            return Err(ShelfFault::Failed);
        }
        let own = listed_appends(self.alloc, &self.failing_appends, call)?;
        let out = NamedSink::new(self.alloc, name, room, own)?;
        self.note(name)?;
        Ok(out)
    }

    // Makes the bytes of a sink the file of its name, and tells it among the closed ones. Where this closing is listed
    // to fail, the files stay as they were. A fault is counted there, and also where an append of the sink had failed.
    fn close(&mut self, out: NamedSink) -> Result<(), Failed>
        ensures next { self.new ≡ after_close self.old out }
        ensures answer { is_ok result ≡ not (close_fails self.old) }
        ensures closed { OnOk result (ClosedAs (named_told out) (Some self.old.files) (Some self.new.files)) }
        ensures part { OnErr result (ClosedPart (named_told out) (Some self.old.files) (Some self.new.files)) }
        ensures cause { OnErr result (Rose self.old.write_faults self.new.write_faults) }
        ensures shelf { OnlyClosed (named_told out) (shelf_told self.old) (shelf_told self.new) }
    {
        let fails = self.failing_closes.contains(&self.closes);
        self.closes = self.closes.saturating_add(1);
        self.write_faults = raise(self.write_faults, fails || out.faults() > 0);
        let mut entry = out.into_entry();
        entry.next = mem::replace(&mut self.closed, Closed::End);
        if fails {
            self.closed = Closed::Lost(entry);
            return Err(Failed);
        }
        self.closed = Closed::File(entry);
        Ok(())
    }
}

/// The appends that are to fail of the sink which creation number `sink` makes: for each the number of the call, from
/// 0, and how many bytes it takes. `fails` has those of all sinks.
fn listed_appends(
    alloc: Global,
    fails: &[FailingAppend],
    sink: u64,
) -> Result<Vec<(u64, u64)>, Memory>
    ensures { IfOk result (λ own. own.items ≡ appends_of sink fails.now) }
{
    let mut own = Vec::new(alloc);
    for fail in fails {
        if u64::from(fail.sink) == sink {
            own.push((fail.call, fail.taken))?;
        }
    }
    Ok(own)
}

/// A count of faults after one more call, which `failed` or did not: one more, up to `u64::MAX`, or as it was.
fn raise(count: u64, failed: bool) -> u64
    ensures { result ≡ raised count failed }
{
    if failed {
        count.saturating_add(1)
    } else {
        count
    }
}
