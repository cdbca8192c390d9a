// The sinks that were closed, the newest first, those whose closing failed among them. Each takes over the memory of
// the sink that it was.
ghost use Rattle.std.specs.Prelude.{◌≡◌, ◌≢◌, ◌<◌, length, MatchOption, IsSomeAnd, None, Some, Ok, Err};
ghost use Rattle.std.specs.Option.{ForSome};
ghost use Rattle.liq_base.specs.Entries.{entries, stored, given_entries, files_of};
ghost use Rattle.liq_base.specs.Files.{file_at, Found};
ghost use Rattle.liq_base.specs.ShelfStates.{fetched};

use crate::{Fetched, Memory, ShelfFault};
use std::alloc::Global;
use std::fmt;

/// The sinks that a shelf in memory closed, the newest first.
#[cycle(closed)]
#[derive(Drop)]
pub(crate) enum Closed {
    End,
    File(Box<Entry>),

    /// Its closing failed, so it is no file.
    Lost(Box<Entry>),
}

/// A sink that was closed, with what it told of itself, and the sinks that were closed before it.
#[cycle(closed)]
#[derive(Drop)]
pub(crate) struct Entry {
    pub name: String,
    pub bytes: Vec<u8>,
    /// How many bytes more it had room for.
    pub left: u64,
    /// How many pieces it had got, at most as many as a `u64` counts.
    pub pieces: u64,
    /// How often it had failed.
    pub faults: u64,
    pub next: Closed,
}

/// The files are not printed.
impl fmt::Debug for Closed {
    // Prints the word `Closed` alone, and none of the files.
    fn fmt<W: fmt::Write>(&self, f: &mut fmt::Formatter<W>) -> fmt::Result {
        f.write_str("Closed")
    }
}

/// The file is not printed.
impl fmt::Debug for Entry {
    // Prints the word `Entry` alone, and nothing of the file.
    fn fmt<W: fmt::Write>(&self, f: &mut fmt::Formatter<W>) -> fmt::Result {
        f.write_str("Entry")
    }
}

impl Entry {
    /// An entry with nothing in it, made together with a sink, so that closing the sink takes no memory.
    pub fn empty(alloc: Global) -> Result<Box<Entry>, Memory> {
        let entry = Entry {
            name: String::new(alloc),
            bytes: Vec::new(alloc),
            left: 0,
            pieces: 0,
            faults: 0,
            next: Closed::End,
        };
        Ok(Box::new(alloc, entry)?)
    }
}

/// The bytes of the file of this name in a shelf in memory: of those that it wrote (`closed`) the newest, else the
/// first of those with which it was made (`given`); `None` where there is none.
pub(crate) fn find_file<'a>(
    closed: &'a Closed,
    given: &'a [(String, Vec<u8>)],
    name: &str,
) -> Option<&'a [u8]>
    ensures { MatchOption result (file_at (files_of closed.now given.now) name.now ≡ None)
        (λ bytes. file_at (files_of closed.now given.now) name.now ≡ Some bytes.now) }
{
    match find_closed(closed, name) {
        Some(bytes) => Some(bytes),
        None => find_given(given, name),
    }
}

/// Reads the file of this name in a shelf in memory: adds its bytes to `into`, if it has at most `most`, and answers
/// whether it was found, missing or too large. A written file (`closed`) goes before one with which the shelf was made
/// (`given`). It fails for want of memory alone.
pub(crate) fn fetch_file(
    closed: &Closed,
    given: &[(String, Vec<u8>)],
    name: &str,
    into: &mut Vec<u8>,
    most: u64,
) -> Result<Fetched, ShelfFault>
    ensures answer { result ≢ Err ShelfFault.Memory
        → result ≡ Ok (fetched (file_at (files_of closed.now given.now) name.now) most) }
    ensures memory { result ≡ Err ShelfFault.Memory
        → fetched (file_at (files_of closed.now given.now) name.now) most ≡ Fetched.Found }
    ensures found { result ≡ Ok Fetched.Found
        → Found (Some (files_of closed.now given.now)) name.now most into.old.items into.new.items }
    ensures missing { result ≡ Ok Fetched.Missing
        → ForSome (Some (files_of closed.now given.now)) (λ files. file_at files name.now ≡ None) }
    ensures too_large { result ≡ Ok Fetched.TooLarge
        → ForSome (Some (files_of closed.now given.now)) (λ files. IsSomeAnd (file_at files name.now) (λ bytes. most
        < length bytes)) }
    ensures otherwise { result ≢ Ok Fetched.Found → into.new.items ≡ into.old.items }
{
    let Some(bytes) = find_file(closed, given, name) else {
        return Ok(Fetched::Missing);
    };
    if bytes.len() as u64 > most {
        return Ok(Fetched::TooLarge);
    }
    match into.extend_from_slice(bytes) {
        Ok(()) => Ok(Fetched::Found),
        Err(_) => Err(ShelfFault::Memory),
    }
}

/// The bytes of the newest file of this name that a shelf in memory wrote; `None` where it wrote none. `closed` has its
/// closed sinks, the newest first. A sink whose closing failed (`Lost`) is no file.
fn find_closed<'a>(closed: &'a Closed, name: &str) -> Option<&'a [u8]>
    ensures { MatchOption result (stored name.now (entries closed.now) ≡ None)
        (λ bytes. stored name.now (entries closed.now) ≡ Some bytes.now) }
{
    match closed {
        Closed::End => None,
        Closed::Lost(entry) => find_closed(&entry.next, name),
        Closed::File(entry) => {
            if name == entry.name.as_str() {
                Some(&entry.bytes)
            } else {
                find_closed(&entry.next, name)
            }
        }
    }
}

/// The bytes of the first file of this name with which a shelf in memory was made; `None` where there is none.
fn find_given<'a>(given: &'a [(String, Vec<u8>)], name: &str) -> Option<&'a [u8]>
    ensures { MatchOption result (stored name.now (given_entries given.now) ≡ None)
        (λ bytes. stored name.now (given_entries given.now) ≡ Some bytes.now) }
{
    for (other, bytes) in given {
        if name == other.as_str() {
            return Some(bytes);
        }
    }
    None
}
