// Looks at lists of audio files.
ghost use Rattle.std.specs.Prelude.{◌≡◌, ◌≤◌, ◌+◌, length, IfOk};
ghost use Rattle.liq_base.specs.Shelves.{OnlyRead};
ghost use Rattle.sound_looks.specs.Looks.{IsListLook, is_skipped, skipped_in};
ghost use Rattle.track_library.specs.Lists.{without_cr};

use liq_base::limits::MAX_LIST_BYTES;
use liq_base::{Fetched, Memory, Shelf, ShelfFault, Text};
use std::alloc::Global;
use track_library::{Unusable, cut_cr, cut_line, cut_mark, read_list};

/// What a look at a list found.
#[derive(Debug, Drop)]
pub enum ListLook {
    /// The list could not be read.
    Unread,

    /// It is not there, or has more bytes than a list may.
    Bad(Unusable),

    /// The names in it, in order, and how many lines are no names since they are not UTF-8.
    Names { names: Vec<Text>, skipped: u64 },
}

/// Reads the list of audio files of this name, and tells the names in it and how many lines are skipped, or why there
/// are none. `Err` is want of memory alone: a list that cannot be read is `Unread`.
pub fn look_at_list<S: Shelf>(alloc: Global, shelf: &mut S, name: &str) -> Result<ListLook, Memory>
    ensures looked { IfOk result (IsListLook name.now (S.told shelf.old) (S.told shelf.new)) }
    ensures shelf { OnlyRead (S.told shelf.old) (S.told shelf.new) }
{
    let mut bytes = Vec::new(alloc);
    match shelf.read(name, &mut bytes, MAX_LIST_BYTES) {
        Ok(Fetched::Found) => Ok(ListLook::Names {
            names: read_list(alloc, &bytes)?,
            skipped: count_skipped(&bytes),
        }),
        Ok(Fetched::Missing) => Ok(ListLook::Bad(Unusable::NotThere)),
        Ok(Fetched::TooLarge) => Ok(ListLook::Bad(Unusable::TooLong)),
        Err(ShelfFault::Failed) => Ok(ListLook::Unread),
        Err(ShelfFault::Memory) => Err(Memory),
    }
}

// How many lines of a list are skipped: they would be names, but are not UTF-8.
fn count_skipped(bytes: &[u8]) -> u64
    ensures { result ≡ skipped_in bytes.now }
{
    let mut count = 0;
    let mut rest = cut_mark(bytes);
    while !rest.is_empty() {
        let (line, after) = cut_line(rest);
        if is_skipped(line) {
            count += 1;
        }
        rest = after;
    }
    count
}

// Whether a line of a list is skipped: it is not empty, no comment (it does not begin with `#`), and not UTF-8.
fn is_skipped(line: &[u8]) -> bool
    ensures { result ≡ is_skipped (without_cr line.now) }
{
    let line = cut_cr(line);
    if line.is_empty() || line[0] == b'#' {
        return false;
    }
    match str::from_utf8(line) {
        Ok(_) => false,
        Err(_) => true,
    }
}
