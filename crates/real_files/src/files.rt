// Real files as a shelf. It tells no files; it counts its failures.
ghost use Rattle.std.specs.Prelude.{◌≡◌, ◌≢◌, ◌≤◌, ◌<◌, ◌+◌, ℕ, vec_len, IfSome, None, Ok};
ghost use Rattle.liq_base.specs.Files.{FrontFound};
ghost use Rattle.file_sinks.specs.Reading.{Extends};

use crate::places::Places;
use file_sinks::{FileSink, look_at_front, look_at_whole, read_rest, unopened};
use liq_base::{Failed, Fetched, Looked, Shelf, ShelfFault};
use std::alloc::Global;
use std::fs::{self, File};
use std::io::ErrorKind;
use std::rt::Files;

/// The files of the system, by their paths, for one run: each real file is created once.
#[derive(Drop)]
pub struct FileShelf<'a, R: Files<File = File> + Alloc<A = Global>> {
    rt: &'a R,
    // Whether regular files alone are read.
    regular: bool,
    outputs: Places,
    read_faults: u64,
    write_faults: u64,
}

impl<'a, R: Files<File = File> + Alloc<A = Global>> FileShelf<'a, R> {
    /// The files of the system, before any failure.
    pub fn new(rt: &'a R) -> FileShelf<'a, R>
        ensures reads { result.read_faults ≡ 0 }
        ensures writes { result.write_faults ≡ 0 }
    {
        FileShelf {
            rt,
            regular: false,
            outputs: Places::new(rt.alloc()),
            read_faults: 0,
            write_faults: 0,
        }
    }

    /// The files of the system, of which those are read that are regular. A read of another, which may wait, is a
    /// failure.
    pub fn regular(rt: &'a R) -> FileShelf<'a, R>
        ensures reads { result.read_faults ≡ 0 }
        ensures writes { result.write_faults ≡ 0 }
    {
        FileShelf {
            rt,
            regular: true,
            outputs: Places::new(rt.alloc()),
            read_faults: 0,
            write_faults: 0,
        }
    }
}

impl<'a, R: Files<File = File> + Alloc<A = Global>> Shelf for FileShelf<'a, R> {
    type Out = FileSink<File>;

    ghost use Rattle.liq_base.specs.Untold.{counts_alone};

    ghost told = { λ s. counts_alone s.read_faults s.write_faults };

    // Adds the bytes of the file of this name to `into`, if it has at most `most`. With any answer but `Found`, `into`
    // is as it was. A failure is counted as one of reading; a file that is missing and want of memory are not.
    fn read(&mut self, name: &str, into: &mut Vec<u8>, most: u64) -> Result<Fetched, ShelfFault> {
        let before = into.len();
        let fetched = if self.regular && may_wait(self.rt, name) {
            Err(ShelfFault::Failed)
        } else {
            read_file(self.rt, name, into, most)
        };
        match fetched {
            Ok(Fetched::Found) => return Ok(Fetched::Found),
            Err(ShelfFault::Failed) => self.read_faults = self.read_faults.saturating_add(1),
            Ok(_) | Err(ShelfFault::Memory) => {}
        }
        into.truncate(before);
        fetched
    }

    // Adds the first bytes of the file of this name to `into`: `front` of a longer regular file, and else all.
    // `Found` has its size, which is at most `most`. With any other answer `into` is as it was.
    // A failure is counted as one of reading; a file that is missing and want of memory are not.
    fn look(
        &mut self,
        name: &str,
        into: &mut Vec<u8>,
        front: u64,
        most: u64,
    ) -> Result<Looked, ShelfFault> {
        let before = into.len();
        let looked = if self.regular && may_wait(self.rt, name) {
            Err(ShelfFault::Failed)
        } else {
            look_at_file(self.rt, name, into, front, most)
        };
        match looked {
            Ok(Looked::Found(size)) => return Ok(Looked::Found(size)),
            Err(ShelfFault::Failed) => self.read_faults = self.read_faults.saturating_add(1),
            Ok(_) | Err(ShelfFault::Memory) => {}
        }
        into.truncate(before);
        looked
    }

    // Opens the file of an output of this name, which is to get `room` bytes. A failure is counted as one of writing;
    // want of memory is not.
    fn create(&mut self, name: &str, room: u64) -> Result<FileSink<File>, ShelfFault> {
        let created = self.outputs.create(self.rt, name, room);
        if let Err(ShelfFault::Failed) = created {
            self.write_faults = self.write_faults.saturating_add(1);
        }
        created
    }

    // Closes an output, which is then in its place if it is whole. A failure is counted as one of writing.
    fn close(&mut self, out: FileSink<File>) -> Result<(), Failed> {
        let closed = self.outputs.close(self.rt, out);
        if closed.is_err() {
            self.write_faults = self.write_faults.saturating_add(1);
        }
        closed
    }
}

// Whether something of this name is there that is no regular file, so that a read of it may wait.
fn may_wait<R: Files<File = File>>(rt: &R, name: &str) -> bool {
    match fs::metadata(rt, name) {
        Ok(found) => !found.is_file(),
        Err(_) => false,
    }
}

// Adds the bytes of the file of this name, if it has at most `most`.
fn read_file<R: Files<File = File>>(
    rt: &R,
    name: &str,
    into: &mut Vec<u8>,
    most: u64,
) -> Result<Fetched, ShelfFault>
    ensures extends { Extends into.old.items into.new.items }
    ensures fits { result ≡ Ok Fetched.Found → vec_len into.new ≤ vec_len into.old + most }
{
    match File::open(rt, name) {
        Ok(mut file) => {
            if into.reserve_exact(room_for(&file, most)).is_err() {
                return Err(ShelfFault::Memory);
            }
            read_rest(&mut file, into, most)
        }
        Err(error) => unopened(error.kind()),
    }
}

// How many bytes a regular file has, if they are at most `most`, and 0 for any other file: room for them is asked for
// at once. What is read decides how many there are.
fn room_for(file: &File, most: u64) -> usize {
    match file.metadata() {
        Ok(found) if found.is_file() && found.len() <= most => found.len() as usize,
        _ => 0,
    }
}

// Adds the first bytes of the file of this name, if it has at most `most`: of a regular file with more than `front`
// bytes, the first `front`; of any other, all.
fn look_at_file<R: Files<File = File>>(
    rt: &R,
    name: &str,
    into: &mut Vec<u8>,
    front: u64,
    most: u64,
) -> Result<Looked, ShelfFault>
    ensures extends { Extends into.old.items into.new.items }
    ensures found { (size : ℕ) → result ≡ Ok (Looked.Found size)
        → FrontFound None name.now front most size into.old.items into.new.items }
{
    match File::open(rt, name) {
        Ok(mut file) => match size_past(&file, front) {
            Some(size) => look_at_front(&mut file, into, front, size, most),
            None => look_at_whole(&mut file, into, front, most),
        },
        Err(error) => unlooked(error.kind()),
    }
}

// The size of a regular file that has more than `front` bytes; nothing for any other file.
fn size_past(file: &File, front: u64) -> Option<u64>
    ensures { IfSome result (λ size. front < size) }
{
    match file.metadata() {
        Ok(found) if found.is_file() && found.len() > front => Some(found.len()),
        _ => None,
    }
}

// What a failed opening says of a file that was to be looked at: it is missing only where the system did not find it.
fn unlooked(kind: ErrorKind) -> Result<Looked, ShelfFault>
    ensures { (size : ℕ) → result ≢ Ok (Looked.Found size) }
{
    match unopened(kind) {
        Ok(_) => Ok(Looked::Missing),
        Err(fault) => Err(fault),
    }
}
