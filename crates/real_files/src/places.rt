// Where the outputs of a run are written, and how they get to their places.
ghost use Rattle.std.specs.Prelude.{◌≡◌, ◌+◌, length, OnOk, IfOk};
ghost use Rattle.std.specs.Fs.{IsFile, file_type};
ghost use Rattle.file_sinks.specs.Sinks.{capacity_of, faults_of, place_of, room_of, taken_of};

use crate::names::{split_path, temporary_path};
use crate::system::{
    FileId, Folder, Unseen, copy_access, is_writable, may_replace, new_mode, remove, takes_report,
};
use file_sinks::{Certain, FileSink, KEPT, Place};
use liq_base::{Failed, ShelfFault};
use std::alloc::{AllocError, Global};
use std::fs::{File, Metadata, OpenOptions};
use std::io::ErrorKind;
use std::os::unix::fs::{MetadataExt, OpenOptionsExt};
use std::rt::Files;
use std::{fs, io};

/// The mode of a file where none was, before the system takes away the rights that the user wants not to be given.
const NEW_MODE: u32 = 0o666;

/// The outputs of a run: those that are written into a temporary file beside their names, and those that are written
/// straight into what stands there.
#[derive(Drop)]
pub(crate) struct Places {
    beside: Vec<Beside>,
    in_place: Vec<FileId>,
}

// An output that is written beside its name: the folder and the path of its name, which is no link, and its temporary
// file.
#[derive(Drop)]
struct Beside {
    folder: FileId,
    path: String,
    temporary: String,
    file: FileId,
}

// What stands at the name of an output.
#[derive(Drop)]
enum Found {
    // a regular file or nothing, at this path, which is no link
    File(String, Option<Metadata>),
    // something else, or a file whose path cannot be told
    Other(Metadata),
}

// A file that was made beside the name of an output, and its temporary path.
#[derive(Drop)]
struct Made {
    temporary: String,
    file: File,
}

// What becomes of an old file for which a new one was made beside it.
enum Standing {
    // the new one may take its place
    Replaced,
    // it may not, so the old one is written in place
    Stays,
}

// Why no file was made beside a name.
enum Unmade {
    Refused(ErrorKind),
    Memory,
}

impl From<Unmade> for ShelfFault {
    // The fault of the shelf where no file was made: whatever the system refused is a failure, want of memory is told.
    fn from(unmade: Unmade) -> ShelfFault {
        match unmade {
            Unmade::Refused(_) => ShelfFault::Failed,
            Unmade::Memory => ShelfFault::Memory,
        }
    }
}

impl From<AllocError> for Unmade {
    // Memory that was refused, as for a temporary path, is the cause that no file was made.
    fn from(_error: AllocError) -> Unmade {
        Unmade::Memory
    }
}

impl Places {
    /// The outputs of a run before the first is created.
    pub fn new(alloc: Global) -> Places {
        Places {
            beside: Vec::new(alloc),
            in_place: Vec::new(alloc),
        }
    }

    /// Opens the file of an output of this name, which is to get `room` bytes. It fails where an output of this run has
    /// this real file already, under whatever name, and where the report goes into it. If a temporary file of this run
    /// has the name, that file is moved away first.
    pub fn create<R: Files<File = File> + Alloc<A = Global>>(
        &mut self,
        rt: &R,
        name: &str,
        room: u64,
    ) -> Result<FileSink<File>, ShelfFault>
        ensures faults { IfOk result (λ out. faults_of out ≡ 0) }
        ensures empty { IfOk result (λ out. taken_of out ≡ 0) }
        ensures room { IfOk result (λ out. room_of out ≡ room) }
    {
        self.give_way(rt, name)?;
        match find(rt, name)? {
            Found::Other(found) => self.open_in_place(rt, name, &found, room),
            Found::File(path, old) => self.create_file(rt, path, old, room),
        }
    }

    /// Closes an output: a file beside its name takes its place if it is whole and the system has made its bytes
    /// certain, and is removed else. `Ok` says that no piece failed, and that it got exactly the bytes that its
    /// creation was told.
    pub fn close<R: Files<File = File>>(&self, rt: &R, out: FileSink<File>) -> Result<(), Failed>
        ensures faults { OnOk result (faults_of out ≡ 0) }
        ensures length { OnOk result (taken_of out ≡ room_of out) }
    {
        match out.finish() {
            Ok(certain) => self.put(rt, certain),
            Err(broken) => {
                self.discard(rt, &broken);
                Err(Failed)
            }
        }
    }

    // Puts the temporary file of an output in its place, and has the system make certain that it stays there. A
    // temporary file that is no longer there, or is not the file that was made, is left alone. An output that was
    // written in place has none, and it is `Ok`.
    fn put<R: Files<File = File>>(&self, rt: &R, certain: Certain<File>) -> Result<(), Failed> {
        let Place::Beside(at) = certain.place() else {
            return Ok(());
        };
        let Some(output) = self.beside.get(at) else {
            return Err(Failed);
        };
        if !is_there(rt, output)? {
            return Err(Failed);
        }
        match self.replace(rt, output, certain) {
            Ok(folder) => folder.sync(),
            Err(Failed) => {
                remove(rt, output.temporary.as_str());
                Err(Failed)
            }
        }
    }

    // Renames the temporary file of an output, all of whose bytes are certain, and answers its folder. No file takes
    // the place of another output of this run. The handle is given back before the folder is opened, so that a closing
    // needs no handle more. With `Err` nothing was renamed.
    fn replace<R: Files<File = File>>(
        &self,
        rt: &R,
        output: &Beside,
        certain: Certain<File>,
    ) -> Result<Folder, Failed> {
        drop(certain);
        let path = output.path.as_str();
        let folder = Folder::open(rt, split_path(path).0)?;
        if self.is_made(FileId::named(rt, path)?) {
            return Err(Failed);
        }
        match fs::rename(rt, output.temporary.as_str(), path) {
            Ok(()) => Ok(folder),
            Err(_) => Err(Failed),
        }
    }

    // Removes the temporary file of an output that is not whole, where it is still the file that was made.
    fn discard<R: Files<File = File>>(&self, rt: &R, broken: &FileSink<File>) {
        let Place::Beside(at) = broken.place() else {
            return;
        };
        let Some(output) = self.beside.get(at) else {
            return;
        };
        if let Ok(true) = is_there(rt, output) {
            remove(rt, output.temporary.as_str());
        }
    }

    // Whether `found` is a file that this run made for an output; `None`, where nothing was found, is none.
    fn is_made(&self, found: Option<FileId>) -> bool {
        self.beside.iter().any(|output| Some(output.file) == found)
    }

    // Whether an output of this run is to stand in this folder under the name `last`, or stands there.
    fn is_place(&self, folder: FileId, last: &str) -> bool {
        self.beside.iter().any(|output| output.folder == folder
            && split_path(output.path.as_str()).1 == last)
    }

    // Moves a temporary file of this run away, where it has the name of a new output. An output that was closed has no
    // temporary file, and stands in its place.
    fn give_way<R: Files<File = File> + Alloc<A = Global>>(
        &mut self,
        rt: &R,
        name: &str,
    ) -> Result<(), ShelfFault> {
        let found = FileId::at(rt, name)?;
        let Some(at) = self
            .beside
            .iter()
            .position(|output| Some(output.file) == found)
        else {
            return Ok(());
        };
        let Some(moved) = self.moved(rt, at)? else {
            return Ok(());
        };
        if let Some(output) = self.beside.get_mut(at) {
            output.temporary = moved;
        }
        Ok(())
    }

    // Moves the temporary file of output `at` to the next name that is free, and answers its new path; nothing where it
    // is not there. An empty file is made under that name first, so that the move overwrites no other file.
    fn moved<R: Files<File = File> + Alloc<A = Global>>(
        &self,
        rt: &R,
        at: usize,
    ) -> Result<Option<String>, ShelfFault> {
        let Some(output) = self.beside.get(at) else {
            return Err(ShelfFault::Failed);
        };
        if !is_there(rt, output)? {
            return Ok(None);
        }
        let Made { temporary, file } = self.make_temporary(
            rt,
            output.folder,
            output.path.as_str(),
            NEW_MODE,
        )?;
        drop(file);
        if fs::rename(rt, output.temporary.as_str(), temporary.as_str()).is_ok() {
            return Ok(Some(temporary));
        }
        remove(rt, temporary.as_str());
        Err(ShelfFault::Failed)
    }

    // Opens the file of an output at this path, which is no link and where `old` was found: beside the path where that
    // can be, and else in place. It fails where the path names no file in a folder, or is the place of another output.
    // `room` is how many bytes the output is to get.
    fn create_file<R: Files<File = File> + Alloc<A = Global>>(
        &mut self,
        rt: &R,
        path: String,
        old: Option<Metadata>,
        room: u64,
    ) -> Result<FileSink<File>, ShelfFault>
        ensures faults { IfOk result (λ out. faults_of out ≡ 0) }
        ensures empty { IfOk result (λ out. taken_of out ≡ 0) }
        ensures room { IfOk result (λ out. room_of out ≡ room) }
    {
        let (folder_path, last) = split_path(path.as_str());
        let Ok(folder) = fs::metadata(rt, folder_path) else {
            return Err(ShelfFault::Failed);
        };
        let id = FileId::of(&folder);
        if last.is_empty() || self.is_place(id, last) {
            return Err(ShelfFault::Failed);
        }
        let Some(old) = old else {
            let made = self.make_temporary(rt, id, path.as_str(), NEW_MODE)?;
            return self.keep(rt, id, path, made, room);
        };
        match self.make_temporary(rt, id, path.as_str(), new_mode(old.mode(), false)) {
            Ok(made) => self.open_beside(rt, &folder, path, &old, made, room),
            Err(Unmade::Refused(kind)) if is_refusal(kind) => {
                self.open_in_place(rt, path.as_str(), &old, room)
            }
            Err(unmade) => Err(ShelfFault::from(unmade)),
        }
    }

    // Opens an output at whose path an old file stands, and beside which a file was made: `made` if it may take the
    // place of `old`, and else `old` itself. `folder` is what the system tells of the folder of both.
    // Where `made` is not used, it is removed.
    fn open_beside<R: Files<File = File> + Alloc<A = Global>>(
        &mut self,
        rt: &R,
        folder: &Metadata,
        path: String,
        old: &Metadata,
        made: Made,
        room: u64,
    ) -> Result<FileSink<File>, ShelfFault>
        ensures faults { IfOk result (λ out. faults_of out ≡ 0) }
        ensures empty { IfOk result (λ out. taken_of out ≡ 0) }
        ensures room { IfOk result (λ out. room_of out ≡ room) }
    {
        match self.standing(rt, folder, path.as_str(), old, &made.file) {
            Ok(Standing::Replaced) => {
                copy_access(old, &made.file);
                self.keep(rt, FileId::of(folder), path, made, room)
            }
            Ok(Standing::Stays) => {
                remove(rt, made.temporary.as_str());
                self.open_in_place(rt, path.as_str(), old, room)
            }
            Err(fault) => {
                remove(rt, made.temporary.as_str());
                Err(fault)
            }
        }
    }

    // What becomes of the old file at this path, beside which `file` was made. Where the system does not tell, neither
    // is known, and the creation fails.
    fn standing<R: Files<File = File> + Alloc<A = Global>>(
        &self,
        rt: &R,
        folder: &Metadata,
        path: &str,
        old: &Metadata,
        file: &File,
    ) -> Result<Standing, ShelfFault> {
        let Ok(ours) = file.metadata() else {
            return Err(ShelfFault::Failed);
        };
        if !may_replace(folder, old, &ours) || self.is_mounted(rt, folder, path)? {
            return Ok(Standing::Stays);
        }
        Ok(Standing::Replaced)
    }

    // Whether a file is mounted at this path, so that no other can take its place: the system makes no link to it
    // beside it, since they are on two devices. A link that is refused for another cause tells of no mount. If there is
    // one after all, the closing fails, and the old file is whole.
    fn is_mounted<R: Files<File = File> + Alloc<A = Global>>(
        &self,
        rt: &R,
        folder: &Metadata,
        path: &str,
    ) -> Result<bool, ShelfFault> {
        let linked = self.at_free_name(rt, FileId::of(folder), path, |free: &str| {
            fs::hard_link(rt, path, free)
        });
        match linked {
            Ok((link, ())) => {
                remove(rt, link.as_str());
                Ok(false)
            }
            Err(Unmade::Refused(kind)) => Ok(kind == ErrorKind::CrossesDevices),
            Err(Unmade::Memory) => Err(ShelfFault::Memory),
        }
    }

    // Notes an output that is written beside its path, and answers its sink; `made` is its temporary file.
    fn keep<R: Files<File = File> + Alloc<A = Global>>(
        &mut self,
        rt: &R,
        folder: FileId,
        path: String,
        made: Made,
        room: u64,
    ) -> Result<FileSink<File>, ShelfFault>
        ensures faults { IfOk result (λ out. faults_of out ≡ 0) }
        ensures empty { IfOk result (λ out. taken_of out ≡ 0) }
        ensures room { IfOk result (λ out. room_of out ≡ room) }
        ensures place { IfOk result (λ out. place_of out ≡ Place.Beside (length self.old.beside.items)) }
        ensures one_more { OnOk result (length self.new.beside.items ≡ length self.old.beside.items + 1) }
        ensures keeps { IfOk result (λ out. capacity_of out ≡ 65536) }
    {
        let at = self.beside.len();
        let Made { temporary, file } = made;
        let Ok(found) = file.metadata() else {
            remove(rt, temporary.as_str());
            return Err(ShelfFault::Failed);
        };
        let Ok(sink) = FileSink::new(rt.alloc(), file, Place::Beside(at), room, KEPT) else {
            remove(rt, temporary.as_str());
            return Err(ShelfFault::Memory);
        };
        let output = Beside {
            folder,
            path,
            temporary,
            file: FileId::of(&found),
        };
        match self.beside.push(output) {
            Ok(()) => Ok(sink),
            Err(refused) => {
                remove(rt, refused.value.temporary.as_str());
                Err(ShelfFault::Memory)
            }
        }
    }

    // Opens what was found at the path of an output, to be written in place; it gets `room` bytes.
    // It fails where an output of this run is written into it already. A regular file is emptied.
    // Of anything else, as a pipe, nothing is emptied, and its sink keeps no bytes back.
    fn open_in_place<R: Files<File = File> + Alloc<A = Global>>(
        &mut self,
        rt: &R,
        path: &str,
        found: &Metadata,
        room: u64,
    ) -> Result<FileSink<File>, ShelfFault>
        ensures faults { IfOk result (λ out. faults_of out ≡ 0) }
        ensures empty { IfOk result (λ out. taken_of out ≡ 0) }
        ensures room { IfOk result (λ out. room_of out ≡ room) }
        ensures place { IfOk result (λ out. place_of out ≡ Place.Own) }
        ensures keeps { IfOk result (λ out. IsFile (file_type found.now) → capacity_of out ≡ 65536) }
        ensures keeps_nothing { IfOk result (λ out. (IsFile (file_type found.now) → ⊥) → capacity_of out ≡ 0) }
    {
        let file = FileId::of(found);
        if self.in_place.contains(&file) {
            return Err(ShelfFault::Failed);
        }
        if self.in_place.push(file).is_err() {
            return Err(ShelfFault::Memory);
        }
        let kept = if found.is_file() { KEPT } else { 0 };
        let mut options = OpenOptions::new();
        options.write(true).truncate(found.is_file());
        let Ok(file) = options.open(rt, path) else {
            return Err(ShelfFault::Failed);
        };
        match FileSink::new(rt.alloc(), file, Place::Own, room, kept) {
            Ok(sink) => Ok(sink),
            Err(_) => Err(ShelfFault::Memory),
        }
    }

    // Makes a file of this mode beside a path, under the first temporary name at which nothing stands. `folder` is the
    // folder of the path.
    fn make_temporary<R: Files<File = File> + Alloc<A = Global>>(
        &self,
        rt: &R,
        folder: FileId,
        path: &str,
        mode: u32,
    ) -> Result<Made, Unmade> {
        let (temporary, file) = self.at_free_name(rt, folder, path, |free: &str| {
            let mut options = OpenOptions::new();
            options.write(true).create_new(true).mode(mode);
            options.open(rt, free)
        })?;
        Ok(Made { temporary, file })
    }

    // Calls `make` with the path of one temporary name after another beside a path, until nothing stands there.
    // It answers that path and what was made. Names that an output has in `folder`, the path's, are passed over.
    // Any other fault of `make` ends the search, and is the error.
    fn at_free_name<R: Alloc<A = Global>, T, F: Fn(&str) -> io::Result<T>>(
        &self,
        rt: &R,
        folder: FileId,
        path: &str,
        make: F,
    ) -> Result<(String, T), Unmade>
        requires { F.IsAlwaysCallable make }
    {
        for number in 1..u32::MAX {
            let free = temporary_path(rt.alloc(), path, number)?;
            if self.is_place(folder, split_path(free.as_str()).1) {
                continue;
            }
            match make(free.as_str()) {
                Ok(made) => return Ok((free, made)),
                Err(error) if error.kind() == ErrorKind::AlreadyExists => {}
                Err(error) => return Err(Unmade::Refused(error.kind())),
            }
        }
        Err(Unmade::Refused(ErrorKind::AlreadyExists))
    }
}

// Whether the temporary file of an output is there, and still is the file that was made.
fn is_there<R: Files<File = File>>(rt: &R, output: &Beside) -> Result<bool, Unseen> {
    Ok(FileId::named(rt, output.temporary.as_str())? == Some(output.file))
}

// Whether a fault says that the system makes or names no file at all in a place, so that an old file is written in
// place. Where it has no room for one, or tells another fault, the old file is not touched.
fn is_refusal(kind: ErrorKind) -> bool {
    matches!(
        kind,
        ErrorKind::PermissionDenied | ErrorKind::ReadOnlyFilesystem | ErrorKind::InvalidFilename
    )
}

// What stands at the name of an output: a file or nothing, by its path, or something else.
// A link that leads to no file yet gets an empty one. It fails where the output may not be written there.
fn find<R: Files<File = File> + Alloc<A = Global>>(
    rt: &R,
    name: &str,
) -> Result<Found, ShelfFault> {
    match fs::metadata(rt, name) {
        Ok(found) => identify(rt, name, found),
        Err(error) if error.kind() != ErrorKind::NotFound => Err(ShelfFault::Failed),
        Err(_) if fs::symlink_metadata(rt, name).is_ok() => {
            let mut options = OpenOptions::new();
            match options.write(true).create(true).open(rt, name) {
                Ok(file) => match file.metadata() {
                    Ok(found) => identify(rt, name, found),
                    Err(_) => Err(ShelfFault::Failed),
                },
                Err(_) => Err(ShelfFault::Failed),
            }
        }
        Err(_) => Ok(Found::File(text(rt.alloc(), name)?, None)),
    }
}

// What stands at the name of an output, where `found` is what the system tells of it, behind links.
// It fails for a file into which the report goes, and for one that may not be written.
fn identify<R: Files<File = File> + Alloc<A = Global>>(
    rt: &R,
    name: &str,
    found: Metadata,
) -> Result<Found, ShelfFault> {
    if !found.is_file() {
        return Ok(Found::Other(found));
    }
    if takes_report(rt, &found)? || !is_writable(rt, name) {
        return Err(ShelfFault::Failed);
    }
    match fs::symlink_metadata(rt, name) {
        Ok(named) if named.is_symlink() => follow(rt, name, found),
        Ok(_) => Ok(Found::File(text(rt.alloc(), name)?, Some(found))),
        Err(_) => Err(ShelfFault::Failed),
    }
}

// What stands at the name of an output that is a link to a file, of which the system tells `found`: the file by its own
// path, beside which the output is written. Where no path of ours names it, as one that is too long or no UTF-8, it is
// written in place.
fn follow<R: Files<File = File> + Alloc<A = Global>>(
    rt: &R,
    name: &str,
    found: Metadata,
) -> Result<Found, ShelfFault> {
    match fs::canonicalize(rt, name) {
        Ok(path) => Ok(Found::File(path.into_string(), Some(found))),
        Err(error) if is_refusal(error.kind()) => Ok(Found::Other(found)),
        Err(error) if error.kind() == ErrorKind::OutOfMemory => Err(ShelfFault::Memory),
        Err(_) => Err(ShelfFault::Failed),
    }
}

// A copy of a name as a string of its own; a fault where memory is refused.
fn text(alloc: Global, name: &str) -> Result<String, ShelfFault> {
    match String::from_str(alloc, name) {
        Ok(text) => Ok(text),
        Err(_) => Err(ShelfFault::Memory),
    }
}
