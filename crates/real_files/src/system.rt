// What the system says of a file.
ghost use Rattle.std.specs.Prelude.{◌≡◌, ◌/◌, ◌%◌};
ghost use Rattle.std.specs.Int.Bits.{bit_and};
ghost use Rattle.real_files.specs.Modes.{group_access, others_access};

use file_sinks::make_certain;
use liq_base::{Failed, ShelfFault};
use std::fs::{File, Metadata, OpenOptions, Permissions};
use std::io::ErrorKind;
use std::os::fd::AsFd;
use std::os::unix::fs::{MetadataExt, PermissionsExt, fchown};
use std::rt::Files;
use std::{fs, io};

/// The bit in the mode of a folder whose files may be replaced only by their owners and by the folder's.
const STICKY: u32 = 0o1000;

/// The path by which the system names where the report goes.
const REPORT: &str = "/dev/stdout";

/// The system did not let us look, so it is not known whether something is there.
#[derive(Drop)]
pub(crate) struct Unseen;

impl From<Unseen> for ShelfFault {
    // A look that the system did not allow is a failure of the shelf.
    fn from(_unseen: Unseen) -> ShelfFault {
        ShelfFault::Failed
    }
}

impl From<Unseen> for Failed {
    // A look that the system did not allow is a failure of what needed it.
    fn from(_unseen: Unseen) -> Failed {
        Failed
    }
}

/// What tells a real file from all others that are there at the same time.
#[derive(Clone, Copy, PartialEq, Eq)]
pub(crate) struct FileId {
    device: u64,
    node: u64,
}

impl FileId {
    /// The identity of the file that was asked about.
    pub fn of(found: &Metadata) -> FileId {
        FileId {
            device: found.dev(),
            node: found.ino(),
        }
    }

    /// The identity of the file to which a path leads; nothing where none is there.
    pub fn at<R: Files<File = File>>(rt: &R, path: &str) -> Result<Option<FileId>, Unseen> {
        FileId::seen(fs::metadata(rt, path))
    }

    /// The identity of what a path names, be it a link itself; nothing where nothing is there.
    pub fn named<R: Files<File = File>>(rt: &R, path: &str) -> Result<Option<FileId>, Unseen> {
        FileId::seen(fs::symlink_metadata(rt, path))
    }

    // The identity of the file that a look at a path found; nothing where none is there. Where the look failed for
    // another cause, it is not known, and that is the error.
    fn seen(looked: io::Result<Metadata>) -> Result<Option<FileId>, Unseen> {
        match looked {
            Ok(found) => Ok(Some(FileId::of(&found))),
            Err(error) if error.kind() == ErrorKind::NotFound => Ok(None),
            Err(_) => Err(Unseen),
        }
    }
}

/// Whether what was found is a regular file into which the report is written.
pub(crate) fn takes_report<R: Files<File = File>>(
    rt: &R,
    found: &Metadata,
) -> Result<bool, Unseen> {
    Ok(found.is_file() && FileId::at(rt, REPORT)? == Some(FileId::of(found)))
}

/// Whether the file at this path may be written: it is opened for that and left as it is.
pub(crate) fn is_writable<R: Files<File = File>>(rt: &R, path: &str) -> bool {
    OpenOptions::new().write(true).open(rt, path).is_ok()
}

/// Whether a new file, `ours`, may take the place of an old one in its folder. In a sticky folder only root, the owner
/// of the old file and the owner of the folder may replace it.
pub(crate) fn may_replace(folder: &Metadata, old: &Metadata, ours: &Metadata) -> bool {
    let us = ours.uid();
    folder.mode() & STICKY == 0 || us == 0 || us == old.uid() || us == folder.uid()
}

/// The mode of a new file in place of one of mode `old`: what it says of who may do what, without the bits of other
/// owners' programs and of sticky folders. Unless the new file has the old one's group, its group and all others may do
/// what both the old group and all others might before, so that nobody gains.
pub(crate) fn new_mode(old: u32, has_group: bool) -> u32
    ensures owner { result / 64 ≡ old / 64 % 8 }
    ensures group { result / 8 % 8 ≡ group_access has_group old }
    ensures others { result % 8 ≡ others_access has_group old }
{
    if has_group {
        old % 0o1000
    } else {
        shared_access(old)
    }
}

// The mode of a new file that has not the group of the old one, whose mode is `old`: group and others may do what both
// the old group and others might.
fn shared_access(old: u32) -> u32
    ensures owner { result / 64 ≡ old / 64 % 8 }
    ensures group { result / 8 % 8 ≡ bit_and (old / 8 % 8) (old % 8) }
    ensures others { result % 8 ≡ bit_and (old / 8 % 8) (old % 8) }
{
    let both = (old / 8 % 8) & (old % 8);
    old / 64 % 8 * 64 + both * 8 + both
}

/// Gives a new file the group, the owner and the mode of an old one, as far as the system lets us.
pub(crate) fn copy_access(old: &Metadata, new: &File) {
    let has_group = fchown(new.as_fd(), None, Some(old.gid())).is_ok();
    let _ = fchown(new.as_fd(), Some(old.uid()), None);
    let mode = new_mode(old.mode(), has_group);
    let _ = new.set_permissions(Permissions::from_mode(mode));
}

/// Removes the file at this path, if it is there and may be removed.
pub(crate) fn remove<R: Files<File = File>>(rt: &R, path: &str) {
    let _ = fs::remove_file(rt, path);
}

/// A folder whose names are made to last. Of a folder that this user may not read nothing can be asked.
#[derive(Drop)]
pub(crate) struct Folder {
    opened: Option<File>,
}

impl Folder {
    /// Opens the folder at this path. One that this user may not read is no failure: then nothing is opened.
    pub fn open<R: Files<File = File>>(rt: &R, path: &str) -> Result<Folder, Failed> {
        match File::open(rt, path) {
            Ok(opened) => Ok(Folder {
                opened: Some(opened),
            }),
            Err(error) if error.kind() == ErrorKind::PermissionDenied => {
                Ok(Folder { opened: None })
            }
            Err(_) => Err(Failed),
        }
    }

    /// Has the system make the folder's names certain, so that a renamed file stays. Where nothing was opened, it is
    /// `Ok` and nothing is asked.
    pub fn sync(self) -> Result<(), Failed> {
        let Some(mut opened) = self.opened else {
            return Ok(());
        };
        if make_certain(&mut opened) {
            Ok(())
        } else {
            Err(Failed)
        }
    }
}
