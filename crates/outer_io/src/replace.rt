// A store of a file: a new file takes the old one's name, or the old one is overwritten.
ghost use Rattle.std.specs.Prelude.{IsErrOf};

use crate::ShelfFault;
use crate::disk::Disk;
use crate::over::{read_old, write_over};
use crate::streams::write_whole;
use crate::version::{FileVersion, is_same_file};
use std::fs::{Metadata, OpenFile, OpenOptions, Permissions};
use std::io::ErrorKind;
use std::os::unix::fs::{MetadataExt, OpenOptionsExt, PermissionsExt};
use std::path::PathBuf;
use std::{fs, io};

/// The greatest number of links that are followed from one name; one more counts as a circle. Linux
/// follows the same number.
const MOST_LINKS: usize = 40;

/// The number of names that are tried for a new file before a store gives up.
const MOST_NAMES: u32 = 10_000;

/// The mode of a new file until it has the old one's: nobody else may read it.
const OWN_MODE: u32 = 0o600;

/// The bits of a mode that give whoever runs a file the rights of its owner or group.
const OWNER_RIGHTS: u32 = 0o6000;

/// The file that a store found under a name, and the one that it left there, as far as the system
/// reports it.
#[derive(Clone, Copy)]
pub struct Stored {
    pub was: Option<FileVersion>,
    pub now: Option<FileVersion>,
}

/// Why a new file did not take the old one's name. The old one is unchanged.
#[derive(Clone, Copy)]
enum BesideFault {
    /// No file may be made in the folder, or have the name or the mode of the old one.
    NotAllowed,
    /// Memory ran out before a file was made.
    NoMemory,
    /// A call failed, or another file is under a name by now.
    Failed,
}

/// Puts the bytes into the file of this name, in place of those that were there. Links are followed.
///
/// If a version is known, the file must still be that one: otherwise the error is `Failed`, and the
/// file there stays as it is. The file is checked before it is opened, when its lock is taken, and
/// once more just before its bytes or its name are replaced. What another program writes between
/// that last check and the next call is lost.
///
/// A new file next to the old one gets the bytes, and the old one's mode and, if that is allowed,
/// its owner; it is synced and takes the old one's name in one step. If no file may be made next to
/// it, or it has a second name, the old one is overwritten. The error is `Failed` for what is not a
/// plain file, or may not be read and written, for a circle of links, and for more bytes than this
/// process may write to a file.
///
/// After an `Err` the old bytes are still there, except if the old file was overwritten and they
/// can't be restored. `NoMemory` occurs before any file is touched.
pub fn store_file<R: Disk + AllocGlobal>(
    rt: &R,
    name: &str,
    bytes: &[u8],
    known: Option<FileVersion>,
) -> Result<Stored, ShelfFault>
    ensures not_absent { IsErrOf result ShelfFault.Absent → ⊥ }
    ensures not_too_long { IsErrOf result ShelfFault.TooLong → ⊥ }
{
    let (path, found) = match place_of(rt, name) {
        Ok(place) => place,
        Err(error) if error.kind() == ErrorKind::OutOfMemory => return Err(ShelfFault::NoMemory),
        Err(_) => return Err(ShelfFault::Failed),
    };
    if bytes.len() as u64 > rt.most_bytes() {
        return Err(ShelfFault::Failed);
    }
    if let Some(found) = found {
        return store_there(rt, &path, &found, bytes, known);
    }
    if known.is_some() {
        return Err(ShelfFault::Failed);
    }
    match write_beside(rt, &path, None, bytes) {
        Ok(now) => Ok(Stored { was: None, now }),
        Err(BesideFault::NoMemory) => Err(ShelfFault::NoMemory),
        Err(_) => Err(ShelfFault::Failed),
    }
}

/// Does the same for a path at which a plain file was found.
///
/// Once it is opened to be written, a file on a layered file system may be another one with the
/// same bytes. So it is compared with what is known before that, and from then on with what was
/// opened.
fn store_there<R: Disk + AllocGlobal>(
    rt: &R,
    path: &PathBuf,
    found: &Metadata,
    bytes: &[u8],
    known: Option<FileVersion>,
) -> Result<Stored, ShelfFault>
    ensures not_absent { IsErrOf result ShelfFault.Absent → ⊥ }
    ensures not_too_long { IsErrOf result ShelfFault.TooLong → ⊥ }
{
    let was = FileVersion::of(found);
    if known.map_or(false, |known| known != was) {
        return Err(ShelfFault::Failed);
    }
    // A file that may not be written is not replaced either. It is opened for reading too, so that
    // a pipe that has taken its place doesn't block this.
    let mut how = OpenOptions::new();
    how.read(true).write(true);
    let Ok(mut old) = how.open(rt, path.as_path()) else {
        return Err(ShelfFault::Failed);
    };
    let is_free = rt.lock(&old);
    let Ok(about) = old.metadata() else {
        return Err(ShelfFault::Failed);
    };
    if !is_free || !about.is_file() || !was.has_bytes_of(FileVersion::of(&about)) {
        return Err(ShelfFault::Failed);
    }
    if about.nlink() <= 1 && may_be_replaced(rt, path) {
        match write_beside(rt, path, Some(&about), bytes) {
            Ok(now) => {
                return Ok(Stored {
                    was: Some(was),
                    now,
                });
            }
            Err(BesideFault::NoMemory) => return Err(ShelfFault::NoMemory),
            Err(BesideFault::Failed) => return Err(ShelfFault::Failed),
            Err(BesideFault::NotAllowed) => {}
        }
    }
    if about.len() > rt.most_bytes() {
        return Err(ShelfFault::Failed);
    }
    let old_bytes = read_old(rt.alloc(), &mut old, about.len())?;
    if !is_at(rt, path, Some(&about)) || !write_over(&mut old, &old_bytes, bytes) {
        return Err(ShelfFault::Failed);
    }
    Ok(Stored {
        was: Some(was),
        now: version_of(&old),
    })
}

/// Returns the path to which links lead from a name, and the plain file that is there, if any.
/// Anything else is an error.
fn place_of<R: Disk + AllocGlobal>(rt: &R, name: &str) -> io::Result<(PathBuf, Option<Metadata>)> {
    let mut path = PathBuf::from_str(rt.alloc(), name)?;
    for _ in 0..=MOST_LINKS {
        match fs::symlink_metadata(rt, path.as_path()) {
            Ok(about) if about.is_file() => return Ok((path, Some(about))),
            Ok(about) if about.is_symlink() => {
                let target = fs::read_link(rt, path.as_path())?;
                path.pop();
                path.push(target.as_path())?;
            }
            Ok(_) => return Err(io::Error::from(ErrorKind::InvalidInput)),
            Err(error) if error.kind() == ErrorKind::NotFound => return Ok((path, None)),
            Err(error) => return Err(error),
        }
    }
    Err(io::Error::from(ErrorKind::FilesystemLoop))
}

/// Whether the name of a file may be removed from its folder. The system is asked to remove a
/// folder of this name, which it refuses for a file, and for another reason if no name may be
/// removed.
fn may_be_replaced<R: Disk>(rt: &R, path: &PathBuf) -> bool {
    match fs::remove_dir(rt, path.as_path()) {
        Err(error) => error.kind() == ErrorKind::NotADirectory,
        Ok(()) => false,
    }
}

/// Whether the file that was found is still at the path, and nobody changed it since; or that
/// nothing is there yet.
fn is_at<R: Disk>(rt: &R, path: &PathBuf, old: Option<&Metadata>) -> bool {
    match (fs::symlink_metadata(rt, path.as_path()), old) {
        (Ok(about), Some(old)) => FileVersion::of(&about) == FileVersion::of(old),
        (Err(error), None) => error.kind() == ErrorKind::NotFound,
        _ => false,
    }
}

/// Whether the open file is at the path.
fn stands_at<R: Disk>(rt: &R, file: &R::File, path: &PathBuf) -> bool {
    match (file.metadata(), fs::symlink_metadata(rt, path.as_path())) {
        (Ok(about), Ok(there)) => is_same_file(&about, &there),
        _ => false,
    }
}

fn version_of<F: OpenFile>(file: &F) -> Option<FileVersion> {
    match file.metadata() {
        Ok(about) => Some(FileVersion::of(&about)),
        Err(_) => None,
    }
}

/// Writes the bytes into a new file next to the path, which then takes its name.
fn write_beside<R: Disk + AllocGlobal>(
    rt: &R,
    path: &PathBuf,
    old: Option<&Metadata>,
    bytes: &[u8],
) -> Result<Option<FileVersion>, BesideFault> {
    let (mut file, new_path) = new_file_beside(rt, path, old.is_some())?;
    let end = match fill(rt, &mut file, old, bytes) {
        Ok(()) => take_name(rt, &file, &new_path, path, old),
        Err(fault) => Err(fault),
    };
    if end.is_err() && stands_at(rt, &file, &new_path) {
        let _ = fs::remove_file(rt, new_path.as_path());
    }
    end
}

/// Lets a new file take the name of the old one, if both are still where they were.
fn take_name<R: Disk>(
    rt: &R,
    file: &R::File,
    new_path: &PathBuf,
    path: &PathBuf,
    old: Option<&Metadata>,
) -> Result<Option<FileVersion>, BesideFault> {
    // Another program may be about to put a file there. A rename of a name to itself does nothing
    // but wait for its turn in the folder, so that the check that follows sees that file.
    let _ = fs::rename(rt, new_path.as_path(), new_path.as_path());
    if !stands_at(rt, file, new_path) || !is_at(rt, path, old) {
        return Err(BesideFault::Failed);
    }
    fs::rename(rt, new_path.as_path(), path.as_path()).map_err(fault_of)?;
    Ok(version_of(file))
}

/// Makes a new file in the folder of this path, open for writing.
fn new_file_beside<R: Disk + AllocGlobal>(
    rt: &R,
    path: &PathBuf,
    is_own: bool,
) -> Result<(R::File, PathBuf), BesideFault> {
    let mut options = OpenOptions::new();
    options.write(true).create_new(true);
    if is_own {
        options.mode(OWN_MODE);
    }
    for number in 0..MOST_NAMES {
        let Ok(new_path) = path_beside(rt, path, number) else {
            return Err(BesideFault::NoMemory);
        };
        match options.open(rt, new_path.as_path()) {
            Ok(file) => return Ok((file, new_path)),
            Err(error) if error.kind() == ErrorKind::AlreadyExists => {}
            Err(error) => return Err(fault_of(error)),
        }
    }
    Err(BesideFault::Failed)
}

/// Returns the path of a new file with this number next to a file.
fn path_beside<R: AllocGlobal>(
    rt: &R,
    path: &PathBuf,
    number: u32,
) -> Result<PathBuf, std::alloc::AllocError> {
    let name = format!(in rt.alloc(); ".spatch-new-{number}")?;
    path.as_path().with_file_name(rt.alloc(), name.as_str())
}

/// Gives a new file the bytes, and the owner and the mode of the old one.
fn fill<R: Disk>(
    rt: &R,
    file: &mut R::File,
    old: Option<&Metadata>,
    bytes: &[u8],
) -> Result<(), BesideFault> {
    if !write_whole(file, bytes) {
        return Err(BesideFault::Failed);
    }
    if let Some(about) = old {
        let mode = if keeps_owner(rt, file, about) {
            about.mode()
        } else {
            about.mode() & !OWNER_RIGHTS
        };
        file.set_permissions(Permissions::from_mode(mode))
            .map_err(fault_of)?;
    }
    file.sync_all().map_err(|_| BesideFault::Failed)
}

/// Gives a new file the owner and the group of the old one, or else the group alone if that is
/// allowed. Returns whether it has both.
fn keeps_owner<R: Disk>(rt: &R, file: &R::File, about: &Metadata) -> bool {
    let (owner, group) = (about.uid(), about.gid());
    if rt.give(file, Some(owner), Some(group)).is_ok() {
        return true;
    }
    let _ = rt.give(file, None, Some(group));
    false
}

/// Returns `NotAllowed` if the error says that the system allows no new file, or not the old one's
/// mode or name for it: as at a mount point, in a folder on a read-only disk even if the file is
/// not on that disk, or if the new file's path is too long. Otherwise returns `Failed`.
fn fault_of(error: io::Error) -> BesideFault {
    match error.kind() {
        ErrorKind::PermissionDenied
        | ErrorKind::ResourceBusy
        | ErrorKind::CrossesDevices
        | ErrorKind::ReadOnlyFilesystem
        | ErrorKind::InvalidFilename
        | ErrorKind::Unsupported => BesideFault::NotAllowed,
        _ => BesideFault::Failed,
    }
}
