// The files of the system as a shelf. It reveals no content.
ghost use Rattle.std.specs.Prelude.{◌≡◌, ◌≢◌, ◌<◌, ◌≤◌, None, [], length, take, IfOk, OnOk, IfErr, OnErr, IfSome, IsErrOf, false};
ghost use Rattle.std.specs.Io.{ReadsAtMost};
ghost use Rattle.std.specs.Io.KnownBytes.{Consumes, IsAtEnd, Keeps};
ghost use Rattle.std.specs.IoError.{error_kind};
ghost use Rattle.outer_io.specs.Faults.{counted, HasCause};

use crate::calls::one_more;
use crate::disk::Disk;
use crate::replace::store_file;
use crate::version::{FileVersion, Versions};
use crate::{Loads, Shelf, ShelfFault};
use std::alloc::Global;
use std::fs::OpenFile;
use std::io::{ErrorKind, Read};
use std::marker::Model;
use std::{fs, io};

/// The number of bytes that are read at a time.
const BLOCK: usize = 65536;

/// The files of the system, by their paths. It reveals no content, so what files return and keep is
/// trusted. Contracts see the counts of stores and of faults.
///
/// It remembers which file was loaded or stored under each name, and what its state was, so that a
/// store overwrites nothing that another program has written since.
///
/// The error is `Failed` for a file that is missing or cannot be opened, a read or a write that
/// fails, and a write that accepts nothing. A read or a write that is interrupted by a signal is
/// retried. The count of faults rises at each `Err`, including a file that is too long and a lack
/// of memory, and at no `Ok`. A load is linear in what it reads, which is at most one block of 64
/// KiB past its limit; a store is linear in its bytes, and waits until they are on the disk.
#[derive(Drop)]
pub struct FileShelf<'a, R> {
    rt: &'a R,
    versions: Versions,
    stores: u64,
    faults: u64,
}

impl<'a, R> Model for FileShelf<'a, R> {
    ghost use Rattle.outer_io.specs.Adapters.{FilesState};

    ghost Value = { FilesState };

    ghost view = { λ s. record { stores = s.stores; faults = s.faults } };
}

impl<'a, R: Disk + AllocGlobal> FileShelf<'a, R> {
    /// Returns the files that this runtime reaches, with no store and no fault so far.
    pub fn new(rt: &'a R) -> FileShelf<'a, R>
        ensures stores { result.stores ≡ 0 }
        ensures faults { result.faults ≡ 0 }
    {
        FileShelf {
            rt,
            versions: Versions::none(rt.alloc()),
            stores: 0,
            faults: 0,
        }
    }
}

impl<'a, R: Disk + AllocGlobal> Loads for FileShelf<'a, R> {
    ghost holds = { λ _. None };

    ghost stores = { λ s. s.stores };

    ghost faults = { λ s. s.faults };

    /// Links are followed, and nothing is opened. Files that were open when the process started are
    /// read as they are.
    fn is_special(&self, name: &str) -> bool {
        !is_stream(name)
            && match fs::metadata(self.rt, name) {
                Ok(about) => !about.is_file() && !about.is_dir(),
                Err(_) => false,
            }
    }

    /// Returns the bytes of the file. The error is `Failed` for a missing file or a folder.
    fn load(&mut self, name: &str, limit: u64) -> Result<Vec<u8>, ShelfFault>
        ensures no_store { self.new.stores ≡ self.old.stores }
        ensures within { IfOk result (λ bytes. length bytes.items ≤ limit) }
        ensures not_absent { IsErrOf result ShelfFault.Absent → ⊥ }
        ensures cause { HasCause ShelfFault.Failed self.old.faults self.new.faults result }
        ensures counts { OnErr result (self.new.faults ≡ counted self.old.faults) }
        ensures calm { OnOk result (self.new.faults ≡ self.old.faults) }
    {
        let read = read_file(self.rt, name, limit, &mut self.versions);
        if read.is_err() {
            self.faults = one_more(self.faults);
        }
        read
    }
}

impl<'a, R: Disk + AllocGlobal> Shelf for FileShelf<'a, R> {
    ghost is_changed = { λ _ _. false };

    /// Puts the bytes into the file, following links.
    ///
    /// A file that was loaded or stored under this name must still be the same, and unchanged
    /// since: otherwise the error is `Failed`, and the file there stays as it is.
    ///
    /// A new file next to the old one gets the bytes, the old one's mode and, if that is allowed,
    /// its owner. It is synced, and takes the old one's name in one step. If no file may be made
    /// next to the old one, or it has a second name, it is overwritten. The error is `Failed` if it
    /// is not a plain file or may not be written, and also for a stream that was open when the
    /// process started, a file whose lock another program has, and more bytes than the process may
    /// write.
    ///
    /// After an `Err` the old bytes are still there, except in a file that was overwritten and
    /// could not be restored. The new file is removed after a fault. `NoMemory` occurs before any
    /// file is touched.
    fn store(&mut self, name: &str, bytes: &[u8]) -> Result<(), ShelfFault>
        ensures counts_ok { OnOk result (self.new.stores ≡ counted self.old.stores) }
        ensures counts_failed { IsErrOf result ShelfFault.Failed →
            self.new.stores ≡ counted self.old.stores }
        ensures no_memory { IsErrOf result ShelfFault.NoMemory →
            self.new.stores ≡ self.old.stores }
        ensures not_absent { IsErrOf result ShelfFault.Absent → ⊥ }
        ensures not_too_long { IsErrOf result ShelfFault.TooLong → ⊥ }
        ensures cause { HasCause ShelfFault.Failed self.old.faults self.new.faults result }
        ensures counts { OnErr result (self.new.faults ≡ counted self.old.faults) }
        ensures calm { OnOk result (self.new.faults ≡ self.old.faults) }
    {
        let end = store_known(self.rt, name, bytes, &mut self.versions);
        if end.is_err() {
            self.faults = one_more(self.faults);
        }
        if !matches!(end, Err(ShelfFault::NoMemory)) {
            self.stores = one_more(self.stores);
        }
        end
    }
}

/// Whether a name leads to what was open when the process started: `/dev/stdin`, or `/dev/fd/` and
/// a number. It is read as a stream.
fn is_stream(name: &str) -> bool {
    name == "/dev/stdin"
        || match name.strip_prefix("/dev/fd/") {
            Some(number) => !number.is_empty() && number.bytes().all(|byte| byte.is_ascii_digit()),
            None => false,
        }
}

/// Returns the bytes of a file, if there are no more than the limit. The file is kept as the
/// version that is known.
fn read_file<R: Disk + AllocGlobal>(
    rt: &R,
    name: &str,
    limit: u64,
    versions: &mut Versions,
) -> Result<Vec<u8>, ShelfFault>
    ensures within { IfOk result (λ bytes. length bytes.items ≤ limit) }
    ensures not_absent { IsErrOf result ShelfFault.Absent → ⊥ }
{
    let Ok(mut file) = fs::open(rt, name) else {
        return Err(ShelfFault::Failed);
    };
    let Ok(about) = file.metadata() else {
        return Err(ShelfFault::Failed);
    };
    if versions.keep(name, FileVersion::of(&about)).is_err() {
        return Err(ShelfFault::NoMemory);
    }
    read_whole(rt.alloc(), &mut file, about.len(), limit)
}

/// Puts the bytes into the file of a name, if it is the version that is known. A stream is never
/// stored on.
fn store_known<R: Disk + AllocGlobal>(
    rt: &R,
    name: &str,
    bytes: &[u8],
    versions: &mut Versions,
) -> Result<(), ShelfFault>
    ensures not_absent { IsErrOf result ShelfFault.Absent → ⊥ }
    ensures not_too_long { IsErrOf result ShelfFault.TooLong → ⊥ }
{
    if is_stream(name) {
        return Err(ShelfFault::Failed);
    }
    let stored = store_file(rt, name, bytes, versions.at(name))?;
    if let Some(now) = stored.now {
        versions.renew(name, stored.was, now);
    }
    Ok(())
}

/// Returns the bytes that a reader has left, if there are no more than the limit. About `size`
/// bytes are expected.
pub fn read_whole<F: Read>(
    alloc: Global,
    file: &mut F,
    size: u64,
    limit: u64,
) -> Result<Vec<u8>, ShelfFault>
    ensures bytes { IfOk result (λ bytes. IfSome (F.remaining file.old)
        (λ left. bytes.items ≡ left)) }
    ensures within { IfOk result (λ bytes. length bytes.items ≤ limit) }
    ensures not_absent { IsErrOf result ShelfFault.Absent → ⊥ }
    ensures too_long { IsErrOf result ShelfFault.TooLong → IfSome (F.remaining file.old)
        (λ left. limit < length left) }
{
    let Ok(bytes) = Vec::with_capacity(alloc, size.min(limit) as usize) else {
        return Err(ShelfFault::NoMemory);
    };
    let Ok(mut block) = vec![in alloc; 0u8; BLOCK] else {
        return Err(ShelfFault::NoMemory);
    };
    read_blocks(file, &mut block, bytes, limit)
}

/// Does the same by reading into a block.
fn read_blocks<F: Read>(
    file: &mut F,
    block: &mut [u8],
    mut bytes: Vec<u8>,
    limit: u64,
) -> Result<Vec<u8>, ShelfFault>
    requires none { bytes.items ≡ [] }
    requires room { 0 < length block.old }
    ensures bytes { IfOk result (λ bytes. IfSome (F.remaining file.old)
        (λ left. bytes.items ≡ left)) }
    ensures within { IfOk result (λ bytes. length bytes.items ≤ limit) }
    ensures not_absent { IsErrOf result ShelfFault.Absent → ⊥ }
    ensures too_long { IsErrOf result ShelfFault.TooLong → IfSome (F.remaining file.old)
        (λ left. limit < length left) }
{
    for _ in 0..u64::MAX {
        let Ok(count) = read_some(file, block) else {
            return Err(ShelfFault::Failed);
        };
        if count == 0 {
            return Ok(bytes);
        }
        if bytes.len() as u64 + count as u64 > limit {
            return Err(ShelfFault::TooLong);
        }
        if bytes.extend_from_slice(&block[..count]).is_err() {
            return Err(ShelfFault::NoMemory);
        }
    }
    Err(ShelfFault::Failed)
}

/// Reads once, retrying if a signal interrupts the read.
fn read_some<F: Read>(file: &mut F, block: &mut [u8]) -> io::Result<usize>
    ensures bound { ReadsAtMost result block.new }
    ensures ok { IfOk result
        (λ count. Consumes (F.remaining file.old) (F.remaining file.new) (take count block.new)) }
    ensures end { IfOk result
        (λ count. count ≡ 0 → 0 < length block.old → IsAtEnd (F.remaining file.new)) }
    ensures err { OnErr result (Keeps (F.remaining file.old) (F.remaining file.new)) }
    ensures retried { IfErr result (λ error. error_kind error ≢ ErrorKind.Interrupted) }
{
    for _ in 0..u64::MAX {
        match file.read(block) {
            Ok(count) => return Ok(count),
            Err(error) if error.kind() == ErrorKind::Interrupted => {}
            Err(error) => return Err(error),
        }
    }
    Err(io::Error::from(ErrorKind::TimedOut))
}
