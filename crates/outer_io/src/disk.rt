// What a store needs of open files and of the process, beyond std's trait of file systems.
use std::alloc::Allocator;
use std::fs::{File, Files, TryLockError};
use std::io::Read;
use std::os::fd::AsFd;
use std::os::unix::fs::fchown;
use std::rt::LibcRuntime;
use std::{fs, io};

/// The file in which Linux reports the limits of this process, one per line: its name, the limit,
/// how far it may be raised, and a unit.
const LIMITS: &str = "/proc/self/limits";

/// How many bytes of it are read, which is more than twice its length.
const LIMITS_LENGTH: usize = 4_096;

/// The name of the limit on the bytes of a file.
const FILE_SIZE: &str = "Max file size";

/// A file system whose open files have owners and locks.
pub trait Disk: Files {
    /// Changes the owner and the group of an open file. `None` leaves one as it is.
    fn give(&self, file: &Self::File, owner: Option<u32>, group: Option<u32>) -> io::Result<()>;

    /// Takes the lock on an open file, and returns whether nobody else has it. The lock is released
    /// when the file is closed. On a system without locks nobody has one.
    fn lock(&self, file: &Self::File) -> bool;

    /// Returns the greatest number of bytes that a file written by this process may have. A write
    /// past it would end the process. If the system reports no limit, any
    /// number is allowed.
    fn most_bytes(&self) -> u64;
}

impl Disk for LibcRuntime {
    fn give(&self, file: &File, owner: Option<u32>, group: Option<u32>) -> io::Result<()> {
        fchown(file.as_fd(), owner, group)
    }

    fn lock(&self, file: &File) -> bool {
        !matches!(file.try_lock(), Err(TryLockError::WouldBlock))
    }

    fn most_bytes(&self) -> u64 {
        let mut text = [0u8; LIMITS_LENGTH];
        let Ok(mut limits) = fs::open(self, LIMITS) else {
            return u64::MAX;
        };
        match limits.read(&mut text) {
            Ok(count) => most_bytes_in(&text[..count]),
            Err(_) => u64::MAX,
        }
    }
}

/// Returns the greatest number of bytes of a file, given the text of the limits. If the text names
/// no number, there is no limit.
fn most_bytes_in(limits: &[u8]) -> u64 {
    let Ok(limits) = str::from_utf8(limits) else {
        return u64::MAX;
    };
    for line in limits.lines() {
        if let Some(rest) = line.strip_prefix(FILE_SIZE) {
            return number_of(rest);
        }
    }
    u64::MAX
}

/// Returns the number that is the first word.
fn number_of(words: &str) -> u64 {
    match words.split_whitespace().next() {
        Some(word) => word.parse::<u64>().unwrap_or(u64::MAX),
        None => u64::MAX,
    }
}

impl<R: Disk, A: Allocator> Disk for (R, A) {
    fn give(&self, file: &R::File, owner: Option<u32>, group: Option<u32>) -> io::Result<()> {
        self.0.give(file, owner, group)
    }

    fn lock(&self, file: &R::File) -> bool {
        self.0.lock(file)
    }

    fn most_bytes(&self) -> u64 {
        self.0.most_bytes()
    }
}
