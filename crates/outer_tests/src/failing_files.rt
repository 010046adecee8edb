// A stand-in for the file system: the system's files, but one call fails, or the disk is nearly full.
use outer_io::Disk;
use std::cell::Cell;
use std::fs::{File, FileTimes, Files, Metadata, OpenFile, OpenOptions, Permissions};
use std::io::{Empty, Error, ErrorKind, Read, Seek, SeekFrom, Write};
use std::path::PathBuf;
use std::{alloc, io};

/// The most bytes that one write accepts.
const MOST_WRITTEN: usize = 4;

/// Which call fails, by its number from 0, and how; the number of calls made; the number of bytes by which files may grow;
/// and whether there are changes that aren't synced yet.
#[derive(Drop)]
pub struct Trouble {
    fails: Option<u64>,
    kind: ErrorKind,
    calls: Cell<u64>,
    room: Cell<usize>,
    unsynced: Cell<bool>,
}

impl Trouble {
    pub fn at_call(number: u64, kind: ErrorKind) -> Trouble {
        Trouble {
            fails: Some(number),
            kind,
            calls: Cell::new(0),
            room: Cell::new(usize::MAX),
            unsynced: Cell::new(false),
        }
    }

    pub fn little_room(room: usize) -> Trouble {
        Trouble {
            fails: None,
            kind: ErrorKind::Other,
            calls: Cell::new(0),
            room: Cell::new(room),
            unsynced: Cell::new(false),
        }
    }

    /// Whether the failing call was made, or no call fails.
    pub fn is_past(&self) -> bool {
        self.fails.map_or(true, |number| number < self.calls.get())
    }

    pub fn is_synced(&self) -> bool {
        !self.unsynced.get()
    }

    /// Counts a call, and fails if it is the one that fails.
    fn call(&self) -> io::Result<()> {
        let number = self.calls.get();
        self.calls.set(number.saturating_add(1));
        if self.fails == Some(number) {
            return Err(Error::from(self.kind));
        }
        Ok(())
    }
}

#[derive(Drop)]
pub struct FailingFiles<'a> {
    pub rt: &'a HostRuntime,
    pub trouble: &'a Trouble,
}

#[derive(Drop)]
pub struct FailingFile<'a> {
    file: File,
    trouble: &'a Trouble,
}

impl<'a> Files for FailingFiles<'a> {
    type File = FailingFile<'a>;

    type Dir = Empty;

    fn open_file(&self, how: &OpenOptions, path: &str) -> io::Result<FailingFile<'a>> {
        self.trouble.call()?;
        Ok(FailingFile {
            file: self.rt.open_file(how, path)?,
            trouble: self.trouble,
        })
    }

    fn open_dir(&self, _path: &str) -> io::Result<Empty> {
        Err(Error::from(ErrorKind::Unsupported))
    }

    fn metadata(&self, path: &str) -> io::Result<Metadata> {
        self.trouble.call()?;
        self.rt.metadata(path)
    }

    fn symlink_metadata(&self, path: &str) -> io::Result<Metadata> {
        self.trouble.call()?;
        self.rt.symlink_metadata(path)
    }

    fn copy(&self, _from: &str, _to: &str) -> io::Result<u64> {
        Err(Error::from(ErrorKind::Unsupported))
    }

    /// A file that isn't synced must not be renamed.
    fn rename(&self, from: &str, to: &str) -> io::Result<()> {
        self.trouble.call()?;
        if !self.trouble.is_synced() {
            return Err(Error::from(ErrorKind::InvalidInput));
        }
        self.rt.rename(from, to)
    }

    fn remove_file(&self, path: &str) -> io::Result<()> {
        self.trouble.call()?;
        self.rt.remove_file(path)
    }

    fn create_dir(&self, _path: &str) -> io::Result<()> {
        Err(Error::from(ErrorKind::Unsupported))
    }

    fn remove_dir(&self, path: &str) -> io::Result<()> {
        self.trouble.call()?;
        self.rt.remove_dir(path)
    }

    fn remove_dir_all<B: alloc::Allocator>(&self, _alloc: B, _path: &str) -> io::Result<()> {
        Err(Error::from(ErrorKind::Unsupported))
    }

    fn read_link<B: alloc::Allocator>(&self, alloc: B, path: &str) -> io::Result<PathBuf<B>> {
        self.trouble.call()?;
        self.rt.read_link(alloc, path)
    }
}

/// A lock fails as if somebody else held it.
impl<'a> Disk for FailingFiles<'a> {
    fn give(
        &self,
        file: &FailingFile<'a>,
        owner: Option<u32>,
        group: Option<u32>,
    ) -> io::Result<()> {
        self.trouble.call()?;
        self.rt.give(&file.file, owner, group)
    }

    fn lock(&self, file: &FailingFile<'a>) -> bool {
        self.trouble.call().is_ok() && self.rt.lock(&file.file)
    }

    fn most_bytes(&self) -> u64 {
        self.rt.most_bytes()
    }
}

impl Read for FailingFile<'_> {
    fn read(&mut self, buffer: &mut [u8]) -> io::Result<usize> {
        self.trouble.call()?;
        self.file.read(buffer)
    }
}

impl Write for FailingFile<'_> {
    fn write(&mut self, bytes: &[u8]) -> io::Result<usize> {
        self.trouble.call()?;
        let room = self.trouble.room.get();
        let there = self.file.metadata()?.len();
        let inside = there.saturating_sub(self.file.seek(SeekFrom::Current(0))?) as usize;
        let count = bytes
            .len()
            .min(room.saturating_add(inside))
            .min(MOST_WRITTEN);
        if count == 0 && !bytes.is_empty() {
            return Err(Error::from(ErrorKind::StorageFull));
        }
        let written = self.file.write(&bytes[..count])?;
        let grown = written.saturating_sub(inside);
        self.trouble.room.set(room.saturating_sub(grown));
        self.trouble.unsynced.set(true);
        Ok(written)
    }

    fn flush(&mut self) -> io::Result<()> {
        Ok(())
    }
}

impl Seek for FailingFile<'_> {
    fn seek(&mut self, to: SeekFrom) -> io::Result<u64> {
        self.trouble.call()?;
        self.file.seek(to)
    }
}

impl OpenFile for FailingFile<'_> {
    fn metadata(&self) -> io::Result<Metadata> {
        self.trouble.call()?;
        self.file.metadata()
    }

    fn set_len(&self, size: u64) -> io::Result<()> {
        self.trouble.call()?;
        self.trouble.unsynced.set(true);
        self.file.set_len(size)
    }

    fn sync_all(&self) -> io::Result<()> {
        self.trouble.call()?;
        self.trouble.unsynced.set(false);
        self.file.sync_all()
    }

    fn sync_data(&self) -> io::Result<()> {
        Err(Error::from(ErrorKind::Unsupported))
    }

    fn set_permissions(&self, permissions: Permissions) -> io::Result<()> {
        self.trouble.call()?;
        self.trouble.unsynced.set(true);
        self.file.set_permissions(permissions)
    }

    fn set_times(&self, _times: FileTimes) -> io::Result<()> {
        Err(Error::from(ErrorKind::Unsupported))
    }
}
