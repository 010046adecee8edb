// Which file was under a name when it was loaded or stored last, and its state then.
use c_terms::NoMemory;
use std::alloc::Global;
use std::collections::BTreeMap;
use std::fs::Metadata;
use std::os::unix::fs::MetadataExt;

/// The greatest number of stores of one file that are followed from a name under which it was
/// loaded before them.
const MOST_STORES: u32 = 1 << 20;

/// A time of the file system's clock.
#[derive(Clone, Copy, Debug, PartialEq, Eq, PartialOrd, Ord)]
struct Moment {
    seconds: i64,
    nanoseconds: i64,
}

/// A file at one moment: which one it is, its length, when its bytes were last written, and when it
/// was last changed in any way, including its names, mode and owner.
#[derive(Clone, Copy, Debug, PartialEq, Eq, PartialOrd, Ord)]
pub struct FileVersion {
    device: u64,
    node: u64,
    length: u64,
    written: Moment,
    changed: Moment,
}

impl FileVersion {
    pub fn of(about: &Metadata) -> FileVersion {
        FileVersion {
            device: about.dev(),
            node: about.ino(),
            length: about.len(),
            written: Moment {
                seconds: about.mtime(),
                nanoseconds: about.mtime_nsec(),
            },
            changed: Moment {
                seconds: about.ctime(),
                nanoseconds: about.ctime_nsec(),
            },
        }
    }

    /// Whether two versions have the same bytes, as far as the length and the time of the last
    /// write show.
    pub fn has_bytes_of(self, other: FileVersion) -> bool {
        self.length == other.length && self.written == other.written
    }
}

/// Whether two are the same file, at whatever moments.
pub fn is_same_file(one: &Metadata, other: &Metadata) -> bool {
    one.dev() == other.dev() && one.ino() == other.ino()
}

/// The versions that are known: under each name, the one that was loaded or stored there last; and
/// for each version that was overwritten by a store, the one that replaced it, since the same file
/// may have other names too.
#[derive(Drop)]
pub struct Versions {
    alloc: Global,
    by_name: BTreeMap<Vec<u8>, FileVersion>,
    stored: BTreeMap<FileVersion, FileVersion>,
}

impl Versions {
    pub fn none(alloc: Global) -> Versions {
        Versions {
            alloc,
            by_name: BTreeMap::new(alloc),
            stored: BTreeMap::new(alloc),
        }
    }

    /// Returns the version that is expected under a name, if one is known.
    pub fn at(&self, name: &str) -> Option<FileVersion> {
        let mut version = *self.by_name.get(name.as_bytes())?;
        for _ in 0..MOST_STORES {
            match self.stored.get(&version) {
                Some(next) => version = *next,
                None => break,
            }
        }
        Some(version)
    }

    /// Keeps what was loaded or stored under a name.
    pub fn keep(&mut self, name: &str, version: FileVersion) -> Result<(), NoMemory> {
        let name = name.as_bytes().to_vec(self.alloc)?;
        self.by_name.insert(name, version)?;
        Ok(())
    }

    /// Keeps the version into which a store turned a file. When out of memory, later stores of the
    /// file find a version that they don't know, and fail.
    pub fn renew(&mut self, name: &str, old: Option<FileVersion>, new: FileVersion) {
        if let Some(old) = old
            && old != new
        {
            let _ = self.stored.insert(old, new);
        }
        let _ = self.keep(name, new);
    }
}
