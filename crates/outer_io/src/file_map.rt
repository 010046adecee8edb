// Files in memory, by their names.
ghost use Rattle.std.specs.Prelude.{◌≡◌, ◌<◌, ◌≤◌, length, IfOk, OnOk, OnErr, Some, None, IsSomeAnd, IsErrOf};
ghost use Rattle.std.specs.Option.{option_map};
ghost use Rattle.std.specs.FinMap.{get, insert};
ghost use Rattle.outer_io.specs.Files.{files_of};

use crate::ShelfFault;
use c_terms::{NoMemory, Text};
use std::alloc::Global;
use std::collections::BTreeMap;
use std::marker::Model;

/// The bytes under each name, in a search tree.
#[derive(Drop)]
pub struct FileMap {
    alloc: Global,
    by_name: BTreeMap<Vec<u8>, Vec<u8>>,
}

impl Model for FileMap {
    ghost use Rattle.outer_io.specs.Files.{Files};
    ghost use Rattle.outer_io.specs.Stored.{files_code, files_in};

    ghost Value = { Files };

    ghost coded = { files_code };

    ghost view = { λ a. files_in a.by_name.entries };
}

impl FileMap {
    /// Returns the files of a list, in which the last entry of a name counts.
    pub fn of(entries: Vec<(Text, Vec<u8>)>) -> Result<Self, NoMemory>
        ensures files { IfOk result (λ files. files ≡ files_of entries.items) }
    {
        let alloc = *entries.allocator();
        let mut files = FileMap {
            alloc,
            by_name: BTreeMap::new(alloc),
        };
        for (name, bytes) in entries {
            files.put(name.as_bytes(), bytes)?;
        }
        Ok(files)
    }

    /// Returns the bytes under a name.
    pub fn get(&self, name: &[u8]) -> Option<&Vec<u8>>
        ensures { option_map (λ bytes. bytes.now.items) result ≡ get self.now name.now }
    {
        self.by_name.get(name)
    }

    /// Returns the bytes under a name, if there are at most `limit` of them.
    pub fn load(&self, name: &str, limit: u64) -> Result<Vec<u8>, ShelfFault>
        ensures bytes { IfOk result (λ bytes. get self.now name.now ≡ Some bytes.items) }
        ensures within { IfOk result (λ bytes. length bytes.items ≤ limit) }
        ensures absent { IsErrOf result ShelfFault.Absent → get self.now name.now ≡ None }
        ensures too_long { IsErrOf result ShelfFault.TooLong → IsSomeAnd (get self.now name.now)
            (λ bytes. limit < length bytes) }
        ensures not_failed { IsErrOf result ShelfFault.Failed → ⊥ }
    {
        let Some(bytes) = self.get(name.as_bytes()) else {
            return Err(ShelfFault::Absent);
        };
        if bytes.len() as u64 > limit {
            return Err(ShelfFault::TooLong);
        }
        bytes.clone().map_err(|_| ShelfFault::NoMemory)
    }

    /// Puts a copy of the bytes under a name.
    pub fn insert(&mut self, name: &[u8], bytes: &[u8]) -> Result<(), NoMemory>
        ensures ok { OnOk result (self.new ≡ insert self.old name.now bytes.now) }
        ensures err { OnErr result (self.new ≡ self.old) }
    {
        let bytes = bytes.to_vec(self.alloc)?;
        self.put(name, bytes)
    }

    fn put(&mut self, name: &[u8], bytes: Vec<u8>) -> Result<(), NoMemory>
        ensures ok { OnOk result (self.new ≡ insert self.old name.now bytes.items) }
        ensures err { OnErr result (self.new ≡ self.old) }
    {
        let name = name.to_vec(self.alloc)?;
        self.by_name.insert(name, bytes)?;
        Ok(())
    }
}
