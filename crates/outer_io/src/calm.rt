// A shelf and a sink in memory that never fail.
ghost use Rattle.std.specs.Prelude.{◌≡◌, ◌<◌, ◌≤◌, ◌++◌, Some, [], length, IfOk, OnOk, OnErr, IsOk, IsErrOf, IsSomeAnd, option_copied, false};
ghost use Rattle.std.specs.FinMap.{get, insert};
ghost use Rattle.outer_io.specs.Files.{files_of};
ghost use Rattle.outer_io.specs.Faults.{counted};

use crate::calls::one_more;
use crate::file_map::FileMap;
use crate::{Loads, PutFault, Shelf, ShelfFault, Sink};
use c_terms::{NoMemory, Text};
use std::alloc::Global;
use std::marker::Model;

/// Files in memory. Contracts see the map from names to bytes, and the counts of stores and of calls.
///
/// No call returns `Failed`, and a store fails only when out of memory. A load or a store costs the
/// look-up of the name, which is logarithmic in the number of files, and a copy of the bytes.
#[derive(Drop)]
pub struct CalmShelf {
    files: FileMap,
    stores: u64,
    calls: u64,
}

impl Model for CalmShelf {
    ghost use Rattle.outer_io.specs.Calls.{CalmShelfState};
    ghost use Rattle.outer_io.specs.Stored.{calm_code};

    ghost Value = { CalmShelfState };

    ghost coded = { calm_code };

    ghost view = { λ s. record { files = s.files; stores = s.stores; calls = s.calls } };
}

impl CalmShelf {
    /// Returns a shelf with these files, on which no call was made. If a name occurs more than
    /// once, its last entry counts.
    pub fn new(entries: Vec<(Text, Vec<u8>)>) -> Result<CalmShelf, NoMemory>
        ensures files { IfOk result (λ shelf. shelf.files ≡ files_of entries.items) }
        ensures stores { IfOk result (λ shelf. shelf.stores ≡ 0) }
        ensures calls { IfOk result (λ shelf. shelf.calls ≡ 0) }
    {
        let files = FileMap::of(entries)?;
        Ok(CalmShelf {
            files,
            stores: 0,
            calls: 0,
        })
    }

    /// Returns the bytes under a name, without a copy. The call is not counted.
    pub fn bytes_of(&self, name: &[u8]) -> Option<&[u8]>
        ensures bytes { option_copied result ≡ get self.now.files name.now }
    {
        match self.files.get(name) {
            Some(bytes) => Some(bytes.as_slice()),
            None => None,
        }
    }

    /// Returns how many stores were done.
    pub fn stores(&self) -> u64
        ensures count { result ≡ self.now.stores }
    {
        self.stores
    }

    /// Returns how many loads and stores were called, including those that ran out of memory.
    pub fn calls(&self) -> u64
        ensures count { result ≡ self.now.calls }
    {
        self.calls
    }
}

impl Loads for CalmShelf {
    ghost holds = { λ s. Some s.files };

    ghost stores = { λ s. s.stores };

    ghost faults = { λ _. 0 };

    fn is_special(&self, _name: &str) -> bool
        ensures none { result ≡ false }
    {
        false
    }

    fn load(&mut self, name: &str, limit: u64) -> Result<Vec<u8>, ShelfFault>
        ensures same { self.new.files ≡ self.old.files }
        ensures no_store { self.new.stores ≡ self.old.stores }
        ensures bytes { IfOk result (λ bytes. get self.old.files name.now ≡ Some bytes.items) }
        ensures within { IfOk result (λ bytes. length bytes.items ≤ limit) }
        ensures absent { IsErrOf result ShelfFault.Absent → get self.old.files name.now ≡ None }
        ensures too_long { IsErrOf result ShelfFault.TooLong →
            IsSomeAnd (get self.old.files name.now) (λ bytes. limit < length bytes) }
        ensures not_failed { IsErrOf result ShelfFault.Failed → ⊥ }
        ensures calls { self.new.calls ≡ counted self.old.calls }
    {
        self.calls = one_more(self.calls);
        self.files.load(name, limit)
    }
}

impl Shelf for CalmShelf {
    ghost is_changed = { λ _ _. false };

    fn store(&mut self, name: &str, bytes: &[u8]) -> Result<(), ShelfFault>
        ensures ok { OnOk result (self.new.files ≡ insert self.old.files name.now bytes.now) }
        ensures err { OnErr result (self.new.files ≡ self.old.files) }
        ensures counts_ok { OnOk result (self.new.stores ≡ counted self.old.stores) }
        ensures no_memory { OnErr result (self.new.stores ≡ self.old.stores) }
        ensures no_memory_only { OnErr result (IsErrOf result ShelfFault.NoMemory) }
        ensures calls { self.new.calls ≡ counted self.old.calls }
    {
        self.calls = one_more(self.calls);
        if self.files.insert(name.as_bytes(), bytes).is_err() {
            return Err(ShelfFault::NoMemory);
        }
        self.stores = one_more(self.stores);
        Ok(())
    }
}

/// Bytes in memory. Contracts see the list of bytes, and the count of puts.
///
/// A call fails only when out of memory. A put is linear in its piece, amortized over many puts.
#[derive(Drop)]
pub struct CalmSink {
    bytes: Vec<u8>,
    calls: u64,
}

impl Model for CalmSink {
    ghost use Rattle.outer_io.specs.Calls.{CalmSinkState};

    ghost Value = { CalmSinkState };

    ghost view = { λ s. record { bytes = s.bytes.items; calls = s.calls } };
}

impl CalmSink {
    /// Returns a sink with no bytes, to which no put was made.
    pub fn new(alloc: Global) -> CalmSink
        ensures empty { result.bytes ≡ [] }
        ensures calls { result.calls ≡ 0 }
    {
        CalmSink {
            bytes: Vec::new(alloc),
            calls: 0,
        }
    }

    /// Returns the bytes that were put.
    pub fn bytes(&self) -> &[u8]
        ensures bytes { result.now ≡ self.now.bytes }
    {
        &self.bytes
    }

    /// Returns how many puts were called, including those of an empty piece and those that ran out
    /// of memory.
    pub fn calls(&self) -> u64
        ensures count { result ≡ self.now.calls }
    {
        self.calls
    }
}

impl Sink for CalmSink {
    ghost written = { λ s. Some s.bytes };

    ghost faults = { λ _. 0 };

    fn put(&mut self, bytes: &[u8]) -> Result<(), PutFault>
        ensures ok { OnOk result (self.new.bytes ≡ self.old.bytes ++ bytes.now) }
        ensures err { OnErr result (self.new.bytes ≡ self.old.bytes) }
        ensures not_failed { IsErrOf result PutFault.Failed → ⊥ }
        ensures empty { bytes.now ≡ [] → IsOk result }
        ensures calls { self.new.calls ≡ counted self.old.calls }
    {
        self.calls = one_more(self.calls);
        self.bytes
            .extend_from_slice(bytes)
            .map_err(|_| PutFault::NoMemory)
    }
}
