// A shelf and a sink in memory, some of whose calls fail.
ghost use Rattle.std.specs.Prelude.{◌≡◌, ◌≢◌, ◌<◌, ◌≤◌, ◌/◌, ◌++◌, ◌↔◌, ℕ, Some, None, [], take, length, is_err, IsErr, IsErrOf, IfOk, IfSome, IsOk, IsSomeAnd, IsTrue, OnOk, OnErr, option_copied, false, true, not, ◌||◌};
ghost use Rattle.std.specs.List.{filter};
ghost use Rattle.std.specs.FinMap.{get, insert};
ghost use Rattle.outer_io.specs.Files.{files_of};
ghost use Rattle.outer_io.specs.Faults.{HasCause, counted};
ghost use Rattle.outer_io.specs.Calls.{next_fails, after_call, no_calls, is_rewrite_of, is_rewritten, other_rewrites};

use crate::calls::{CallCount, one_more};
use crate::file_map::FileMap;
use crate::{Loads, PutFault, Shelf, ShelfFault, Sink};
use c_terms::{NoMemory, Text, same_text};
use std::alloc::Global;
use std::marker::Model;

/// Files in memory, with the numbers of the calls that fail, and of those before which another
/// program rewrites a file. Contracts see the files, the count of stores, the calls and the
/// rewrites.
///
/// Loads and stores are counted together, from 0, including those that run out of memory. The costs
/// are those of `CalmShelf`, and a walk of the two lists of numbers.
#[derive(Drop)]
pub struct MemShelf {
    files: FileMap,
    stores: u64,
    calls: CallCount,
    rewrites: Vec<(u64, Text)>,
}

impl Model for MemShelf {
    ghost use Rattle.outer_io.specs.Calls.{ShelfState};
    ghost use Rattle.outer_io.specs.Stored.{shelf_code};

    ghost Value = { ShelfState };

    ghost coded = { shelf_code };

    ghost view = { λ s. record { files = s.files; stores = s.stores; calls = s.calls; rewrites = s.rewrites.items } };
}

impl MemShelf {
    /// Returns a shelf with these files, on which the calls with these numbers fail. If a name
    /// occurs more than once, its last entry counts.
    pub fn new(entries: Vec<(Text, Vec<u8>)>, fail: Vec<u64>) -> Result<MemShelf, NoMemory>
        ensures files { IfOk result (λ shelf. shelf.files ≡ files_of entries.items) }
        ensures stores { IfOk result (λ shelf. shelf.stores ≡ 0) }
        ensures calls { IfOk result (λ shelf. shelf.calls ≡ no_calls fail.items) }
        ensures rewrites { IfOk result (λ shelf. shelf.rewrites ≡ []) }
    {
        let alloc = *entries.allocator();
        let files = FileMap::of(entries)?;
        Ok(MemShelf {
            files,
            stores: 0,
            calls: CallCount::new(fail),
            rewrites: Vec::new(alloc),
        })
    }

    /// Makes another program rewrite what is under a name, with the bytes that it has, before the
    /// call of each of these numbers. A file that was rewritten is stored on only after it is
    /// loaded again.
    pub fn set_rewrites(&mut self, rewrites: Vec<(u64, Text)>)
        ensures value { self.new ≡ record {
          files = self.old.files;
          stores = self.old.stores;
          calls = self.old.calls;
          rewrites = rewrites.items;
        } }
    {
        self.rewrites = rewrites;
    }

    /// Returns the bytes under a name, without a copy. The call is not counted.
    pub fn bytes_of(&self, name: &[u8]) -> Option<&[u8]>
        ensures bytes { option_copied result ≡ get self.now.files name.now }
    {
        match self.files.get(name) {
            Some(bytes) => Some(bytes.as_slice()),
            None => None,
        }
    }

    /// Returns how many stores were done or failed.
    pub fn stores(&self) -> u64
        ensures count { result ≡ self.now.stores }
    {
        self.stores
    }

    /// Returns how many loads and stores were called, including those that ran out of memory.
    pub fn calls(&self) -> u64
        ensures count { result ≡ self.now.calls.done }
    {
        self.calls.done()
    }

    /// Whether the next call fails, if it is a store under this name.
    fn next_store_fails(&self, name: &str) -> bool
        ensures { result ≡ (next_fails self.now.calls || is_rewritten self.now name.now) }
    {
        self.calls.next_fails() || self.is_rewritten(name)
    }

    /// Whether another program rewrote what is under the name before the next call.
    fn is_rewritten(&self, name: &str) -> bool
        ensures { result ≡ is_rewritten self.now name.now }
    {
        let call = self.calls.done();
        self.rewrites
            .iter()
            .any(|rewrite| is_rewrite_of(name, call, rewrite))
    }
}

impl Loads for MemShelf {
    ghost holds = { λ s. Some s.files };

    ghost stores = { λ s. s.stores };

    ghost faults = { λ s. s.calls.faults };

    fn is_special(&self, _name: &str) -> bool
        ensures none { result ≡ false }
    {
        false
    }

    /// Fails exactly if the number of the call is one that fails.
    fn load(&mut self, name: &str, limit: u64) -> Result<Vec<u8>, ShelfFault>
        ensures same { self.new.files ≡ self.old.files }
        ensures no_store { self.new.stores ≡ self.old.stores }
        ensures bytes { IfOk result (λ bytes. get self.old.files name.now ≡ Some bytes.items) }
        ensures within { IfOk result (λ bytes. length bytes.items ≤ limit) }
        ensures absent { IsErrOf result ShelfFault.Absent → get self.old.files name.now ≡ None }
        ensures too_long { IsErrOf result ShelfFault.TooLong →
            IsSomeAnd (get self.old.files name.now) (λ bytes. limit < length bytes) }
        ensures cause { HasCause ShelfFault.Failed
            self.old.calls.faults self.new.calls.faults result }
        ensures fails { IsErrOf result ShelfFault.Failed ↔ IsTrue (next_fails self.old.calls) }
        ensures calls { self.new.calls ≡ after_call self.old.calls (next_fails self.old.calls) }
        ensures told { OnOk result (self.new.rewrites ≡ other_rewrites self.old name.now) }
        ensures untold { OnErr result (self.new.rewrites ≡ self.old.rewrites) }
    {
        let call = self.calls.done();
        let failing = self.calls.next_fails();
        self.calls.count(failing);
        if failing {
            return Err(ShelfFault::Failed);
        }
        let bytes = self.files.load(name, limit)?;
        forget_rewrites(&mut self.rewrites, name, call);
        Ok(bytes)
    }
}

/// Keeps only the rewrites that are of another name, or come after this call.
fn forget_rewrites(rewrites: &mut Vec<(u64, Text)>, name: &str, call: u64)
    ensures { rewrites.new.items ≡
        filter (λ rewrite. not (is_rewrite_of name.now call rewrite)) rewrites.old.items }
{
    rewrites.retain(|rewrite| !is_rewrite_of(name, call, rewrite));
}

/// Whether another program rewrote what is under the name before this call.
fn is_rewrite_of(name: &str, call: u64, rewrite: &(u64, Text)) -> bool
    ensures { result ≡ is_rewrite_of name.now call rewrite.now }
{
    rewrite.0 <= call && same_text(rewrite.1.as_bytes(), name.as_bytes())
}

impl Shelf for MemShelf {
    ghost is_changed = { is_rewritten };

    /// Fails exactly if the number of the call is one that fails, or another program rewrote the file.
    fn store(&mut self, name: &str, bytes: &[u8]) -> Result<(), ShelfFault>
        ensures ok { OnOk result (self.new.files ≡ insert self.old.files name.now bytes.now) }
        ensures err { OnErr result (self.new.files ≡ self.old.files) }
        ensures counts_ok { OnOk result (self.new.stores ≡ counted self.old.stores) }
        ensures counts_failed { IsErrOf result ShelfFault.Failed →
            self.new.stores ≡ counted self.old.stores }
        ensures no_memory { IsErrOf result ShelfFault.NoMemory →
            self.new.stores ≡ self.old.stores }
        ensures not_absent { IsErrOf result ShelfFault.Absent → ⊥ }
        ensures not_too_long { IsErrOf result ShelfFault.TooLong → ⊥ }
        ensures cause { HasCause ShelfFault.Failed
            self.old.calls.faults self.new.calls.faults result }
        ensures changed { IsTrue (is_rewritten self.old name.now) → IsErr result }
        ensures fails { IsErrOf result ShelfFault.Failed ↔
            IsTrue (next_fails self.old.calls || is_rewritten self.old name.now) }
        ensures calls { self.new.calls ≡
            after_call self.old.calls (next_fails self.old.calls || is_rewritten self.old name.now) }
        ensures rewrites { self.new.rewrites ≡ self.old.rewrites }
    {
        let failing = self.next_store_fails(name);
        self.calls.count(failing);
        if failing {
            self.stores = one_more(self.stores);
            return Err(ShelfFault::Failed);
        }
        if self.files.insert(name.as_bytes(), bytes).is_err() {
            return Err(ShelfFault::NoMemory);
        }
        self.stores = one_more(self.stores);
        Ok(())
    }
}

/// Bytes in memory, with the numbers of the puts that fail. Contracts see the bytes and the calls.
///
/// Puts are counted from 0, including those of an empty piece and those that run out of memory.
#[derive(Drop)]
pub struct MemSink {
    bytes: Vec<u8>,
    calls: CallCount,
}

impl Model for MemSink {
    ghost use Rattle.outer_io.specs.Calls.{SinkState};

    ghost Value = { SinkState };

    ghost view = { λ s. record { bytes = s.bytes.items; calls = s.calls } };
}

impl MemSink {
    /// Returns a sink with no bytes, of whose puts those with these numbers fail.
    pub fn new(alloc: Global, fail: Vec<u64>) -> MemSink
        ensures empty { result.bytes ≡ [] }
        ensures calls { result.calls ≡ no_calls fail.items }
    {
        MemSink {
            bytes: Vec::new(alloc),
            calls: CallCount::new(fail),
        }
    }

    /// Returns the bytes that were put.
    pub fn bytes(&self) -> &[u8]
        ensures bytes { result.now ≡ self.now.bytes }
    {
        &self.bytes
    }

    /// Returns how many puts were called, including those of an empty piece and those that ran out
    /// of memory.
    pub fn calls(&self) -> u64
        ensures count { result ≡ self.now.calls.done }
    {
        self.calls.done()
    }
}

impl Sink for MemSink {
    ghost written = { λ s. Some s.bytes };

    ghost faults = { λ s. s.calls.faults };

    /// A put whose number is one that fails appends the first half of its piece, rounded down. A
    /// put of an empty piece is counted and never fails.
    fn put(&mut self, bytes: &[u8]) -> Result<(), PutFault>
        ensures ok { OnOk result (self.new.bytes ≡ self.old.bytes ++ bytes.now) }
        ensures failed { IsErrOf result PutFault.Failed →
            self.new.bytes ≡ self.old.bytes ++ take (length bytes.now / 2) bytes.now }
        ensures no_memory { IsErrOf result PutFault.NoMemory → self.new.bytes ≡ self.old.bytes }
        ensures no_memory_no_fault { IsErrOf result PutFault.NoMemory →
            self.new.calls.faults ≡ self.old.calls.faults }
        ensures empty { bytes.now ≡ [] → IsOk result }
        ensures cause { HasCause PutFault.Failed
            self.old.calls.faults self.new.calls.faults result }
        ensures fails { IsTrue (next_fails self.old.calls) → bytes.now ≢ [] → IsErr result }
        ensures fails_only { IsErrOf result PutFault.Failed → IsTrue (next_fails self.old.calls) }
        ensures calls_ok { OnOk result (self.new.calls ≡ after_call self.old.calls false) }
        ensures calls_failed { IsErrOf result PutFault.Failed →
            self.new.calls ≡ after_call self.old.calls true }
        ensures calls_no_memory { IsErrOf result PutFault.NoMemory →
            self.new.calls ≡ after_call self.old.calls false }
    {
        if bytes.is_empty() {
            self.calls.count(false);
            return Ok(());
        }
        if self.calls.next_fails() {
            let half = &bytes[..bytes.len() / 2];
            if self.bytes.extend_from_slice(half).is_err() {
                self.calls.count(false);
                return Err(PutFault::NoMemory);
            }
            self.calls.count(true);
            return Err(PutFault::Failed);
        }
        self.calls.count(false);
        self.bytes
            .extend_from_slice(bytes)
            .map_err(|_| PutFault::NoMemory)
    }
}
