// Names and their numbers, each found by one look-up.
ghost use Rattle.std.specs.Prelude.{◌≡◌, ◌++◌, ◌∷◌, ℕ, List, [], IfOk, OnOk};
ghost use Rattle.smpl_meta.specs.Index.{number_in, or_else, only, place_from};

use c_terms::{NoMemory, Text};
use indexmap::IndexMap;
use sqlite_items::Items;
use std::alloc::Global;
use std::marker::Model;

/// Names, each with a number. A name keeps the first number that it is given.
#[derive(Drop)]
pub struct NameIndex {
    numbers: IndexMap<Vec<u8>, usize>,
}

impl Model for NameIndex {
    ghost use Rattle.std.specs.Prelude.{List, ℕ, map};

    ghost Value = { List (List ℕ × ℕ) };

    ghost view = { λ index. map (λ e. (e.0.items, e.1)) index.numbers.entries };
}

impl NameIndex {
    /// Returns an index in which no name has a number. Takes no memory.
    pub fn new(alloc: Global) -> NameIndex
        ensures { result ≡ [] }
    {
        NameIndex {
            numbers: IndexMap::new(alloc),
        }
    }

    /// Returns the number of a name, if it has one. Makes one look-up and takes no memory.
    pub fn find(&self, name: &[u8]) -> Option<usize>
        ensures { result ≡ number_in self.now name.now }
    {
        self.numbers.get(name).copied()
    }

    /// Gives the name the number, unless it already has one. Linear in the name.
    pub fn put(&mut self, alloc: Global, name: &[u8], number: usize) -> Result<(), NoMemory>
        ensures { OnOk result ((other : List ℕ) → number_in self.new other
            ≡ or_else (number_in self.old other) (only name.now number other)) }
    {
        if self.find(name).is_some() {
            return Ok(());
        }
        let key = Vec::from_slice(alloc, name)?;
        self.numbers.insert(key, number)?;
        Ok(())
    }
}

/// Names in order. One look-up finds the place of the first one that equals a given name.
#[derive(Drop)]
pub struct NameTable {
    names: Items<Text>,
    index: NameIndex,
}

impl Model for NameTable {
    ghost use Rattle.std.specs.Prelude.{List, ℕ};
    ghost use Rattle.smpl_meta.specs.Index.{Indexes};

    ghost Value = { List (List ℕ) };

    ghost view = { λ table. table.names };

    ghost invariant = { λ table. Indexes table.index table.names };
}

impl NameTable {
    /// Returns a table without names. Takes no memory.
    pub fn new(alloc: Global) -> NameTable
        ensures { result ≡ [] }
    {
        NameTable {
            names: Items::new(alloc),
            index: NameIndex::new(alloc),
        }
    }

    /// Adds a name at the end. Linear in the name.
    pub fn with(self, alloc: Global, name: Text) -> Result<NameTable, NoMemory>
        ensures { IfOk result (λ table. table ≡ self ++ name ∷ []) }
    {
        let NameTable {
            mut names,
            mut index,
        } = self;
        index.put(alloc, name.as_bytes(), names.len())?;
        names.push(name)?;
        Ok(NameTable { names, index })
    }

    /// Returns the place of the first name that equals this one, if there is one. Makes one look-up and takes no memory.
    pub fn place(&self, name: &[u8]) -> Option<usize>
        ensures { result ≡ place_from 0 self.now name.now }
    {
        self.index.find(name)
    }
}
