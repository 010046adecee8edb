// Lists of entries that a single call works on.
ghost use Rattle.std.specs.Prelude.{◌≡◌, ◌++◌, [], ◌∷◌, IfOk};

use crate::entries::Entry;
use c_terms::NoMemory;
use std::alloc::Global;
use std::marker::Model;

/// A list of entries that a single call works on, in no known order.
#[derive(Drop)]
pub struct EntryList {
    items: Vec<Entry>,
}

impl Model for EntryList {
    ghost use Rattle.std.specs.Coded.{codes};
    ghost use Rattle.c_terms.specs.contracts.tree.Tree as tree;
    ghost use Rattle.std.specs.Prelude.{List};
    ghost use Rattle.smpl_terms.specs.declared.var.Var.{Var};
    ghost use Rattle.env_sets.specs.declared.bounds.Bound.{Bound};

    ghost Value = { List (List (Var × Bound)) };

    ghost coded = { Prim.hlevel (codes, tree.the_row.coded) };

    ghost view = { λ a. a.items.items };
}

impl EntryList {
    /// Returns an empty list. Takes no memory.
    pub fn none(alloc: Global) -> EntryList
        ensures entries { result ≡ [] }
    {
        EntryList {
            items: Vec::new(alloc),
        }
    }

    /// Makes a list of these entries. Takes no memory.
    pub fn of(items: Vec<Entry>) -> EntryList
        ensures entries { result ≡ items.items }
    {
        EntryList { items }
    }

    /// Returns the entries. Takes no memory.
    pub fn entries(&self) -> &[Entry]
        ensures entries { result.now ≡ self.now }
    {
        self.items.as_slice()
    }

    /// Appends an entry.
    pub fn put(&mut self, e: Entry) -> Result<(), NoMemory>
        ensures { IfOk result (λ _. self.new ≡ self.old ++ e ∷ []) }
    {
        self.items.push(e)?;
        Ok(())
    }
}
