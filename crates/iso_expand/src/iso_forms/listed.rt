// A list of distinct forms.
ghost use Rattle.std.specs.Prelude.{◌≡◌, ◌≤◌, ◌<◌, ℕ, List, [], length, OnOk, IfOk, IfErr};
ghost use Rattle.c_terms.specs.Names.{has_name, with_name};
ghost use Rattle.iso_expand.specs.IsoForms.Forms as spec;
ghost use Rattle.iso_expand.specs.IsoForms.Forms.{Refused};
ghost use Rattle.iso_expand.specs.IsoForms.Stepped.{Knows, Has};

use crate::iso_forms::FormsFault;
use crate::iso_forms::spelled::spelled;
use c_terms::{NoMemory, Tree};
use indexmap::IndexSet;
use sqlite_items::Items;
use std::alloc::Global;
use std::marker::Model;

/// A set of spellings of trees.
#[derive(Drop)]
pub struct Seen {
    set: IndexSet<Vec<u8>>,
}

impl Model for Seen {
    ghost use Rattle.std.specs.Prelude.{List, ℕ, map};

    ghost Value = { List (List ℕ) };

    ghost view = { λ seen. map (λ key. key.items) seen.set.keys };
}

impl Seen {
    fn new(alloc: Global) -> Seen
        ensures { result ≡ [] }
    {
        Seen {
            set: IndexSet::new(alloc),
        }
    }

    fn has(&self, key: &[u8]) -> bool
        ensures { result ≡ has_name self.now key.now }
    {
        self.set.contains(key)
    }

    fn add(&mut self, key: Vec<u8>) -> Result<(), NoMemory>
        ensures { OnOk result (self.new ≡ with_name self.old key.items) }
    {
        if self.has(key.as_slice()) {
            return Ok(());
        }
        self.set.insert(key)?;
        Ok(())
    }

    /// Returns the set of the spellings of the trees.
    fn of(alloc: Global, list: &[Tree]) -> Result<Seen, NoMemory>
        ensures { IfOk result (λ seen. Knows seen list.now) }
    {
        let mut seen = Seen::new(alloc);
        for tree in list {
            seen.add(spelled(alloc, tree)?)?;
        }
        Ok(seen)
    }
}

/// Forms, and what is needed to decide whether a tree is among them.
#[derive(Drop)]
pub struct Listed {
    pub list: Items<Tree>,
    pub seen: Seen,
}

impl Listed {
    /// Returns the list with the set of its spellings. Linear in its tokens if no hashes of spellings collide.
    pub fn of(alloc: Global, list: Items<Tree>, limit: usize) -> Result<Listed, NoMemory>
        requires { length list ≤ limit }
        ensures { IfOk result (λ forms. Has limit forms list) }
    {
        let seen = Seen::of(alloc, list.as_slice())?;
        Ok(Listed { list, seen })
    }

    /// Appends the tree, unless it is already in the list.
    pub fn add(&mut self, alloc: Global, tree: Tree, limit: usize) -> Result<(), FormsFault>
        requires { Has limit self.old self.old.list }
        ensures forms { OnOk result (Has limit self.new (spec.with_form self.old.list tree)) }
        ensures refused { IfErr result (Refused limit (spec.with_form self.old.list tree)) }
    {
        let key = spelled(alloc, &tree)?;
        if self.seen.has(key.as_slice()) {
            return Ok(());
        }
        if self.list.len() >= limit {
            return Err(FormsFault::TooMany);
        }
        self.seen.add(key)?;
        self.list.push(tree)?;
        Ok(())
    }
}
