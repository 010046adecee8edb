// The names that a side contains.
ghost use Rattle.std.specs.Prelude.{◌≡◌, ℕ, List, [], IfOk, OnOk};
ghost use Rattle.c_terms.specs.Names.{has_name, with_name};
ghost use Rattle.iso_file.specs.Lost.{stands_in};

use c_terms::NoMemory;
use indexmap::IndexSet;
use smpl_lexer::{PatchToken, is_name};
use std::alloc::Global;
use std::marker::Model;

/// A set of names.
#[derive(Drop)]
pub struct Held {
    set: IndexSet<Vec<u8>>,
}

impl Model for Held {
    ghost use Rattle.std.specs.Prelude.{List, ℕ, map};

    ghost Value = { List (List ℕ) };

    ghost view = { λ held. map (λ name. name.items) held.set.keys };
}

impl Held {
    fn new(alloc: Global) -> Held
        ensures { result ≡ [] }
    {
        Held {
            set: IndexSet::new(alloc),
        }
    }

    /// Whether the name is in the set. Takes one look-up; allocates nothing.
    pub fn has(&self, name: &[u8]) -> bool
        ensures { result ≡ has_name self.now name.now }
    {
        self.set.contains(name)
    }

    fn add(&mut self, alloc: Global, name: &[u8]) -> Result<(), NoMemory>
        ensures { OnOk result (self.new ≡ with_name self.old name.now) }
    {
        if self.has(name) {
            return Ok(());
        }
        let key = Vec::from_slice(alloc, name)?;
        self.set.insert(key)?;
        Ok(())
    }

    /// Returns the set of the names among tokens. Linear in the tokens and their bytes if no hashes of names collide.
    pub fn of(alloc: Global, tokens: &[PatchToken]) -> Result<Held, NoMemory>
        ensures { IfOk result (λ held. (text : List ℕ) → has_name held text ≡ stands_in tokens.now text) }
    {
        let mut held = Held::new(alloc);
        for t in tokens {
            if is_name(t) {
                held.add(alloc, t.token.text.as_bytes())?;
            }
        }
        Ok(held)
    }
}
