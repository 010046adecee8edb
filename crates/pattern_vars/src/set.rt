// Sets of variables.
ghost use Rattle.std.specs.Prelude.{◌≡◌, ◌||◌, ◌<◌, length, IfOk, OnOk, [], slice_get, Some};
ghost use Rattle.smpl_terms.specs.declared.var.Var.{Var as Variable};
ghost use Rattle.smpl_terms.specs.Vars.{same_var};
ghost use Rattle.pattern_vars.specs.Reads.{has, number_of};

use c_terms::NoMemory;
use indexmap::IndexSet;
use smpl_terms::Var;
use std::alloc::Global;
use std::hash::{Hash, Hasher};
use std::marker::Model;

/// A variable as the key of a look-up.
#[derive(Drop)]
pub struct Key {
    pub var: Var,
}

impl PartialEq for Key {
    ghost use Rattle.std.proofs.Common.{rules};
    ghost use Rattle.std.specs.Cmp.Rules.{comparing};
    ghost use Rattle.pattern_vars.specs.Keys.{same_key};

    ghost eq = { same_key };

    ghost laws = { Prim.search (comparing, rules) };

    fn eq(&self, other: &Key) -> bool {
        self.var.rule == other.var.rule && self.var.name.as_bytes() == other.var.name.as_bytes()
    }
}

impl Eq for Key {
    ghost use Rattle.std.proofs.Common.{rules};
    ghost use Rattle.std.specs.Cmp.Rules.{comparing};

    ghost laws = { Prim.search (comparing, rules) };
}

impl Hash for Key {
    ghost use Rattle.std.proofs.Common.{rules};
    ghost use Rattle.std.specs.Cmp.Rules.{hashing};
    ghost use Rattle.pattern_vars.specs.Keys.{key_input};

    ghost hash_input = { key_input };

    ghost respects_eq = { Prim.search (hashing, rules) };

    fn hash<H: Hasher>(&self, state: &mut H) {
        self.var.rule.hash(state);
        self.var.name.as_bytes().hash(state);
    }
}

/// A set of variables. Contracts see the list.
#[derive(Drop)]
pub struct VarSet {
    set: IndexSet<Key>,
}

impl Model for VarSet {
    ghost use Rattle.std.specs.Prelude.{List, map};
    ghost use Rattle.smpl_terms.specs.declared.var.Var.{Var as Variable};

    ghost Value = { List Variable };

    ghost view = { λ s. map (λ k. k.var) s.set.keys };
}

impl VarSet {
    /// Returns the empty set. Takes no memory.
    pub fn new(alloc: Global) -> VarSet
        ensures { result ≡ [] }
    {
        VarSet {
            set: IndexSet::new(alloc),
        }
    }

    /// Puts the variable in, if it isn't in the set yet. Takes one look-up, linear in the name.
    pub fn put(&mut self, alloc: Global, x: &Var) -> Result<(), NoMemory>
        ensures { OnOk result ((y : Variable) → has self.new y ≡ (has self.old y || same_var x.now y)) }
    {
        self.set.insert(Key {
            var: x.copy(alloc)?,
        })?;
        Ok(())
    }

    /// Whether the variable is in the set. Takes one look-up and a copy of the variable, linear in the name.
    pub fn has(&self, alloc: Global, x: &Var) -> Result<bool, NoMemory>
        ensures { IfOk result (λ there. there ≡ has self.now x.now) }
    {
        let key = Key {
            var: x.copy(alloc)?,
        };
        Ok(self.set.contains(&key))
    }

    /// Returns the number of the variable, for which `at` returns the variable. Takes one look-up and a copy of the variable,
    /// linear in the name.
    pub fn number(&self, alloc: Global, x: &Var) -> Result<Option<usize>, NoMemory>
        ensures { IfOk result (λ found. found ≡ number_of self.now x.now) }
    {
        let key = Key {
            var: x.copy(alloc)?,
        };
        Ok(self.set.get_index_of(&key))
    }

    /// Returns the length of the list. Takes no memory.
    pub fn len(&self) -> usize
        ensures { result ≡ length self.now }
    {
        self.set.len()
    }

    /// Returns the variable with this number. Takes no memory.
    pub fn at(&self, i: usize) -> &Var
        requires { i < length self.now }
        ensures { slice_get self.now i ≡ Some result.now }
    {
        &self.set.as_slice()[i].var
    }
}
