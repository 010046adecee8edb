// Sorted maps from variables.
ghost use Rattle.std.specs.Prelude.{◌≡◌, [], false, IfOk};
ghost use Rattle.smpl_terms.specs.declared.var.Var.{Var};
ghost use Rattle.smpl_terms.specs.Vars.{Rising, place_of, has_pair, with_pair};

use crate::shared::{Copied, SharedList, copied_items};
use crate::{Var, var_order};
use c_terms::NoMemory;
use std::alloc::Global;
use std::marker::Model;

/// A map from some variables to items. Copies share the list. Contracts see the list of pairs,
/// sorted by variable, each variable once.
#[derive(Drop)]
pub struct VarMap<B> {
    pairs: SharedList<(Var, B)>,
}

impl<B> Model for VarMap<B> {
    ghost use Rattle.std.specs.Coded.{codes};
    ghost use Rattle.std.specs.Prelude.{List};
    ghost use Rattle.smpl_terms.specs.declared.var.Var.{Var};
    ghost use Rattle.smpl_terms.specs.Vars.{Rising};

    ghost Value = { List (Var × B) };

    ghost coded = { Prim.hlevel (codes, B.code) };

    ghost view = { λ m. m.pairs };

    ghost invariant = { λ m. Rising m.pairs };
}

impl<B: Drop> VarMap<B> {
    /// Returns the map without pairs. Allocates nothing.
    pub fn empty() -> VarMap<B>
        ensures pairs { result ≡ [] }
    {
        VarMap {
            pairs: SharedList::empty(),
        }
    }

    /// Returns the map of these pairs. Allocates a reference count, and copies nothing.
    pub fn of(alloc: Global, pairs: Vec<(Var, B)>) -> Result<VarMap<B>, NoMemory>
        requires rising { Rising pairs.items }
        ensures pairs { IfOk result (λ m. m ≡ pairs.items) }
    {
        Ok(VarMap {
            pairs: SharedList::of(alloc, pairs)?,
        })
    }

    /// Returns the pairs, sorted by variable, each variable once. Allocates nothing.
    pub fn pairs(&self) -> &[(Var, B)]
        ensures pairs { result.now ≡ self.now }
        ensures rising { Rising self.now }
    {
        self.pairs.as_slice()
    }

    /// Returns one more owner of the map. Allocates nothing.
    pub fn share(&self) -> Result<VarMap<B>, NoMemory>
        ensures same { IfOk result (λ m. m ≡ self.now) }
    {
        Ok(VarMap {
            pairs: self.pairs.share()?,
        })
    }
}

impl<B: Drop + Copied> VarMap<B> {
    /// Returns the map with one more pair, in its place. Linear in the pairs.
    pub fn with(&self, alloc: Global, v: &Var, item: &B) -> Result<VarMap<B>, NoMemory>
        requires absent { has_pair self.now v.now ≡ false }
        ensures pairs { IfOk result (λ m. m ≡ with_pair self.now v.now item.now) }
    {
        let mut pairs = copied_items(alloc, self.pairs())?;
        let at = place(&pairs, v);
        pairs.insert(at, (v.copy(alloc)?, item.copied(alloc)?))?;
        VarMap::of(alloc, pairs)
    }

    /// Returns the pairs as a `Vec`: moved if this is the only owner, otherwise each copied.
    pub fn into_vec(self, alloc: Global) -> Result<Vec<(Var, B)>, NoMemory>
        ensures pairs { IfOk result (λ r. r.items ≡ self) }
        ensures rising { Rising self }
    {
        self.pairs.into_vec(alloc)
    }
}

impl<B: Drop> Copied for VarMap<B> {
    fn copied(&self, _alloc: Global) -> Result<VarMap<B>, NoMemory> {
        self.share()
    }
}

/// Returns how many pairs at the front have a variable before this one. Linear, and allocates nothing.
pub fn place<B>(pairs: &[(Var, B)], v: &Var) -> usize
    ensures { result ≡ place_of v.now pairs.now }
{
    let mut i = 0;
    while i < pairs.len() && var_order(&pairs[i].0, v).is_lt() {
        i += 1;
    }
    i
}
