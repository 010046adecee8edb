// Witnesses: why a rule matches where it does.
ghost use Rattle.std.specs.Prelude.{◌≡◌, IfOk};

use c_terms::{NoMemory, TreePath};
use smpl_terms::{Env, Value, Var};
use sqlite_items::Items;
use std::alloc::Global;

/// A tree of what a formula found.
#[derive(Drop)]
pub enum Witness {
    /// At the node of this number, a variable has a value, with what was found under it.
    Bind(u32, Var, Value, Items<Witness>),
    /// At the node of the first number, the atom of the second number is at this place in the item.
    Touch(u32, u32, TreePath),
}

/// Where a rule matched: the rule, the item and the node by their numbers, the environment, and what was found.
#[derive(Drop)]
pub struct RuleWitness {
    pub rule: u32,
    pub item: u32,
    pub node: u32,
    pub env: Env,
    pub forest: Items<Witness>,
}

impl Witness {
    /// Returns an equal tree, ids included. Linear. Recurses once per level.
    pub fn copy(&self, alloc: Global) -> Result<Witness, NoMemory>
        ensures same { IfOk result (λ w. w ≡ self.now) }
    {
        match self {
            Witness::Bind(node, x, value, under) => {
                let mut copies = Vec::with_capacity(alloc, under.len())?;
                for w in under.as_slice() {
                    copies.push_reserved(w.copy(alloc)?);
                }
                let under = Items::from_vec(copies);
                Ok(Witness::Bind(*node, x.copy(alloc)?, value.copy(alloc)?, under))
            }
            Witness::Touch(node, atom, path) => Ok(Witness::Touch(*node, *atom, path.copy(alloc)?)),
        }
    }
}
