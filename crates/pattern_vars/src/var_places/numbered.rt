// Variables with their places in a list.
ghost use Rattle.std.specs.Prelude.{◌≡◌, ◌<◌, ◌^◌, cond, length, Some, IfOk, OnOk};
ghost use Rattle.std.specs.List.{position_from};
ghost use Rattle.smpl_terms.specs.declared.var.Var.{Var as Variable};
ghost use Rattle.smpl_terms.specs.Vars.{same_var};
ghost use Rattle.pattern_vars.specs.Keys.{value_of};
ghost use Rattle.pattern_vars.specs.VarPlaces.Scopes.{AreFirsts};

use crate::Key;
use c_terms::NoMemory;
use indexmap::IndexMap;
use smpl_terms::Var;
use std::alloc::Global;
use std::marker::Model;

/// Variables in an order, with the first place of each. Contracts see the list.
#[derive(Drop)]
pub struct Numbered {
    /// The variables, in their order.
    vars: Vec<Var>,
    /// The first place of each.
    firsts: IndexMap<Key, usize>,
}

impl Model for Numbered {
    ghost use Rattle.std.specs.Prelude.{List};
    ghost use Rattle.smpl_terms.specs.declared.var.Var.{Var as Variable};
    ghost use Rattle.pattern_vars.specs.VarPlaces.Scopes.{AreFirsts};

    ghost Value = { List Variable };

    ghost view = { λ n. n.vars.items };

    ghost invariant = { λ n. AreFirsts n.firsts.entries 0 n.vars.items };
}

/// Gives this place to the variable.
fn put_place(
    alloc: Global,
    x: &Var,
    place: usize,
    firsts: &mut IndexMap<Key, usize>,
) -> Result<(), NoMemory>
    ensures { OnOk result ((y : Variable) → value_of firsts.new.entries y
        ≡ cond (same_var x.now y) (Some place) (value_of firsts.old.entries y)) }
{
    let key = Key {
        var: x.copy(alloc)?,
    };
    firsts.insert(key, place)?;
    Ok(())
}

/// Returns the first place of each variable. Puts places in from the last one backward, so that each replaces a later one of
/// the same variable.
fn firsts_of(alloc: Global, vars: &[Var]) -> Result<IndexMap<Key, usize>, NoMemory>
    ensures { IfOk result (λ firsts. AreFirsts firsts.entries 0 vars.now) }
{
    let mut firsts = IndexMap::new(alloc);
    let mut i = vars.len();
    while i > 0 {
        i -= 1;
        put_place(alloc, &vars[i], i, &mut firsts)?;
    }
    Ok(firsts)
}

impl Numbered {
    /// Returns these variables with their first places. Linear in their names if no hashes collide.
    pub fn of(alloc: Global, vars: Vec<Var>) -> Result<Numbered, NoMemory>
        ensures value { IfOk result (λ numbered. numbered ≡ vars.items) }
        ensures fits { IfOk result (λ numbered. length numbered < 2 ^ 64) }
    {
        let firsts = firsts_of(alloc, vars.as_slice())?;
        Ok(Numbered { vars, firsts })
    }

    /// Returns the variables, in their order. Takes no memory.
    pub fn as_slice(&self) -> &[Var]
        ensures { result.now ≡ self.now }
    {
        self.vars.as_slice()
    }

    /// Returns the first place of the variable. Takes one look-up, linear in the name, and no memory.
    pub fn place_of(&self, x: &Key) -> Option<usize>
        ensures { result ≡ position_from (λ v. same_var v x.now.var) 0 self.now }
    {
        self.firsts.get(x).copied()
    }
}
