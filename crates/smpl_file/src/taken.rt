// The variables that rules take from other rules, and a set of them.
ghost use Rattle.std.specs.Prelude.{◌≡◌, IfOk};
ghost use Rattle.smpl_terms.specs.declared.var.Var.{Var as Variable};
ghost use Rattle.pattern_vars.specs.Reads.{has};
ghost use Rattle.smpl_file.specs.Exports.{has_var};

use c_terms::NoMemory;
use pattern_vars::{VarSet, put_vars};
use smpl_terms::Var;
use sqlite_items::Items;
use std::alloc::Global;
use std::marker::Model;

/// Returns the set of the variables.
fn set_of(alloc: Global, vars: &[Var]) -> Result<VarSet, NoMemory>
    ensures { IfOk result (λ set. (y : Variable) → has set y ≡ has_var vars.now y) }
{
    let mut set = VarSet::new(alloc);
    put_vars(alloc, vars, &mut set)?;
    Ok(set)
}

/// Variables, and a set for looking them up. Contracts see the list.
#[derive(Drop)]
pub struct Taken {
    vars: Items<Var>,
    set: VarSet,
}

impl Model for Taken {
    ghost use Rattle.std.specs.Prelude.{List, ◌≡◌};
    ghost use Rattle.smpl_terms.specs.declared.var.Var.{Var as Variable};
    ghost use Rattle.pattern_vars.specs.Reads.{has};
    ghost use Rattle.smpl_file.specs.Exports.{has_var};

    ghost Value = { List Variable };

    ghost view = { λ t. t.vars };

    ghost invariant = { λ t. (y : Variable) → has t.set y ≡ has_var t.vars y };
}

impl Taken {
    /// Makes a `Taken` of the variables. Linear in their names if no hashes collide.
    pub fn of(alloc: Global, vars: Items<Var>) -> Result<Taken, NoMemory>
        ensures { IfOk result (λ taken. taken ≡ vars) }
    {
        let set = set_of(alloc, vars.as_slice())?;
        Ok(Taken { vars, set })
    }

    /// Whether the variable is there. Takes one look-up and a copy of the variable.
    pub fn has(&self, alloc: Global, x: &Var) -> Result<bool, NoMemory>
        ensures { IfOk result (λ there. there ≡ has_var self.now x.now) }
    {
        let there = self.set.has(alloc, x)?;
        Ok(there)
    }
}
