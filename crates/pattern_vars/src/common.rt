// Unions and intersections of sets.
ghost use Rattle.std.specs.Prelude.{◌≡◌, ◌||◌, ◌&&◌, IfOk, OnOk};
ghost use Rattle.smpl_terms.specs.declared.var.Var.{Var as Variable};
ghost use Rattle.smpl_terms.specs.Vars.{same_var};
ghost use Rattle.pattern_vars.specs.Reads.{has};

use crate::VarSet;
use c_terms::NoMemory;
use smpl_terms::Var;
use std::alloc::Global;

/// Puts in the variables of another set. Takes one look-up for each, linear in its name.
pub fn put_set(alloc: Global, other: &VarSet, set: &mut VarSet) -> Result<(), NoMemory>
    ensures { OnOk result ((y : Variable) → has set.new y ≡ (has set.old y || has other.now y)) }
{
    for i in 0..other.len() {
        set.put(alloc, other.at(i))?;
    }
    Ok(())
}

/// Puts the variable in, if the other set has it.
fn put_if_in(alloc: Global, x: &Var, other: &VarSet, set: &mut VarSet) -> Result<(), NoMemory>
    ensures { OnOk result ((y : Variable) → has set.new y ≡ (has set.old y || (same_var x.now y && has other.now y))) }
{
    if other.has(alloc, x)? {
        set.put(alloc, x)?;
    }
    Ok(())
}

/// Puts in the variables that two other sets both have. Takes one look-up for each variable of the first set, and one more
/// for each that both have, linear in their names.
pub fn put_met(
    alloc: Global,
    one: &VarSet,
    other: &VarSet,
    set: &mut VarSet,
) -> Result<(), NoMemory>
    ensures { OnOk result ((y : Variable) → has set.new y ≡ (has set.old y || (has one.now y && has other.now y))) }
{
    for i in 0..one.len() {
        put_if_in(alloc, one.at(i), other, set)?;
    }
    Ok(())
}

/// Returns the variables that both sets have. Takes one look-up for each variable of the first set, and one more for each
/// that both have.
pub fn met(alloc: Global, one: &VarSet, other: &VarSet) -> Result<VarSet, NoMemory>
    ensures { IfOk result (λ both. (y : Variable) → has both y ≡ (has one.now y && has other.now y)) }
{
    let mut both = VarSet::new(alloc);
    put_met(alloc, one, other, &mut both)?;
    Ok(both)
}
