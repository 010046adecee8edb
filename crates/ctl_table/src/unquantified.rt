// Variables that are quantified around atoms beside dots, and around `when` code.
ghost use Rattle.std.specs.Prelude.{◌≡◌, not, IfOk};
ghost use Rattle.std.specs.List.{filter};
ghost use Rattle.smpl_patch.specs.Bodies.{body};
ghost use Rattle.pattern_vars.specs.VarPlaces.Places.{reading_at};
ghost use Rattle.ctl_table.specs.Table as table;
ghost use Rattle.ctl_table.specs.Settings.{setting_at};

use crate::setting::Setting;
use c_terms::NoMemory;
use pattern_vars::{Ordered, Scope, copied_vars, standing_in_atom, standing_in_body};
use smpl_patch::{Elem, Pattern};
use smpl_terms::Var;
use sqlite_items::Items;
use std::alloc::Global;

/// Returns these variables such that those of a part are found without looking at the others.
pub fn in_order(alloc: Global, vars: &[Var]) -> Result<Ordered, NoMemory>
    ensures { IfOk result (λ ordered. ordered ≡ vars.now) }
{
    Ordered::of(alloc, copied_vars(alloc, vars)?)
}

/// Returns the local variables that occur in an atom. Each of the atom's variables is looked up a few times; if no
/// variable is local, nothing is read.
pub fn standing(alloc: Global, m: &Setting, p: &Pattern) -> Result<Items<Var>, NoMemory>
    ensures { IfOk result (λ found. found ≡ filter (λ x. (reading_at m.now.reader).stands p.now x) m.now.locals.now) }
{
    if m.locals.len() == 0 {
        return Ok(Items::new(alloc));
    }
    let set = standing_in_atom(alloc, &m.reader, p)?;
    m.locals.among(alloc, &set)
}

/// Returns those of the variables that the scope lacks, in their order.
pub fn unquantified(alloc: Global, scope: &Scope, vars: &[Var]) -> Result<Items<Var>, NoMemory>
    ensures { IfOk result (λ found. found ≡ filter (λ x. not (table.in_scope scope.now x)) vars.now) }
{
    let mut found = Items::new(alloc);
    for x in vars {
        let around = scope.has(alloc, x)?;
        if !around {
            found.push(x.copy(alloc)?)?;
        }
    }
    Ok(found)
}

/// Returns the variables that occur only in `when` code, and in this piece. Each of the piece's variables is looked up
/// a few times; if no variable occurs only in `when` code, nothing is read.
pub fn lone(alloc: Global, m: &Setting, piece: &[Elem]) -> Result<Items<Var>, NoMemory>
    ensures { IfOk result (λ found. found ≡ table.lone (setting_at m.now) (body piece.now)) }
{
    if m.alone.len() == 0 {
        return Ok(Items::new(alloc));
    }
    let set = standing_in_body(alloc, &m.reader, true, piece)?;
    m.alone.among(alloc, &set)
}
