// The variables of rules that other rules inherit.
ghost use Rattle.std.specs.Prelude.{◌≡◌, ◌++◌, IfOk};
ghost use Rattle.smpl_file.specs.Exports as spec;

use crate::taken::Taken;
use c_terms::NoMemory;
use smpl_meta::Earlier;
use smpl_patch::VarDecl;
use smpl_terms::Var;
use sqlite_items::Items;
use std::alloc::Global;

/// Appends the positions after a declaration's `!=` to the known variables.
fn with_places(alloc: Global, known: Items<Var>, d: &VarDecl) -> Result<Items<Var>, NoMemory>
    ensures { IfOk result (λ vs. vs ≡ known ++ d.now.not_places) }
{
    let mut known = known;
    for y in d.not_places.as_slice() {
        known.push(y.copy(alloc)?)?;
    }
    Ok(known)
}

/// Appends the variables that a declaration takes from other rules.
fn with_taken(alloc: Global, known: Items<Var>, d: &VarDecl) -> Result<Items<Var>, NoMemory>
    ensures { IfOk result (λ vs. vs ≡ known ++ spec.taken_by d.now) }
{
    let mut known = known;
    if d.inherited {
        known.push(d.var.copy(alloc)?)?;
    }
    with_places(alloc, known, d)
}

fn with_all(alloc: Global, known: Items<Var>, vars: &[VarDecl]) -> Result<Items<Var>, NoMemory>
    ensures { IfOk result (λ vs. vs ≡ known ++ spec.taken_by_all vars.now) }
{
    let mut known = known;
    for d in vars {
        known = with_taken(alloc, known, d)?;
    }
    Ok(known)
}

/// Appends the variables that the rule with a given number takes from other rules.
fn with_rule(
    alloc: Global,
    known: Items<Var>,
    heads: &Earlier,
    rule: usize,
) -> Result<Items<Var>, NoMemory>
    ensures { IfOk result (λ vs. vs ≡ known ++ spec.taken_at heads.now.heads rule) }
{
    match heads.head(rule) {
        None => Ok(known),
        Some(head) => with_all(alloc, known, head.vars.as_slice()),
    }
}

fn taken_vars(alloc: Global, heads: &Earlier) -> Result<Items<Var>, NoMemory>
    ensures { IfOk result (λ vs. vs ≡ spec.taken heads.now.heads) }
{
    let mut known = Items::new(alloc);
    for i in 0..heads.len() {
        known = with_rule(alloc, known, heads, i)?;
    }
    Ok(known)
}

/// Returns all variables that rules take from other rules. Linear in the declarations if no hashes collide.
pub fn taken(alloc: Global, heads: &Earlier) -> Result<Taken, NoMemory>
    ensures { IfOk result (λ vs. vs ≡ spec.taken heads.now.heads) }
{
    Taken::of(alloc, taken_vars(alloc, heads)?)
}

fn is_exported(alloc: Global, known: &Taken, d: &VarDecl) -> Result<bool, NoMemory>
    ensures { IfOk result (λ b. b ≡ spec.is_exported known.now d.now) }
{
    if d.inherited {
        return Ok(false);
    }
    known.has(alloc, &d.var)
}

/// Returns the rule's own variables that are among these, in declared order. Takes one look-up for each own variable.
pub fn exports_of(alloc: Global, known: &Taken, vars: &[VarDecl]) -> Result<Items<Var>, NoMemory>
    ensures { IfOk result (λ xs. xs ≡ spec.exports_of known.now vars.now) }
{
    let mut exports = Items::new(alloc);
    for d in vars {
        if is_exported(alloc, known, d)? {
            exports.push(d.var.copy(alloc)?)?;
        }
    }
    Ok(exports)
}
