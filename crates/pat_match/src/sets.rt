// Sets of environments that result from a form's parts: unions of many, and meets in which one side is everything or nothing.
ghost use Rattle.std.specs.Prelude.{◌≡◌, ◌&&◌, ◌||◌, Bool, true, false, IfOk};
ghost use Rattle.smpl_terms.specs.declared.var.Var.{Var};
ghost use Rattle.smpl_terms.specs.Environments.{Environment};
ghost use Rattle.env_sets.specs.Sets.{set_denotes, set_vars};

use c_terms::NoMemory;
use env_sets::{Entry, EnvSet, join, meet};
use std::alloc::Global;

/// Whether the set evidently stands for no environment. Takes no memory.
pub fn is_none(set: &EnvSet) -> bool
    ensures { result ≡ true → (env : Environment) → set_denotes set.now env ≡ false }
{
    set.is_none()
}

/// Returns the set of every environment, or of none.
pub fn all_or_none(alloc: Global, all: bool) -> Result<EnvSet, NoMemory>
    ensures meaning { IfOk result (λ r. (env : Environment) → set_denotes r env ≡ all) }
    ensures vars { IfOk result (λ r. (t : Var → Bool) → set_vars t r ≡ true) }
{
    if all {
        EnvSet::all(alloc)
    } else {
        Ok(EnvSet::none(alloc))
    }
}

/// Returns what both sets stand for.
pub fn both(alloc: Global, a: EnvSet, b: EnvSet) -> Result<EnvSet, NoMemory>
    ensures meaning { IfOk result (λ r. (env : Environment) →
        set_denotes r env ≡ (set_denotes a env && set_denotes b env)) }
    ensures vars { IfOk result (λ r. (t : Var → Bool) → set_vars t a ≡ true → set_vars t b ≡ true →
        set_vars t r ≡ true) }
{
    if a.is_all() {
        return Ok(b);
    }
    if b.is_all() {
        return Ok(a);
    }
    meet(alloc, &a, &b)
}

/// Adds the entries of a set. Entries in blocks are shared.
pub fn put_set(entries: &mut Vec<Entry>, set: EnvSet) -> Result<(), NoMemory>
    ensures meaning { IfOk result (λ _. (env : Environment) →
        set_denotes entries.new.items env ≡ (set_denotes entries.old.items env || set_denotes set env)) }
    ensures vars { IfOk result (λ _. (t : Var → Bool) → set_vars t entries.old.items ≡ true
        → set_vars t set ≡ true →
        set_vars t entries.new.items ≡ true) }
{
    for entry in set.into_vec()? {
        entries.push(entry)?;
    }
    Ok(())
}

/// Returns the set of these entries, without those that others plainly cover.
pub fn union(alloc: Global, entries: Vec<Entry>) -> Result<EnvSet, NoMemory>
    ensures meaning { IfOk result (λ r. (env : Environment) → set_denotes r env
        ≡ set_denotes entries.items env) }
    ensures vars { IfOk result (λ r. (t : Var → Bool) → set_vars t entries.items ≡ true
        → set_vars t r ≡ true) }
{
    if entries.len() < 2 {
        return Ok(EnvSet::of(entries));
    }
    join(alloc, &EnvSet::of(entries), &EnvSet::none(alloc))
}
