// Rows of sets, and the next nodes.
ghost use Rattle.std.specs.Prelude.{◌≡◌, ℕ, ◌<◌, Bool, true, false, List, [], length, slice_index_or, IfOk, Option};
ghost use Rattle.std.specs.Prelude.{Contains};
ghost use Rattle.smpl_terms.specs.declared.var.Var.{Var};
ghost use Rattle.smpl_terms.specs.Environments.{Environment};
ghost use Rattle.env_sets.specs.Sets.{set_denotes, set_vars};
ghost use Rattle.ctl_fixpoint.specs.CtlHolds.Rounds.{passes, passes_there};
ghost use Rattle.ctl_fixpoint.specs.Steps.{set_of, row_of, has, row_vars};

use c_terms::NoMemory;
use env_sets::{EnvSet, StateRow, meet};
use pat_match::parts::{put_set, union};
use std::alloc::Global;

/// Returns the row of a part.
pub fn row_at(rows: &[StateRow], i: usize) -> &[EnvSet]
    requires { i < length rows.now }
    ensures { result.now ≡ row_of rows.now i }
{
    rows[i].as_slice()
}

/// Returns the set at a node.
pub fn set_in(row: &[EnvSet], s: u32) -> &EnvSet
    requires { s < length row.now }
    ensures { result.now ≡ set_of row.now s }
{
    &row[s as usize]
}

/// Returns the set of a part at a node.
pub fn set_at(rows: &[StateRow], i: usize, s: u32) -> &EnvSet
    requires part { i < length rows.now }
    requires node { s < length (row_of rows.now i) }
    ensures { result.now ≡ set_of (row_of rows.now i) s }
{
    set_in(row_at(rows, i), s)
}

/// Returns the environments that are in the sets of all these nodes.
pub fn every_next(alloc: Global, next: &[u32], x: &[EnvSet]) -> Result<EnvSet, NoMemory>
    requires { (k : ℕ) → Contains next.now k → k < length x.now }
    ensures gives { IfOk result (λ r. (env : Environment) → set_denotes r env
        ≡ passes true (λ k. has x.now k env) next.now) }
    ensures vars { IfOk result (λ r. (test : Var → Bool) → row_vars test x.now ≡ true
        → set_vars test r ≡ true) }
{
    let mut out = EnvSet::all(alloc)?;
    for k in next {
        out = meet(alloc, &out, set_in(x, *k))?;
    }
    Ok(out)
}

/// Returns the environments that are in the set of at least one of these nodes. If there is only one node, its set is
/// shared.
pub fn some_next(alloc: Global, next: &[u32], x: &[EnvSet]) -> Result<EnvSet, NoMemory>
    requires { (k : ℕ) → Contains next.now k → k < length x.now }
    ensures gives { IfOk result (λ r. (env : Environment) → set_denotes r env
        ≡ passes false (λ k. has x.now k env) next.now) }
    ensures vars { IfOk result (λ r. (test : Var → Bool) → row_vars test x.now ≡ true
        → set_vars test r ≡ true) }
{
    match next {
        [k] => set_in(x, *k).copy(alloc),
        _ => some_of(alloc, next, x),
    }
}

/// Returns the same for any number of nodes. Sorts the entries of all their sets together.
fn some_of(alloc: Global, next: &[u32], x: &[EnvSet]) -> Result<EnvSet, NoMemory>
    requires { (k : ℕ) → Contains next.now k → k < length x.now }
    ensures gives { IfOk result (λ r. (env : Environment) → set_denotes r env
        ≡ passes false (λ k. has x.now k env) next.now) }
    ensures vars { IfOk result (λ r. (test : Var → Bool) → row_vars test x.now ≡ true
        → set_vars test r ≡ true) }
{
    let mut entries = Vec::new(alloc);
    for k in next {
        put_set(&mut entries, set_in(x, *k).copy(alloc)?)?;
    }
    union(alloc, entries)
}

/// Returns the set of the node, or the empty set if there is no node.
pub fn set_there(alloc: Global, node: Option<u32>, x: &[EnvSet]) -> Result<EnvSet, NoMemory>
    requires { (k : ℕ) → node ≡ Some k → k < length x.now }
    ensures gives { IfOk result (λ r. (env : Environment)
        → set_denotes r env ≡ passes_there (λ k. has x.now k env) node) }
    ensures vars { IfOk result (λ r. (test : Var → Bool) → row_vars test x.now ≡ true
        → set_vars test r ≡ true) }
{
    match node {
        Some(k) => set_in(x, k).copy(alloc),
        None => Ok(EnvSet::none(alloc)),
    }
}
