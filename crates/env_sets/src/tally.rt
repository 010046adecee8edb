// The variable that most entries bound.
ghost use Rattle.std.specs.Prelude.{◌≡◌, ◌<◌, true, length, IfOk, IfSome};
ghost use Rattle.smpl_terms.specs.Vars.{has_pair};
ghost use Rattle.env_sets.specs.Splits.{occurs};

use crate::entries::Entry;
use c_terms::NoMemory;
use smpl_terms::{Var, same_var};
use std::alloc::Global;

/// Returns the variable that most entries bound; if there are several, the one that comes first. For n bounds over k variables
/// it takes n times k steps.
pub fn split_var(alloc: Global, a: &[Entry], first: &Var) -> Result<Var, NoMemory>
    requires first { occurs first.now a.now ≡ true }
    ensures occurs { IfOk result (λ x. occurs x a.now ≡ true) }
{
    let counts = counts_of(alloc, a)?;
    if !counts.is_empty() {
        let best = &counts[most(&counts)].0;
        if some_bound(a, best) {
            return best.copy(alloc);
        }
    }
    first.copy(alloc)
}

/// Returns, for each variable, the number of entries that bound it.
fn counts_of(alloc: Global, a: &[Entry]) -> Result<Vec<(Var, usize)>, NoMemory> {
    let mut counts = Vec::new(alloc);
    for e in a {
        for p in e.pairs() {
            count_one(alloc, &mut counts, &p.0)?;
        }
    }
    Ok(counts)
}

fn count_one(alloc: Global, counts: &mut Vec<(Var, usize)>, x: &Var) -> Result<(), NoMemory> {
    match position(counts, x) {
        Some(i) => {
            counts[i].1 = counts[i].1.saturating_add(1);
            Ok(())
        }
        None => {
            counts.push((x.copy(alloc)?, 1))?;
            Ok(())
        }
    }
}

/// Returns the index at which the variable is counted.
fn position(counts: &[(Var, usize)], x: &Var) -> Option<usize>
    ensures { IfSome result (λ k. k < length counts.now) }
{
    for i in 0..counts.len() {
        if same_var(&counts[i].0, x) {
            return Some(i);
        }
    }
    None
}

/// Returns the index of the highest count.
fn most(counts: &[(Var, usize)]) -> usize
    requires some { 0 < length counts.now }
    ensures { result < length counts.now }
{
    let mut best = 0;
    for i in 1..counts.len() {
        if counts[i].1 > counts[best].1 {
            best = i;
        }
    }
    best
}

/// Whether some entry bounds x.
fn some_bound(a: &[Entry], x: &Var) -> bool
    ensures { result ≡ occurs x.now a.now }
{
    a.iter().any(|e| is_bound(e, x))
}

fn is_bound(e: &Entry, x: &Var) -> bool
    ensures { result ≡ has_pair e.now x.now }
{
    e.pairs().iter().any(|p| same_var(&p.0, x))
}
