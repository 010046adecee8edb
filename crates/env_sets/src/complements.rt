// The complement of a set, by splitting on the values of one variable after another.
//
//     not { x Is 1, y Is 3 } { x Is 2 }   =   { x Is 1, not { y Is 3 } } { x Is 2, not { } } { x Not [1, 2], not nothing }
//                                         =   { x Is 1, y Not [3] } { x Not [1, 2] }
//
// So k entries that fix two variables each have a complement of about k + 1 entries. De Morgan's law, applied entry by
// entry, would give 2^k.
ghost use Rattle.std.specs.Prelude.{◌≡◌, ◌&&◌, ◌||◌, ◌<◌, Bool, true, not, [], ◌∷◌, length, IfOk, IfSome};
ghost use Rattle.std.specs.List.{list_any};
ghost use Rattle.smpl_terms.specs.declared.var.Var.{Var};
ghost use Rattle.smpl_terms.specs.Values.{same};
ghost use Rattle.smpl_terms.specs.Vars.{same_var};
ghost use Rattle.smpl_terms.specs.Environments.{Environment};
ghost use Rattle.env_sets.specs.Bounds.{fits};
ghost use Rattle.env_sets.specs.Sets.{entry_denotes, entry_vars, set_denotes, set_vars};
ghost use Rattle.env_sets.specs.Laws.{IsComplement};
ghost use Rattle.env_sets.specs.Splits.{passes, occurs, are_allowed};

use crate::algebra::{LoneSplit, split_lone};
use crate::bounds::Bound;
use crate::entries::{Entry, all_excluded};
use crate::excluded::Values;
use crate::parts::{is_allowed, named, restrictions, where_other};
use crate::sets::{EnvSet, have_all, put_some, settled, settled_apart};
use crate::tally::split_var;
use c_terms::NoMemory;
use smpl_terms::{Value, Var, same_var};
use std::alloc::Global;

/// Returns the environments that `a` does not stand for.
///
/// It splits on the values of the variable that most entries bound, and takes the complement of what is left for each of them
/// and for all other values: at most one split for each choice of values that the entries name. It recurses once per variable,
/// and copies an entry that does not fix the variable for each value that the entry allows. So n entries that fix the same
/// variables take n log n steps per variable. Entries over one variable take n log n steps for n values that they name in
/// order. The result is sorted, and drops covered entries as the result of `join` does.
pub fn complement(alloc: Global, a: &EnvSet) -> Result<EnvSet, NoMemory>
    ensures meaning { IfOk result (λ r. IsComplement a.now r) }
    ensures vars { IfOk result (λ r. (t : Var → Bool) → set_vars t a.now ≡ true →
        set_vars t r ≡ true) }
{
    match a.as_list() {
        Some(entries) => complement_of(alloc, entries),
        None => {
            let list = a.list(alloc)?;
            complement_of(alloc, list.entries())
        }
    }
}

/// Returns the environments that none of the entries stands for.
fn complement_of(alloc: Global, a: &[Entry]) -> Result<EnvSet, NoMemory>
    ensures meaning { IfOk result (λ r. IsComplement a.now r) }
    ensures vars { IfOk result (λ r. (t : Var → Bool) → set_vars t a.now ≡ true →
        set_vars t r ≡ true) }
{
    let entries = outside(alloc, a)?;
    if are_in_order(a) {
        return settled_apart(alloc, entries);
    }
    settled(alloc, entries)
}

/// Whether all lists of excluded values are in order.
fn are_in_order(a: &[Entry]) -> bool {
    for e in a {
        for p in e.pairs() {
            if let Bound::Not(values) = &p.1 {
                if !values.rises() {
                    return false;
                }
            }
        }
    }
    true
}

/// Returns the entries of the complement, in the order in which they are found. If all lists of excluded values are in order,
/// no two of these entries stand for the same environment: they differ in a variable on which a set was split.
#[cycle(outside)]
fn outside(alloc: Global, a: &[Entry]) -> Result<Vec<Entry>, NoMemory>
    ensures meaning { IfOk result (λ r. (env : Environment) →
        set_denotes r.items env ≡ not (set_denotes a.now env)) }
    ensures vars { IfOk result (λ r. (t : Var → Bool) → set_vars t a.now ≡ true →
        set_vars t r.items ≡ true) }
{
    if have_all(a) {
        return Ok(Vec::new(alloc));
    }
    match a {
        [] => one_entry(alloc, Entry::all(alloc)),
        [first, ..] => match first.pairs() {
            [] => Ok(Vec::new(alloc)),
            [pair, ..] => {
                let x = split_var(alloc, a, &pair.0)?;
                outside_at(alloc, a, &x)
            }
        },
    }
}

/// Like `outside`, by the values of x, which some entry bounds.
#[cycle(outside)]
fn outside_at(alloc: Global, a: &[Entry], x: &Var) -> Result<Vec<Entry>, NoMemory>
    requires occurs { occurs x.now a.now ≡ true }
    ensures meaning { IfOk result (λ r. (env : Environment) →
        set_denotes r.items env ≡ not (set_denotes a.now env)) }
    ensures vars { IfOk result (λ r. (t : Var → Bool) → set_vars t a.now ≡ true →
        set_vars t r.items ≡ true) }
{
    if are_lone(a, x) {
        let parts = split_lone(alloc, a, x)?;
        let others = parts.others.entries();
        if others.is_empty() {
            let fixed = Values::of(alloc, parts.fixed.into_vec())?;
            return one_entry(alloc, Entry::one(alloc, x, Bound::Not(fixed))?);
        }
        if let Some(values) = only_excluded(&others[shortest(others)], x) {
            let listed = values.list(alloc)?;
            return outside_lone(alloc, listed.as_slice(), &parts, x);
        }
    }
    split(alloc, a, x)
}

/// Like `outside_at`, by the values that the entries name at x and by all others.
#[cycle(outside)]
fn split(alloc: Global, a: &[Entry], x: &Var) -> Result<Vec<Entry>, NoMemory>
    requires occurs { occurs x.now a.now ≡ true }
    ensures meaning { IfOk result (λ r. (env : Environment) →
        set_denotes r.items env ≡ not (set_denotes a.now env)) }
    ensures vars { IfOk result (λ r. (t : Var → Bool) → set_vars t a.now ≡ true →
        set_vars t r.items ≡ true) }
{
    let values = named(alloc, a, x)?;
    let all = values.as_slice();
    let parts = restrictions(alloc, a, x, all)?;
    let mut entries = Vec::new(alloc);
    for i in 0..all.len() {
        let rest = outside(alloc, parts[i].entries())?;
        put_fixed(alloc, &mut entries, rest, x, &all[i])?;
    }
    let other = where_other(alloc, a, x)?;
    let rest = outside(alloc, &other)?;
    put_other(alloc, &mut entries, rest, x, values.into_vec())?;
    Ok(entries)
}

/// Returns the values of the list that no entry allows at x, given that every entry bounds x alone.
fn outside_lone(
    alloc: Global,
    values: &[Value],
    parts: &LoneSplit,
    x: &Var,
) -> Result<Vec<Entry>, NoMemory>
    requires lone { set_vars (λ y. same_var y x.now) parts.now.others ≡ true }
    ensures meaning { IfOk result (λ r. (env : Environment) → set_denotes r.items env ≡ (list_any
        (λ v. same v (env x.now)) values.now && not (list_any (λ v. same v (env x.now)) parts.now.fixed || set_denotes parts.now.others env))) }
    ensures vars { IfOk result (λ r. (t : Var → Bool) → t x.now ≡ true →
        set_vars t r.items ≡ true) }
{
    let mut out = Vec::new(alloc);
    for v in values {
        put_outside(alloc, &mut out, v, parts, x)?;
    }
    Ok(out)
}

/// Adds an entry that fixes x to be `v`, unless the parts of a set allow `v`.
fn put_outside(
    alloc: Global,
    out: &mut Vec<Entry>,
    v: &Value,
    parts: &LoneSplit,
    x: &Var,
) -> Result<(), NoMemory>
    ensures meaning { IfOk result
        (λ _. (env : Environment) → set_denotes out.new.items env ≡ (set_denotes out.old.items env || (not (are_allowed x.now v.now parts.now.fixed parts.now.others) && same v.now (env x.now)))) }
    ensures vars { IfOk result
        (λ _. (t : Var → Bool) → set_vars t out.old.items ≡ true → t x.now ≡ true → set_vars t out.new.items ≡ true) }
{
    if parts.fixed.have(v) {
        return Ok(());
    }
    if some_allow(parts.others.entries(), x, v) {
        return Ok(());
    }
    out.push(Entry::one(alloc, x, Bound::Is(v.copy(alloc)?))?)?;
    Ok(())
}

fn one_entry(alloc: Global, e: Entry) -> Result<Vec<Entry>, NoMemory>
    ensures { IfOk result (λ r. r.items ≡ e ∷ []) }
{
    let mut entries = Vec::new(alloc);
    entries.push(e)?;
    Ok(entries)
}

/// Whether no entry bounds a variable other than x.
fn are_lone(a: &[Entry], x: &Var) -> bool
    ensures { result ≡ set_vars (λ y. same_var y x.now) a.now }
{
    a.iter().all(|e| is_lone(e, x))
}

fn is_lone(e: &Entry, x: &Var) -> bool
    ensures { result ≡ entry_vars (λ y. same_var y x.now) e.now }
{
    e.pairs().iter().all(|p| same_var(&p.0, x))
}

/// Returns the excluded values of x if the entry bounds x and nothing else.
pub fn only_excluded<'e>(e: &'e Entry, x: &Var) -> Option<&'e Values>
    ensures { IfSome result (λ vs. (env : Environment) →
        entry_denotes e.now env ≡ not (list_any (λ v. same v (env x.now)) vs.now)) }
{
    match e.pairs() {
        [pair] => match &pair.1 {
            Bound::Is(_) => None,
            Bound::Not(vs) => { if same_var(&pair.0, x) { Some(vs) } else { None } }
        },
        _ => None,
    }
}

/// Returns the index of an entry that excludes the fewest values.
fn shortest(a: &[Entry]) -> usize
    requires some { 0 < length a.now }
    ensures { result < length a.now }
{
    let mut best = 0;
    for i in 1..a.len() {
        if all_excluded(&a[i]) < all_excluded(&a[best]) {
            best = i;
        }
    }
    best
}

/// Whether some entry allows x to be v.
fn some_allow(a: &[Entry], x: &Var, v: &Value) -> bool
    ensures { result ≡ list_any (λ e. passes x.now (fits v.now) e) a.now }
{
    a.iter().any(|e| is_allowed(e, x, v))
}

/// Adds the entries, narrowed to x being `v`.
fn put_fixed(
    alloc: Global,
    out: &mut Vec<Entry>,
    rest: Vec<Entry>,
    x: &Var,
    v: &Value,
) -> Result<(), NoMemory>
    ensures meaning { IfOk result
        (λ _. (env : Environment) → set_denotes out.new.items env ≡ (set_denotes out.old.items env || (set_denotes rest.items env && same v.now (env x.now)))) }
    ensures vars { IfOk result
        (λ _. (t : Var → Bool) → set_vars t out.old.items ≡ true → set_vars t rest.items ≡ true → t x.now ≡ true → set_vars t out.new.items ≡ true) }
{
    let bound = Bound::Is(v.copy(alloc)?);
    put_narrowed(alloc, out, rest, x, &bound)
}

/// Adds the entries, narrowed to x being none of the values.
fn put_other(
    alloc: Global,
    out: &mut Vec<Entry>,
    rest: Vec<Entry>,
    x: &Var,
    values: Vec<Value>,
) -> Result<(), NoMemory>
    ensures meaning { IfOk result
        (λ _. (env : Environment) → set_denotes out.new.items env ≡ (set_denotes out.old.items env || (set_denotes rest.items env && not (list_any (λ v. same v (env x.now)) values.items)))) }
    ensures vars { IfOk result
        (λ _. (t : Var → Bool) → set_vars t out.old.items ≡ true → set_vars t rest.items ≡ true → t x.now ≡ true → set_vars t out.new.items ≡ true) }
{
    let bound = Bound::Not(Values::of(alloc, values)?);
    put_narrowed(alloc, out, rest, x, &bound)
}

/// Adds the entries, each with one more bound.
fn put_narrowed(
    alloc: Global,
    out: &mut Vec<Entry>,
    rest: Vec<Entry>,
    x: &Var,
    bound: &Bound,
) -> Result<(), NoMemory>
    ensures meaning { IfOk result
        (λ _. (env : Environment) → set_denotes out.new.items env ≡ (set_denotes out.old.items env || (set_denotes rest.items env && fits (env x.now) bound.now))) }
    ensures vars { IfOk result
        (λ _. (t : Var → Bool) → set_vars t out.old.items ≡ true → set_vars t rest.items ≡ true → t x.now ≡ true → set_vars t out.new.items ≡ true) }
{
    for e in rest {
        put_some(out, e.narrowed(alloc, x, bound)?)?;
    }
    Ok(())
}
