// Entries that bound one variable alone: together they amount to one list of excluded values, or to values.
//
//     { x Not [1, 2] } { x Not [2, 3] } { x Is 2 }   =   everything
//     { x Not [1, 2] } { x Not [1, 3] } { x Is 2 }   =   { x Not [1] }
ghost use Rattle.std.specs.Prelude.{◌≡◌, ◌||◌, ◌<◌, Bool, true, not, length, IfOk, IfSome};
ghost use Rattle.std.specs.List.{list_any};
ghost use Rattle.smpl_terms.specs.declared.var.Var.{Var};
ghost use Rattle.smpl_terms.specs.declared.value.Value.{Value as Datum};
ghost use Rattle.smpl_terms.specs.Values.{same};
ghost use Rattle.smpl_terms.specs.Environments.{Environment};
ghost use Rattle.env_sets.specs.Bounds.{fits};
ghost use Rattle.env_sets.specs.Sets.{entry_denotes, entry_vars, option_denotes, option_vars, set_denotes, set_vars};

use crate::bounds::Bound;
use crate::entries::Entry;
use crate::excluded::Values;
use crate::lists::{apart, common};
use crate::sets::put_some;
use crate::values::{ValueList, put_new};
use c_terms::NoMemory;
use smpl_terms::{Value, Var, same_var};
use std::alloc::Global;

/// For each variable that some entries bound alone, returns one entry that stands for all of these, if they exclude values and
/// it excludes fewer. The given entries are in order.
///
/// For n values named there it takes n log n steps, if the lists of excluded values are in order.
pub fn wider_entries(alloc: Global, entries: &[Entry]) -> Result<Vec<Entry>, NoMemory>
    ensures within { IfOk result (λ r. (env : Environment) → set_denotes r.items env ≡ true →
        set_denotes entries.now env ≡ true) }
    ensures vars { IfOk result (λ r. (t : Var → Bool) → set_vars t entries.now ≡ true →
        set_vars t r.items ≡ true) }
{
    let mut wider = Vec::new(alloc);
    for i in 0..entries.len() {
        if i == 0 || !bound_alike(&entries[i - 1], &entries[i]) {
            put_some(&mut wider, wider_entry(alloc, entries, i)?)?;
        }
    }
    Ok(wider)
}

/// Whether both entries bound a single variable, and the same one.
fn bound_alike(a: &Entry, b: &Entry) -> bool {
    match (a.pairs(), b.pairs()) {
        ([p], [q]) => same_var(&p.0, &q.0),
        _ => false,
    }
}

/// Whether the entry after this one bounds the same single variable.
fn has_next(entries: &[Entry], start: usize) -> bool
    requires { start < length entries.now }
{
    entries.len() - start > 1 && bound_alike(&entries[start], &entries[start + 1])
}

/// Like `wider_entries`, for the entries from an index on that bound the same single variable, if there are several.
fn wider_entry(alloc: Global, entries: &[Entry], start: usize) -> Result<Option<Entry>, NoMemory>
    requires { start < length entries.now }
    ensures within { IfOk result (λ o. (env : Environment) → option_denotes o env ≡ true →
        set_denotes entries.now env ≡ true) }
    ensures vars { IfOk result (λ o. (t : Var → Bool) → set_vars t entries.now ≡ true →
        option_vars t o ≡ true) }
{
    let first = &entries[start];
    match first.pairs() {
        [] => Ok(None),
        [pair, ..] => match lone_bound(first, &pair.0) {
            Some(Bound::Not(values)) if has_next(entries, start) => {
                less_excluded(alloc, entries, start, &pair.0, values)
            }
            _ => Ok(None),
        },
    }
}

/// Returns the bound of x if the entry bounds x and nothing else.
fn lone_bound<'e>(e: &'e Entry, x: &Var) -> Option<&'e Bound>
    ensures meaning { IfSome result (λ b. (env : Environment) →
        entry_denotes e.now env ≡ fits (env x.now) b.now) }
    ensures vars { IfSome result (λ b. (t : Var → Bool) → entry_vars t e.now ≡ true →
        t x.now ≡ true) }
{
    match e.pairs() {
        [pair] => {
            if same_var(&pair.0, x) {
                Some(&pair.1)
            } else {
                None
            }
        }
        _ => None,
    }
}

/// Returns one entry for the entries from an index on that bound x alone, the first of which excludes these values.
fn less_excluded(
    alloc: Global,
    entries: &[Entry],
    start: usize,
    x: &Var,
    values: &Values,
) -> Result<Option<Entry>, NoMemory>
    requires within { (env : Environment) →
        not (list_any (λ v. same v (env x.now)) values.now) ≡ true →
        set_denotes entries.now env ≡ true }
    requires vars { (t : Var → Bool) → set_vars t entries.now ≡ true → t x.now ≡ true }
    ensures within { IfOk result (λ o. (env : Environment) → option_denotes o env ≡ true →
        set_denotes entries.now env ≡ true) }
    ensures vars { IfOk result (λ o. (t : Var → Bool) → set_vars t entries.now ≡ true →
        option_vars t o ≡ true) }
{
    let excluded = excluded_by_all(alloc, entries, start, x, values)?;
    let fixed = fixed_values(alloc, entries, start, x)?;
    let left = apart(alloc, excluded, &fixed)?;
    let count = left.as_slice().len();
    if count == 0 {
        return Ok(Some(Entry::all(alloc)));
    }
    if count == values.count() {
        return Ok(None);
    }
    Ok(Some(Entry::one(alloc, x, Bound::Not(Values::of(alloc, left.into_vec())?))?))
}

/// Returns those of these values that all lists of the entries exclude.
fn excluded_by_all(
    alloc: Global,
    entries: &[Entry],
    start: usize,
    x: &Var,
    values: &Values,
) -> Result<ValueList, NoMemory>
    requires { (env : Environment) → not (list_any (λ v. same v (env x.now)) values.now) ≡ true →
        set_denotes entries.now env ≡ true }
    ensures { IfOk result (λ r. (env : Environment) →
        not (list_any (λ v. same v (env x.now)) r) ≡ true → set_denotes entries.now env ≡ true) }
{
    let mut left = values.list(alloc)?;
    for i in start..entries.len() {
        match lone_bound(&entries[i], x) {
            Some(bound) => left = excluded_too(alloc, left, bound)?,
            None => return Ok(left),
        }
    }
    Ok(left)
}

/// Returns the values that the bound excludes too, if it is a list of excluded values, and all of them otherwise.
fn excluded_too(alloc: Global, left: ValueList, bound: &Bound) -> Result<ValueList, NoMemory>
    ensures { IfOk result (λ r. (z : Datum) → not (list_any (λ v. same v z) r) ≡ true →
        (not (list_any (λ v. same v z) left) || fits z bound.now) ≡ true) }
{
    match bound {
        Bound::Is(_) => Ok(left),
        Bound::Not(values) => common(alloc, left, values),
    }
}

/// Returns the values of x in the entries that fix it, each once.
fn fixed_values(
    alloc: Global,
    entries: &[Entry],
    start: usize,
    x: &Var,
) -> Result<ValueList, NoMemory>
    ensures { IfOk result (λ r. (env : Environment) → list_any (λ v. same v (env x.now)) r ≡ true →
        set_denotes entries.now env ≡ true) }
{
    let mut fixed = Vec::new(alloc);
    for i in start..entries.len() {
        match lone_bound(&entries[i], x) {
            Some(bound) => put_fixed(alloc, &mut fixed, bound)?,
            None => return Ok(ValueList::of(fixed)),
        }
    }
    Ok(ValueList::of(fixed))
}

/// Adds the value, if the bound is one, unless it is already the last.
fn put_fixed(alloc: Global, fixed: &mut Vec<Value>, bound: &Bound) -> Result<(), NoMemory>
    ensures { IfOk result (λ _. (z : Datum) → list_any (λ v. same v z) fixed.new.items ≡ true →
        (list_any (λ v. same v z) fixed.old.items || fits z bound.now) ≡ true) }
{
    match bound {
        Bound::Is(v) => put_new(fixed, v.copy(alloc)?),
        Bound::Not(_) => Ok(()),
    }
}
