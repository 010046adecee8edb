// The parts of a set by the values of one variable.
ghost use Rattle.std.specs.Prelude.{◌≡◌, ◌||◌, ◌++◌, ◌<◌, ℕ, true, false, not, cond, [], ◌∷◌, length, set, slice_index_or, IfOk, IfSome};
ghost use Rattle.std.specs.List.{list_any};
ghost use Rattle.smpl_terms.specs.declared.value.Value.{Value as Datum};
ghost use Rattle.smpl_terms.specs.Values.{same};
ghost use Rattle.env_sets.specs.Bounds.{fits, is_not};
ghost use Rattle.env_sets.specs.Rising.{Rise};
ghost use Rattle.env_sets.specs.Sets.{Entries};
ghost use Rattle.env_sets.specs.Splits.{passes, without, restricted, agree, none_named, is_unnamed, AreRestrictions};

use crate::bounds::Bound;
use crate::entries::Entry;
use crate::listed::EntryList;
use crate::values::{ValueList, distinct, place_in_order};
use c_terms::NoMemory;
use smpl_terms::{Value, Var, same_var};
use std::alloc::Global;

/// For each of the values, returns what the entries stand for when x is that value, without x.
///
/// An entry that fixes x goes to the part of its value, and any other to each part whose value it allows.
pub fn restrictions(
    alloc: Global,
    a: &[Entry],
    x: &Var,
    values: &[Value],
) -> Result<Vec<EntryList>, NoMemory>
    requires rise { Rise values.now }
    ensures { IfOk result (λ parts. AreRestrictions x.now values.now a.now parts.items) }
{
    let mut parts = empty_lists(alloc, values.len())?;
    for e in a {
        put_where_allowed(alloc, &mut parts, e, x, values)?;
    }
    Ok(parts)
}

/// Returns this many empty lists.
pub fn empty_lists(alloc: Global, count: usize) -> Result<Vec<EntryList>, NoMemory>
    ensures count { IfOk result (λ parts. length parts.items ≡ count) }
    ensures empty { IfOk result (λ parts. (k : ℕ) → slice_index_or parts.items k [] ≡ []) }
{
    let mut parts = Vec::with_capacity(alloc, count)?;
    while parts.len() < count {
        parts.push(EntryList::none(alloc))?;
    }
    Ok(parts)
}

/// Adds the entry without x to each part whose value it allows.
fn put_where_allowed(
    alloc: Global,
    parts: &mut [EntryList],
    e: &Entry,
    x: &Var,
    values: &[Value],
) -> Result<(), NoMemory>
    requires rise { Rise values.now }
    requires count { length parts.now ≡ length values.now }
    ensures { IfOk result (λ _. (es : Entries) → AreRestrictions x.now values.now es parts.old →
        AreRestrictions x.now values.now (es ++ e.now ∷ []) parts.new) }
{
    match fixed_value(e, x) {
        Some(v) => match place_in_order(values, v) {
            Some(k) => {
                let rest = e.without(alloc, x)?;
                put_if_allowed(alloc, parts, k, e, &rest, x, &values[k])
            }
            None => Ok(()),
        },
        None => {
            let rest = e.without(alloc, x)?;
            for k in 0..values.len() {
                put_if_allowed(alloc, parts, k, e, &rest, x, &values[k])?;
            }
            Ok(())
        }
    }
}

/// Adds `rest`, which is the entry without x, to the part at `k` if the entry allows the value. It shares `rest`.
fn put_if_allowed(
    alloc: Global,
    parts: &mut [EntryList],
    k: usize,
    e: &Entry,
    rest: &Entry,
    x: &Var,
    v: &Value,
) -> Result<(), NoMemory>
    requires at { k < length parts.now }
    requires rest { rest.now ≡ without x.now e.now }
    ensures { IfOk result (λ _. parts.new ≡ set parts.old k (slice_index_or parts.old k []
        ++ cond (passes x.now (fits v.now) e.now) (without x.now e.now ∷ []) [])) }
{
    if is_allowed(e, x, v) {
        parts[k].put(rest.copy(alloc)?)?;
    }
    Ok(())
}

/// Returns the value of x if the entry fixes x.
pub fn fixed_value<'e>(e: &'e Entry, x: &Var) -> Option<&'e Value>
    ensures { IfSome result (λ v. (u : Datum) → same v.now u ≡ false →
        passes x.now (fits u) e.now ≡ false) }
{
    for p in e.pairs() {
        if let Bound::Is(v) = &p.1 {
            if same_var(&p.0, x) {
                return Some(v);
            }
        }
    }
    None
}

/// Returns what the entries stand for when x is a value that none of them names, without x.
pub fn where_other(alloc: Global, a: &[Entry], x: &Var) -> Result<Vec<Entry>, NoMemory>
    ensures { IfOk result (λ r. r.items ≡ restricted x.now is_not a.now) }
{
    let mut entries = Vec::new(alloc);
    for e in a {
        if is_open(e, x) {
            entries.push(e.without(alloc, x)?)?;
        }
    }
    Ok(entries)
}

/// Whether the entry allows x to be `v`.
pub fn is_allowed(e: &Entry, x: &Var, v: &Value) -> bool
    ensures { result ≡ passes x.now (fits v.now) e.now }
{
    e.pairs()
        .iter()
        .all(|p| !same_var(&p.0, x) || p.1.allows(v))
}

/// Whether the entry does not fix x.
fn is_open(e: &Entry, x: &Var) -> bool
    ensures { result ≡ passes x.now is_not e.now }
{
    e.pairs().iter().all(|p| !same_var(&p.0, x) || p.1.is_not())
}

/// Returns the values that the entries name at x, in order, each once.
pub fn named(alloc: Global, a: &[Entry], x: &Var) -> Result<ValueList, NoMemory>
    ensures meaning { IfOk result (λ vs. (z : Datum) → list_any (λ v. same v z) vs ≡ false →
        none_named x.now z a.now ≡ true) }
    ensures rise { IfOk result (λ vs. Rise vs) }
{
    let mut values = Vec::new(alloc);
    for e in a {
        put_named(alloc, &mut values, e, x)?;
    }
    distinct(alloc, values)
}

/// Adds the values that the entry names at x.
fn put_named(alloc: Global, out: &mut Vec<Value>, e: &Entry, x: &Var) -> Result<(), NoMemory>
    ensures { IfOk result (λ _. (z : Datum) → list_any (λ v. same v z) out.new.items ≡ false
        → (list_any (λ v. same v z) out.old.items || not (is_unnamed x.now z e.now)) ≡ false) }
{
    for p in e.pairs() {
        if same_var(&p.0, x) {
            put_values(alloc, out, &p.1)?;
        }
    }
    Ok(())
}

/// Adds the values that the bound names.
fn put_values(alloc: Global, out: &mut Vec<Value>, bound: &Bound) -> Result<(), NoMemory>
    ensures { IfOk result (λ _. (z : Datum) → list_any (λ v. same v z) out.new.items ≡ false
        → (list_any (λ v. same v z) out.old.items || not (agree (is_not bound.now) (fits z bound.now))) ≡ false) }
{
    match bound {
        Bound::Is(v) => out.push(v.copy(alloc)?)?,
        Bound::Not(vs) => vs.put_in(alloc, out)?,
    }
    Ok(())
}
