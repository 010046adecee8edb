// Meets and joins that share most blocks of one of the sets.
//
//     { x Not [5] }  and  { x Is 1 } .. { x Is 9 }   =   all of these but { x Is 5 }
//     { x Is 5 }  or  { x Is 1 } .. { x Is 9 }   =   the same blocks
ghost use Rattle.std.specs.Prelude.{◌≡◌, ◌&&◌, ◌||◌, Bool, true, not, IfOk, IfSome};
ghost use Rattle.std.specs.List.{list_any};
ghost use Rattle.smpl_terms.specs.declared.var.Var.{Var};
ghost use Rattle.smpl_terms.specs.Values.{same};
ghost use Rattle.smpl_terms.specs.Environments.{Environment};
ghost use Rattle.env_sets.specs.Sets.{entry_denotes, entry_vars, set_denotes, set_vars};
ghost use Rattle.env_sets.specs.Laws.{IsMeet, IsJoin};
ghost use Rattle.env_sets.specs.Blocks.{all_entries, AreInOrder};

use crate::added::{blocks_cover, blocks_with};
use crate::blocks::put_entries;
use crate::complements::only_excluded;
use crate::entries::Entry;
use crate::excluded::Values;
use crate::removed::blocks_without;
use crate::sets::{EnvSet, first_cover};
use c_terms::NoMemory;
use smpl_terms::{SharedList, Var};
use std::alloc::Global;

/// At most this many values or entries are searched for one by one.
const FEW: usize = 16;

/// Returns the join if one of the sets has blocks, and lacks only a few entries of the other, which can be put among them;
/// `None` otherwise.
pub fn join_sharing(alloc: Global, a: &EnvSet, b: &EnvSet) -> Result<Option<EnvSet>, NoMemory>
    ensures meaning { IfOk result (λ o. IfSome o (λ r. IsJoin a.now b.now r)) }
    ensures vars { IfOk result (λ o. IfSome o (λ r. (t : Var → Bool) → set_vars t a.now ≡ true →
        set_vars t b.now ≡ true → set_vars t r ≡ true)) }
{
    match (a.as_list(), b.as_list()) {
        (Some(few), None) => with_few(alloc, b, few),
        (None, Some(few)) => with_few(alloc, a, few),
        (None, None) => join_blocks(alloc, a, b),
        _ => Ok(None),
    }
}

/// Like `join_sharing`, for two sets with blocks. The one with more blocks takes what it lacks of the other.
fn join_blocks(alloc: Global, a: &EnvSet, b: &EnvSet) -> Result<Option<EnvSet>, NoMemory>
    ensures meaning { IfOk result (λ o. IfSome o (λ r. IsJoin a.now b.now r)) }
    ensures vars { IfOk result (λ o. IfSome o (λ r. (t : Var → Bool) → set_vars t a.now ≡ true →
        set_vars t b.now ≡ true → set_vars t r ≡ true)) }
{
    if a.blocks().1.len() < b.blocks().1.len() {
        return with_lacking(alloc, b, a);
    }
    with_lacking(alloc, a, b)
}

/// Returns the set with those entries of the other that it lacks.
fn with_lacking(alloc: Global, set: &EnvSet, other: &EnvSet) -> Result<Option<EnvSet>, NoMemory>
    ensures meaning { IfOk result (λ o. IfSome o (λ r. (env : Environment) →
        set_denotes r env ≡ (set_denotes set.now env || set_denotes other.now env))) }
    ensures vars { IfOk result (λ o. IfSome o (λ r. (t : Var → Bool) → set_vars t set.now ≡ true →
        set_vars t other.now ≡ true → set_vars t r ≡ true)) }
{
    let list = other.list(alloc)?;
    match lacking(alloc, set, list.entries())? {
        None => Ok(None),
        Some(few) => with_few(alloc, set, few.as_slice()),
    }
}

/// Returns the entries that no entry of the set covers at its place, or `None` if there are more of them than blocks.
fn lacking(alloc: Global, set: &EnvSet, entries: &[Entry]) -> Result<Option<Vec<Entry>>, NoMemory>
    ensures meaning { IfOk result (λ o. IfSome o (λ few. (env : Environment) →
        (set_denotes set.now env || set_denotes few.items env) ≡ (set_denotes set.now env || set_denotes entries.now env))) }
    ensures vars { IfOk result (λ o. IfSome o (λ few. (t : Var → Bool) → set_vars t entries.now ≡ true →
        set_vars t few.items ≡ true)) }
{
    let most = set.blocks().1.len();
    let mut few = Vec::new(alloc);
    for e in entries {
        if few.len() > most {
            return Ok(None);
        }
        put_if_lacking(&mut few, set, e)?;
    }
    Ok(Some(few))
}

/// Adds the entry, unless an entry of the set covers it.
fn put_if_lacking(out: &mut Vec<Entry>, set: &EnvSet, e: &Entry) -> Result<(), NoMemory>
    ensures meaning { IfOk result (λ _. (env : Environment) → (set_denotes set.now env || set_denotes out.new.items env)
        ≡ ((set_denotes set.now env || set_denotes out.old.items env) || entry_denotes e.now env)) }
    ensures vars { IfOk result (λ _. (t : Var → Bool) → set_vars t out.old.items ≡ true →
        entry_vars t e.now ≡ true → set_vars t out.new.items ≡ true) }
{
    if is_covered(set, e) {
        return Ok(());
    }
    out.push(e.share()?)?;
    Ok(())
}

/// Whether one of the first entries, or the one at its place in the blocks, covers this entry.
fn is_covered(set: &EnvSet, e: &Entry) -> bool
    ensures { result ≡ true → (env : Environment) → entry_denotes e.now env ≡ true → set_denotes set.now env ≡ true }
{
    let (first, rest) = set.by_order();
    if first_cover(first, FEW, e) {
        return true;
    }
    blocks_cover(rest.as_slice(), e)
}

/// Returns the set with these entries, if there are no more of them than blocks and the place of each is evident.
fn with_few(alloc: Global, set: &EnvSet, few: &[Entry]) -> Result<Option<EnvSet>, NoMemory>
    ensures meaning { IfOk result (λ o. IfSome o (λ r. (env : Environment) →
        set_denotes r env ≡ (set_denotes set.now env || set_denotes few.now env))) }
    ensures vars { IfOk result (λ o. IfSome o (λ r. (t : Var → Bool) → set_vars t set.now ≡ true →
        set_vars t few.now ≡ true → set_vars t r ≡ true)) }
{
    if few.len() > set.blocks().1.len() {
        return Ok(None);
    }
    let mut all = set.copy(alloc)?;
    for e in few {
        match with_entry(alloc, &all, e)? {
            Some(next) => all = next,
            None => return Ok(None),
        }
    }
    Ok(Some(all))
}

/// Returns the set with one more entry, if its place is evident.
fn with_entry(alloc: Global, set: &EnvSet, e: &Entry) -> Result<Option<EnvSet>, NoMemory>
    ensures meaning { IfOk result (λ o. IfSome o (λ r. (env : Environment) →
        set_denotes r env ≡ (set_denotes set.now env || entry_denotes e.now env))) }
    ensures vars { IfOk result (λ o. IfSome o (λ r. (t : Var → Bool) → set_vars t set.now ≡ true →
        entry_vars t e.now ≡ true → set_vars t r ≡ true)) }
{
    let (first, rest) = set.by_order();
    if !may_be_put(first, e) {
        return Ok(None);
    }
    if first_cover(first, first.len(), e) {
        return Ok(Some(set.copy(alloc)?));
    }
    match blocks_with(alloc, rest, e)? {
        None => Ok(None),
        Some(rest) => {
            let mut copies = Vec::with_capacity(alloc, first.len())?;
            put_entries(&mut copies, first)?;
            Ok(Some(EnvSet::with_blocks(copies, rest)))
        }
    }
}

/// Whether the entry can only cover an equal one, and none can be merged with it: it excludes no values, and the entries
/// outside the blocks are few, and none if it bounds only one variable.
fn may_be_put(first: &[Entry], e: &Entry) -> bool {
    let pairs = e.pairs();
    if first.len() >= FEW || (pairs.len() < 2 && !first.is_empty()) {
        return false;
    }
    !pairs.iter().any(|p| p.1.is_not())
}

/// Returns the meet if one of the sets has blocks and the other is nothing, everything or one entry that excludes few values of
/// a variable that all entries in the blocks fix first; `None` otherwise.
pub fn meet_sharing(alloc: Global, a: &EnvSet, b: &EnvSet) -> Result<Option<EnvSet>, NoMemory>
    ensures meaning { IfOk result (λ o. IfSome o (λ r. IsMeet a.now b.now r)) }
    ensures vars { IfOk result (λ o. IfSome o (λ r. (t : Var → Bool) → set_vars t a.now ≡ true →
        set_vars t b.now ≡ true → set_vars t r ≡ true)) }
{
    match (a.as_list(), b.as_list()) {
        (Some(few), None) => within(alloc, b, few),
        (None, Some(few)) => within(alloc, a, few),
        _ => Ok(None),
    }
}

/// Returns what both stand for, if this is evident.
fn within(alloc: Global, set: &EnvSet, few: &[Entry]) -> Result<Option<EnvSet>, NoMemory>
    ensures meaning { IfOk result (λ o. IfSome o (λ r. (env : Environment) →
        set_denotes r env ≡ (set_denotes set.now env && set_denotes few.now env))) }
    ensures vars { IfOk result (λ o. IfSome o (λ r. (t : Var → Bool) → set_vars t set.now ≡ true →
        set_vars t r ≡ true)) }
{
    match few {
        [] => Ok(Some(EnvSet::none(alloc))),
        [e] => within_entry(alloc, set, e),
        _ => Ok(None),
    }
}

fn within_entry(alloc: Global, set: &EnvSet, e: &Entry) -> Result<Option<EnvSet>, NoMemory>
    ensures meaning { IfOk result (λ o. IfSome o (λ r. (env : Environment) →
        set_denotes r env ≡ (set_denotes set.now env && entry_denotes e.now env))) }
    ensures vars { IfOk result (λ o. IfSome o (λ r. (t : Var → Bool) → set_vars t set.now ≡ true →
        set_vars t r ≡ true)) }
{
    match e.pairs() {
        [] => Ok(Some(set.copy(alloc)?)),
        [p, ..] => match only_excluded(e, &p.0) {
            Some(values) => without_values(alloc, set, &p.0, values),
            None => Ok(None),
        },
    }
}

/// Returns what the set stands for when x has none of the values.
fn without_values(
    alloc: Global,
    set: &EnvSet,
    x: &Var,
    values: &Values,
) -> Result<Option<EnvSet>, NoMemory>
    ensures meaning { IfOk result (λ o. IfSome o (λ r. (env : Environment) → set_denotes r env
        ≡ (set_denotes set.now env && not (list_any (λ v. same v (env x.now)) values.now)))) }
    ensures vars { IfOk result (λ o. IfSome o (λ r. (t : Var → Bool) → set_vars t set.now ≡ true →
        set_vars t r ≡ true)) }
{
    let (first, rest) = set.by_order();
    if values.count() > FEW {
        return Ok(None);
    }
    if !first.is_empty() {
        return Ok(None);
    }
    match blocks_outside(alloc, rest, x, values)? {
        None => Ok(None),
        Some(left) => Ok(Some(EnvSet::with_blocks(Vec::new(alloc), left))),
    }
}

/// Returns the blocks without the entries that fix x at one of the values.
fn blocks_outside(
    alloc: Global,
    rest: &SharedList<SharedList<Entry>>,
    x: &Var,
    values: &Values,
) -> Result<Option<SharedList<SharedList<Entry>>>, NoMemory>
    requires { AreInOrder rest.now }
    ensures meaning { IfOk result (λ o. IfSome o (λ r. (env : Environment) → set_denotes (all_entries r) env
        ≡ (set_denotes (all_entries rest.now) env && not (list_any (λ v. same v (env x.now)) values.now)))) }
    ensures vars { IfOk result (λ o. IfSome o (λ r. (t : Var → Bool) → set_vars t (all_entries rest.now) ≡ true →
        set_vars t (all_entries r) ≡ true)) }
    ensures order { IfOk result (λ o. IfSome o (λ r. AreInOrder r)) }
{
    let list = values.list(alloc)?;
    let mut left = rest.share()?;
    for v in list.as_slice() {
        match blocks_without(alloc, &left, x, v)? {
            Some(next) => left = next,
            None => return Ok(None),
        }
    }
    Ok(Some(left))
}
