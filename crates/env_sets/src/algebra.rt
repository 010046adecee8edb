// Operations on sets.
ghost use Rattle.std.specs.Prelude.{◌≡◌, ◌&&◌, ◌||◌, ◌++◌, Bool, true, not, List, [], ◌∷◌, IfOk, IfSome};
ghost use Rattle.std.specs.List.{list_all, list_any};
ghost use Rattle.smpl_terms.specs.Values.{same};
ghost use Rattle.std.specs.Bool.{Decides};
ghost use Rattle.smpl_terms.specs.declared.var.Var.{Var};
ghost use Rattle.smpl_terms.specs.Vars.{same_var};
ghost use Rattle.smpl_terms.specs.Environments.{Environment, change, value_in, has_value, over, total};
ghost use Rattle.env_sets.specs.Sets.{entry_denotes, entry_vars, option_denotes, option_vars, set_denotes, set_vars, ForSomeValue};
ghost use Rattle.env_sets.specs.Laws.{IsMeet, IsJoin, IsProjection, IsGiven};
ghost use Rattle.env_sets.specs.Rising.{Rise};
ghost use Rattle.env_sets.specs.Splits.{fits_if, AreGroupsOf, HaveVars};

use crate::blocks::blocks_hold;
use crate::bounds::Bound;
use crate::entries::{Entry, entry_holds, meet_entries};
use crate::groups::{Groups, groups_by};
use crate::listed::EntryList;
use crate::parts::fixed_value;
use crate::sets::{EnvSet, first_cover, put_some, settled};
use crate::sharing::{join_sharing, meet_sharing};
use crate::values::{ValueList, distinct, place_in_order};
use c_terms::NoMemory;
use smpl_terms::{Env, Value, Var, same_var};
use std::alloc::Global;

/// Returns the union: what `a` or `b` stands for. Drops entries that others cover.
///
/// For n entries that each fix the same single variable, it takes n log n steps.
pub fn join(alloc: Global, a: &EnvSet, b: &EnvSet) -> Result<EnvSet, NoMemory>
    ensures meaning { IfOk result (λ r. IsJoin a.now b.now r) }
    ensures vars { IfOk result (λ r. (t : Var → Bool) → set_vars t a.now ≡ true →
        set_vars t b.now ≡ true → set_vars t r ≡ true) }
{
    if let Some(set) = join_sharing(alloc, a, b)? {
        return Ok(set);
    }
    let mut entries = Vec::new(alloc);
    a.put_in(&mut entries)?;
    b.put_in(&mut entries)?;
    settled(alloc, entries)
}

/// Returns the intersection: what both `a` and `b` stand for.
///
/// It shares entries of `b`, each at most twice. Let x be the variable that the first entry of `b` bounds first. An entry of
/// `a` that fixes x meets those entries of `b` that fix x to the same value, found by look-up, and those that do not fix x; if
/// one of the former plainly covers it, it meets no others. Any other entry of `a` meets each entry of `b`. So for n entries
/// that fix the same variables, if those of `b` fix x to n values, it takes n log n steps.
pub fn meet(alloc: Global, a: &EnvSet, b: &EnvSet) -> Result<EnvSet, NoMemory>
    ensures meaning { IfOk result (λ r. IsMeet a.now b.now r) }
    ensures vars { IfOk result (λ r. (t : Var → Bool) → set_vars t a.now ≡ true →
        set_vars t b.now ≡ true → set_vars t r ≡ true) }
{
    if let (Some(es), Some(fs)) = (a.as_list(), b.as_list()) {
        return meet_lists(alloc, es, fs);
    }
    if let Some(set) = meet_sharing(alloc, a, b)? {
        return Ok(set);
    }
    let (es, fs) = (a.list(alloc)?, b.list(alloc)?);
    meet_lists(alloc, es.entries(), fs.entries())
}

/// Returns what both lists stand for.
fn meet_lists(alloc: Global, a: &[Entry], b: &[Entry]) -> Result<EnvSet, NoMemory>
    ensures meaning { IfOk result (λ r. IsMeet a.now b.now r) }
    ensures vars { IfOk result (λ r. (t : Var → Bool) → set_vars t a.now ≡ true →
        set_vars t b.now ≡ true → set_vars t r ≡ true) }
{
    if a.len() < 2 || b.len() < 2 {
        return meet_pairs(alloc, a, b);
    }
    match first_var(b) {
        None => meet_pairs(alloc, a, b),
        Some(x) => meet_by(alloc, a, b, x),
    }
}

fn first_var(b: &[Entry]) -> Option<&Var> {
    match b {
        [] => None,
        [first, ..] => match first.pairs() {
            [] => None,
            [pair, ..] => Some(&pair.0),
        },
    }
}

/// Meets each entry of `a` with each of `b`.
fn meet_pairs(alloc: Global, a: &[Entry], b: &[Entry]) -> Result<EnvSet, NoMemory>
    ensures meaning { IfOk result (λ r. IsMeet a.now b.now r) }
    ensures vars { IfOk result (λ r. (t : Var → Bool) → set_vars t a.now ≡ true →
        set_vars t b.now ≡ true → set_vars t r ≡ true) }
{
    let mut entries = Vec::new(alloc);
    for e in a {
        meet_each(alloc, &mut entries, e, b)?;
    }
    settled(alloc, entries)
}

/// Like `meet_pairs`, but looks entries of `b` up by the value at which they fix x. Entries that fix x alone are kept as
/// values.
fn meet_by(alloc: Global, a: &[Entry], b: &[Entry], x: &Var) -> Result<EnvSet, NoMemory>
    ensures meaning { IfOk result (λ r. IsMeet a.now b.now r) }
    ensures vars { IfOk result (λ r. (t : Var → Bool) → set_vars t a.now ≡ true →
        set_vars t b.now ≡ true → set_vars t r ≡ true) }
{
    let parts = split_lone(alloc, b, x)?;
    let groups = groups_by(alloc, parts.others.entries(), x)?;
    let mut entries = Vec::new(alloc);
    for e in a {
        meet_at_variable(alloc, &mut entries, e, b, x, &parts, &groups)?;
    }
    settled(alloc, entries)
}

/// A set split at a variable: the values of the entries that fix this variable alone, and all other entries.
#[derive(Drop)]
pub struct LoneSplit {
    pub fixed: ValueList,
    pub others: EntryList,
}

/// Splits a set at x. Copies each entry once, and sorts the values.
pub fn split_lone(alloc: Global, b: &[Entry], x: &Var) -> Result<LoneSplit, NoMemory>
    ensures meaning { IfOk result (λ parts. (env : Environment)
        → set_denotes b.now env ≡ (list_any (λ v. same v (env x.now)) parts.fixed || set_denotes parts.others env)) }
    ensures vars { IfOk result (λ parts. (t : Var → Bool) → set_vars t b.now ≡ true →
        set_vars t parts.others ≡ true) }
{
    let mut fixed = Vec::new(alloc);
    let mut others = Vec::new(alloc);
    for e in b {
        put_lone_or_other(alloc, &mut fixed, &mut others, e, x)?;
    }
    Ok(LoneSplit {
        fixed: distinct(alloc, fixed)?,
        others: EntryList::of(others),
    })
}

/// Adds the value of the entry to `fixed` if it fixes x alone, and the entry to `others` otherwise.
fn put_lone_or_other(
    alloc: Global,
    fixed: &mut Vec<Value>,
    others: &mut Vec<Entry>,
    e: &Entry,
    x: &Var,
) -> Result<(), NoMemory>
    ensures meaning { IfOk result (λ _. (env : Environment)
        → (list_any (λ v. same v (env x.now)) fixed.new.items || set_denotes others.new.items env)
        ≡ ((list_any (λ v. same v (env x.now)) fixed.old.items || set_denotes others.old.items env) || entry_denotes e.now env)) }
    ensures vars { IfOk result (λ _. (t : Var → Bool) → set_vars t others.old.items ≡ true →
        entry_vars t e.now ≡ true → set_vars t others.new.items ≡ true) }
{
    match only_value(e, x) {
        Some(v) => {
            fixed.push(v.copy(alloc)?)?;
            Ok(())
        }
        None => {
            others.push(e.copy(alloc)?)?;
            Ok(())
        }
    }
}

/// Returns the value of x if the entry fixes x and bounds nothing else.
fn only_value<'e>(e: &'e Entry, x: &Var) -> Option<&'e Value>
    ensures { IfSome result (λ v. (env : Environment) →
        entry_denotes e.now env ≡ same v.now (env x.now)) }
{
    match e.pairs() {
        [pair] => match &pair.1 {
            Bound::Is(v) => { if same_var(&pair.0, x) { Some(v) } else { None } }
            Bound::Not(_) => None,
        },
        _ => None,
    }
}

/// Adds what both the entry and some entry of `b` stand for. If `b` has the value at which the entry fixes x, adds the entry
/// itself.
fn meet_at_variable(
    alloc: Global,
    out: &mut Vec<Entry>,
    e: &Entry,
    b: &[Entry],
    x: &Var,
    parts: &LoneSplit,
    groups: &Groups,
) -> Result<(), NoMemory>
    requires parts { (env : Environment) → set_denotes b.now env ≡ (list_any
        (λ v. same v (env x.now)) parts.now.fixed || set_denotes parts.now.others env) }
    requires others { (t : Var → Bool) → set_vars t b.now ≡ true →
        set_vars t parts.now.others ≡ true }
    requires rise { Rise groups.now.values }
    requires groups { AreGroupsOf x.now groups.now.values parts.now.others
        groups.now.groups.items groups.now.others }
    requires vars { (t : Var → Bool) → set_vars t parts.now.others ≡ true →
        HaveVars t groups.now.groups.items groups.now.others }
    ensures meaning { IfOk result
        (λ _. (env : Environment) → set_denotes out.new.items env ≡ (set_denotes out.old.items env || (entry_denotes e.now env && set_denotes b.now env))) }
    ensures vars { IfOk result
        (λ _. (t : Var → Bool) → set_vars t out.old.items ≡ true → entry_vars t e.now ≡ true → set_vars t b.now ≡ true → set_vars t out.new.items ≡ true) }
{
    match fixed_value(e, x) {
        None => meet_each(alloc, out, e, b),
        Some(v) => {
            if parts.fixed.have(v) {
                out.push(e.copy(alloc)?)?;
                return Ok(());
            }
            meet_by_group(alloc, out, e, parts.others.entries(), x, groups)
        }
    }
}

/// Adds what both the entry and some entry of `b` stand for.
fn meet_by_group(
    alloc: Global,
    out: &mut Vec<Entry>,
    e: &Entry,
    b: &[Entry],
    x: &Var,
    groups: &Groups,
) -> Result<(), NoMemory>
    requires rise { Rise groups.now.values }
    requires groups { AreGroupsOf x.now groups.now.values b.now
        groups.now.groups.items groups.now.others }
    requires vars { (t : Var → Bool) → set_vars t b.now ≡ true →
        HaveVars t groups.now.groups.items groups.now.others }
    ensures meaning { IfOk result
        (λ _. (env : Environment) → set_denotes out.new.items env ≡ (set_denotes out.old.items env || (entry_denotes e.now env && set_denotes b.now env))) }
    ensures vars { IfOk result
        (λ _. (t : Var → Bool) → set_vars t out.old.items ≡ true → entry_vars t e.now ≡ true → set_vars t b.now ≡ true → set_vars t out.new.items ≡ true) }
{
    match fixed_value(e, x) {
        None => meet_each(alloc, out, e, b),
        Some(v) => match place_in_order(groups.values.as_slice(), v) {
            None => meet_each(alloc, out, e, groups.others.entries()),
            Some(k) => meet_group_and_others(
                alloc,
                out,
                e,
                groups.groups[k].entries(),
                groups.others.entries(),
            ),
        },
    }
}

/// Adds what both the entry and some entry of the group or of the others stand for.
fn meet_group_and_others(
    alloc: Global,
    out: &mut Vec<Entry>,
    e: &Entry,
    group: &[Entry],
    others: &[Entry],
) -> Result<(), NoMemory>
    ensures meaning { IfOk result
        (λ _. (env : Environment) → set_denotes out.new.items env ≡ (set_denotes out.old.items env || (entry_denotes e.now env && (set_denotes group.now env || set_denotes others.now env)))) }
    ensures vars { IfOk result
        (λ _. (t : Var → Bool) → set_vars t out.old.items ≡ true → entry_vars t e.now ≡ true → set_vars t group.now ≡ true → set_vars t others.now ≡ true → set_vars t out.new.items ≡ true) }
{
    if first_cover(group, group.len(), e) {
        out.push(e.copy(alloc)?)?;
        return Ok(());
    }
    meet_each(alloc, out, e, group)?;
    meet_each(alloc, out, e, others)
}

/// Adds what both the entry and some entry of `b` stand for.
fn meet_each(alloc: Global, out: &mut Vec<Entry>, e: &Entry, b: &[Entry]) -> Result<(), NoMemory>
    ensures meaning { IfOk result
        (λ _. (env : Environment) → set_denotes out.new.items env ≡ (set_denotes out.old.items env || (entry_denotes e.now env && set_denotes b.now env))) }
    ensures vars { IfOk result
        (λ _. (t : Var → Bool) → set_vars t out.old.items ≡ true → entry_vars t e.now ≡ true → set_vars t b.now ≡ true → set_vars t out.new.items ≡ true) }
{
    for f in b {
        put_some(out, meet_entries(alloc, e, f)?)?;
    }
    Ok(())
}

/// Returns the environments that are in `a` after some change of `v` alone. `v` does not occur in the result.
///
/// It copies each entry once, and drops entries that others cover.
pub fn project(alloc: Global, a: &EnvSet, v: &Var) -> Result<EnvSet, NoMemory>
    ensures meaning { IfOk result (λ r. IsProjection v.now a.now r) }
    ensures vars { IfOk result (λ r. (t : Var → Bool) → set_vars (λ y. t y
        || same_var y v.now) a.now ≡ true → set_vars t r ≡ true) }
{
    match a.as_list() {
        Some(entries) => projected(alloc, entries, v),
        None => {
            let list = a.list(alloc)?;
            projected(alloc, list.entries(), v)
        }
    }
}

/// Like `project`, for a list.
fn projected(alloc: Global, a: &[Entry], v: &Var) -> Result<EnvSet, NoMemory>
    ensures meaning { IfOk result (λ r. IsProjection v.now a.now r) }
    ensures vars { IfOk result (λ r. (t : Var → Bool) → set_vars (λ y. t y
        || same_var y v.now) a.now ≡ true → set_vars t r ≡ true) }
{
    let mut entries = Vec::new(alloc);
    for e in a {
        entries.push(e.without(alloc, v)?)?;
    }
    settled(alloc, entries)
}

/// Returns what remains of `a` when the variables of `env` have the values that it gives them. Those variables no longer occur
/// in the result.
///
/// It copies each entry at most once, looks each of its variables up in `env`, and drops entries that others cover.
pub fn given(alloc: Global, a: &EnvSet, env: &Env) -> Result<EnvSet, NoMemory>
    ensures meaning { IfOk result (λ r. IsGiven env.now a.now r) }
    ensures vars { IfOk result (λ r. (t : Var → Bool) → set_vars (λ x. t x
        || has_value env.now x) a.now ≡ true → set_vars t r ≡ true) }
{
    match a.as_list() {
        Some(entries) => entries_given(alloc, entries, env),
        None => {
            let list = a.list(alloc)?;
            entries_given(alloc, list.entries(), env)
        }
    }
}

/// Like `given`, for a list.
fn entries_given(alloc: Global, a: &[Entry], env: &Env) -> Result<EnvSet, NoMemory>
    ensures meaning { IfOk result (λ r. IsGiven env.now a.now r) }
    ensures vars { IfOk result (λ r. (t : Var → Bool) → set_vars (λ x. t x
        || has_value env.now x) a.now ≡ true → set_vars t r ≡ true) }
{
    let mut entries = Vec::new(alloc);
    for e in a {
        put_some(&mut entries, entry_given(alloc, e, env)?)?;
    }
    settled(alloc, entries)
}

fn entry_given(alloc: Global, entry: &Entry, env: &Env) -> Result<Option<Entry>, NoMemory>
    ensures meaning { IfOk result (λ o. (rest : Environment) →
        option_denotes o rest ≡ entry_denotes entry.now (over env.now rest)) }
    ensures vars { IfOk result (λ o. (t : Var → Bool) → entry_vars (λ x. t x
        || has_value env.now x) entry.now ≡ true → option_vars t o ≡ true) }
{
    if !entry_agrees(entry, env) {
        return Ok(None);
    }
    Ok(Some(entry.free_of(alloc, env)?))
}

/// Whether each bound of a variable that has a value in `env` allows that value.
fn entry_agrees(entry: &Entry, env: &Env) -> bool
    ensures { result ≡ list_all (λ p. fits_if (value_in env.now p.0) p.1) entry.now }
{
    for p in entry.pairs() {
        if let Some(value) = env.get(&p.0) {
            if !p.1.allows(value) {
                return false;
            }
        }
    }
    true
}

/// Whether `a` stands for `env`, which gives each variable of `a` its value. A variable of `a` without a value counts as the
/// place 0.
///
/// It looks each variable of an entry up in `env`. If the last entries, at least 16 in all, fix the same variables in order, as
/// those of results do, it uses binary search to find those that agree with the values of `env` up to a variable whose values
/// they exclude. It checks the others one by one, until an entry stands for `env`. Takes no memory.
pub fn denotes(a: &EnvSet, env: &Env) -> bool
    ensures meaning { result ≡ set_denotes a.now (total env.now) }
{
    let (first, rest) = a.by_order();
    some_hold(first, env) || blocks_hold(rest.as_slice(), env)
}

/// Whether one of the entries stands for `env`. Takes no memory.
fn some_hold(entries: &[Entry], env: &Env) -> bool
    ensures { result ≡ set_denotes entries.now (total env.now) }
{
    entries.iter().any(|e| entry_holds(e, env))
}
