// Rows: for each number of members that a list's first children may have taken, the environments in which the other
// children fit the members that follow. A number without environments has no entry.
ghost use Rattle.std.specs.Prelude.{◌≡◌, ℕ, suc, ◌+◌, ◌^◌, ◌<◌, ◌≤◌, ◌&&◌, ◌||◌, nat_eq, Bool, true, false, IfOk, List, [], length, slice_index_or};
ghost use Rattle.std.specs.List.{list_all};
ghost use Rattle.c_terms.specs.declared.tree.Tree.{out-Tree};
ghost use Rattle.smpl_terms.specs.declared.var.Var.{Var};
ghost use Rattle.smpl_terms.specs.Environments.{Environment};
ghost use Rattle.env_sets.specs.Sets.{set_denotes, set_vars};
ghost use Rattle.pat_match.specs.Runs.{is_wild};
ghost use Rattle.pat_match.specs.Fitting.{leaf_of};
ghost use Rattle.pat_match.specs.Vars.{form_vars};
ghost use Rattle.pat_match.specs.Rows as spec;

use crate::context::PatternContext;
use crate::lists::{ListChild, ListMember, fit_wild, is_free};
use crate::sets::{both, is_none, put_set, union};
use c_terms::{Label, NoMemory, Tree};
use env_sets::{Entry, EnvSet, join};
use std::alloc::Global;

/// The number of members that are taken, and the environments in which the rest fits.
#[derive(Drop)]
pub struct RowEntry {
    pub taken: usize,
    pub set: EnvSet,
}

/// Adds an entry, unless its set is evidently empty.
pub fn push_entry(row: &mut Vec<RowEntry>, taken: usize, set: EnvSet) -> Result<(), NoMemory>
    ensures meaning { IfOk result (λ _. (n : ℕ) (env : Environment) → spec.row_at row.new.items n env
        ≡ (spec.row_at row.old.items n env || (nat_eq taken n && set_denotes set env))) }
    ensures vars { IfOk result (λ _. (t : Var → Bool) → spec.row_vars t row.old.items ≡ true
        → set_vars t set ≡ true →
        spec.row_vars t row.new.items ≡ true) }
{
    if is_none(&set) {
        return Ok(());
    }
    row.push(RowEntry { taken, set })?;
    Ok(())
}

/// Returns the row when no child is left: all members are taken.
pub fn last_row(alloc: Global, bare: bool, count: usize) -> Result<Vec<RowEntry>, NoMemory>
    ensures meaning { IfOk result (λ r. (n : ℕ) (env : Environment) → spec.row_at r.items n env
        ≡ spec.last_at bare count n) }
    ensures vars { IfOk result (λ r. (t : Var → Bool) → spec.row_vars t r.items ≡ true) }
{
    let mut row = Vec::new(alloc);
    if !bare {
        return Ok(row);
    }
    let set = EnvSet::all(alloc)?;
    row.push(RowEntry { taken: count, set })?;
    Ok(row)
}

/// Adds the environments in which the child takes the members from this one up to those that the entry has taken.
fn put_run(
    alloc: Global,
    entries: &mut Vec<Entry>,
    context: &PatternContext<'_>,
    child: &ListChild<'_>,
    members: &[ListMember],
    from: usize,
    entry: &RowEntry,
) -> Result<(), NoMemory>
    requires within { child.now.i ≤ length child.now.forms.now }
    ensures meaning { IfOk result (λ _. (env : Environment) → set_denotes entries.new.items env
        ≡ (set_denotes entries.old.items env || spec.wild_entry context.now.decls.now context.now.tokens.now
        context.now.types.now child.now.label
        (spec.comma_before child.now.forms.now child.now.i) child.now.form.now members.now from env entry.now)) }
    ensures vars { IfOk result (λ _. (t : Var → Bool)
        → list_all (form_vars context.now.decls.now context.now.tokens.now t) child.now.forms.now ≡ true →
        form_vars context.now.decls.now context.now.tokens.now t child.now.form.now ≡ true → set_vars t entry.now.set ≡ true →
        set_vars t entries.old.items ≡ true → set_vars t entries.new.items ≡ true) }
{
    if entry.taken < from {
        return Ok(());
    }
    if members.len() < entry.taken {
        return Ok(());
    }
    let run = &members[from..entry.taken];
    let here = fit_wild(alloc, context, child, run)?;
    let rest = entry.set.copy(alloc)?;
    let all = both(alloc, here, rest)?;
    put_set(entries, all)
}

/// Returns the environments in which the child takes some run from this member on, and the row fits what follows.
pub fn fit_some_run(
    alloc: Global,
    context: &PatternContext<'_>,
    child: &ListChild<'_>,
    members: &[ListMember],
    from: usize,
    row: &[RowEntry],
) -> Result<EnvSet, NoMemory>
    requires within { child.now.i ≤ length child.now.forms.now }
    requires left { from ≤ length members.now }
    requires wild { is_wild child.now.label (leaf_of (out-Tree child.now.form.now)) ≡ true }
    ensures meaning { IfOk result (λ r. (env : Environment) → set_denotes r env
        ≡ spec.step_at context.now.decls.now context.now.tokens.now context.now.types.now child.now.label
        (spec.comma_before child.now.forms.now child.now.i) child.now.form.now members.now row.now from env) }
    ensures vars { IfOk result (λ r. (t : Var → Bool)
        → list_all (form_vars context.now.decls.now context.now.tokens.now t) child.now.forms.now ≡ true →
        form_vars context.now.decls.now context.now.tokens.now t child.now.form.now ≡ true → spec.row_vars t row.now ≡ true
        → set_vars t r ≡ true) }
{
    let mut entries = Vec::new(alloc);
    for entry in row {
        put_run(alloc, &mut entries, context, child, members, from, entry)?;
    }
    union(alloc, entries)
}

/// Returns the n-th set.
fn set_at(sets: &[EnvSet], n: usize) -> &EnvSet
    requires { n < length sets.now }
    ensures value { result.now ≡ slice_index_or sets.now n [] }
    ensures vars { (t : Var → Bool) → list_all (set_vars t) sets.now ≡ true → set_vars t result.now ≡ true }
{
    &sets[n]
}

/// Adds an entry's set to the set for its number of members, if there is one.
fn put_entry(alloc: Global, sets: &mut Vec<EnvSet>, entry: &RowEntry) -> Result<(), NoMemory>
    ensures even { IfOk result (λ _. length sets.new.items ≡ length sets.old.items) }
    ensures meaning { IfOk result (λ _. (n : ℕ) (env : Environment) → n < length sets.old.items
        → spec.set_at sets.new.items n env ≡ (spec.set_at sets.old.items n env
        || (nat_eq entry.now.taken n && set_denotes entry.now.set env))) }
    ensures vars { IfOk result (λ _. (t : Var → Bool) → list_all (set_vars t) sets.old.items ≡ true
        → set_vars t entry.now.set ≡ true → list_all (set_vars t) sets.new.items ≡ true) }
{
    let taken = entry.taken;
    if taken >= sets.len() {
        return Ok(());
    }
    let set = join(alloc, set_at(sets.as_slice(), taken), &entry.set)?;
    sets[taken] = set;
    Ok(())
}

/// Returns `count` + 1 sets, each of no environment.
fn no_sets(alloc: Global, count: usize) -> Result<Vec<EnvSet>, NoMemory>
    requires { count + 1 < 2 ^ 64 }
    ensures even { IfOk result (λ r. length r.items ≡ count + 1) }
    ensures meaning { IfOk result (λ r. (n : ℕ) (env : Environment) → spec.set_at r.items n env ≡ false) }
    ensures vars { IfOk result (λ r. (t : Var → Bool) → list_all (set_vars t) r.items ≡ true) }
{
    let mut sets = Vec::with_capacity(alloc, count + 1)?;
    for _n in 0..count + 1 {
        sets.push(EnvSet::none(alloc))?;
    }
    Ok(sets)
}

/// Returns, for each number of members up to `count`, the environments of the row for that number.
fn sets_by_count(alloc: Global, row: &[RowEntry], count: usize) -> Result<Vec<EnvSet>, NoMemory>
    requires { count + 1 < 2 ^ 64 }
    ensures even { IfOk result (λ r. length r.items ≡ count + 1) }
    ensures meaning { IfOk result (λ r. (n : ℕ) (env : Environment) → n < count + 1
        → spec.set_at r.items n env ≡ spec.row_at row.now n env) }
    ensures vars { IfOk result (λ r. (t : Var → Bool) → spec.row_vars t row.now ≡ true
        → list_all (set_vars t) r.items ≡ true) }
{
    let mut sets = no_sets(alloc, count)?;
    for entry in row {
        put_entry(alloc, &mut sets, entry)?;
    }
    Ok(sets)
}

/// Returns what either set stands for.
fn either(alloc: Global, a: EnvSet, b: &EnvSet) -> Result<EnvSet, NoMemory>
    ensures meaning { IfOk result (λ r. (env : Environment) →
        set_denotes r env ≡ (set_denotes a env || set_denotes b.now env)) }
    ensures vars { IfOk result (λ r. (t : Var → Bool) → set_vars t a ≡ true → set_vars t b.now ≡ true →
        set_vars t r ≡ true) }
{
    if a.is_all() || is_none(b) {
        return Ok(a);
    }
    join(alloc, &a, b)
}

/// Returns the union of `set` and the set for `from` members, and adds it to the row.
fn put_from(
    alloc: Global,
    out: &mut Vec<RowEntry>,
    set: EnvSet,
    sets: &[EnvSet],
    from: usize,
) -> Result<EnvSet, NoMemory>
    requires { from < length sets.now }
    ensures set { IfOk result (λ r. (env : Environment) →
        set_denotes r env ≡ (set_denotes set env || spec.set_at sets.now from env)) }
    ensures row { IfOk result (λ r. (n : ℕ) (env : Environment) → spec.row_at out.new.items n env
        ≡ (spec.row_at out.old.items n env || (nat_eq from n && set_denotes r env))) }
    ensures vars { IfOk result (λ r. (t : Var → Bool) → set_vars t set ≡ true →
        list_all (set_vars t) sets.now ≡ true → set_vars t r ≡ true) }
    ensures row_vars { IfOk result (λ r. (t : Var → Bool) → spec.row_vars t out.old.items ≡ true →
        set_vars t r ≡ true → spec.row_vars t out.new.items ≡ true) }
{
    let all = either(alloc, set, set_at(sets, from))?;
    let here = all.copy(alloc)?;
    push_entry(out, from, here)?;
    Ok(all)
}

/// Returns the row from a child that takes every run in every environment, in a list of `count` members. From the last member
/// to the first, each set includes that of the member after it. Linear in the number of members, if the sets stay small.
fn fit_every_row(alloc: Global, row: &[RowEntry], count: usize) -> Result<Vec<RowEntry>, NoMemory>
    requires { count + 1 < 2 ^ 64 }
    ensures meaning { IfOk result (λ r. (n : ℕ) (env : Environment) → n < count + 1
        → spec.row_at r.items n env ≡ spec.tail_at count row.now n env) }
    ensures vars { IfOk result (λ r. (t : Var → Bool) → spec.row_vars t row.now ≡ true
        → spec.row_vars t r.items ≡ true) }
{
    let sets = sets_by_count(alloc, row, count)?;
    let mut out = Vec::new(alloc);
    let mut set = EnvSet::none(alloc);
    let mut from = count + 1;
    while from > 0 {
        from -= 1;
        set = put_from(alloc, &mut out, set, sets.as_slice(), from)?;
    }
    Ok(out)
}

/// Returns the row from a child that takes any run.
pub fn fit_wild_row(
    alloc: Global,
    context: &PatternContext<'_>,
    child: &ListChild<'_>,
    members: &[ListMember],
    row: &[RowEntry],
) -> Result<Vec<RowEntry>, NoMemory>
    requires within { child.now.i ≤ length child.now.forms.now }
    requires wild { is_wild child.now.label (leaf_of (out-Tree child.now.form.now)) ≡ true }
    ensures meaning { IfOk result (λ r. spec.IsStep context.now.decls.now context.now.tokens.now context.now.types.now
        child.now.label
        (spec.comma_before child.now.forms.now child.now.i) child.now.form.now members.now row.now r.items) }
    ensures vars { IfOk result (λ r. (t : Var → Bool)
        → list_all (form_vars context.now.decls.now context.now.tokens.now t) child.now.forms.now ≡ true →
        form_vars context.now.decls.now context.now.tokens.now t child.now.form.now ≡ true → spec.row_vars t row.now ≡ true →
        spec.row_vars t r.items ≡ true) }
{
    if is_free(context.tokens, child.forms, child.i, child.form) {
        return fit_every_row(alloc, row, members.len());
    }
    let mut out = Vec::new(alloc);
    for from in 0..members.len() + 1 {
        let set = fit_some_run(alloc, context, child, members, from, row)?;
        push_entry(&mut out, from, set)?;
    }
    Ok(out)
}
