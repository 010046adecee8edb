// The number of members that dots or a list variable take in the leftmost alignment: as few as they can.
ghost use Rattle.std.specs.Prelude.{◌≡◌, ℕ, suc, ◌<◌, ◌≤◌, ◌&&◌, ◌||◌, nat_eq, true, false, IfOk, drop, length, slice_index_or};
ghost use Rattle.c_terms.specs.declared.tree.Tree.{out-Tree};
ghost use Rattle.smpl_terms.specs.Environments.{total};
ghost use Rattle.env_sets.specs.Sets.{set_denotes};
ghost use Rattle.pat_match.specs.Runs.{is_wild, takes, least};
ghost use Rattle.pat_match.specs.Fitting.{leaf_of, piece};
ghost use Rattle.pat_match.specs.Rows.{comma_before, row_at, fits_from};
ghost use Rattle.pat_match.specs.PatPairs.Pairs.{takes_first, IsNext};

use crate::parts::{ListChild, ListMember, RowEntry, fit_rows, fit_wild};
use crate::pat_pairs::bound::BoundContext;
use crate::pat_pairs::pairs::{AlignedToken, put_comma_before, put_run};
use c_terms::{Label, NoMemory, Tree};
use env_sets::denotes;
use smpl_terms::Env;
use std::alloc::Global;

/// Sets the flag for the entry's number of members, if there is one and the entry has the environment.
fn set_flag(flags: &mut [bool], entry: &RowEntry, env: &Env)
    ensures length { length flags.new ≡ length flags.old }
    ensures flags { (n : ℕ) → n < length flags.old → slice_index_or flags.new n false
        ≡ (slice_index_or flags.old n false || (nat_eq entry.now.taken n && set_denotes entry.now.set (total env.now))) }
{
    if entry.taken >= flags.len() {
        return;
    }
    if denotes(&entry.set, env) {
        flags[entry.taken] = true;
    }
}

/// Returns, for each number of members below `count`, whether the row has the environment there.
fn row_flags(
    alloc: Global,
    row: &[RowEntry],
    count: usize,
    env: &Env,
) -> Result<Vec<bool>, NoMemory>
    ensures length { IfOk result (λ r. length r.items ≡ count) }
    ensures flags { IfOk result (λ r. (n : ℕ) → n < count →
        slice_index_or r.items n false ≡ row_at row.now n (total env.now)) }
{
    let mut flags = vec![in alloc; false; count]?;
    for entry in row {
        set_flag(&mut flags, entry, env);
    }
    Ok(flags)
}

/// Whether the child, dots or a list variable, takes the run.
fn takes_run(
    alloc: Global,
    bound: &BoundContext<'_>,
    child: &ListChild<'_>,
    run: &[ListMember],
) -> Result<bool, NoMemory>
    requires within { child.now.i ≤ length child.now.forms.now }
    requires wild { is_wild child.now.label (leaf_of (out-Tree child.now.form.now)) ≡ true }
    ensures { IfOk result (λ r. r ≡ takes bound.now.context.now.decls.now bound.now.context.now.tokens.now
        (total bound.now.env.now) child.now.label (comma_before child.now.forms.now child.now.i)
        (piece bound.now.context.now.decls.now bound.now.context.now.tokens.now bound.now.context.now.types.now (total
        bound.now.env.now) child.now.form.now)
        run.now) }
{
    let set = fit_wild(alloc, bound.context, child, run)?;
    Ok(denotes(&set, bound.env))
}

fn takes_if(
    alloc: Global,
    bound: &BoundContext<'_>,
    child: &ListChild<'_>,
    run: &[ListMember],
    rest_fits: bool,
) -> Result<bool, NoMemory>
    requires within { child.now.i ≤ length child.now.forms.now }
    requires wild { is_wild child.now.label (leaf_of (out-Tree child.now.form.now)) ≡ true }
    ensures { IfOk result (λ r. r ≡ (takes bound.now.context.now.decls.now bound.now.context.now.tokens.now
        (total bound.now.env.now) child.now.label (comma_before child.now.forms.now child.now.i)
        (piece bound.now.context.now.decls.now bound.now.context.now.tokens.now bound.now.context.now.types.now (total
        bound.now.env.now) child.now.form.now)
        run.now && rest_fits)) }
{
    if rest_fits {
        takes_run(alloc, bound, child, run)
    } else {
        Ok(false)
    }
}

/// Returns the least number of members that the child, which takes any run, may take such that the children after it take
/// the others. Costs as much as `solve` does for the children after it.
fn fewest(
    alloc: Global,
    bound: &BoundContext<'_>,
    child: &ListChild<'_>,
    members: &[ListMember],
) -> Result<usize, NoMemory>
    requires within { child.now.i < length child.now.forms.now }
    requires child { child.now.form.now ≡ slice_index_or child.now.forms.now child.now.i child.now.form.now }
    requires wild { is_wild child.now.label (leaf_of (out-Tree child.now.form.now)) ≡ true }
    ensures value { IfOk result (λ r. r ≡ least (takes_first bound.now.context.now.decls.now bound.now.context.now.tokens.now
        bound.now.context.now.types.now
        (total bound.now.env.now) child.now.label child.now.forms.now child.now.i child.now.form.now
        members.now) (suc (length members.now))) }
    ensures within { IfOk result (λ r. r ≤ length members.now) }
{
    let row = fit_rows(
        alloc,
        bound.context,
        child.label,
        child.forms,
        child.i + 1,
        members,
    )?;
    let flags = row_flags(alloc, row.as_slice(), members.len(), bound.env)?;
    for k in 0..members.len() {
        let run = &members[..k];
        if takes_if(alloc, bound, child, run, flags[k])? {
            return Ok(k);
        }
    }
    Ok(members.len())
}

/// Adds what the child, which takes any run, is aligned with after `taken` members. Returns the number of members taken
/// after it.
pub fn put_wild(
    alloc: Global,
    found: &mut Vec<AlignedToken>,
    bound: &BoundContext<'_>,
    child: &ListChild<'_>,
    members: &[ListMember],
    taken: usize,
) -> Result<usize, NoMemory>
    requires within { child.now.i < length child.now.forms.now }
    requires child { child.now.form.now ≡ slice_index_or child.now.forms.now child.now.i child.now.form.now }
    requires wild { is_wild child.now.label (leaf_of (out-Tree child.now.form.now)) ≡ true }
    requires left { taken ≤ length members.now }
    requires fits { fits_from bound.now.context.now.decls.now bound.now.context.now.tokens.now
        bound.now.context.now.types.now child.now.label
        (comma_before child.now.forms.now child.now.i) (drop child.now.i child.now.forms.now)
        (drop taken members.now) (total bound.now.env.now) ≡ true }
    ensures { IfOk result (λ next. IsNext bound.now.context.now.decls.now bound.now.context.now.tokens.now
        bound.now.context.now.types.now
        (total bound.now.env.now) child.now.label child.now.forms.now child.now.i members.now taken next
        found.old.items found.new.items) }
{
    let rest = &members[taken..];
    let count = fewest(alloc, bound, child, rest)?;
    put_comma_before(alloc, found, child.forms, child.i, &rest[..count])?;
    put_run(alloc, found, child.label, child.form, &rest[..count])?;
    Ok(taken + count)
}
