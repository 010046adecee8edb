// Blocks of entries in order, without those that fix a variable at a value.
ghost use Rattle.std.specs.Prelude.{◌≡◌, ◌&&◌, ◌++◌, ◌≤◌, Bool, true, false, not, ◌∷◌, length, take, Some, IfOk, IfSome};
ghost use Rattle.std.specs.declared.cmp.Ordering.TheVariants.{Less, Equal, Greater};
ghost use Rattle.smpl_terms.specs.declared.var.Var.{Var};
ghost use Rattle.smpl_terms.specs.Values.{same};
ghost use Rattle.smpl_terms.specs.Environments.{Environment};
ghost use Rattle.env_sets.specs.Sets.{Entries, entry_denotes, set_denotes, set_vars};
ghost use Rattle.env_sets.specs.Ascending.{side};
ghost use Rattle.env_sets.specs.Blocks.{all_entries, AreInOrder, LastIsBefore, FirstIsAfter};

use crate::blocks::{blocks_around, put_entries};
use crate::bounds::Bound;
use crate::entries::Entry;
use c_terms::NoMemory;
use smpl_terms::{SharedList, Value, Var, same_var, value_order};
use std::alloc::Global;
use std::cmp::Ordering;

/// Returns the blocks without the entries that fix x to be `v`, or `None` if these are not evident: if their neighbours don't
/// begin with x, or if they are in several blocks. It copies one block and a pointer to each of the others, and nothing if no
/// entry is removed.
pub fn blocks_without(
    alloc: Global,
    blocks: &SharedList<SharedList<Entry>>,
    x: &Var,
    v: &Value,
) -> Result<Option<SharedList<SharedList<Entry>>>, NoMemory>
    requires { AreInOrder blocks.now }
    ensures meaning { IfOk result (λ o. IfSome o (λ r. (env : Environment) →
        set_denotes (all_entries r) env ≡ (set_denotes (all_entries blocks.now) env && not (same v.now (env x.now))))) }
    ensures vars { IfOk result (λ o. IfSome o (λ r. (t : Var → Bool) → set_vars t (all_entries blocks.now) ≡ true
        → set_vars t (all_entries r) ≡ true)) }
    ensures order { IfOk result (λ o. IfSome o (λ r. AreInOrder r)) }
{
    let list = blocks.as_slice();
    let (before, from) = list.split_at(block_at(list, x, v));
    match from {
        [] => Ok(None),
        [block, after @ ..] => without_in_block(alloc, blocks, before, block, after, x, v),
    }
}

/// Like `blocks_without`, given that the entries are in this block if they exist.
fn without_in_block(
    alloc: Global,
    blocks: &SharedList<SharedList<Entry>>,
    before: &[SharedList<Entry>],
    block: &SharedList<Entry>,
    after: &[SharedList<Entry>],
    x: &Var,
    v: &Value,
) -> Result<Option<SharedList<SharedList<Entry>>>, NoMemory>
    requires order { AreInOrder blocks.now }
    requires parts { blocks.now ≡ before.now ++ block.now ∷ after.now }
    ensures meaning { IfOk result (λ o. IfSome o (λ r. (env : Environment) →
        set_denotes (all_entries r) env ≡ (set_denotes (all_entries blocks.now) env && not (same v.now (env x.now))))) }
    ensures vars { IfOk result (λ o. IfSome o (λ r. (t : Var → Bool) → set_vars t (all_entries blocks.now) ≡ true
        → set_vars t (all_entries r) ≡ true)) }
    ensures order { IfOk result (λ o. IfSome o (λ r. AreInOrder r)) }
{
    let entries = block.as_slice();
    let (front, rest) = entries.split_at(count_before(entries, x, v));
    let (fixed, back) = rest.split_at(count_at(rest, x, v));
    if !ends_below(before, front, x, v) {
        return Ok(None);
    }
    if !begins_above(back, after, x, v) {
        return Ok(None);
    }
    if fixed.is_empty() {
        return Ok(Some(blocks.share()?));
    }
    Ok(Some(without_between(alloc, before, front, back, after)?))
}

/// Returns the side of an entry that fixes x first: whether its value is before `v`, the same or after it. Returns `None` for
/// other entries.
fn side_at(e: &Entry, x: &Var, v: &Value) -> Option<Ordering>
    ensures less { result ≡ Some Less → (env : Environment) → same v.now (env x.now) ≡ true → side e.now env ≡ Less }
    ensures greater { result ≡ Some Greater → (env : Environment) → same v.now (env x.now) ≡ true → side e.now env ≡ Greater }
    ensures equal { result ≡ Some Equal → (env : Environment) → same v.now (env x.now) ≡ false → entry_denotes e.now env ≡ false }
{
    match e.pairs() {
        [] => None,
        [p, ..] => match &p.1 {
            Bound::Not(_) => None,
            Bound::Is(w) => {
                if same_var(&p.0, x) {
                    Some(value_order(w, v))
                } else {
                    None
                }
            }
        },
    }
}

fn is_below(e: &Entry, x: &Var, v: &Value) -> bool
    ensures { result ≡ true → (env : Environment) → same v.now (env x.now) ≡ true → side e.now env ≡ Less }
{
    matches!(side_at(e, x, v), Some(Ordering::Less))
}

fn is_above(e: &Entry, x: &Var, v: &Value) -> bool
    ensures { result ≡ true → (env : Environment) → same v.now (env x.now) ≡ true → side e.now env ≡ Greater }
{
    matches!(side_at(e, x, v), Some(Ordering::Greater))
}

fn is_at(e: &Entry, x: &Var, v: &Value) -> bool
    ensures { result ≡ true → (env : Environment) → same v.now (env x.now) ≡ false → entry_denotes e.now env ≡ false }
{
    matches!(side_at(e, x, v), Some(Ordering::Equal))
}

/// Returns the index of the last block whose first entry fixes x below `v`, or of the first block if there is none.
fn block_at(blocks: &[SharedList<Entry>], x: &Var, v: &Value) -> usize
    ensures { result ≤ length blocks.now }
{
    blocks
        .partition_point(|block| begins_below(block.as_slice(), x, v))
        .saturating_sub(1)
}

fn begins_below(block: &[Entry], x: &Var, v: &Value) -> bool {
    match block {
        [first, ..] => is_below(first, x, v),
        [] => false,
    }
}

/// Returns the number of entries at the front of a block that fix x below `v`.
fn count_before(block: &[Entry], x: &Var, v: &Value) -> usize
    ensures { result ≤ length block.now }
{
    block.partition_point(|e| is_below(e, x, v))
}

/// Returns the number of entries at the front of a list that fix x at `v`.
fn count_at(entries: &[Entry], x: &Var, v: &Value) -> usize
    ensures within { result ≤ length entries.now }
    ensures fixed { (env : Environment) → same v.now (env x.now) ≡ false →
        set_denotes (take result entries.now) env ≡ false }
{
    for i in 0..entries.len() {
        if !is_at(&entries[i], x, v) {
            return i;
        }
    }
    entries.len()
}

/// Whether the last of these entries fixes x below `v`.
fn ends_below(before: &[SharedList<Entry>], front: &[Entry], x: &Var, v: &Value) -> bool
    ensures { result ≡ true → (env : Environment) → same v.now (env x.now) ≡ true →
        LastIsBefore env (all_entries before.now ++ front.now) }
{
    if front.is_empty() {
        return before.is_empty();
    }
    is_below(&front[front.len() - 1], x, v)
}

/// Whether the first of these entries fixes x above `v`.
fn begins_above(back: &[Entry], after: &[SharedList<Entry>], x: &Var, v: &Value) -> bool
    ensures { result ≡ true → (env : Environment) → same v.now (env x.now) ≡ true →
        FirstIsAfter env (back.now ++ all_entries after.now) }
{
    match back {
        [first, ..] => is_above(first, x, v),
        [] => match after {
            [] => true,
            [block, ..] => block_begins_above(block.as_slice(), x, v),
        },
    }
}

/// Whether the block has a first entry that fixes x above `v`.
fn block_begins_above(block: &[Entry], x: &Var, v: &Value) -> bool
    ensures { result ≡ true → (env : Environment) → same v.now (env x.now) ≡ true → (es : Entries) →
        FirstIsAfter env (block.now ++ es) }
{
    match block {
        [first, ..] => is_above(first, x, v),
        [] => false,
    }
}

/// Returns all of these entries, in blocks.
fn without_between(
    alloc: Global,
    before: &[SharedList<Entry>],
    front: &[Entry],
    back: &[Entry],
    after: &[SharedList<Entry>],
) -> Result<SharedList<SharedList<Entry>>, NoMemory>
    ensures { IfOk result (λ r. all_entries r ≡
        (all_entries before.now ++ front.now) ++ (back.now ++ all_entries after.now)) }
{
    let block = block_of(alloc, front, back)?;
    blocks_around(alloc, before, block, after)
}

/// Returns the entries of both slices as one block. The entries are shared.
fn block_of(alloc: Global, front: &[Entry], back: &[Entry]) -> Result<Vec<Entry>, NoMemory>
    ensures { IfOk result (λ r. r.items ≡ front.now ++ back.now) }
{
    let mut block = Vec::with_capacity(alloc, front.len().saturating_add(back.len()))?;
    put_entries(&mut block, front)?;
    put_entries(&mut block, back)?;
    Ok(block)
}
