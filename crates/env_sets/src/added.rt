// Blocks of entries in order, with one more entry.
ghost use Rattle.std.specs.Prelude.{◌≡◌, ◌||◌, ◌++◌, ◌≤◌, Bool, true, ◌∷◌, length, IfOk, IfSome};
ghost use Rattle.smpl_terms.specs.declared.var.Var.{Var};
ghost use Rattle.smpl_terms.specs.Environments.{Environment};
ghost use Rattle.env_sets.specs.Sets.{Entries, entry_denotes, entry_vars, set_denotes, set_vars};
ghost use Rattle.env_sets.specs.Ascending.{FirstMayFollow};
ghost use Rattle.env_sets.specs.Blocks.{all_entries, AreInOrder, LastMayPrecede};

use crate::ascending::may_follow;
use crate::blocks::{blocks_around, put_entries};
use crate::entries::{Entry, entry_covers, entry_order};
use c_terms::NoMemory;
use smpl_terms::SharedList;
use std::alloc::Global;

/// Returns the blocks with one more entry at its place, or `None` if the place is not evident. If an entry at that place covers
/// it, returns the blocks as they are. Copies one block and a pointer to each of the others.
pub fn blocks_with(
    alloc: Global,
    blocks: &SharedList<SharedList<Entry>>,
    e: &Entry,
) -> Result<Option<SharedList<SharedList<Entry>>>, NoMemory>
    requires { AreInOrder blocks.now }
    ensures meaning { IfOk result (λ o. IfSome o (λ r. (env : Environment) →
        set_denotes (all_entries r) env ≡ (set_denotes (all_entries blocks.now) env || entry_denotes e.now env))) }
    ensures vars { IfOk result (λ o. IfSome o (λ r. (t : Var → Bool) → set_vars t (all_entries blocks.now) ≡ true
        → entry_vars t e.now ≡ true → set_vars t (all_entries r) ≡ true)) }
    ensures order { IfOk result (λ o. IfSome o (λ r. AreInOrder r)) }
{
    let list = blocks.as_slice();
    let (before, from) = list.split_at(block_for(list, e));
    match from {
        [] => Ok(None),
        [block, after @ ..] => with_in_block(alloc, blocks, before, block, after, e),
    }
}

/// Like `blocks_with`, given that the place is in this block if it exists.
fn with_in_block(
    alloc: Global,
    blocks: &SharedList<SharedList<Entry>>,
    before: &[SharedList<Entry>],
    block: &SharedList<Entry>,
    after: &[SharedList<Entry>],
    e: &Entry,
) -> Result<Option<SharedList<SharedList<Entry>>>, NoMemory>
    requires order { AreInOrder blocks.now }
    requires parts { blocks.now ≡ before.now ++ block.now ∷ after.now }
    ensures meaning { IfOk result (λ o. IfSome o (λ r. (env : Environment) →
        set_denotes (all_entries r) env ≡ (set_denotes (all_entries blocks.now) env || entry_denotes e.now env))) }
    ensures vars { IfOk result (λ o. IfSome o (λ r. (t : Var → Bool) → set_vars t (all_entries blocks.now) ≡ true
        → entry_vars t e.now ≡ true → set_vars t (all_entries r) ≡ true)) }
    ensures order { IfOk result (λ o. IfSome o (λ r. AreInOrder r)) }
{
    let entries = block.as_slice();
    let (front, back) = entries.split_at(place_for(entries, e));
    if last_covers(front, e) {
        return Ok(Some(blocks.share()?));
    }
    if may_end(before, front, e) && may_begin(e, back, after) {
        return Ok(Some(with_between(alloc, before, front, e, back, after)?));
    }
    Ok(None)
}

/// Whether the entry before the place of `e` covers `e`. Finds the place by binary search, and takes no memory.
pub fn blocks_cover(blocks: &[SharedList<Entry>], e: &Entry) -> bool
    ensures { result ≡ true → (env : Environment) → entry_denotes e.now env ≡ true →
        set_denotes (all_entries blocks.now) env ≡ true }
{
    let i = block_for(blocks, e);
    if i >= blocks.len() {
        return false;
    }
    block_covers(blocks[i].as_slice(), e)
}

/// Like `blocks_cover`, for one block.
fn block_covers(block: &[Entry], e: &Entry) -> bool
    ensures { result ≡ true → (env : Environment) → entry_denotes e.now env ≡ true →
        set_denotes block.now env ≡ true }
{
    let (front, _) = block.split_at(place_for(block, e));
    last_covers(front, e)
}

/// Returns the index of the last block that begins with an entry not later than `e`, or of the first block if there is none.
fn block_for(blocks: &[SharedList<Entry>], e: &Entry) -> usize
    ensures { result ≤ length blocks.now }
{
    blocks
        .partition_point(|block| !begins_later(block.as_slice(), e))
        .saturating_sub(1)
}

fn begins_later(block: &[Entry], e: &Entry) -> bool {
    match block {
        [first, ..] => entry_order(first, e).is_gt(),
        [] => false,
    }
}

/// Returns the number of entries at the front of the block that are not later than `e`.
fn place_for(block: &[Entry], e: &Entry) -> usize
    ensures { result ≤ length block.now }
{
    block.partition_point(|other| !entry_order(other, e).is_gt())
}

/// Whether the last of the entries covers `e`.
fn last_covers(entries: &[Entry], e: &Entry) -> bool
    ensures { result ≡ true → (env : Environment) → entry_denotes e.now env ≡ true →
        set_denotes entries.now env ≡ true }
{
    if entries.is_empty() {
        return false;
    }
    entry_covers(&entries[entries.len() - 1], e)
}

/// Whether `e` may follow the last of these entries.
fn may_end(before: &[SharedList<Entry>], front: &[Entry], e: &Entry) -> bool
    ensures { result ≡ true → LastMayPrecede (all_entries before.now ++ front.now) e.now }
{
    if front.is_empty() {
        return before.is_empty();
    }
    may_follow(front[front.len() - 1].pairs(), e.pairs())
}

/// Whether the first of these entries may follow `e`.
fn may_begin(e: &Entry, back: &[Entry], after: &[SharedList<Entry>]) -> bool
    ensures { result ≡ true → FirstMayFollow e.now (back.now ++ all_entries after.now) }
{
    match back {
        [first, ..] => may_follow(e.pairs(), first.pairs()),
        [] => match after {
            [] => true,
            [block, ..] => may_begin_block(e, block.as_slice()),
        },
    }
}

/// Whether the block has a first entry that may follow `e`.
fn may_begin_block(e: &Entry, block: &[Entry]) -> bool
    ensures { result ≡ true → (es : Entries) → FirstMayFollow e.now (block.now ++ es) }
{
    match block {
        [first, ..] => may_follow(e.pairs(), first.pairs()),
        [] => false,
    }
}

/// Returns all of these entries, with `e` between `front` and `back`.
fn with_between(
    alloc: Global,
    before: &[SharedList<Entry>],
    front: &[Entry],
    e: &Entry,
    back: &[Entry],
    after: &[SharedList<Entry>],
) -> Result<SharedList<SharedList<Entry>>, NoMemory>
    ensures { IfOk result (λ r. all_entries r ≡
        (all_entries before.now ++ front.now) ++ e.now ∷ (back.now ++ all_entries after.now)) }
{
    let block = block_with(alloc, front, e, back)?;
    blocks_around(alloc, before, block, after)
}

/// Returns the entries of a block with `e` between them. All entries are shared.
fn block_with(
    alloc: Global,
    front: &[Entry],
    e: &Entry,
    back: &[Entry],
) -> Result<Vec<Entry>, NoMemory>
    ensures { IfOk result (λ r. r.items ≡ front.now ++ e.now ∷ back.now) }
{
    let most = front.len().saturating_add(back.len()).saturating_add(1);
    let mut block = Vec::with_capacity(alloc, most)?;
    put_entries(&mut block, front)?;
    block.push(e.share()?)?;
    put_entries(&mut block, back)?;
    Ok(block)
}
