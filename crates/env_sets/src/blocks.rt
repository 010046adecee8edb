// Entries in the order of the values that they fix, kept in blocks, so that a set with one more or one fewer entry shares
// most of them.
//
//     [1, .., 60]  [64, .., 99]   with 62   =   [1, .., 60, 62]  [64, .., 99]
ghost use Rattle.std.specs.Prelude.{◌≡◌, ◌++◌, ◌<◌, ◌≤◌, true, false, [], length, take, IfOk};
ghost use Rattle.smpl_terms.specs.Environments.{total};
ghost use Rattle.env_sets.specs.Sets.{Entries, set_denotes};
ghost use Rattle.env_sets.specs.Blocks.{all_entries, AreInOrder, LastIsBefore, FirstIsAfter};

use crate::ascending::{ascending_hold, entry_side};
use crate::entries::Entry;
use c_terms::NoMemory;
use smpl_terms::{Env, SharedList};
use std::alloc::Global;

/// A block with more entries than this is split in two.
const MOST: usize = 128;

/// The number of entries in a newly made block.
const HALF: usize = 64;

/// Splits these entries into blocks. The entries are moved.
pub fn blocks_of(
    alloc: Global,
    entries: Vec<Entry>,
) -> Result<SharedList<SharedList<Entry>>, NoMemory>
    ensures { IfOk result (λ r. all_entries r ≡ entries.items) }
{
    let mut blocks = Vec::new(alloc);
    let mut block = Vec::new(alloc);
    for e in entries {
        if block.len() >= HALF {
            blocks.push(SharedList::of(alloc, block)?)?;
            block = Vec::new(alloc);
        }
        block.push(e)?;
    }
    blocks.push(SharedList::of(alloc, block)?)?;
    Ok(SharedList::of(alloc, blocks)?)
}

/// Appends these entries, which are shared.
pub fn put_entries(out: &mut Vec<Entry>, entries: &[Entry]) -> Result<(), NoMemory>
    ensures { IfOk result (λ _. out.new.items ≡ out.old.items ++ entries.now) }
{
    for e in entries {
        out.push(e.share()?)?;
    }
    Ok(())
}

/// Appends the entries of all blocks, which are shared.
pub fn put_blocks(out: &mut Vec<Entry>, blocks: &[SharedList<Entry>]) -> Result<(), NoMemory>
    ensures { IfOk result (λ _. out.new.items ≡ out.old.items ++ all_entries blocks.now) }
{
    for block in blocks {
        put_entries(out, block.as_slice())?;
    }
    Ok(())
}

/// Whether no block has an entry.
pub fn are_empty(blocks: &[SharedList<Entry>]) -> bool
    ensures none { result ≡ true → all_entries blocks.now ≡ [] }
    ensures some { result ≡ false → 0 < length (all_entries blocks.now) }
{
    for block in blocks {
        if !block.as_slice().is_empty() {
            return false;
        }
    }
    true
}

/// Whether an entry stands for `env`. It uses binary search to find the first block that is not before `env`, and the first
/// such entry in the block. Takes no memory.
pub fn blocks_hold(blocks: &[SharedList<Entry>], env: &Env) -> bool
    requires { AreInOrder blocks.now }
    ensures { result ≡ set_denotes (all_entries blocks.now) (total env.now) }
{
    for i in first_block(blocks, env)..blocks.len() {
        let block = blocks[i].as_slice();
        if is_behind(block, env) {
            return false;
        }
        if ascending_hold(block, env) {
            return true;
        }
    }
    false
}

/// Returns the index of the first block that is not before `env`, or the number of blocks if there is none.
fn first_block(blocks: &[SharedList<Entry>], env: &Env) -> usize
    requires { AreInOrder blocks.now }
    ensures within { result ≤ length blocks.now }
    ensures front { set_denotes (all_entries (take result blocks.now)) (total env.now) ≡ false }
{
    let (mut low, mut high) = (0, blocks.len());
    while low < high {
        let middle = low + (high - low) / 2;
        if ends_before(blocks[middle].as_slice(), env) {
            low = middle + 1;
        } else {
            high = middle;
        }
    }
    low
}

/// Whether the last entry of the block is before `env`.
fn ends_before(block: &[Entry], env: &Env) -> bool
    ensures { result ≡ true → (es : Entries) → LastIsBefore (total env.now) (es ++ block.now) }
{
    if block.is_empty() {
        return false;
    }
    entry_side(block[block.len() - 1].pairs(), env).is_lt()
}

/// Whether the first entry of the block is after `env`.
fn is_behind(block: &[Entry], env: &Env) -> bool
    ensures { result ≡ true → (es : Entries) → FirstIsAfter (total env.now) (block.now ++ es) }
{
    match block {
        [first, ..] => entry_side(first.pairs(), env).is_gt(),
        [] => false,
    }
}

/// Returns these blocks with one more between them: two if it has too many entries, and none if it is empty. The blocks before
/// and after it are shared.
pub fn blocks_around(
    alloc: Global,
    before: &[SharedList<Entry>],
    block: Vec<Entry>,
    after: &[SharedList<Entry>],
) -> Result<SharedList<SharedList<Entry>>, NoMemory>
    ensures { IfOk result (λ r. all_entries r ≡ all_entries before.now ++ (block.items ++ all_entries after.now)) }
{
    let mut blocks = Vec::with_capacity(
        alloc,
        before.len().saturating_add(after.len()).saturating_add(2),
    )?;
    put_shares(&mut blocks, before)?;
    put_block(alloc, &mut blocks, block)?;
    put_shares(&mut blocks, after)?;
    Ok(SharedList::of(alloc, blocks)?)
}

/// Appends these blocks, which are shared.
fn put_shares(
    out: &mut Vec<SharedList<Entry>>,
    blocks: &[SharedList<Entry>],
) -> Result<(), NoMemory>
    ensures { IfOk result (λ _. out.new.items ≡ out.old.items ++ blocks.now) }
{
    for block in blocks {
        out.push(block.share()?)?;
    }
    Ok(())
}

/// Appends a block: two blocks if it has too many entries, and none if it is empty.
fn put_block(
    alloc: Global,
    out: &mut Vec<SharedList<Entry>>,
    block: Vec<Entry>,
) -> Result<(), NoMemory>
    ensures { IfOk result (λ _. all_entries out.new.items ≡ all_entries out.old.items ++ block.items) }
{
    if block.is_empty() {
        return Ok(());
    }
    let mut front = block;
    if front.len() > MOST {
        let back = front.split_off(HALF)?;
        out.push(SharedList::of(alloc, front)?)?;
        out.push(SharedList::of(alloc, back)?)?;
        return Ok(());
    }
    out.push(SharedList::of(alloc, front)?)?;
    Ok(())
}
