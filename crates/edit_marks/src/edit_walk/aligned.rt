// Alignments by the numbers of tokens.
ghost use Rattle.std.specs.Prelude.{◌≡◌, ◌≤◌, ◌^◌, ◌++◌, IfOk, OnOk, length};
ghost use Rattle.std.specs.List.{filter_map, flat_map};
ghost use Rattle.edit_marks.specs.EditWalk.Keys.{number_of};
ghost use Rattle.edit_marks.specs.EditWalk.Named.{numbered};

use crate::Aligned;
use crate::edit_walk::numbers::Numbers;
use c_terms::NoMemory;
use pat_match::AlignedToken;
use sqlite_items::Items;
use std::alloc::Global;

/// Returns the pairs by numbers: a pattern token's id is its number among the rule's tokens, and the table has the numbers
/// of the file's tokens by their ids.
pub fn numbered(
    alloc: Global,
    ids: &Numbers,
    pairs: &[AlignedToken],
) -> Result<Vec<Aligned>, NoMemory>
    requires few { length ids.now ≤ 2 ^ 32 }
    ensures { IfOk result (λ found. found.items ≡ flat_map (numbered ids.now) pairs.now) }
{
    let mut found = Vec::new(alloc);
    for pair in pairs {
        put_numbered(alloc, ids, pair, &mut found)?;
    }
    Ok(found)
}

fn put_numbered(
    alloc: Global,
    ids: &Numbers,
    pair: &AlignedToken,
    found: &mut Vec<Aligned>,
) -> Result<(), NoMemory>
    requires few { length ids.now ≤ 2 ^ 32 }
    ensures { OnOk result (found.new.items ≡ found.old.items ++ numbered ids.now pair.now) }
{
    if pair.pattern < 1 << 32 {
        let files = file_numbers(alloc, ids, pair.files.as_slice())?;
        found.push(Aligned {
            pattern: pair.pattern as u32,
            files,
        })?;
    }
    Ok(())
}

fn file_numbers(alloc: Global, ids: &Numbers, files: &[u64]) -> Result<Items<u32>, NoMemory>
    requires few { length ids.now ≤ 2 ^ 32 }
    ensures { IfOk result (λ numbers. numbers ≡ filter_map (number_of ids.now) files.now) }
{
    let mut numbers = Vec::with_capacity(alloc, files.len())?;
    for id in files {
        if let Some(number) = ids.find(*id) {
            numbers.push(number as u32)?;
        }
    }
    Ok(Items::from_vec(numbers))
}
