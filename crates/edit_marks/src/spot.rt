// Where an alignment inserts plus code.
ghost use Rattle.std.specs.Prelude.{◌≡◌, ◌++◌, slice_get, IfOk, OnOk};
ghost use Rattle.std.specs.List.Sorted.{IsPermutation, IsSortedBy};
ghost use Rattle.std.specs.Ordering.{is_lt};
ghost use Rattle.edit_marks.specs.Spots.{side, spot_order, all_spots, spots_of, token_spots};

use crate::removals::Aligned;
use c_terms::NoMemory;
use smpl_patch::PatToken;
use std::alloc::Global;
use std::cmp::Ordering;

/// A place for plus code: before or after a token of the file, with the pattern token that carries the block.
#[derive(Clone, Copy, Debug, PartialEq, Eq)]
pub struct PlusSpot {
    pub token: u32,
    pub after: bool,
    pub pattern: u32,
}

/// Returns the places of all plus code whose anchors are aligned: by token, with those before a token first, and then by the
/// number of the pattern token. Takes n log n steps for n places.
pub fn spots(
    alloc: Global,
    tokens: &[PatToken],
    pairs: &[Aligned],
) -> Result<Vec<PlusSpot>, NoMemory>
    ensures all { IfOk result (λ spots. IsPermutation (all_spots tokens.now pairs.now) spots.items) }
    ensures sorted { IfOk result (λ spots. IsSortedBy (λ a b. is_lt (spot_order a b)) spots.items) }
{
    let mut spots = unsorted(alloc, tokens, pairs)?;
    spots.sort_unstable_by(|a, b| spot_order(a, b));
    Ok(spots)
}

fn unsorted(
    alloc: Global,
    tokens: &[PatToken],
    pairs: &[Aligned],
) -> Result<Vec<PlusSpot>, NoMemory>
    ensures { IfOk result (λ spots. spots.items ≡ all_spots tokens.now pairs.now) }
{
    let mut spots = Vec::new(alloc);
    for pair in pairs {
        push_spots(&mut spots, tokens, pair)?;
    }
    Ok(spots)
}

fn push_spots(
    spots: &mut Vec<PlusSpot>,
    tokens: &[PatToken],
    pair: &Aligned,
) -> Result<(), NoMemory>
    ensures { OnOk result (spots.new.items ≡ spots.old.items
        ++ spots_of (slice_get tokens.now pair.now.pattern) pair.now) }
{
    match tokens.get(pair.pattern as usize) {
        Some(token) => push_token_spots(spots, token, pair),
        None => Ok(()),
    }
}

fn push_token_spots(
    spots: &mut Vec<PlusSpot>,
    token: &PatToken,
    pair: &Aligned,
) -> Result<(), NoMemory>
    ensures { OnOk result (spots.new.items ≡ spots.old.items ++ token_spots token.now pair.now) }
{
    let files = pair.files.as_slice();
    if token.before.is_some() && files.len() > 0 {
        spots.push(PlusSpot {
            token: files[0],
            after: false,
            pattern: pair.pattern,
        })?;
    }
    if token.after.is_some() && files.len() > 0 {
        spots.push(PlusSpot {
            token: files[files.len() - 1],
            after: true,
            pattern: pair.pattern,
        })?;
    }
    Ok(())
}

fn spot_order(a: &PlusSpot, b: &PlusSpot) -> Ordering
    ensures { result ≡ spot_order a.now b.now }
{
    a.token
        .cmp(&b.token)
        .then(side(a.after).cmp(&side(b.after)))
        .then(a.pattern.cmp(&b.pattern))
}

fn side(after: bool) -> u8
    ensures { result ≡ side after }
{
    if after { 1 } else { 0 }
}
