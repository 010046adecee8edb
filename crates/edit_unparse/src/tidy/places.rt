// Where the inserts of edits stand.
ghost use Rattle.std.specs.Prelude.{ℕ, ◌≡◌, ◌<◌, ◌++◌, Bool, length, fold, max, filter, IfOk, OnOk, if◌then◌else◌};
ghost use Rattle.std.specs.List.Sorted.{IsNonDecreasingBy};
ghost use Rattle.edit_marks.specs.declared.edit_conflict.edit.Side.TheVariants.{After};
ghost use Rattle.edit_unparse.specs.Tidy.Found.{all_inserts, placed_act, placed_marks, token_inserts};
ghost use Rattle.edit_unparse.specs.Tidy.Spots.{deepest_from, is_number, placed_number, spot, spot_number};

use crate::place::count_at;
use crate::tidy::plan::{Placed, Spot, spot_number};
use c_terms::NoMemory;
use edit_marks::{Act, EditList, Mark, Side};
use std::alloc::Global;
use std::cmp::Reverse;
use tidy_flags::{flag_at, number_at};

/// Returns the inserts by place. Those at a removed token stand before the first token of its run. Takes n log n steps for n
/// inserts, and else is linear.
pub fn placed_inserts(
    alloc: Global,
    edits: &EditList,
    removed: &[bool],
    joined: &[bool],
    depths: &[u32],
) -> Result<Vec<Placed>, NoMemory>
    requires { length joined.now < 4294967296 }
    ensures rise { IfOk result (λ inserts. IsNonDecreasingBy placed_number inserts.items) }
    ensures all { IfOk result (λ inserts. (token : ℕ) (after : Bool) →
        filter (is_number (spot_number (spot token after))) inserts.items
        ≡ filter (is_number (spot_number (spot token after))) (all_inserts edits.now removed.now depths.now 0 0 joined.now)) }
{
    let mut found = found_inserts(alloc, edits, removed, joined, depths)?;
    found.sort_by_key(|it| spot_number(it.spot))?;
    Ok(found)
}

/// Returns the inserts in the order of the tokens at which the edits have them.
fn found_inserts(
    alloc: Global,
    edits: &EditList,
    removed: &[bool],
    joined: &[bool],
    depths: &[u32],
) -> Result<Vec<Placed>, NoMemory>
    requires { length joined.now < 4294967296 }
    ensures { IfOk result (λ found. found.items ≡ all_inserts edits.now removed.now depths.now 0 0 joined.now) }
{
    let marks = edits.marks();
    let mut found = Vec::new(alloc);
    let mut at = 0;
    let mut start = 0;
    for token in 0..joined.len() {
        let number = token as u32;
        let end = at + count_at(&marks[at..], number);
        start = start_of(start, number, flag_at(joined, token));
        let goes = flag_at(removed, token);
        let home = home_of(start, number, goes);
        put_token(alloc, &mut found, &marks[at..end], depths, home, goes)?;
        at = end;
    }
    Ok(found)
}

/// Returns the first token of a token's run.
fn start_of(start: u32, token: u32, is_joined: bool) -> u32
    ensures { result ≡ (if is_joined then start else token) }
{
    if is_joined { start } else { token }
}

/// Returns the token at whose place a token's inserts stand.
fn home_of(start: u32, token: u32, goes: bool) -> u32
    ensures { result ≡ (if goes then start else token) }
{
    if goes { start } else { token }
}

/// Adds the inserts that the acts at a token have, at the place of `home`.
fn put_token(
    alloc: Global,
    found: &mut Vec<Placed>,
    marks: &[Mark],
    depths: &[u32],
    home: u32,
    goes: bool,
) -> Result<(), NoMemory>
    ensures { OnOk result (found.new.items ≡ found.old.items ++ token_inserts depths.now goes home marks.now) }
{
    let before = Spot {
        token: home,
        after: false,
    };
    put_placed(found, marks, depths, Side::Before, before)?;
    if goes {
        return put_placed(found, marks, depths, Side::After, before);
    }
    let after = Spot {
        token: home,
        after: true,
    };
    put_deepest(alloc, found, marks, depths, after)
}

/// Adds the inserts after a token that stays, those of the deepest edits first.
fn put_deepest(
    alloc: Global,
    found: &mut Vec<Placed>,
    marks: &[Mark],
    depths: &[u32],
    spot: Spot,
) -> Result<(), NoMemory>
    ensures { OnOk result (found.new.items ≡ found.old.items
        ++ deepest_from (fold max 0 depths.now) (placed_marks depths.now After spot marks.now)) }
{
    let mut own = Vec::new(alloc);
    put_placed(&mut own, marks, depths, Side::After, spot)?;
    own.sort_by_key(|it| Reverse(it.depth))?;
    found.extend_from_slice(&own)?;
    Ok(())
}

/// Adds the inserts that acts have on one side.
fn put_placed(
    found: &mut Vec<Placed>,
    marks: &[Mark],
    depths: &[u32],
    side: Side,
    spot: Spot,
) -> Result<(), NoMemory>
    ensures { OnOk result (found.new.items ≡ found.old.items ++ placed_marks depths.now side spot marks.now) }
{
    for mark in marks {
        put_mark(found, *mark, depths, side, spot)?;
    }
    Ok(())
}

/// Adds the insert that an act has, if it is on this side.
fn put_mark(
    found: &mut Vec<Placed>,
    mark: Mark,
    depths: &[u32],
    side: Side,
    spot: Spot,
) -> Result<(), NoMemory>
    ensures { OnOk result (found.new.items ≡ found.old.items ++ placed_act depths.now side spot mark.edit mark.act) }
{
    let Act::Insert(own, _, insert) = mark.act else {
        return Ok(());
    };
    if own.number() != side.number() {
        return Ok(());
    }
    found.push(Placed {
        spot,
        edit: mark.edit,
        insert,
        depth: number_at(depths, mark.edit),
    })?;
    Ok(())
}
