// The statements of which nothing stays.
ghost use Rattle.std.specs.Prelude.{ℕ, ◌≡◌, ◌<◌, ◌+◌, ◌^◌, ◌++◌, ◌∷◌, [], Bool, List, All, EachIndex, IfOk, OnOk};
ghost use Rattle.std.specs.Prelude.{if◌then◌else◌, false, filter, get_or, length, map, max, nat_eq, not, slice_index};
ghost use Rattle.std.specs.List.{list_any};
ghost use Rattle.edit_marks.specs.declared.tidy.shape.LeafRange.{LeafRange};
ghost use Rattle.edit_bodies.specs.Gone as spec;

use c_terms::NoMemory;
use edit_marks::{Edit, LeafRange, Outline};
use edit_unparse::{Extent, removed_flags};
use std::alloc::Global;
use tidy_flags::{flag_at, number_at};

/// Returns the statements with bodies of which no token stays, the outermost alone. Linear in the edits and the outline.
pub fn gone_statements(
    alloc: Global,
    edits: &[Edit],
    outline: &Outline,
) -> Result<Vec<Extent>, NoMemory>
    ensures { IfOk result (λ gone. gone.items ≡ spec.gone_of edits.now outline.now) }
{
    let leaves = outline.leaves.as_slice();
    let removed = removed_flags(alloc, count_for(leaves), edits)?;
    let flags = removed.as_slice();
    let counts = staying_counts(alloc, leaves, flags)?;
    let stays = counts.as_slice();
    let statements = outline.statements.as_slice();
    let gone = gone_ranges(alloc, statements, stays)?;
    let ranges = gone.as_slice();
    let outer = outermost(alloc, leaves.len(), ranges)?;
    let whole = outer.as_slice();
    let found = extents(alloc, leaves, whole)?;
    Ok(found)
}

/// Returns a number that is above these.
fn count_for(leaves: &[u32]) -> usize
    ensures { EachIndex leaves.now (λ k. slice_index leaves.now k < result) }
{
    let mut count = 0;
    for leaf in leaves {
        count = count.max(*leaf as usize + 1);
    }
    count
}

/// Returns for each number of leaves how many of these first ones stay.
fn staying_counts(alloc: Global, leaves: &[u32], removed: &[bool]) -> Result<Vec<usize>, NoMemory>
    ensures { IfOk result (λ counts. spec.AreCounts (λ n. not (get_or removed.now n false)) leaves.now counts.items) }
{
    let mut counts = Vec::with_capacity(alloc, leaves.len().saturating_add(1))?;
    let mut count = 0;
    counts.push(count)?;
    for leaf in leaves {
        count = count_after(count, !flag_at(removed, *leaf as usize));
        counts.push(count)?;
    }
    Ok(counts)
}

/// Returns a count with one more, if `is` holds.
fn count_after(count: usize, is: bool) -> usize
    requires { count + 1 < 2 ^ 64 }
    ensures { result ≡ (if is then count + 1 else count) }
{
    if is { count + 1 } else { count }
}

/// Returns the statements of which no leaf stays, given how many of the first leaves stay.
fn gone_ranges(
    alloc: Global,
    ranges: &[LeafRange],
    counts: &[usize],
) -> Result<Vec<LeafRange>, NoMemory>
    ensures { (goes : ℕ → Bool) (leaves : List ℕ) → spec.AreCounts (λ n. not (goes n)) leaves counts.now →
        IfOk result (λ gone. gone.items ≡ filter (spec.is_gone goes leaves) ranges.now) }
{
    let mut gone = Vec::new(alloc);
    for range in ranges {
        push_if(&mut gone, *range, is_gone(counts, *range))?;
    }
    Ok(gone)
}

/// Whether no leaf of a statement stays.
fn is_gone(counts: &[usize], range: LeafRange) -> bool
    ensures { (goes : ℕ → Bool) (leaves : List ℕ) → spec.AreCounts (λ n. not (goes n)) leaves counts.now →
        result ≡ spec.is_gone goes leaves range }
{
    if range.to < counts.len() {
        is_gone_within(counts, range)
    } else {
        false
    }
}

fn is_gone_within(counts: &[usize], range: LeafRange) -> bool
    requires { range.to < length counts.now }
    ensures { (goes : ℕ → Bool) (leaves : List ℕ) → spec.AreCounts (λ n. not (goes n)) leaves counts.now →
        result ≡ spec.is_gone goes leaves range }
{
    range.from < range.to && counts[range.from] == counts[range.to]
}

fn push_if(ranges: &mut Vec<LeafRange>, range: LeafRange, is: bool) -> Result<(), NoMemory>
    ensures { OnOk result (ranges.new.items ≡ ranges.old.items ++ (if is then range ∷ [] else [])) }
{
    if is {
        ranges.push(range)?;
    }
    Ok(())
}

/// Returns those of some ranges that are within no other. Linear.
fn outermost(alloc: Global, count: usize, ranges: &[LeafRange]) -> Result<Vec<LeafRange>, NoMemory>
    requires { All (spec.IsProper count) ranges.now }
    ensures { IfOk result (λ outer. outer.items ≡ spec.outermost ranges.now) }
{
    let farthest = farthest_ends(alloc, count, ranges)?;
    let ends = farthest.as_slice();
    let earlier = ends_before(alloc, ends)?;
    let before = earlier.as_slice();
    let mut outer = Vec::new(alloc);
    for range in ranges {
        push_if(&mut outer, *range, is_outer(ends, before, *range))?;
    }
    Ok(outer)
}

/// Returns for each of so many leaves where the longest range ends that begins there, or 0.
fn farthest_ends(alloc: Global, count: usize, ranges: &[LeafRange]) -> Result<Vec<usize>, NoMemory>
    ensures len { IfOk result (λ ends. length ends.items ≡ count) }
    ensures ends { IfOk result (λ ends. spec.AreEnds ranges.now ends.items) }
{
    let mut ends = vec![in alloc; 0usize; count]?;
    for range in ranges {
        put_end(&mut ends, *range);
    }
    Ok(ends)
}

fn put_end(ends: &mut Vec<usize>, range: LeafRange)
    ensures len { length ends.new.items ≡ length ends.old.items }
    ensures ends { (n : ℕ) → n < length ends.old.items → get_or ends.new.items n 0
        ≡ (if nat_eq range.from n then max (get_or ends.old.items n 0) range.to else get_or ends.old.items n 0) }
{
    if range.from < ends.len() {
        ends[range.from] = ends[range.from].max(range.to);
    }
}

/// Returns for each leaf where the range ends that reaches farthest of those that begin before it, or 0.
fn ends_before(alloc: Global, ends: &[usize]) -> Result<Vec<usize>, NoMemory>
    ensures len { IfOk result (λ before. length before.items ≡ length ends.now) }
    ensures ends { (ranges : List LeafRange) → spec.AreEnds ranges ends.now →
        IfOk result (λ before. spec.AreEndsBefore ranges before.items) }
{
    let mut before = Vec::with_capacity(alloc, ends.len())?;
    let mut farthest = 0;
    for end in ends {
        before.push(farthest)?;
        farthest = farthest.max(*end);
    }
    Ok(before)
}

/// Whether a range is within no other.
fn is_outer(ends: &[usize], before: &[usize], range: LeafRange) -> bool
    requires ends { range.from < length ends.now }
    requires before { range.from < length before.now }
    ensures { (ranges : List LeafRange) → spec.AreEnds ranges ends.now → spec.AreEndsBefore ranges before.now → 0 < range.to →
        result ≡ not (list_any (λ a. spec.is_around a range) ranges) }
{
    before[range.from] < range.to && ends[range.from] <= range.to
}

/// Returns the tokens of ranges.
fn extents(alloc: Global, leaves: &[u32], ranges: &[LeafRange]) -> Result<Vec<Extent>, NoMemory>
    ensures { IfOk result (λ extents. extents.items ≡ map (spec.extent_of leaves.now) ranges.now) }
{
    let extents = ranges
        .iter()
        .map(|range| extent_of(leaves, *range))
        .collect(alloc)?;
    Ok(extents)
}

fn extent_of(leaves: &[u32], range: LeafRange) -> Extent
    ensures { result ≡ spec.extent_of leaves.now range }
{
    Extent {
        first: number_at(leaves, range.from),
        last: number_at(leaves, range.to.saturating_sub(1)),
    }
}
