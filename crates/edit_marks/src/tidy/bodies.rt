// The last tokens of bodies that go whole, which stay.
ghost use Rattle.std.specs.Prelude.{◌≡◌, ◌<◌, ◌≤◌, ◌+◌, ◌^◌, ◌==◌, ◌&&◌, ◌||◌, not, true, false, ℕ, All, filter, get_or, length, map, if◌then◌else◌, IfOk, Some};
ghost use Rattle.std.specs.List.{list_any, sum_by};
ghost use Rattle.std.specs.Option.{option_copied};
ghost use Rattle.edit_marks.specs.EditConflict.Same.{side_number};
ghost use Rattle.edit_marks.specs.Tidy.Bodies as spec;
ghost use Rattle.edit_marks.specs.declared.edit_conflict.edit.Edit.{Edit as Each};

use crate::edit_conflict::{Edit, Insert, Side};
use crate::tidy::shape::{Body, LeafRange, Outline};
use crate::tidy::touch::TouchEdit;
use c_terms::NoMemory;
use sqlite_items::Items;
use std::alloc::Global;

/// What all edits of a rule do at the tokens of a text: a flag for each token.
#[derive(Drop)]
pub struct Changes {
    /// Whether an edit removes it.
    pub removed: Vec<bool>,
    /// Whether an edit has an insert at it, on any side.
    pub inserts: Vec<bool>,
    /// Whether an edit has an insert after it.
    pub after: Vec<bool>,
}

/// Returns what edits do at the tokens of a text that has this many.
pub fn changes_of(alloc: Global, count: usize, touches: &[TouchEdit]) -> Result<Changes, NoMemory>
    ensures { IfOk result (spec.AreChanges count (map (λ t. t.edit) touches.now)) }
{
    let removed = no_flags(alloc, count)?;
    let inserts = no_flags(alloc, count)?;
    let after = no_flags(alloc, count)?;
    let mut changes = Changes {
        removed,
        inserts,
        after,
    };
    for touch in touches {
        put_edit(&mut changes, &touch.edit);
    }
    Ok(changes)
}

fn no_flags(alloc: Global, count: usize) -> Result<Vec<bool>, NoMemory>
    ensures { IfOk result (λ flags. spec.AreFlags count (λ n. false) flags.items) }
{
    let flags = vec![in alloc; false; count]?;
    Ok(flags)
}

fn put_edit(changes: &mut Changes, edit: &Edit)
    ensures removed { spec.AddsFlags changes.old.removed.items changes.new.removed.items (λ n. list_any (λ m. m == n) edit.now.removed) }
    ensures inserts { spec.AddsFlags changes.old.inserts.items changes.new.inserts.items (spec.is_at edit.now.inserts) }
    ensures after { spec.AddsFlags changes.old.after.items changes.new.after.items (spec.is_after edit.now.inserts) }
{
    put_all(&mut changes.removed, edit.removed.as_slice());
    put_inserts(&mut changes.inserts, edit.inserts.as_slice());
    put_after(&mut changes.after, edit.inserts.as_slice());
}

/// Sets the flags of these tokens.
fn put_all(flags: &mut Vec<bool>, tokens: &[u32])
    ensures { spec.AddsFlags flags.old.items flags.new.items (λ n. list_any (λ m. m == n) tokens.now) }
{
    for token in tokens {
        put(flags, *token, true);
    }
}

/// Sets the flags of the tokens that have an insert.
fn put_inserts(flags: &mut Vec<bool>, inserts: &[Insert])
    ensures { spec.AddsFlags flags.old.items flags.new.items (spec.is_at inserts.now) }
{
    for insert in inserts {
        put(flags, insert.token, true);
    }
}

/// Sets the flags of the tokens that have an insert after them.
fn put_after(flags: &mut Vec<bool>, inserts: &[Insert])
    ensures { spec.AddsFlags flags.old.items flags.new.items (spec.is_after inserts.now) }
{
    for insert in inserts {
        put(flags, insert.token, is_after(insert.side));
    }
}

fn is_after(side: Side) -> bool
    ensures { result ≡ (side_number side == 1) }
{
    matches!(side, Side::After)
}

/// Sets the flag of a token, if `is` holds and the token has a flag.
fn put(flags: &mut Vec<bool>, token: u32, is: bool)
    ensures { spec.AddsFlags flags.old.items flags.new.items (λ n. token == n && is) }
{
    if is && (token as usize) < flags.len() {
        flags[token as usize] = true;
    }
}

/// Returns the flag of a token, or `false` if it has none.
fn has(flags: &[bool], token: u32) -> bool
    ensures { result ≡ get_or flags.now token false }
{
    match flags.get(token as usize) {
        Some(flag) => *flag,
        None => false,
    }
}

/// Returns the tokens that stay though they are aligned with minus tokens: the last `;` of each body that goes whole.
pub fn staying(alloc: Global, outline: &Outline, changes: &Changes) -> Result<Vec<bool>, NoMemory>
    ensures { IfOk result (λ stays. spec.AreFlags (length changes.now.removed.items)
        (λ n. list_any (λ m. m == n) (spec.staying (spec.acts_in changes.now) outline.now)) stays.items) }
{
    let mut stays = no_flags(alloc, changes.removed.len())?;
    let bare = bare_counts(alloc, &outline.leaves, changes)?;
    for body in &outline.bodies {
        put_if(&mut stays, stays_of(&outline.leaves, changes, &bare, body));
    }
    Ok(stays)
}

/// Sets the flag of a token, if there is one.
fn put_if(flags: &mut Vec<bool>, token: Option<u32>)
    ensures { spec.AddsFlags flags.old.items flags.new.items (spec.is_one token) }
{
    if let Some(token) = token {
        put(flags, token, true);
    }
}

/// Returns for each number of leaves how many of these first ones go and have no insert.
fn bare_counts(alloc: Global, leaves: &[u32], changes: &Changes) -> Result<Vec<usize>, NoMemory>
    ensures { IfOk result (λ counts. spec.AreCountsOf (spec.acts_in changes.now) leaves.now counts.items) }
{
    let mut counts = Vec::with_capacity(alloc, leaves.len().saturating_add(1))?;
    let mut count = 0;
    counts.push(count)?;
    for leaf in leaves {
        count = count_after(count, is_bare_token(changes, *leaf));
        counts.push(count)?;
    }
    Ok(counts)
}

/// Returns a count with one more, if `is` holds.
fn count_after(count: usize, is: bool) -> usize
    requires { count + 1 < 2 ^ 64 }
    ensures { result ≡ (if is then 1 else 0) + count }
{
    if is { count + 1 } else { count }
}

/// Whether a token goes and has no insert.
fn is_bare_token(changes: &Changes, token: u32) -> bool
    ensures { result ≡ spec.is_bare (spec.acts_in changes.now) token }
{
    has(&changes.removed, token) && !has(&changes.inserts, token)
}

/// Whether all these leaves go, and none has an insert.
fn is_bare(changes: &Changes, leaves: &[u32], bare: &[usize], from: usize, to: usize) -> bool
    requires { spec.AreCountsOf (spec.acts_in changes.now) leaves.now bare.now }
    ensures { result ≡ spec.are_bare (spec.acts_in changes.now) leaves.now from to }
{
    if to <= from || from >= leaves.len() {
        return true;
    }
    let end = to.min(leaves.len());
    let before = bare[from];
    let behind = bare[end];
    behind - before == end - from
}

/// Returns the last token of a body that goes whole and ends in a `;`: the token before it stays, each of its tokens goes, and
/// nothing comes there.
fn stays_of(leaves: &[u32], changes: &Changes, bare: &[usize], body: &Body) -> Option<u32>
    requires { spec.AreCountsOf (spec.acts_in changes.now) leaves.now bare.now }
    ensures { result ≡ spec.stays_of (spec.acts_in changes.now) leaves.now body.now }
{
    let range = body.leaves;
    if !may_stay(body) {
        return None;
    }
    let lead = leaves.get(range.from - 1)?;
    if !goes_whole(leaves, changes, bare, body, *lead) {
        return None;
    }
    leaves.get(range.to - 1).copied()
}

/// Whether it is a body of a statement that ends in a `;`, with a token before it in its statement.
fn may_stay(body: &Body) -> bool
    ensures { result ≡ spec.may_stay body.now }
{
    !body.is_function
        && body.has_semicolon
        && body.owner < body.leaves.from
        && body.leaves.from < body.leaves.to
}

fn goes_whole(leaves: &[u32], changes: &Changes, bare: &[usize], body: &Body, lead: u32) -> bool
    requires { spec.AreCountsOf (spec.acts_in changes.now) leaves.now bare.now }
    ensures { result ≡ spec.goes_whole (spec.acts_in changes.now) leaves.now body.now lead }
{
    let range = body.leaves;
    !has(&changes.removed, lead)
        && !has(&changes.after, lead)
        && is_bare(changes, leaves, bare, range.from, range.to)
        && goes_with_else(leaves, changes, bare, range.to, body.second_end)
}

/// Whether the `else` with this number of a leaf stays, or goes with all up to the end of the second body.
fn goes_with_else(
    leaves: &[u32],
    changes: &Changes,
    bare: &[usize],
    word: usize,
    end: Option<usize>,
) -> bool
    requires { spec.AreCountsOf (spec.acts_in changes.now) leaves.now bare.now }
    ensures { result ≡ spec.goes_with_else (spec.acts_in changes.now) leaves.now word end }
{
    match end {
        None => true,
        Some(end) => {
            stays_at(changes, leaves.get(word)) || is_bare(changes, leaves, bare, word, end)
        }
    }
}

fn stays_at(changes: &Changes, leaf: Option<&u32>) -> bool
    ensures { result ≡ spec.leaf_stays (spec.acts_in changes.now) (option_copied leaf.entry) }
{
    match leaf {
        Some(token) => !has(&changes.removed, *token),
        None => true,
    }
}

/// Returns the edit without the removal of tokens that stay.
pub fn without(alloc: Global, edit: Edit, stays: &[bool]) -> Result<Edit, NoMemory>
    ensures { IfOk result (λ left. left ≡ spec.without_flagged stays.now edit) }
{
    let Edit { removed, inserts } = edit;
    let left = removed_without(alloc, removed.as_slice(), stays)?;
    Ok(Edit {
        removed: Items::from_vec(left),
        inserts,
    })
}

fn removed_without(alloc: Global, removed: &[u32], stays: &[bool]) -> Result<Vec<u32>, NoMemory>
    ensures { IfOk result (λ left. left.items ≡ filter (λ n. not (get_or stays.now n false)) removed.now) }
{
    let mut left = Vec::with_capacity(alloc, removed.len())?;
    for token in removed {
        if !has(stays, *token) {
            left.push(*token)?;
        }
    }
    Ok(left)
}
