// Flags of tokens: which of them go, and which go together with the one before them.
ghost use Rattle.std.specs.Prelude.{ℕ, ◌≡◌, ◌<◌, ◌&&◌, ◌||◌, false, true, length, get_or, IfOk};
ghost use Rattle.std.specs.List.{list_any};
ghost use Rattle.edit_unparse.specs.Output.{is_removed};
ghost use Rattle.edit_unparse.specs.Tidy.Flags.{IsOwners, are_one, removes_both, reaches, holds};

use c_terms::NoMemory;
use edit_marks::Edit;
use std::alloc::Global;
use tidy_flags::{flag_at, flag_before, put_all, put_pairs, put_range};

/// The tokens from one number up to another, both included.
#[derive(Clone, Copy, Debug, PartialEq, Eq)]
pub struct Extent {
    pub first: u32,
    pub last: u32,
}

/// Which tokens go, and which go together with the one before them.
#[derive(Drop)]
pub struct Owners {
    /// For each token whether an edit removes it.
    pub removed: Vec<bool>,
    /// For each token whether one edit removes it and the one before it.
    shared: Vec<bool>,
    /// For each token whether a statement of which nothing stays has it.
    held: Vec<bool>,
    /// For each token whether such a statement has it and the one before it.
    reached: Vec<bool>,
}

impl Owners {
    /// Creates them for so many tokens. `gone` are the statements of which nothing stays. Linear in the edits and in what the
    /// statements have.
    pub fn of(
        alloc: Global,
        count: usize,
        edits: &[Edit],
        gone: &[Extent],
    ) -> Result<Owners, NoMemory>
        ensures { IfOk result (IsOwners count edits.now gone.now) }
    {
        let removed = removed_flags(alloc, count, edits)?;
        let shared = shared_flags(alloc, count, edits)?;
        let held = held_flags(alloc, count, gone)?;
        let reached = reached_flags(alloc, count, gone)?;
        Ok(Owners {
            removed,
            shared,
            held,
            reached,
        })
    }

    /// Whether one edit removes a token and the one before it. A statement of which nothing stays counts as removed by one
    /// edit, which removes nothing else.
    pub fn are_one(&self, token: usize) -> bool
        ensures { result ≡ are_one self.now token }
    {
        let held = self.held.as_slice();
        let removed = self.removed.as_slice();
        if flag_at(held, token) || flag_before(held, token) {
            flag_at(removed, token)
                && flag_before(removed, token)
                && flag_at(self.reached.as_slice(), token)
        } else {
            flag_at(self.shared.as_slice(), token)
        }
    }
}

/// Returns for each of so many tokens whether an edit removes it. Linear in the edits.
pub fn removed_flags(alloc: Global, count: usize, edits: &[Edit]) -> Result<Vec<bool>, NoMemory>
    ensures len { IfOk result (λ flags. length flags.items ≡ count) }
    ensures flags { IfOk result (λ flags. (n : ℕ) → n < count →
        get_or flags.items n false ≡ is_removed n edits.now) }
{
    let mut flags = vec![in alloc; false; count]?;
    for edit in edits {
        put_all(&mut flags, edit.removed.as_slice(), true);
    }
    Ok(flags)
}

/// Returns for each token whether one edit removes it and the one before it. Linear in the edits.
fn shared_flags(alloc: Global, count: usize, edits: &[Edit]) -> Result<Vec<bool>, NoMemory>
    ensures len { IfOk result (λ flags. length flags.items ≡ count) }
    ensures flags { IfOk result (λ flags. (n : ℕ) → n < count →
        get_or flags.items n false ≡ list_any (removes_both n) edits.now) }
{
    let mut own = vec![in alloc; false; count]?;
    let mut flags = vec![in alloc; false; count]?;
    for edit in edits {
        let removed = edit.removed.as_slice();
        put_all(&mut own, removed, true);
        put_pairs(&mut flags, own.as_slice(), removed);
        put_all(&mut own, removed, false);
    }
    Ok(flags)
}

/// Returns for each token whether a statement of which nothing stays has it.
fn held_flags(alloc: Global, count: usize, gone: &[Extent]) -> Result<Vec<bool>, NoMemory>
    ensures len { IfOk result (λ flags. length flags.items ≡ count) }
    ensures flags { IfOk result (λ flags. (n : ℕ) → n < count →
        get_or flags.items n false ≡ list_any (holds n) gone.now) }
{
    let mut flags = vec![in alloc; false; count]?;
    for extent in gone {
        put_range(&mut flags, extent.first as usize, extent.last as usize);
    }
    Ok(flags)
}

/// Returns for each token whether a statement of which nothing stays has it and the one before it.
fn reached_flags(alloc: Global, count: usize, gone: &[Extent]) -> Result<Vec<bool>, NoMemory>
    ensures len { IfOk result (λ flags. length flags.items ≡ count) }
    ensures flags { IfOk result (λ flags. (n : ℕ) → n < count →
        get_or flags.items n false ≡ list_any (reaches n) gone.now) }
{
    let mut flags = vec![in alloc; false; count]?;
    for extent in gone {
        put_range(&mut flags, extent.first as usize + 1, extent.last as usize);
    }
    Ok(flags)
}
