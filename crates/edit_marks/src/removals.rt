// What an alignment removes.
ghost use Rattle.std.specs.Prelude.{◌≡◌, ◌↔◌, ℕ, Contains, IfOk};
ghost use Rattle.std.specs.List.Sorted.{IsStrictlyIncreasing};
ghost use Rattle.edit_marks.specs.Removals.{is_minus_at, is_minus, minus_tokens};

use c_terms::NoMemory;
use smpl_patch::{Mark, PatToken};
use sqlite_items::Items;
use std::alloc::Global;

/// A pattern token, by its number, and the numbers of the file's tokens that it is aligned with.
#[derive(Drop)]
pub struct Aligned {
    pub pattern: u32,
    pub files: Items<u32>,
}

/// Returns the tokens that are aligned with minus tokens, in ascending order, each once. Takes n log n steps for n tokens.
pub fn removed_tokens(
    alloc: Global,
    tokens: &[PatToken],
    pairs: &[Aligned],
) -> Result<Vec<u32>, NoMemory>
    ensures rise { IfOk result (λ removed. IsStrictlyIncreasing removed.items) }
    ensures same { IfOk result (λ removed. (n : ℕ) →
        Contains removed.items n ↔ Contains (minus_tokens tokens.now pairs.now) n) }
{
    let mut removed = all_removed(alloc, tokens, pairs)?;
    removed.sort_unstable();
    removed.dedup();
    Ok(removed)
}

fn all_removed(alloc: Global, tokens: &[PatToken], pairs: &[Aligned]) -> Result<Vec<u32>, NoMemory>
    ensures { IfOk result (λ removed. removed.items ≡ minus_tokens tokens.now pairs.now) }
{
    let mut removed = Vec::new(alloc);
    for pair in pairs {
        if is_minus_at(tokens, pair.pattern) {
            removed.extend_from_slice(pair.files.as_slice())?;
        }
    }
    Ok(removed)
}

fn is_minus_at(tokens: &[PatToken], number: u32) -> bool
    ensures { result ≡ is_minus_at tokens.now number }
{
    match tokens.get(number as usize) {
        Some(token) => is_minus(token.mark),
        None => false,
    }
}

fn is_minus(mark: Mark) -> bool
    ensures { result ≡ is_minus mark }
{
    matches!(mark, Mark::Minus)
}
