// Lists of numbers in one list.
ghost use Rattle.std.specs.Prelude.{◌≡◌, ◌<◌, ◌≤◌, ◌++◌, ◌∷◌, [], OnOk, IfOk, length, take, slice_index_or, slice_range};
ghost use Rattle.cfg_build.specs.CfgGraph.LinkRows.{last_end};

use c_terms::NoMemory;
use std::alloc::Global;
use std::marker::Model;

/// Lists of numbers, one for each node: all numbers one after another, and where each list ends. A list takes four bytes
/// in addition to its numbers.
#[derive(Drop)]
pub(crate) struct LinkRows {
    numbers: Vec<u32>,
    ends: Vec<u32>,
}

impl Model for LinkRows {
    ghost use Rattle.std.specs.Prelude.{List, ℕ, length};
    ghost use Rattle.cfg_build.specs.CfgGraph.LinkRows.{lists_of, AreKept};

    ghost Value = { List (List ℕ) };

    ghost view = { λ r. lists_of 0 r.ends.items r.numbers.items };

    ghost invariant = { λ r. AreKept r.ends.items (length r.numbers.items) };
}

impl LinkRows {
    /// Returns no lists, with capacity for `lists` lists and for `numbers` numbers in all.
    pub(crate) fn new(alloc: Global, lists: usize, numbers: usize) -> Result<LinkRows, NoMemory>
        ensures { IfOk result (λ rows. rows ≡ []) }
    {
        let numbers = Vec::with_capacity(alloc, numbers)?;
        let ends = Vec::with_capacity(alloc, lists)?;
        Ok(LinkRows { numbers, ends })
    }

    /// Appends a list. Fails as if out of memory when all lists together would have more than 2^32 - 1 numbers.
    pub(crate) fn push(&mut self, list: &[u32]) -> Result<(), NoMemory>
        ensures { OnOk result (self.new ≡ self.old ++ list.now ∷ []) }
    {
        // removes what a failed push has left
        let from = end_of(self.ends.as_slice());
        self.numbers.truncate(from);
        self.numbers.extend_from_slice(list)?;
        let end = self.numbers.len();
        if end > u32::MAX as usize {
            return Err(NoMemory);
        }
        self.ends.push(end as u32)?;
        Ok(())
    }

    /// Returns the list of this number.
    pub(crate) fn get(&self, n: usize) -> &[u32]
        requires { n < length self.now }
        ensures { result.now ≡ slice_index_or self.now n [] }
    {
        let ends = self.ends.as_slice();
        part(
            self.numbers.as_slice(),
            end_before(ends, n),
            ends[n] as usize,
        )
    }
}

/// Returns where the last list ends.
fn end_of(ends: &[u32]) -> usize
    ensures { result ≡ last_end 0 ends.now }
{
    match ends.last() {
        Some(end) => *end as usize,
        None => 0,
    }
}

/// Returns where the list before this one ends.
fn end_before(ends: &[u32], n: usize) -> usize
    requires { n ≤ length ends.now }
    ensures { result ≡ last_end 0 (take n ends.now) }
{
    end_of(&ends[..n])
}

fn part(numbers: &[u32], from: usize, end: usize) -> &[u32]
    requires order { from ≤ end }
    requires inside { end ≤ length numbers.now }
    ensures { result.now ≡ slice_range numbers.now from end }
{
    &numbers[from..end]
}
