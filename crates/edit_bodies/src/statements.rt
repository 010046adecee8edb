// The statements of the patterns of edits, and the inserts behind bodies that they have written.
ghost use Rattle.std.specs.Prelude.{◌≡◌, ◌≤◌, ◌++◌, ◌∷◌, [], ℕ, get_or, length, nat_eq, slice_get, take};
ghost use Rattle.std.specs.Prelude.{IfOk, OnOk, if◌then◌else◌};
ghost use Rattle.std.specs.List.{list_all};
ghost use Rattle.edit_bodies.specs.Places.{AreByEdit};
ghost use Rattle.edit_bodies.specs.Rows as spec;
ghost use Rattle.edit_bodies.specs.Scenes.{is_within_some, statements_of};

use crate::scene::Scene;
use c_terms::NoMemory;
use edit_marks::{Body, PatternStatement};
use edit_unparse::Placed;
use sqlite_items::{Items, at};
use std::alloc::Global;

/// Returns the numbers of the statements of the patterns, by edit. `NoMemory`: out of memory, or there are fewer edits.
pub fn statements_of(
    alloc: Global,
    count: usize,
    statements: &[(usize, PatternStatement)],
) -> Result<Vec<Items<usize>>, NoMemory>
    ensures { IfOk result (λ all. AreByEdit statements.now all.items) }
{
    let mut all = no_numbers(alloc, count)?;
    for (number, statement) in statements.iter().enumerate() {
        put_number(&mut all, statement.0, number)?;
    }
    Ok(all)
}

fn no_numbers(alloc: Global, count: usize) -> Result<Vec<Items<usize>>, NoMemory>
    ensures { IfOk result (λ all. (edit : ℕ) → get_or all.items edit [] ≡ []) }
{
    let mut all = Vec::with_capacity(alloc, count)?;
    for i in 0..count {
        all.push(Items::new(alloc))?;
    }
    Ok(all)
}

/// Adds the number of a statement to those of its edit.
fn put_number(all: &mut Vec<Items<usize>>, edit: usize, number: usize) -> Result<(), NoMemory>
    ensures { OnOk result ((n : ℕ) →
        get_or all.new.items n [] ≡ get_or all.old.items n [] ++ (if nat_eq edit n then number ∷ [] else [])) }
{
    if edit >= all.len() {
        return Err(NoMemory);
    }
    all[edit].push(number)?;
    Ok(())
}

impl<'a> Scene<'a> {
    /// Whether a body lies within the statement of the pattern of each touch of an edit, and is not that statement.
    fn is_around(&self, edit: usize, body: &Body) -> bool
        ensures { result ≡ spec.is_around (statements_of self.now) body.now edit }
    {
        self.is_within_all(own_numbers(&self.statements, edit), body)
    }

    /// Whether a body is within each of the statements with these numbers, and is none of them.
    fn is_within_all(&self, numbers: &[usize], body: &Body) -> bool
        ensures { result ≡ list_all (λ n. is_within_some (slice_get (statements_of self.now) n) body.now) numbers.now }
    {
        numbers.iter().all(|number| self.is_within(*number, body))
    }

    /// Whether a body is within the statement with this number, and is not the statement.
    fn is_within(&self, number: usize, body: &Body) -> bool
        ensures { result ≡ is_within_some (slice_get (statements_of self.now) number) body.now }
    {
        match self.edits.statements.get(number) {
            Some((_, statement)) => is_within(statement, body),
            None => true,
        }
    }

    /// Returns how many of these inserts are counted: all but those at the end whose patterns have written the body. Compares the
    /// body with the statement of each touch of the edits of those at the end, and of one more.
    pub fn counted(&self, body: &Body, inserts: &[Placed]) -> usize
        ensures value { result ≡ length (spec.counted (statements_of self.now) body.now inserts.now) }
        ensures within { result ≤ length inserts.now }
        ensures front { take result inserts.now ≡ spec.counted (statements_of self.now) body.now inserts.now }
    {
        let mut count = inserts.len();
        while count > 0 {
            if !self.is_around(inserts[count - 1].edit, body) {
                return count;
            }
            count -= 1;
        }
        0
    }
}

fn own_numbers(numbers: &[Items<usize>], edit: usize) -> &[usize]
    ensures { result.now ≡ get_or numbers.now edit [] }
{
    match at(numbers, edit) {
        Some(own) => own.as_slice(),
        None => &[],
    }
}

/// Whether a body is within a statement, and is not the statement.
fn is_within(statement: &PatternStatement, body: &Body) -> bool
    ensures { result ≡ spec.is_within statement.now body.now }
{
    statement.item == body.item && is_proper_start(statement.path.steps(), body.path.steps())
}

/// Whether a path is a proper beginning of another.
fn is_proper_start(path: &[u32], other: &[u32]) -> bool
    ensures { result ≡ spec.is_proper_start path.now other.now }
{
    path.len() < other.len() && path == &other[..path.len()]
}
