// What edits do, token by token.
ghost use Rattle.std.specs.Prelude.{◌≡◌, ◌++◌, ℕ, IfOk, OnOk};
ghost use Rattle.edit_marks.specs.EditConflict.Marks.{marks_of, marks_from, insert_marks, removal_marks, AreMarks};

use crate::edit_conflict::edit::{Edit, Insert, Side};
use c_terms::NoMemory;
use std::alloc::Global;

/// What an edit does at a token.
#[derive(Clone, Copy, Debug)]
pub enum Act {
    /// The edit removes the token.
    Remove,
    /// The edit inserts on this side of the token: whether the insert is from `++` lines, and its number in the edit.
    Insert(Side, bool, usize),
}

/// An act of the edit with this number at the token with this number.
#[derive(Clone, Copy, Debug)]
pub struct Mark {
    pub token: u32,
    pub edit: usize,
    pub act: Act,
}

/// Returns all acts of these edits, sorted by token, and at each token in the order of the edits.
pub fn sorted_marks(alloc: Global, edits: &[Edit]) -> Result<Vec<Mark>, NoMemory>
    ensures { IfOk result (λ marks. AreMarks edits.now marks.items) }
{
    let mut marks = all_marks(alloc, edits)?;
    marks.sort_by_key(|mark| mark.token)?;
    Ok(marks)
}

/// Returns all acts, edit by edit.
fn all_marks(alloc: Global, edits: &[Edit]) -> Result<Vec<Mark>, NoMemory>
    ensures { IfOk result (λ marks. marks.items ≡ marks_from 0 edits.now) }
{
    let mut marks = Vec::new(alloc);
    for (number, edit) in edits.iter().enumerate() {
        push_removals(&mut marks, number, edit.removed.as_slice())?;
        push_inserts(&mut marks, number, edit.inserts.as_slice())?;
    }
    Ok(marks)
}

fn push_removals(marks: &mut Vec<Mark>, edit: usize, tokens: &[u32]) -> Result<(), NoMemory>
    ensures { OnOk result (marks.new.items ≡ marks.old.items ++ removal_marks edit tokens.now) }
{
    for token in tokens {
        marks.push(Mark {
            token: *token,
            edit,
            act: Act::Remove,
        })?;
    }
    Ok(())
}

fn push_inserts(marks: &mut Vec<Mark>, edit: usize, inserts: &[Insert]) -> Result<(), NoMemory>
    ensures { OnOk result (marks.new.items ≡ marks.old.items ++ insert_marks edit 0 inserts.now) }
{
    for (number, insert) in inserts.iter().enumerate() {
        marks.push(Mark {
            token: insert.token,
            edit,
            act: Act::Insert(insert.side, insert.many, number),
        })?;
    }
    Ok(())
}
