// Distinct edits of one text.
ghost use Rattle.std.specs.Prelude.{◌≡◌, ◌≢◌, ◌<◌, Some, IfOk, length, map, slice_get};
ghost use Rattle.edit_marks.specs.EditConflict.Once.{once, number_in, Differ};
ghost use Rattle.edit_marks.specs.EditConflict.Marks.{AreMarks};

use crate::edit_conflict::edit::Edit;
use crate::edit_conflict::mark::{Mark, sorted_marks};
use c_terms::NoMemory;
use indexmap::IndexSet;
use std::alloc::Global;
use std::marker::Model;

/// Distinct edits of one text, with what they do sorted by token. Contracts see the list of the edits.
#[derive(Drop)]
pub struct EditList {
    edits: IndexSet<Edit>,
    marks: Vec<Mark>,
}

impl Model for EditList {
    ghost use Rattle.std.specs.Prelude.{List};
    ghost use Rattle.edit_marks.specs.declared.edit_conflict.edit.Edit.{Edit};
    ghost use Rattle.edit_marks.specs.EditConflict.Marks.{AreMarks};

    ghost Value = { List Edit };

    ghost view = { λ l. l.edits.keys };

    ghost invariant = { λ l. AreMarks l.edits.keys l.marks.items };
}

impl EditList {
    /// Creates the list of the edits in order, keeping the first of several equal ones. Takes n log n steps for n marks.
    pub fn of(alloc: Global, edits: Vec<Edit>) -> Result<EditList, NoMemory>
        ensures edits { IfOk result (λ list. list ≡ once edits.items) }
    {
        let set = distinct(alloc, edits)?;
        let marks = sorted_marks(alloc, set.as_slice())?;
        Ok(EditList { edits: set, marks })
    }

    /// Creates the list of the edits in order, keeping the first of several equal ones, with the number of each edit in the
    /// list. Takes n log n steps for n marks.
    pub fn numbered(alloc: Global, edits: Vec<Edit>) -> Result<(EditList, Vec<usize>), NoMemory>
        ensures edits { IfOk result (λ made. made.0 ≡ once edits.items) }
        ensures numbers { IfOk result (λ made. made.1.items ≡ map (number_in (once edits.items)) edits.items) }
    {
        let Numbered { set, numbers } = numbered_set(alloc, edits)?;
        let marks = sorted_marks(alloc, set.as_slice())?;
        Ok((EditList { edits: set, marks }, numbers))
    }

    /// Returns the edits. Takes no memory.
    pub fn edits(&self) -> &[Edit]
        ensures edits { result.now ≡ self.now }
        ensures differ { Differ self.now }
    {
        self.edits.as_slice()
    }

    /// Returns what the edits do, sorted by token, and at each token in the order of the edits. Takes no memory.
    pub fn marks(&self) -> &[Mark]
        ensures marks { AreMarks self.now result.now }
    {
        self.marks.as_slice()
    }

    /// Returns the two edits with these numbers. Takes no memory.
    pub fn take(self, first: usize, second: usize) -> (Edit, Edit)
        requires differ { first ≢ second }
        requires first_within { first < length self }
        requires second_within { second < length self }
        ensures first { slice_get self first ≡ Some result.0 }
        ensures second { slice_get self second ≡ Some result.1 }
    {
        let EditList { edits, marks: _ } = self;
        if first < second {
            take_both(edits, first, second)
        } else {
            let (later, earlier) = take_both(edits, second, first);
            (earlier, later)
        }
    }
}

/// Returns the edits, keeping the first of several equal ones.
fn distinct(alloc: Global, edits: Vec<Edit>) -> Result<IndexSet<Edit>, NoMemory>
    ensures edits { IfOk result (λ set. set.keys ≡ once edits.items) }
{
    let mut set = IndexSet::new(alloc);
    for edit in edits {
        set.insert(edit)?;
    }
    Ok(set)
}

/// Edits, each once, and numbers of edits among them.
#[derive(Drop)]
struct Numbered {
    set: IndexSet<Edit>,
    numbers: Vec<usize>,
}

/// Returns the edits, keeping the first of several equal ones, with the number of each.
fn numbered_set(alloc: Global, edits: Vec<Edit>) -> Result<Numbered, NoMemory>
    ensures edits { IfOk result (λ made. made.set.keys ≡ once edits.items) }
    ensures numbers { IfOk result (λ made. made.numbers.items ≡ map (number_in (once edits.items)) edits.items) }
{
    let mut set = IndexSet::new(alloc);
    let mut numbers = Vec::with_capacity(alloc, edits.len())?;
    for edit in edits {
        let (number, _) = set.insert_full(edit)?;
        numbers.push(number)?;
    }
    Ok(Numbered { set, numbers })
}

/// Returns two edits, of which the first comes before the second.
fn take_both(edits: IndexSet<Edit>, first: usize, second: usize) -> (Edit, Edit)
    requires rise { first < second }
    requires within { second < length edits.keys }
    ensures first { slice_get edits.keys first ≡ Some result.0 }
    ensures second { slice_get edits.keys second ≡ Some result.1 }
{
    let mut edits = edits;
    match (
        edits.swap_remove_index(second),
        edits.swap_remove_index(first),
    ) {
        (Some(later), Some(earlier)) => (earlier, later),
        _ => unreachable!(),
    }
}
