// Entries none of which plainly covers another.
ghost use Rattle.std.specs.Prelude.{◌≡◌, ◌||◌, Bool, true, [], IfOk};
ghost use Rattle.smpl_terms.specs.declared.var.Var.{Var};
ghost use Rattle.smpl_terms.specs.Environments.{Environment};
ghost use Rattle.env_sets.specs.Sets.{entry_denotes, entry_vars, set_denotes, set_vars};

use crate::entries::{Entry, entry_covers};
use crate::lookup::Lookup;
use crate::marks::{Mark, mark_of, may_cover};
use crate::sets::EnvSet;
use c_terms::NoMemory;
use std::alloc::Global;
use std::marker::Model;

/// Returns the set of these entries, which are in order, without those that another plainly covers.
pub fn kept_of(alloc: Global, entries: Vec<Entry>) -> Result<EnvSet, NoMemory>
    ensures meaning { IfOk result (λ r. (env : Environment) →
        set_denotes r env ≡ set_denotes entries.items env) }
    ensures vars { IfOk result (λ r. (t : Var → Bool) → set_vars t entries.items ≡ true →
        set_vars t r ≡ true) }
{
    let mut kept = Kept::new(alloc, entries.len());
    for e in entries {
        kept.put(alloc, e)?;
    }
    EnvSet::in_blocks(alloc, kept.into_vec())
}

/// Entries in an order in which an entry that covers others is before them.
#[derive(Drop)]
struct Kept {
    entries: Vec<Entry>,
    /// A mark of each entry.
    marks: Vec<Mark>,
    /// The entries that may cover a later one, by one bound of each.
    lookup: Lookup,
}

impl Model for Kept {
    ghost use Rattle.std.specs.Coded.{codes};
    ghost use Rattle.c_terms.specs.contracts.tree.Tree as tree;
    ghost use Rattle.std.specs.Prelude.{List};
    ghost use Rattle.smpl_terms.specs.declared.var.Var.{Var};
    ghost use Rattle.env_sets.specs.declared.bounds.Bound.{Bound};

    ghost Value = { List (List (Var × Bound)) };

    ghost coded = { Prim.hlevel (codes, tree.the_row.coded) };

    ghost view = { λ a. a.entries.items };
}

impl Kept {
    /// Returns an empty list, for at most this many entries.
    fn new(alloc: Global, most: usize) -> Kept
        ensures { result ≡ [] }
    {
        Kept {
            entries: Vec::new(alloc),
            marks: Vec::new(alloc),
            lookup: Lookup::new(alloc, most),
        }
    }

    fn into_vec(self) -> Vec<Entry>
        ensures { result.items ≡ self }
    {
        let Kept { entries, .. } = self;
        entries
    }

    /// Adds an entry, unless another covers it.
    fn put(&mut self, alloc: Global, e: Entry) -> Result<(), NoMemory>
        ensures meaning { IfOk result (λ _. (env : Environment) →
            set_denotes self.new env ≡ (set_denotes self.old env || entry_denotes e env)) }
        ensures vars { IfOk result (λ _. (t : Var → Bool) → set_vars t self.old ≡ true →
            entry_vars t e ≡ true → set_vars t self.new ≡ true) }
    {
        self.lookup.prepare(alloc, &self.entries, &e)?;
        if self.have_over(alloc, &e)? {
            return Ok(());
        }
        self.marks.push(mark_of(&e))?;
        self.entries.push(e)?;
        Ok(())
    }

    /// Whether an entry covers this one.
    fn have_over(&self, alloc: Global, e: &Entry) -> Result<bool, NoMemory>
        ensures { IfOk result (λ r. r ≡ true → (env : Environment) → entry_denotes e.now env ≡ true →
            set_denotes self.now env ≡ true) }
    {
        let count = self.entries.len();
        if count > 0 && entry_covers(&self.entries[count - 1], e) {
            return Ok(true);
        }
        let mark = mark_of(e);
        if self.lookup.serves(count, e) {
            let numbers = self.lookup.candidates(alloc, e)?;
            return Ok(some_covers(&self.entries, &self.marks, &numbers, &mark, e));
        }
        Ok(any_covers(&self.entries, &self.marks, &mark, e))
    }
}

/// Whether an entry covers this one. A mark rules out most entries that don't.
fn any_covers(entries: &[Entry], marks: &[Mark], mark: &Mark, e: &Entry) -> bool
    ensures { result ≡ true → (env : Environment) → entry_denotes e.now env ≡ true →
        set_denotes entries.now env ≡ true }
{
    for i in 0..entries.len().min(marks.len()) {
        if may_cover(&marks[i], mark) && entry_covers(&entries[i], e) {
            return true;
        }
    }
    false
}

/// Whether one of the entries with these indices covers this one.
fn some_covers(entries: &[Entry], marks: &[Mark], numbers: &[usize], mark: &Mark, e: &Entry) -> bool
    ensures { result ≡ true → (env : Environment) → entry_denotes e.now env ≡ true →
        set_denotes entries.now env ≡ true }
{
    for i in numbers {
        if *i < entries.len()
            && *i < marks.len()
            && may_cover(&marks[*i], mark)
            && entry_covers(&entries[*i], e)
        {
            return true;
        }
    }
    false
}
