// Sets of entries.
ghost use Rattle.std.specs.Prelude.{◌≡◌, ◌&&◌, ◌||◌, ◌++◌, ◌<◌, Bool, true, false, List, [], ◌∷◌, length, IfOk, IfSome, option_to_list};
ghost use Rattle.smpl_terms.specs.declared.var.Var.{Var};
ghost use Rattle.smpl_terms.specs.Environments.{Environment};
ghost use Rattle.env_sets.specs.Blocks.{all_entries, AreInOrder};
ghost use Rattle.env_sets.specs.Bounds.{fits};
ghost use Rattle.env_sets.specs.Sets.{entry_denotes, entry_vars, set_denotes, set_vars};

use crate::ascending::ascending_from;
use crate::blocks::{are_empty, blocks_of, put_blocks, put_entries};
use crate::bounds::Bound;
use crate::entries::{Entry, entry_covers, entry_order};
use crate::kept::kept_of;
use crate::listed::EntryList;
use crate::lone::wider_entries;
use c_terms::NoMemory;
use smpl_terms::{SharedList, Var};
use std::alloc::Global;
use std::marker::Model;

/// A set of environments: those that some entry stands for. Contracts see the list of entries.
#[derive(Drop)]
pub struct EnvSet {
    /// Entries in no known order.
    first: Vec<Entry>,
    /// The others, in the order of the values that they fix. Copies share the blocks.
    rest: SharedList<SharedList<Entry>>,
}

impl Model for EnvSet {
    ghost use Rattle.std.specs.Coded.{codes};
    ghost use Rattle.c_terms.specs.contracts.tree.Tree as tree;
    ghost use Rattle.std.specs.Prelude.{List};
    ghost use Rattle.smpl_terms.specs.declared.var.Var.{Var};
    ghost use Rattle.env_sets.specs.declared.bounds.Bound.{Bound};

    ghost Value = { List (List (Var × Bound)) };

    ghost coded = { Prim.hlevel (codes, tree.the_row.coded) };

    ghost use Rattle.std.specs.Prelude.{◌++◌};
    ghost use Rattle.env_sets.specs.Blocks.{all_entries, AreInOrder};

    ghost view = { λ a. a.first.items ++ all_entries a.rest };

    ghost invariant = { λ a. AreInOrder a.rest };
}

impl EnvSet {
    /// Returns the set without entries, which stands for no environment. Takes no memory.
    pub fn none(alloc: Global) -> EnvSet
        ensures entries { result ≡ [] }
        ensures meaning { (env : Environment) → set_denotes result env ≡ false }
    {
        EnvSet::of(Vec::new(alloc))
    }

    /// Returns the set of one entry without bounds, which stands for every environment.
    pub fn all(alloc: Global) -> Result<EnvSet, NoMemory>
        ensures entries { IfOk result (λ r. r ≡ [] ∷ []) }
        ensures meaning { IfOk result (λ r. (env : Environment) → set_denotes r env ≡ true) }
    {
        let mut entries = Vec::new(alloc);
        entries.push(Entry::all(alloc))?;
        Ok(EnvSet::of(entries))
    }

    /// Returns the set of one entry with one bound.
    pub fn one(alloc: Global, v: &Var, bound: Bound) -> Result<EnvSet, NoMemory>
        ensures entries { IfOk result (λ r. r ≡ ((v.now, bound) ∷ []) ∷ []) }
        ensures meaning { IfOk result (λ r. (env : Environment) →
            set_denotes r env ≡ fits (env v.now) bound) }
    {
        let mut entries = Vec::new(alloc);
        entries.push(Entry::one(alloc, v, bound)?)?;
        Ok(EnvSet::of(entries))
    }

    /// Returns the set of these entries, unchanged. Takes no memory.
    pub fn of(entries: Vec<Entry>) -> EnvSet
        ensures entries { result ≡ entries.items }
    {
        EnvSet {
            first: entries,
            rest: SharedList::empty(),
        }
    }

    /// Like `of`, but puts the last entries that are in the order of the values that they fix in blocks, if there are at least
    /// 16. It compares neighbours, from the last on, as long as they are in that order.
    pub(crate) fn in_blocks(alloc: Global, entries: Vec<Entry>) -> Result<EnvSet, NoMemory>
        ensures entries { IfOk result (λ r. r ≡ entries.items) }
    {
        let from = ascending_from(&entries);
        if from >= entries.len() {
            return Ok(EnvSet::of(entries));
        }
        let mut first = entries;
        let ascending = first.split_off(from)?;
        let rest = blocks_of(alloc, ascending)?;
        Ok(EnvSet { first, rest })
    }

    /// Returns the set of these entries, and blocks of others.
    pub(crate) fn with_blocks(first: Vec<Entry>, rest: SharedList<SharedList<Entry>>) -> EnvSet
        requires { AreInOrder rest }
        ensures entries { result ≡ first.items ++ all_entries rest }
    {
        EnvSet { first, rest }
    }

    /// Returns the entries as a `Vec`. Entries in blocks are shared, and the others are moved.
    pub fn into_vec(self) -> Result<Vec<Entry>, NoMemory>
        ensures entries { IfOk result (λ r. r.items ≡ self) }
    {
        let EnvSet { first, rest } = self;
        let mut entries = first;
        put_blocks(&mut entries, rest.as_slice())?;
        Ok(entries)
    }

    /// Returns the entries: a list, and blocks of others that follow it. Takes no memory.
    pub fn blocks(&self) -> (&[Entry], &[SharedList<Entry>])
        ensures entries { result.0.now ++ all_entries result.1.now ≡ self.now }
    {
        (self.first.as_slice(), self.rest.as_slice())
    }

    /// Returns each entry, in order. Each copy of an entry shares its bounds. The result is a new list, since a single slice
    /// would have to copy the blocks that sets share. Linear in the number of entries; [`EnvSet::blocks`] takes no memory.
    pub fn entries(&self, alloc: Global) -> Result<Vec<Entry>, NoMemory>
        ensures entries { IfOk result (λ r. r.items ≡ self.now) }
    {
        let mut entries = Vec::new(alloc);
        self.put_in(&mut entries)?;
        Ok(entries)
    }

    /// Like [`EnvSet::blocks`], with the contract that the blocks are in order.
    pub(crate) fn by_order(&self) -> (&[Entry], &SharedList<SharedList<Entry>>)
        ensures entries { result.0.now ++ all_entries result.1.now ≡ self.now }
        ensures order { AreInOrder result.1.now }
    {
        (self.first.as_slice(), &self.rest)
    }

    /// Returns the entries if there are no blocks. Takes no memory.
    pub(crate) fn as_list(&self) -> Option<&[Entry]>
        ensures { IfSome result (λ es. es.now ≡ self.now) }
    {
        if self.rest.as_slice().is_empty() {
            Some(self.first.as_slice())
        } else {
            None
        }
    }

    /// Returns the entries, which are shared.
    pub(crate) fn list(&self, alloc: Global) -> Result<EntryList, NoMemory>
        ensures { IfOk result (λ r. r ≡ self.now) }
    {
        Ok(EntryList::of(self.entries(alloc)?))
    }

    /// Appends the entries, which are shared.
    pub(crate) fn put_in(&self, out: &mut Vec<Entry>) -> Result<(), NoMemory>
        ensures { IfOk result (λ _. out.new.items ≡ out.old.items ++ self.now) }
    {
        put_entries(out, &self.first)?;
        put_blocks(out, self.rest.as_slice())
    }

    /// Whether there is no entry, so that the set stands for no environment. Takes no memory.
    pub fn is_none(&self) -> bool
        ensures none { result ≡ true → self.now ≡ [] }
        ensures some { result ≡ false → 0 < length self.now }
    {
        self.first.is_empty() && are_empty(self.rest.as_slice())
    }

    /// Whether some entry has no bounds, so that the set stands for every environment. Takes no memory. It may be `false` if
    /// several entries together stand for every environment.
    pub fn is_all(&self) -> bool
        ensures meaning { result ≡ true → (env : Environment) → set_denotes self.now env ≡ true }
    {
        have_all(&self.first)
    }

    /// Returns an equal set, ids included. It shares each entry, and the blocks.
    pub fn copy(&self, alloc: Global) -> Result<EnvSet, NoMemory>
        ensures same { IfOk result (λ r. r ≡ self.now) }
    {
        let mut first = Vec::with_capacity(alloc, self.first.len())?;
        put_entries(&mut first, &self.first)?;
        let rest = self.rest.share()?;
        Ok(EnvSet { first, rest })
    }
}

/// Whether some entry has no bounds.
pub fn have_all(a: &[Entry]) -> bool
    ensures { result ≡ true → (env : Environment) → set_denotes a.now env ≡ true }
{
    for e in a {
        if e.pairs().is_empty() {
            return true;
        }
    }
    false
}

/// Returns the set of these entries, sorted, without those that another plainly covers. Of the entries that bound one variable
/// alone, a single one stands for all that exclude values, and it excludes no value that another of them allows.
///
/// For n entries that fix the same variables it takes n log n steps. If some exclude values, or have fewer bounds, each entry
/// is compared with those that bound a variable as it does, found by look-up.
pub fn settled(alloc: Global, entries: Vec<Entry>) -> Result<EnvSet, NoMemory>
    ensures meaning { IfOk result (λ r. (env : Environment) →
        set_denotes r env ≡ set_denotes entries.items env) }
    ensures vars { IfOk result (λ r. (t : Var → Bool) → set_vars t entries.items ≡ true →
        set_vars t r ≡ true) }
{
    if entries.len() < 2 {
        return Ok(EnvSet::of(entries));
    }
    let entries = in_order(entries);
    let wider = wider_entries(alloc, &entries)?;
    if wider.is_empty() {
        return kept_of(alloc, entries);
    }
    kept_of(alloc, in_order(with_all(entries, wider)?))
}

/// Like `settled`, for entries no two of which stand for the same environment, so that none covers another.
pub fn settled_apart(alloc: Global, entries: Vec<Entry>) -> Result<EnvSet, NoMemory>
    ensures meaning { IfOk result (λ r. (env : Environment) →
        set_denotes r env ≡ set_denotes entries.items env) }
    ensures vars { IfOk result (λ r. (t : Var → Bool) → set_vars t entries.items ≡ true →
        set_vars t r ≡ true) }
{
    if entries.len() < 2 {
        return Ok(EnvSet::of(entries));
    }
    let entries = in_order(entries);
    let wider = wider_entries(alloc, &entries)?;
    if wider.is_empty() {
        return EnvSet::in_blocks(alloc, entries);
    }
    kept_of(alloc, in_order(with_all(entries, wider)?))
}

/// Returns the entries, sorted.
fn in_order(entries: Vec<Entry>) -> Vec<Entry>
    ensures meaning { (env : Environment) →
        set_denotes result.items env ≡ set_denotes entries.items env }
    ensures vars { (t : Var → Bool) → set_vars t result.items ≡ set_vars t entries.items }
{
    let mut entries = entries;
    entries.sort_unstable_by(|a, b| entry_order(a, b));
    entries
}

/// Returns the entries of both lists.
fn with_all(entries: Vec<Entry>, more: Vec<Entry>) -> Result<Vec<Entry>, NoMemory>
    ensures { IfOk result (λ r. r.items ≡ entries.items ++ more.items) }
{
    let mut entries = entries;
    for e in more {
        entries.push(e)?;
    }
    Ok(entries)
}

/// Adds an entry, if there is one.
pub fn put_some(entries: &mut Vec<Entry>, more: Option<Entry>) -> Result<(), NoMemory>
    ensures { IfOk result (λ _. entries.new.items ≡ entries.old.items ++ option_to_list more) }
{
    if let Some(e) = more {
        entries.push(e)?;
    }
    Ok(())
}

/// Whether one of the first `count` entries covers this one.
pub fn first_cover(entries: &[Entry], count: usize, e: &Entry) -> bool
    ensures { result ≡ true → (env : Environment) → entry_denotes e.now env ≡ true →
        set_denotes entries.now env ≡ true }
{
    for i in 0..count.min(entries.len()) {
        if entry_covers(&entries[i], e) {
            return true;
        }
    }
    false
}
