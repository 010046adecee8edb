// Entries indexed by one bound of each. An entry that covers another is found under the bounds of the other.
use crate::bounds::Bound;
use crate::entries::{Entry, all_excluded};
use crate::excluded::Values;
use crate::marks::{excluded_key, fixed_key, open_key};
use c_terms::NoMemory;
use smpl_terms::Var;
use std::alloc::Global;

/// Fewer entries than this are all compared.
const MANY: usize = 16;

/// The key of an entry that names no value.
const NO_VALUE: u64 = 0;

/// The indices of entries in order. Each is listed under a value at which the entry fixes a variable; if it fixes none, under a
/// value that it excludes, and under the variable of that value.
#[derive(Drop)]
pub struct Lookup {
    /// The indices, by the key of a bound.
    slots: Vec<Vec<usize>>,
    /// The number of slots to be made.
    most: usize,
    /// Entries from this index on have not been visited.
    seen: usize,
    /// Entries from this index on that exclude nothing are not listed yet: they have as many bounds as the last.
    waiting: usize,
}

impl Lookup {
    /// Returns an empty index, for at most this many entries. Takes no memory.
    pub fn new(alloc: Global, most: usize) -> Lookup {
        Lookup {
            slots: Vec::new(alloc),
            most,
            seen: 0,
            waiting: 0,
        }
    }

    /// Lists the entries that may cover this one. An entry that excludes nothing covers only entries with more bounds.
    pub fn prepare(&mut self, alloc: Global, entries: &[Entry], e: &Entry) -> Result<(), NoMemory> {
        if entries.len() < MANY {
            return Ok(());
        }
        for i in self.seen..entries.len() {
            if excludes(&entries[i]) {
                self.put(alloc, i, &entries[i])?;
            }
        }
        self.seen = entries.len();
        if self.waiting < entries.len() && has_fewer(&entries[self.waiting], e) {
            self.put_waiting(alloc, entries)?;
        }
        Ok(())
    }

    fn put_waiting(&mut self, alloc: Global, entries: &[Entry]) -> Result<(), NoMemory> {
        for i in self.waiting..entries.len() {
            if !excludes(&entries[i]) {
                self.put(alloc, i, &entries[i])?;
            }
        }
        self.waiting = entries.len();
        Ok(())
    }

    /// Whether looking up candidates is cheaper than comparing `count` entries.
    pub fn serves(&self, count: usize, e: &Entry) -> bool {
        count >= MANY && all_excluded(e) <= count
    }

    /// Returns the indices of all entries that cover this one, and of some others.
    pub fn candidates(&self, alloc: Global, e: &Entry) -> Result<Vec<usize>, NoMemory> {
        let mut numbers = Vec::new(alloc);
        if self.slots.is_empty() {
            return Ok(numbers);
        }
        numbers.extend_from_slice(self.under(NO_VALUE))?;
        for p in e.pairs() {
            match &p.1 {
                Bound::Is(v) => {
                    numbers.extend_from_slice(self.under(fixed_key(&p.0, v)))?;
                    numbers.extend_from_slice(self.under(open_key(&p.0)))?;
                }
                Bound::Not(values) => self.put_excluding(&mut numbers, &p.0, values)?,
            }
        }
        Ok(numbers)
    }

    /// Adds the indices listed under the excluded values.
    fn put_excluding(
        &self,
        numbers: &mut Vec<usize>,
        x: &Var,
        values: &Values,
    ) -> Result<(), NoMemory> {
        for v in values.first_run() {
            numbers.extend_from_slice(self.under(excluded_key(x, v)))?;
        }
        for run in values.rest_runs() {
            for v in run.as_slice() {
                numbers.extend_from_slice(self.under(excluded_key(x, v)))?;
            }
        }
        Ok(())
    }

    /// Lists an entry under the key with the fewest indices.
    fn put(&mut self, alloc: Global, number: usize, e: &Entry) -> Result<(), NoMemory> {
        if self.slots.is_empty() {
            for _ in 0..self.most {
                self.slots.push(Vec::new(alloc))?;
            }
        }
        if let Some(key) = self.rarest_fixed(e) {
            return self.put_under(key, number);
        }
        match self.rarest_excluded(e) {
            Some((open, key)) => {
                self.put_under(open, number)?;
                self.put_under(key, number)
            }
            None => self.put_under(NO_VALUE, number),
        }
    }

    /// Returns the rarest key of a value at which the entry fixes a variable.
    fn rarest_fixed(&self, e: &Entry) -> Option<u64> {
        let mut best = None;
        for p in e.pairs() {
            if let Bound::Is(v) = &p.1 {
                let key = fixed_key(&p.0, v);
                if self.is_rarer(key, best) {
                    best = Some(key);
                }
            }
        }
        best
    }

    /// Returns the keys of a variable and of a value that the entry excludes for it: the rarest among the first values of its
    /// bounds.
    fn rarest_excluded(&self, e: &Entry) -> Option<(u64, u64)> {
        let mut best = None;
        for p in e.pairs() {
            if let Bound::Not(values) = &p.1 {
                if let Some(v) = values.first_run().first() {
                    let key = excluded_key(&p.0, v);
                    if self.is_rarer(key, best.map(|keys: (u64, u64)| keys.1)) {
                        best = Some((open_key(&p.0), key));
                    }
                }
            }
        }
        best
    }

    fn is_rarer(&self, key: u64, than: Option<u64>) -> bool {
        match than {
            None => true,
            Some(other) => self.under(key).len() < self.under(other).len(),
        }
    }

    /// Returns the indices under a key, and under other keys of the same slot.
    fn under(&self, key: u64) -> &[usize] {
        let count = self.slots.len();
        if count == 0 {
            return &[];
        }
        self.slots[key as usize % count].as_slice()
    }

    fn put_under(&mut self, key: u64, number: usize) -> Result<(), NoMemory> {
        let count = self.slots.len();
        if count > 0 {
            self.slots[key as usize % count].push(number)?;
        }
        Ok(())
    }
}

fn excludes(e: &Entry) -> bool {
    e.pairs().iter().any(|p| p.1.is_not())
}

fn has_fewer(a: &Entry, b: &Entry) -> bool {
    a.pairs().len() < b.pairs().len()
}
