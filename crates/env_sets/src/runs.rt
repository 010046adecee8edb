// Lists of values in order that are stored as several lists, so that adding one value copies few of them.
//
//     [7]  [1, .., 40]  [0, .., 900]   with 5   =   [5, 7]  [1, .., 40]  [0, .., 900]
ghost use Rattle.std.specs.Prelude.{◌≡◌, ◌||◌, ◌++◌, ◌-◌, ◌<◌, ◌≤◌, List, true, false, [], ◌∷◌, length, take, drop, slice_index_or, IfOk};
ghost use Rattle.std.specs.List.{list_any, list_all};
ghost use Rattle.std.specs.Ordering.{is_lt};
ghost use Rattle.smpl_terms.specs.declared.value.Value.{Value as Datum};
ghost use Rattle.smpl_terms.specs.Values.{same, value_order};
ghost use Rattle.env_sets.specs.Rising.{Rise};
ghost use Rattle.env_sets.specs.Runs.{with_values, all_of, AllRise, unless_first};

use crate::values::has_in_order;
use c_terms::NoMemory;
use smpl_terms::{SharedList, Value, same_value, value_order};
use std::alloc::Global;

/// Each list is more than this many times as long as the one before it.
const RATIO: usize = 16;

/// Lists in order, no two of which have a value in common. Copies share them.
#[derive(Drop)]
pub struct Runs {
    pub first: SharedList<Value>,
    pub rest: SharedList<SharedList<Value>>,
}

impl Runs {
    /// Makes one list of these values.
    pub fn one(alloc: Global, items: Vec<Value>) -> Result<Runs, NoMemory>
        ensures first { IfOk result (λ r. r.first ≡ items.items) }
        ensures rest { IfOk result (λ r. r.rest ≡ []) }
    {
        Ok(Runs {
            first: SharedList::of(alloc, items)?,
            rest: SharedList::empty(),
        })
    }

    /// Returns the same lists. It shares them, and takes no memory.
    pub fn share(&self) -> Result<Runs, NoMemory>
        ensures first { IfOk result (λ r. r.first ≡ self.now.first) }
        ensures rest { IfOk result (λ r. r.rest ≡ self.now.rest) }
    {
        Ok(Runs {
            first: self.first.share()?,
            rest: self.rest.share()?,
        })
    }

    /// Whether some list has the value. Takes no memory.
    pub fn have(&self, v: &Value) -> bool
        requires first { Rise self.now.first }
        requires rest { AllRise self.now.rest }
        ensures { result ≡ list_any (λ w. same w v.now) (all_of self.now.first self.now.rest) }
    {
        has_in_order(self.first.as_slice(), v) || some_has(self.rest.as_slice(), v)
    }

    /// Returns the lists with more values, which are in order and none of which is there yet. Adding n values one by one takes
    /// n log n steps in all.
    pub fn with_more(&self, alloc: Global, more: Vec<Value>) -> Result<Runs, NoMemory>
        requires more { Rise more.items }
        requires first { Rise self.now.first }
        requires rest { AllRise self.now.rest }
        ensures meaning { IfOk result (λ r. (z : Datum) → list_any (λ v. same v z) (all_of r.first r.rest)
            ≡ (list_any (λ v. same v z) (all_of self.now.first self.now.rest) || list_any (λ v. same v z) more.items)) }
        ensures first { IfOk result (λ r. Rise r.first) }
        ensures rest { IfOk result (λ r. AllRise r.rest) }
    {
        if more.len() <= self.first.as_slice().len() / RATIO {
            return self.under(alloc, more);
        }
        let run = merged(alloc, &more, self.first.as_slice())?;
        absorbed(alloc, run, &self.rest)
    }

    /// Returns the lists with one more list before all others.
    fn under(&self, alloc: Global, more: Vec<Value>) -> Result<Runs, NoMemory>
        ensures { IfOk result (λ r. (r.first ≡ more.items) × (r.rest ≡ self.now.first ∷ self.now.rest)) }
    {
        let mut rest = Vec::new(alloc);
        rest.push(self.first.share()?)?;
        put_shares(&mut rest, self.rest.as_slice())?;
        Ok(Runs {
            first: SharedList::of(alloc, more)?,
            rest: SharedList::of(alloc, rest)?,
        })
    }

    /// Returns all values in order.
    pub fn into_vec(self, alloc: Global) -> Result<Vec<Value>, NoMemory>
        requires first { Rise self.first }
        requires rest { AllRise self.rest }
        ensures { IfOk result (λ r. r.items ≡ all_of self.first self.rest) }
    {
        let Runs { first, rest } = self;
        let runs = rest.as_slice();
        if runs.is_empty() {
            return first.into_vec(alloc);
        }
        let all = joined_from(alloc, runs)?;
        merged(alloc, first.as_slice(), &all)
    }
}

/// Returns the values of all lists, of which there is at least one.
fn joined_from(alloc: Global, runs: &[SharedList<Value>]) -> Result<Vec<Value>, NoMemory>
    requires some { 0 < length runs.now }
    requires rise { AllRise runs.now }
    ensures items { IfOk result (λ r. (vs : List Datum) → all_of vs runs.now ≡ with_values vs r.items) }
    ensures rise { IfOk result (λ r. Rise r.items) }
{
    let mut i = runs.len() - 1;
    let mut all = last_of(alloc, runs)?;
    while i > 0 {
        i -= 1;
        all = merged(alloc, runs[i].as_slice(), &all)?;
    }
    Ok(all)
}

/// Returns a copy of the last list.
fn last_of(alloc: Global, runs: &[SharedList<Value>]) -> Result<Vec<Value>, NoMemory>
    requires some { 0 < length runs.now }
    requires rise { AllRise runs.now }
    ensures items { IfOk result (λ r. (vs : List Datum) →
        all_of vs (drop (length runs.now - 1) runs.now) ≡ with_values vs r.items) }
    ensures rise { IfOk result (λ r. Rise r.items) }
{
    let last = runs.len() - 1;
    let mut all = Vec::new(alloc);
    put_all(alloc, &mut all, runs[last].as_slice())?;
    Ok(all)
}

/// Whether some list has the value.
fn some_has(runs: &[SharedList<Value>], v: &Value) -> bool
    requires { AllRise runs.now }
    ensures { result ≡ list_any (λ ws. list_any (λ w. same w v.now) ws) runs.now }
{
    for run in runs {
        if has_in_order(run.as_slice(), v) {
            return true;
        }
    }
    false
}

/// Returns the list merged with those that follow it, as long as they are too short to be kept separately.
fn absorbed(
    alloc: Global,
    run: Vec<Value>,
    rest: &SharedList<SharedList<Value>>,
) -> Result<Runs, NoMemory>
    requires run { Rise run.items }
    requires rest { AllRise rest.now }
    ensures meaning { IfOk result (λ r. (z : Datum) → list_any (λ v. same v z) (all_of r.first r.rest)
        ≡ (list_any (λ v. same v z) run.items || list_any (λ ws. list_any (λ v. same v z) ws) rest.now)) }
    ensures first { IfOk result (λ r. Rise r.first) }
    ensures rest { IfOk result (λ r. AllRise r.rest) }
{
    let mut all = run;
    let runs = rest.as_slice();
    let mut k = 0;
    while k < runs.len() && runs[k].as_slice().len() / RATIO < all.len() {
        all = merged(alloc, &all, runs[k].as_slice())?;
        k += 1;
    }
    let rest = rest_from(alloc, rest, k)?;
    Ok(Runs {
        first: SharedList::of(alloc, all)?,
        rest,
    })
}

/// Returns the lists from an index on.
fn rest_from(
    alloc: Global,
    rest: &SharedList<SharedList<Value>>,
    k: usize,
) -> Result<SharedList<SharedList<Value>>, NoMemory>
    requires { k ≤ length rest.now }
    ensures { IfOk result (λ r. r ≡ drop k rest.now) }
{
    if k == 0 {
        return Ok(rest.share()?);
    }
    let (_, kept) = rest.as_slice().split_at(k);
    let mut shares = Vec::new(alloc);
    put_shares(&mut shares, kept)?;
    Ok(SharedList::of(alloc, shares)?)
}

fn put_shares(out: &mut Vec<SharedList<Value>>, runs: &[SharedList<Value>]) -> Result<(), NoMemory>
    ensures { IfOk result (λ _. out.new.items ≡ out.old.items ++ runs.now) }
{
    for run in runs {
        out.push(run.share()?)?;
    }
    Ok(())
}

/// Appends copies of the values to a list.
pub fn put_all(alloc: Global, out: &mut Vec<Value>, items: &[Value]) -> Result<(), NoMemory>
    ensures { IfOk result (λ _. out.new.items ≡ out.old.items ++ items.now) }
{
    for v in items {
        out.push(v.copy(alloc)?)?;
    }
    Ok(())
}

/// Returns the values of two lists in order, in order. For m values in the first and n in the second it copies n, and looks m
/// up.
pub fn merged(alloc: Global, few: &[Value], many: &[Value]) -> Result<Vec<Value>, NoMemory>
    requires few { Rise few.now }
    requires many { Rise many.now }
    ensures items { IfOk result (λ r. r.items ≡ with_values few.now many.now) }
    ensures rise { IfOk result (λ r. Rise r.items) }
{
    let mut out = Vec::with_capacity(alloc, few.len().saturating_add(many.len()))?;
    let mut rest = many;
    for v in few {
        let (front, back) = rest.split_at(front_len(rest, v));
        put_all(alloc, &mut out, front)?;
        put_unless_first(alloc, &mut out, v, back)?;
        rest = back;
    }
    put_all(alloc, &mut out, rest)?;
    Ok(out)
}

/// Adds the value, unless the list begins with it.
fn put_unless_first(
    alloc: Global,
    out: &mut Vec<Value>,
    v: &Value,
    rest: &[Value],
) -> Result<(), NoMemory>
    ensures { IfOk result (λ _. out.new.items ≡ out.old.items ++ unless_first v.now rest.now) }
{
    match rest {
        [first, ..] if same_value(first, v) => Ok(()),
        _ => {
            out.push(v.copy(alloc)?)?;
            Ok(())
        }
    }
}

/// Returns the number of values at the front of a list in order that are before `v`, found by binary search.
fn front_len(items: &[Value], v: &Value) -> usize
    requires { Rise items.now }
    ensures within { result ≤ length items.now }
    ensures front { list_all (λ w. is_lt (value_order w v.now)) (take result items.now) ≡ true }
    ensures next { (w : Datum) → result < length items.now → w ≡ slice_index_or items.now result w
        → is_lt (value_order w v.now) ≡ false }
{
    let (mut low, mut high) = (0, items.len());
    while low < high {
        let middle = low + (high - low) / 2;
        if value_order(&items[middle], v).is_lt() {
            low = middle + 1;
        } else {
            high = middle;
        }
    }
    low
}
