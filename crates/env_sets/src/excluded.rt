// The values that a variable does not have.
ghost use Rattle.std.specs.Prelude.{◌≡◌, ◌||◌, true, false, [], IfOk};
ghost use Rattle.std.specs.List.{list_any, list_all};
ghost use Rattle.smpl_terms.specs.declared.value.Value.{Value as Datum};
ghost use Rattle.smpl_terms.specs.Values.{same};
ghost use Rattle.env_sets.specs.Rising.{Rise};

use crate::marks::bits_of;
use crate::runs::{Runs, put_all};
use crate::same::same_slices;
use crate::values::{ValueList, distinct, has, is_rising};
use c_terms::NoMemory;
use smpl_terms::{SharedList, Value, value_order};
use std::alloc::Global;
use std::cmp::Ordering;
use std::marker::Model;

/// A list of values. Copies share it. It records whether it is in order, each value once; if so, look-ups are logarithmic, and
/// a list with one more value shares most of it. Contracts see the list.
#[derive(Drop)]
pub struct Values {
    runs: Runs,
    rising: bool,
    /// The number of values.
    count: usize,
    /// One of 64 bits for each value.
    mark: u64,
}

impl Model for Values {
    ghost use Rattle.std.specs.Coded.{codes};
    ghost use Rattle.c_terms.specs.contracts.tree.Tree as tree;
    ghost use Rattle.std.specs.Prelude.{◌≡◌, List, [], true, false};
    ghost use Rattle.smpl_terms.specs.declared.value.Value.{Value as Datum};
    ghost use Rattle.env_sets.specs.Rising.{Rise};
    ghost use Rattle.env_sets.specs.Runs.{all_of, AllRise};

    ghost Value = { List Datum };

    ghost coded = { Prim.hlevel (codes, tree.the_row.coded) };

    ghost view = { λ a. all_of a.runs.first a.runs.rest };

    ghost invariant = { λ a. (a.rising ≡ true → Rise a.runs.first × AllRise a.runs.rest) × (a.rising ≡ false → a.runs.rest ≡ []) };
}

impl Values {
    /// Makes a list of the values of a `Vec`. Linear.
    pub fn of(alloc: Global, items: Vec<Value>) -> Result<Values, NoMemory>
        ensures items { IfOk result (λ r. r ≡ items.items) }
    {
        let rising = is_rising(&items);
        let (count, mark) = (items.len(), bits_of(&items));
        let runs = Runs::one(alloc, items)?;
        Ok(Values {
            runs,
            rising,
            count,
            mark,
        })
    }

    /// Returns the list as a `Vec`. Linear in the number of values, whose trees are shared.
    pub fn into_vec(self, alloc: Global) -> Result<Vec<Value>, NoMemory>
        ensures items { IfOk result (λ r. r.items ≡ self) }
    {
        let Values { runs, rising, .. } = self;
        if rising {
            return runs.into_vec(alloc);
        }
        let Runs { first, rest: _ } = runs;
        first.into_vec(alloc)
    }

    /// Returns the list in the form that a single call works on. Linear.
    pub(crate) fn list(&self, alloc: Global) -> Result<ValueList, NoMemory>
        ensures items { IfOk result (λ r. r ≡ self.now) }
    {
        let items = self.copy(alloc)?.into_vec(alloc)?;
        Ok(ValueList::of(items))
    }

    /// Whether the list is known to be empty. Takes no memory.
    pub fn is_empty(&self) -> bool
        ensures none { result ≡ true → self.now ≡ [] }
    {
        are_none(self.runs.first.as_slice()) && are_none(self.runs.rest.as_slice())
    }

    /// Returns the number of values; `joined` counts equal values only once. Takes no memory.
    pub fn count(&self) -> usize {
        self.count
    }

    /// Returns a mark that has one of 64 bits for each value. The marks of lists of the same values are equal, and the mark of
    /// a list has no bits other than those of a list that has all its values. Takes no memory.
    pub fn mark(&self) -> u64 {
        self.mark
    }

    /// Returns the values of the first list.
    pub(crate) fn first_run(&self) -> &[Value] {
        self.runs.first.as_slice()
    }

    /// Returns the other lists.
    pub(crate) fn rest_runs(&self) -> &[SharedList<Value>] {
        self.runs.rest.as_slice()
    }

    /// Whether the values are known to be in order, each once. Takes no memory.
    pub fn rises(&self) -> bool
        ensures rise { result ≡ true → Rise self.now }
    {
        self.rising
    }

    /// Returns an equal list, ids included, with the same knowledge of its order. It shares the list, and takes no memory.
    pub fn copy(&self, _alloc: Global) -> Result<Values, NoMemory>
        ensures same { IfOk result (λ r. r ≡ self.now) }
    {
        let runs = self.runs.share()?;
        Ok(Values {
            runs,
            rising: self.rising,
            count: self.count,
            mark: self.mark,
        })
    }

    /// Whether the list has a value that is the same as this one. Logarithmic if the list is in order, and linear otherwise.
    /// Takes no memory.
    pub fn have(&self, v: &Value) -> bool
        ensures value { result ≡ list_any (λ w. same w v.now) self.now }
    {
        if self.rising {
            return self.runs.have(v);
        }
        has(self.runs.first.as_slice(), v)
    }

    /// Whether the other list has each value. One look-up for each. Takes no memory.
    pub fn are_among(&self, others: &Values) -> bool
        ensures { result ≡ true → list_all (λ v. list_any (λ w. same w v) others.now) self.now ≡ true }
    {
        all_among(self.runs.first.as_slice(), others)
            && runs_among(self.runs.rest.as_slice(), others)
    }

    /// Whether both lists are stored alike, value by value.
    pub fn are_alike(&self, others: &Values) -> bool
        ensures { result ≡ true → (z : Datum) →
            list_any (λ v. same v z) self.now ≡ list_any (λ v. same v z) others.now }
    {
        same_slices(self.runs.first.as_slice(), others.runs.first.as_slice())
            && same_runs(self.runs.rest.as_slice(), others.runs.rest.as_slice())
    }

    /// Compares two lists: first by length, then by mark. If two lists agree in both, the first is the one that has the first
    /// value, in the order of values, that only one of them has; lists in order are compared value by value. The result is
    /// `Equal` for lists of the same length with the same values, however they are stored. At most one look-up for each value,
    /// and only if length and mark agree. Takes no memory.
    pub(crate) fn order(&self, others: &Values) -> Ordering {
        let lengths = self.count.cmp(&others.count);
        if lengths.is_ne() {
            return lengths;
        }
        let marks = self.mark.cmp(&others.mark);
        if marks.is_ne() || self.are_alike(others) {
            return marks;
        }
        match (self.first_lacked_by(others), others.first_lacked_by(self)) {
            (Some(v), Some(w)) => value_order(v, w),
            (Some(_), None) => Ordering::Less,
            (None, Some(_)) => Ordering::Greater,
            (None, None) => Ordering::Equal,
        }
    }

    /// Returns the first value, in the order of values, that the other list does not have.
    fn first_lacked_by(&self, others: &Values) -> Option<&Value> {
        let mut first = earlier_lacked_by(others, self.runs.first.as_slice(), self.rising, None);
        for run in self.runs.rest.as_slice() {
            first = earlier_lacked_by(others, run.as_slice(), self.rising, first);
        }
        first
    }

    /// Appends copies of the values to a list, in any order.
    pub(crate) fn put_in(&self, alloc: Global, out: &mut Vec<Value>) -> Result<(), NoMemory>
        ensures { IfOk result (λ _. (z : Datum) → list_any (λ v. same v z) out.new.items
            ≡ (list_any (λ v. same v z) out.old.items || list_any (λ v. same v z) self.now)) }
    {
        put_all(alloc, out, self.runs.first.as_slice())?;
        put_runs(alloc, out, self.runs.rest.as_slice())
    }

    /// Returns the values of both lists, in order, each once. It looks the values of the shorter list up in the longer, which
    /// shares most of its values with the result: n log n in all for n values that are added one by one. Lists that are not in
    /// order are sorted.
    pub fn joined(&self, alloc: Global, more: &Values) -> Result<Values, NoMemory>
        ensures meaning { IfOk result (λ r. (z : Datum) → list_any (λ v. same v z) r ≡ (list_any
            (λ v. same v z) self.now || list_any (λ v. same v z) more.now)) }
        ensures rise { IfOk result (λ r. Rise r) }
    {
        if self.count < more.count {
            return more.with_all(alloc, self);
        }
        self.with_all(alloc, more)
    }

    /// Like `joined`, given that the second list is the shorter one.
    fn with_all(&self, alloc: Global, more: &Values) -> Result<Values, NoMemory>
        ensures meaning { IfOk result (λ r. (z : Datum) → list_any (λ v. same v z) r ≡ (list_any
            (λ v. same v z) self.now || list_any (λ v. same v z) more.now)) }
        ensures rise { IfOk result (λ r. Rise r) }
    {
        if !self.rising {
            return self.anew(alloc, more);
        }
        let lacking = self.lacking(alloc, more)?;
        if are_none(&lacking) {
            return self.copy(alloc);
        }
        let count = self.count.saturating_add(lacking.len());
        let mark = self.mark | bits_of(&lacking);
        let runs = self.runs.with_more(alloc, lacking)?;
        Ok(Values {
            runs,
            rising: true,
            count,
            mark,
        })
    }

    /// Returns the values of the other list that this one does not have, in order, each once.
    fn lacking(&self, alloc: Global, more: &Values) -> Result<Vec<Value>, NoMemory>
        ensures meaning { IfOk result (λ r. (z : Datum) → (list_any (λ v. same v z) self.now || list_any (λ v. same v z) r.items)
            ≡ (list_any (λ v. same v z) self.now || list_any (λ v. same v z) more.now)) }
        ensures rise { IfOk result (λ r. Rise r.items) }
    {
        let mut lacking = Vec::new(alloc);
        put_lacking(alloc, &mut lacking, self, more.runs.first.as_slice())?;
        lack_runs(alloc, &mut lacking, self, more.runs.rest.as_slice())?;
        let lacking = distinct(alloc, lacking)?;
        Ok(lacking.into_vec())
    }

    /// Returns the values of both lists, sorted.
    fn anew(&self, alloc: Global, more: &Values) -> Result<Values, NoMemory>
        ensures meaning { IfOk result (λ r. (z : Datum) → list_any (λ v. same v z) r ≡ (list_any
            (λ v. same v z) self.now || list_any (λ v. same v z) more.now)) }
        ensures rise { IfOk result (λ r. Rise r) }
    {
        let mut all = Vec::new(alloc);
        self.put_in(alloc, &mut all)?;
        more.put_in(alloc, &mut all)?;
        let all = distinct(alloc, all)?;
        Values::of(alloc, all.into_vec())
    }
}

/// Returns the first, in the order of values, of `found` and the items that the list does not have. If the items are in order,
/// it stops there.
fn earlier_lacked_by<'v>(
    values: &Values,
    items: &'v [Value],
    in_order: bool,
    found: Option<&'v Value>,
) -> Option<&'v Value> {
    let mut first = found;
    for v in items {
        let earlier = is_earlier(v, first);
        if in_order && !earlier {
            return first;
        }
        if earlier && !values.have(v) {
            first = Some(v);
        }
    }
    first
}

fn is_earlier(v: &Value, than: Option<&Value>) -> bool {
    match than {
        None => true,
        Some(w) => value_order(v, w).is_lt(),
    }
}

fn are_none<T>(items: &[T]) -> bool
    ensures { result ≡ true → items.now ≡ [] }
{
    items.is_empty()
}

/// Adds those items that the list of values does not have.
fn put_lacking(
    alloc: Global,
    out: &mut Vec<Value>,
    values: &Values,
    items: &[Value],
) -> Result<(), NoMemory>
    ensures { IfOk result (λ _. (z : Datum) → (list_any (λ v. same v z) values.now || list_any (λ v. same v z) out.new.items)
        ≡ ((list_any (λ v. same v z) values.now || list_any (λ v. same v z) out.old.items) || list_any (λ v. same v z) items.now)) }
{
    for v in items {
        put_if_lacking(alloc, out, values, v)?;
    }
    Ok(())
}

fn put_if_lacking(
    alloc: Global,
    out: &mut Vec<Value>,
    values: &Values,
    v: &Value,
) -> Result<(), NoMemory>
    ensures { IfOk result (λ _. (z : Datum) → (list_any (λ w. same w z) values.now || list_any (λ w. same w z) out.new.items)
        ≡ ((list_any (λ w. same w z) values.now || list_any (λ w. same w z) out.old.items) || same v.now z)) }
{
    if values.have(v) {
        return Ok(());
    }
    out.push(v.copy(alloc)?)?;
    Ok(())
}

/// Like `put_lacking`, for several lists.
fn lack_runs(
    alloc: Global,
    out: &mut Vec<Value>,
    values: &Values,
    runs: &[SharedList<Value>],
) -> Result<(), NoMemory>
    ensures { IfOk result (λ _. (z : Datum) → (list_any (λ v. same v z) values.now || list_any (λ v. same v z) out.new.items)
        ≡ ((list_any (λ v. same v z) values.now || list_any (λ v. same v z) out.old.items)
        || list_any (λ ws. list_any (λ v. same v z) ws) runs.now)) }
{
    for run in runs {
        put_lacking(alloc, out, values, run.as_slice())?;
    }
    Ok(())
}

/// Appends copies of the values of several lists to a list.
fn put_runs(alloc: Global, out: &mut Vec<Value>, runs: &[SharedList<Value>]) -> Result<(), NoMemory>
    ensures { IfOk result (λ _. (z : Datum) → list_any (λ v. same v z) out.new.items
        ≡ (list_any (λ v. same v z) out.old.items || list_any (λ ws. list_any (λ v. same v z) ws) runs.now)) }
{
    for run in runs {
        put_all(alloc, out, run.as_slice())?;
    }
    Ok(())
}

/// Whether the list has each of the values.
fn all_among(items: &[Value], others: &Values) -> bool
    ensures { result ≡ list_all (λ v. list_any (λ w. same w v) others.now) items.now }
{
    items.iter().all(|v| others.have(v))
}

/// Like `all_among`, for several lists.
fn runs_among(runs: &[SharedList<Value>], others: &Values) -> bool
    ensures { result ≡ list_all (λ ws. list_all (λ v. list_any (λ w. same w v) others.now) ws) runs.now }
{
    runs.iter().all(|run| all_among(run.as_slice(), others))
}

/// Whether the lists have the same values, one by one.
fn same_runs(vs: &[SharedList<Value>], ws: &[SharedList<Value>]) -> bool
    ensures { result ≡ true → (z : Datum) → list_any (λ us. list_any (λ v. same v z) us) vs.now
        ≡ list_any (λ us. list_any (λ v. same v z) us) ws.now }
{
    if vs.len() != ws.len() {
        return false;
    }
    for i in 0..vs.len() {
        if !same_slices(vs[i].as_slice(), ws[i].as_slice()) {
            return false;
        }
    }
    true
}
