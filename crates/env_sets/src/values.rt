// Lists of values.
ghost use Rattle.std.specs.Prelude.{◌≡◌, ◌||◌, ◌<◌, ◌++◌, Bool, IfOk, MatchOption, [], ◌∷◌, false, true, length, slice_index_or};
ghost use Rattle.std.specs.List.{list_any, list_all};
ghost use Rattle.std.specs.List.Sorted.{IsSortedBy};
ghost use Rattle.std.specs.Ordering.{is_lt};
ghost use Rattle.smpl_terms.specs.declared.value.Value.{Value as Datum};
ghost use Rattle.smpl_terms.specs.Values.{same, value_order};
ghost use Rattle.env_sets.specs.Rising.{NoneAbove, Rise};

use c_terms::NoMemory;
use smpl_terms::{Value, same_value, value_order};
use std::alloc::Global;
use std::cmp::Ordering;
use std::marker::Model;

/// A list of values that a single call works on. It records whether it is in order, each value once; if so, look-ups are
/// logarithmic.
#[derive(Drop)]
pub struct ValueList {
    items: Vec<Value>,
    rising: bool,
}

impl Model for ValueList {
    ghost use Rattle.std.specs.Coded.{codes};
    ghost use Rattle.c_terms.specs.contracts.tree.Tree as tree;
    ghost use Rattle.std.specs.Prelude.{◌≡◌, List, true};
    ghost use Rattle.smpl_terms.specs.declared.value.Value.{Value as Datum};

    ghost Value = { List Datum };

    ghost coded = { Prim.hlevel (codes, tree.the_row.coded) };

    ghost use Rattle.env_sets.specs.Rising.{Rise};

    ghost view = { λ a. a.items.items };

    ghost invariant = { λ a. a.rising ≡ true → Rise a.items.items };
}

impl ValueList {
    /// Makes a list of the values of a `Vec`. Linear, and takes no memory.
    pub fn of(items: Vec<Value>) -> ValueList
        ensures items { result ≡ items.items }
    {
        let rising = is_rising(&items);
        ValueList { items, rising }
    }

    /// Returns the list as a `Vec`. Takes no memory.
    pub fn into_vec(self) -> Vec<Value>
        ensures items { result.items ≡ self }
    {
        let ValueList { items, rising: _ } = self;
        items
    }

    /// Returns the values, unchanged. Takes no memory.
    pub fn as_slice(&self) -> &[Value]
        ensures items { result.now ≡ self.now }
    {
        self.items.as_slice()
    }

    /// Whether the list has a value that is the same as this one. Logarithmic if the list is in order, and linear otherwise.
    /// Takes no memory.
    pub fn have(&self, v: &Value) -> bool
        ensures value { result ≡ list_any (λ w. same w v.now) self.now }
    {
        if self.rising {
            return has_in_order(&self.items, v);
        }
        has(&self.items, v)
    }
}

/// Returns the values in order, each once. For n values it takes n log n steps.
pub fn distinct(alloc: Global, values: Vec<Value>) -> Result<ValueList, NoMemory>
    ensures meaning { IfOk result (λ r. (z : Datum) → list_any (λ v. same v z) r ≡ list_any
        (λ v. same v z) values.items) }
    ensures rise { IfOk result (λ r. Rise r) }
{
    let mut values = values;
    values.sort_unstable_by(|v, w| value_order(v, w));
    let kept = without_repeats(alloc, values)?;
    Ok(ValueList::of(kept))
}

/// Returns the values of a sorted list, each once.
fn without_repeats(alloc: Global, values: Vec<Value>) -> Result<Vec<Value>, NoMemory>
    requires sorted { IsSortedBy (λ v w. is_lt (value_order v w)) values.items }
    ensures meaning { IfOk result (λ r. (z : Datum) → list_any (λ v. same v z) r.items ≡ list_any
        (λ v. same v z) values.items) }
    ensures rise { IfOk result (λ r. Rise r.items) }
{
    let mut kept = Vec::with_capacity(alloc, values.len())?;
    for v in values {
        put_new(&mut kept, v)?;
    }
    Ok(kept)
}

/// Adds a value, unless it is already the last.
pub fn put_new(kept: &mut Vec<Value>, v: Value) -> Result<(), NoMemory>
    ensures meaning { IfOk result (λ _. (z : Datum) → list_any
        (λ w. same w z) kept.new.items ≡ (list_any (λ w. same w z) kept.old.items || same v z)) }
    ensures among { IfOk result (λ _. (test : Datum → Bool) → list_all test kept.old.items ≡ true
        → test v ≡ true → list_all test kept.new.items ≡ true) }
    ensures rise { IfOk result (λ _. NoneAbove v kept.old.items → Rise kept.old.items →
        Rise kept.new.items) }
{
    if is_last(kept, &v) {
        return Ok(());
    }
    kept.push(v)?;
    Ok(())
}

/// Whether the last value of the list is the same as `v`.
fn is_last(kept: &[Value], v: &Value) -> bool
    ensures known { result ≡ true → (z : Datum) →
        list_any (λ w. same w z) kept.now ≡ (list_any (λ w. same w z) kept.now || same v.now z) }
    ensures rise { result ≡ false → NoneAbove v.now kept.now → Rise kept.now →
        Rise (kept.now ++ v.now ∷ []) }
{
    if kept.is_empty() {
        return false;
    }
    same_value(&kept[kept.len() - 1], v)
}

/// Whether the list has a value that is the same as `v`.
pub fn has(items: &[Value], v: &Value) -> bool
    ensures { result ≡ list_any (λ w. same w v.now) items.now }
{
    items.iter().any(|w| same_value(w, v))
}

/// Like `has`, for a list in order.
pub fn has_in_order(items: &[Value], v: &Value) -> bool
    requires { Rise items.now }
    ensures { result ≡ list_any (λ w. same w v.now) items.now }
{
    place_in_order(items, v).is_some()
}

/// Returns the index of the value in a list in order, found by binary search. Takes no memory.
pub fn place_in_order(items: &[Value], v: &Value) -> Option<usize>
    requires { Rise items.now }
    ensures { MatchOption result (list_any (λ w. same w v.now) items.now ≡ false)
        (λ k. (k < length items.now) × (same (slice_index_or items.now k v.now) v.now ≡ true)) }
{
    let (mut low, mut high) = (0, items.len());
    while low < high {
        let middle = low + (high - low) / 2;
        match value_order(&items[middle], v) {
            Ordering::Less => low = middle + 1,
            Ordering::Greater => high = middle,
            Ordering::Equal => return Some(middle),
        }
    }
    None
}

/// Whether each value is before the next.
pub fn is_rising(items: &[Value]) -> bool
    ensures { result ≡ true → Rise items.now }
{
    for i in 1..items.len() {
        if !value_order(&items[i - 1], &items[i]).is_lt() {
            return false;
        }
    }
    true
}
