// What a bound says of one variable: that it has one value, or none of some values.
ghost use Rattle.std.specs.Prelude.{◌≡◌, ◌&&◌, true, false, not, IfOk};
ghost use Rattle.std.specs.List.{list_any};
ghost use Rattle.smpl_terms.specs.Values.{same};
ghost use Rattle.smpl_terms.specs.declared.value.Value.{Value as Datum};
ghost use Rattle.env_sets.specs.Bounds.{fits, option_fits, is_not};

use crate::excluded::Values;
use c_terms::NoMemory;
use smpl_terms::{Copied, Value, same_value, value_order};
use std::alloc::Global;
use std::cmp::Ordering;

/// The value of a variable, or the values that it does not have.
#[derive(Drop)]
pub enum Bound {
    /// The variable has this value.
    Is(Value),
    /// The variable has none of these values.
    Not(Values),
}

impl Bound {
    /// Returns an equal bound, ids included. It shares the values, and takes no memory.
    pub fn copy(&self, alloc: Global) -> Result<Bound, NoMemory>
        ensures same { IfOk result (λ b. b ≡ self.now) }
    {
        match self {
            Bound::Is(v) => Ok(Bound::Is(v.copy(alloc)?)),
            Bound::Not(vs) => Ok(Bound::Not(vs.copy(alloc)?)),
        }
    }

    /// Whether the variable may have this value. Logarithmic in the number of excluded values if they are in order, and linear
    /// otherwise. Takes no memory.
    pub fn allows(&self, v: &Value) -> bool
        ensures value { result ≡ fits v.now self.now }
    {
        match self {
            Bound::Is(w) => same_value(w, v),
            Bound::Not(ws) => !ws.have(v),
        }
    }

    /// Whether this is a list of excluded values. Takes no memory.
    pub fn is_not(&self) -> bool
        ensures value { result ≡ is_not self.now }
    {
        matches!(self, Bound::Not(_))
    }
}

impl Copied for Bound {
    fn copied(&self, alloc: Global) -> Result<Bound, NoMemory> {
        self.copy(alloc)
    }
}

/// Returns a bound that allows what both bounds allow, or `None` if no value is left. If both exclude values, it joins their
/// lists.
pub fn meet_bounds(alloc: Global, a: &Bound, b: &Bound) -> Result<Option<Bound>, NoMemory>
    ensures { IfOk result (λ o. (x : Datum) → option_fits x o ≡ (fits x a.now && fits x b.now)) }
{
    match (a, b) {
        (Bound::Is(v), _) => {
            if b.allows(v) {
                Ok(Some(a.copy(alloc)?))
            } else {
                Ok(None)
            }
        }
        (Bound::Not(_), Bound::Is(w)) => {
            if a.allows(w) {
                Ok(Some(b.copy(alloc)?))
            } else {
                Ok(None)
            }
        }
        (Bound::Not(vs), Bound::Not(ws)) => Ok(Some(Bound::Not(vs.joined(alloc, ws)?))),
    }
}

/// Whether no value is allowed by both bounds; `false` if this is not evident. Takes no memory.
pub fn bounds_clash(a: &Bound, b: &Bound) -> bool
    ensures { result ≡ true → (x : Datum) → false ≡ (fits x a.now && fits x b.now) }
{
    match (a, b) {
        (Bound::Is(v), _) => !b.allows(v),
        (Bound::Not(_), Bound::Is(w)) => !a.allows(w),
        (Bound::Not(_), Bound::Not(_)) => false,
    }
}

/// Returns the number of values that the bound excludes. Takes no memory.
pub fn excluded(bound: &Bound) -> usize {
    match bound {
        Bound::Is(_) => 0,
        Bound::Not(values) => values.count(),
    }
}

/// Whether `a` allows each value that `b` allows; `false` if this is not evident. If `a` excludes n values, it looks up n
/// values among those of `b`. Takes no memory.
pub fn bound_covers(a: &Bound, b: &Bound) -> bool
    ensures { result ≡ true → (x : Datum) → fits x b.now ≡ true → fits x a.now ≡ true }
{
    match (a, b) {
        (_, Bound::Is(w)) => a.allows(w),
        (Bound::Is(_), Bound::Not(_)) => false,
        (Bound::Not(vs), Bound::Not(ws)) => exclude_no_more(vs, ws),
    }
}

/// Whether each value of the first list is in the second. If the first list has each value once, the second can then be no
/// shorter.
fn exclude_no_more(vs: &Values, ws: &Values) -> bool
    ensures { result ≡ true → (x : Datum) → not (list_any (λ w. same w x) ws.now) ≡ true →
        not (list_any (λ v. same v x) vs.now) ≡ true }
{
    if vs.rises() && vs.count() > ws.count() {
        return false;
    }
    vs.are_among(ws)
}

/// Compares two bounds. A list of excluded values is before a value; lists, and values, compare in their own order. Takes no
/// memory.
pub fn bound_order(a: &Bound, b: &Bound) -> Ordering {
    match (a, b) {
        (Bound::Is(v), Bound::Is(w)) => value_order(v, w),
        (Bound::Is(_), Bound::Not(_)) => Ordering::Greater,
        (Bound::Not(_), Bound::Is(_)) => Ordering::Less,
        (Bound::Not(vs), Bound::Not(ws)) => vs.order(ws),
    }
}
