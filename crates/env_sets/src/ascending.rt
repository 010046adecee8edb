// Entries in the order of the values that they fix, and binary search among them.
ghost use Rattle.std.specs.Prelude.{◌≡◌, ◌≤◌, ◌<◌, ◌-◌, true, false, length, take, drop};
ghost use Rattle.std.specs.declared.cmp.Ordering.{Ordering};
ghost use Rattle.std.specs.declared.cmp.Ordering.TheVariants.{Less, Equal};
ghost use Rattle.smpl_terms.specs.Values.{value_order};
ghost use Rattle.smpl_terms.specs.Environments.{Environment, total};
ghost use Rattle.env_sets.specs.Sets.{set_denotes};
ghost use Rattle.env_sets.specs.Ascending.{bound_side, side, NoLater, MayFollow, Ascend, IsInOrder};

use crate::bounds::Bound;
use crate::entries::{Entry, entry_holds};
use smpl_terms::{Env, Value, Var, same_var, value_order};
use std::cmp::Ordering;

/// Fewer entries than this are checked one by one.
const MANY: usize = 16;

/// Returns the index from which the entries ascend to the end: each fixes the same variables as the next, up to one whose
/// values it excludes, at values that are not after those of the next. Returns the number of entries if fewer than 16 ascend.
/// It visits no more entries than ascend, and takes no memory.
pub fn ascending_from(entries: &[Entry]) -> usize
    ensures { IsInOrder result entries.now }
{
    let count = entries.len();
    if count < MANY {
        return count;
    }
    let mut from = count;
    while from > 0 && goes_on(entries, from) {
        from -= 1;
    }
    if count - from < MANY {
        return count;
    }
    from
}

/// Whether the entries from this index on may follow the entry before it.
fn goes_on(entries: &[Entry], from: usize) -> bool
    requires some { 0 < from }
    requires within { from ≤ length entries.now }
    ensures { result ≡ true → Ascend (drop from entries.now) → Ascend (drop (from - 1) entries.now) }
{
    if from == entries.len() {
        return true;
    }
    may_follow(entries[from - 1].pairs(), entries[from].pairs())
}

/// Whether the second entry is not before the first; `false` if this is not evident.
pub fn may_follow(a: &[(Var, Bound)], b: &[(Var, Bound)]) -> bool
    ensures { result ≡ true → MayFollow a.now b.now }
{
    if a.len() != b.len() {
        return false;
    }
    for i in 0..a.len() {
        match pair_step(&a[i], &b[i]) {
            Ordering::Less => return true,
            Ordering::Equal => {}
            Ordering::Greater => return false,
        }
    }
    true
}

/// Returns `Less` if the second pair may follow the first, whatever pairs come after them, and `Equal` if this depends on the
/// pairs after them.
fn pair_step(p: &(Var, Bound), q: &(Var, Bound)) -> Ordering
    ensures less { result ≡ Less → (env : Environment) → (r s : Ordering) →
        NoLater (bound_side p.now.1 (env p.now.0) r) (bound_side q.now.1 (env q.now.0) s) }
    ensures equal { result ≡ Equal → (env : Environment) → (r s : Ordering) → NoLater r s →
        NoLater (bound_side p.now.1 (env p.now.0) r) (bound_side q.now.1 (env q.now.0) s) }
{
    match (&p.1, &q.1) {
        (Bound::Is(v), Bound::Is(w)) => {
            if same_var(&p.0, &q.0) {
                value_order(v, w)
            } else {
                Ordering::Greater
            }
        }
        (Bound::Not(_), Bound::Not(_)) => Ordering::Less,
        _ => Ordering::Greater,
    }
}

/// Whether one of the entries stands for `env`. It finds the first entry that is not before `env` by binary search, and checks
/// those beside `env` one by one. Takes no memory.
pub fn ascending_hold(entries: &[Entry], env: &Env) -> bool
    requires { Ascend entries.now }
    ensures { result ≡ set_denotes entries.now (total env.now) }
{
    for i in first_not_before(entries, env)..entries.len() {
        if entry_side(entries[i].pairs(), env).is_gt() {
            return false;
        }
        if entry_holds(&entries[i], env) {
            return true;
        }
    }
    false
}

/// Returns the index of the first entry that is not before `env`, or the number of entries if there is none.
fn first_not_before(entries: &[Entry], env: &Env) -> usize
    requires { Ascend entries.now }
    ensures within { result ≤ length entries.now }
    ensures front { set_denotes (take result entries.now) (total env.now) ≡ false }
{
    let (mut low, mut high) = (0, entries.len());
    while low < high {
        let middle = low + (high - low) / 2;
        if entry_side(entries[middle].pairs(), env).is_lt() {
            low = middle + 1;
        } else {
            high = middle;
        }
    }
    low
}

/// Returns whether the entry is before `env`, after it or beside it. Variables without a value count as the place 0.
pub fn entry_side(pairs: &[(Var, Bound)], env: &Env) -> Ordering
    ensures { result ≡ side pairs.now (total env.now) }
{
    for i in 0..pairs.len() {
        match &pairs[i].1 {
            Bound::Not(_) => return Ordering::Equal,
            Bound::Is(v) => match value_side(v, &pairs[i].0, env) {
                Ordering::Equal => {}
                unequal => return unequal,
            },
        }
    }
    Ordering::Equal
}

/// Returns whether `v` is before the variable's value, equal to it or after it.
fn value_side(v: &Value, x: &Var, env: &Env) -> Ordering
    ensures { result ≡ value_order v.now (total env.now x.now) }
{
    match env.get(x) {
        Some(value) => value_order(v, value),
        None => value_order(v, &Value::Place(0)),
    }
}
