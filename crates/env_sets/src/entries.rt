// Entries: bounds of some variables, each variable once, in order.
ghost use Rattle.std.specs.Prelude.{◌≡◌, ◌&&◌, ◌||◌, Bool, true, false, not, List, [], ◌∷◌, IfOk, map};
ghost use Rattle.std.specs.List.{list_all, filter};
ghost use Rattle.std.specs.Bool.{Decides};
ghost use Rattle.smpl_terms.specs.declared.var.Var.{Var};
ghost use Rattle.smpl_terms.specs.declared.value.Value.{Value as Datum};
ghost use Rattle.smpl_terms.specs.Vars.{same_var, Rising};
ghost use Rattle.smpl_terms.specs.Environments.{Environment, change, has_value, total};
ghost use Rattle.env_sets.specs.Bounds.{fits};
ghost use Rattle.env_sets.specs.Sets.{entry_denotes, option_denotes, entry_vars, option_vars, ForSomeValue};

use crate::bounds::{Bound, bound_covers, bound_order, bounds_clash, excluded, meet_bounds};
use c_terms::NoMemory;
use smpl_terms::{Env, Value, Var, VarMap, place, same_var, var_order};
use std::alloc::Global;
use std::cmp::Ordering;
use std::marker::Model;

/// The bounds of some variables. Copies share them. Contracts see the list of pairs, sorted by variable, each variable once.
#[derive(Drop)]
pub struct Entry {
    map: VarMap<Bound>,
}

impl Model for Entry {
    ghost use Rattle.std.specs.Coded.{codes};
    ghost use Rattle.c_terms.specs.contracts.tree.Tree as tree;
    ghost use Rattle.std.specs.Prelude.{List};
    ghost use Rattle.smpl_terms.specs.declared.var.Var.{Var};
    ghost use Rattle.env_sets.specs.declared.bounds.Bound.{Bound};

    ghost Value = { List (Var × Bound) };

    ghost coded = { Prim.hlevel (codes, tree.the_row.coded) };

    ghost view = { λ a. a.map };
}

fn pairs_without(
    alloc: Global,
    pairs: &[(Var, Bound)],
    v: &Var,
) -> Result<Vec<(Var, Bound)>, NoMemory>
    ensures { IfOk result (λ kept. kept.items ≡ filter (λ p. not (same_var p.0 v.now)) pairs.now) }
{
    let mut kept = Vec::with_capacity(alloc, pairs.len())?;
    for p in pairs {
        if !same_var(&p.0, v) {
            kept.push((p.0.copy(alloc)?, p.1.copy(alloc)?))?;
        }
    }
    Ok(kept)
}

fn pairs_free_of(
    alloc: Global,
    pairs: &[(Var, Bound)],
    env: &Env,
) -> Result<Vec<(Var, Bound)>, NoMemory>
    ensures { IfOk result (λ kept. kept.items ≡ filter
        (λ p. not (has_value env.now p.0)) pairs.now) }
{
    let mut kept = Vec::with_capacity(alloc, pairs.len())?;
    for p in pairs {
        if !env.has(&p.0) {
            kept.push((p.0.copy(alloc)?, p.1.copy(alloc)?))?;
        }
    }
    Ok(kept)
}

/// Whether the bound excludes no value.
fn is_open(bound: &Bound) -> bool
    ensures { result ≡ true → (x : Datum) → fits x bound.now ≡ true }
{
    match bound {
        Bound::Is(_) => false,
        Bound::Not(values) => values.is_empty(),
    }
}

impl Entry {
    /// Returns the entry without bounds, which stands for every environment.
    pub fn all(_alloc: Global) -> Entry
        ensures pairs { result ≡ [] }
    {
        Entry {
            map: VarMap::empty(),
        }
    }

    /// Returns an entry with one bound.
    pub fn one(alloc: Global, v: &Var, bound: Bound) -> Result<Entry, NoMemory>
        ensures pairs { IfOk result (λ e. e ≡ (v.now, bound) ∷ []) }
    {
        let mut pairs = Vec::new(alloc);
        pairs.push((v.copy(alloc)?, bound))?;
        let map = VarMap::of(alloc, pairs)?;
        Ok(Entry { map })
    }

    /// Returns the bounds, sorted by variable. Takes no memory.
    pub fn pairs(&self) -> &[(Var, Bound)]
        ensures pairs { result.now ≡ self.now }
        ensures rising { Rising self.now }
    {
        self.map.pairs()
    }

    /// Returns an equal entry, ids included. It shares the bounds, and takes no memory.
    pub fn copy(&self, _alloc: Global) -> Result<Entry, NoMemory>
        ensures same { IfOk result (λ e. e ≡ self.now) }
    {
        self.share()
    }

    /// Like [`Entry::copy`].
    pub(crate) fn share(&self) -> Result<Entry, NoMemory>
        ensures same { IfOk result (λ e. e ≡ self.now) }
    {
        let map = self.map.share()?;
        Ok(Entry { map })
    }

    /// Returns the entry with one more bound, or `None` if no environment is left. A bound that excludes no value is not added,
    /// and an entry whose bound of `v` plainly allows no more stays as it is.
    ///
    /// It searches for `v` from the first variable on. If the entry is the only owner of its bounds, it copies none but the new
    /// one. If both bounds exclude values, it joins their lists, at the cost of [`Values::joined`](crate::Values::joined).
    pub fn narrowed(self, alloc: Global, v: &Var, bound: &Bound) -> Result<Option<Entry>, NoMemory>
        ensures meaning { IfOk result
            (λ o. (env : Environment) → option_denotes o env ≡ (entry_denotes self env && fits (env v.now) bound.now)) }
        ensures vars { IfOk result
            (λ o. (t : Var → Bool) → entry_vars t self ≡ true → t v.now ≡ true → option_vars t o ≡ true) }
    {
        if is_open(bound) {
            return Ok(Some(self));
        }
        if has_within(self.pairs(), v, bound) {
            return Ok(Some(self));
        }
        self.bounded(alloc, v, bound)
    }

    /// Like `narrowed`, but always adds the bound or meets it with that of `v`.
    fn bounded(self, alloc: Global, v: &Var, bound: &Bound) -> Result<Option<Entry>, NoMemory>
        ensures meaning { IfOk result
            (λ o. (env : Environment) → option_denotes o env ≡ (entry_denotes self env && fits (env v.now) bound.now)) }
        ensures vars { IfOk result
            (λ o. (t : Var → Bool) → entry_vars t self ≡ true → t v.now ≡ true → option_vars t o ≡ true) }
    {
        let Entry { map } = self;
        let mut pairs = map.into_vec(alloc)?;
        let x = v.copy(alloc)?;
        let at = place(&pairs, v);
        if at < pairs.len() && same_var(&pairs[at].0, v) {
            let found = meet_bounds(alloc, &pairs[at].1, bound)?;
            match found {
                None => Ok(None),
                Some(both) => {
                    pairs[at] = (x, both);
                    let map = VarMap::of(alloc, pairs)?;
                    Ok(Some(Entry { map }))
                }
            }
        } else {
            pairs.insert(at, (x, bound.copy(alloc)?))?;
            let map = VarMap::of(alloc, pairs)?;
            Ok(Some(Entry { map }))
        }
    }

    /// Returns the entry without the bounds of the variables that have a value in `env`. It copies the other bounds, and looks
    /// each variable up in `env`.
    pub fn free_of(&self, alloc: Global, env: &Env) -> Result<Entry, NoMemory>
        ensures pairs { IfOk result (λ e. e ≡ filter (λ p. not (has_value env.now p.0)) self.now) }
    {
        let pairs = pairs_free_of(alloc, self.pairs(), env)?;
        let map = VarMap::of(alloc, pairs)?;
        Ok(Entry { map })
    }

    /// Returns the entry without the bound of `v`: what it stands for after some change of `v` alone. It copies the other
    /// bounds.
    pub fn without(&self, alloc: Global, v: &Var) -> Result<Entry, NoMemory>
        ensures pairs { IfOk result (λ e. e ≡ filter (λ p. not (same_var p.0 v.now)) self.now) }
        ensures meaning { IfOk result (λ e. (env : Environment) →
            Decides (entry_denotes e env) (ForSomeValue
            (λ w. entry_denotes self.now (change env v.now w)))) }
        ensures vars { IfOk result (λ e. (t : Var → Bool) → entry_vars (λ y. t y
            || same_var y v.now) self.now ≡ true → entry_vars t e ≡ true) }
    {
        let pairs = pairs_without(alloc, self.pairs(), v)?;
        let map = VarMap::of(alloc, pairs)?;
        Ok(Entry { map })
    }
}

/// Whether some pair bounds `v` such that no value is left for this bound.
fn has_clash(pairs: &[(Var, Bound)], v: &Var, bound: &Bound) -> bool
    ensures { result ≡ true → (env : Environment) →
        false ≡ (entry_denotes pairs.now env && fits (env v.now) bound.now) }
{
    for p in pairs {
        if same_var(&p.0, v) && bounds_clash(&p.1, bound) {
            return true;
        }
    }
    false
}

/// Whether the entries leave no common value to some variable; `false` if this is not evident. Takes no memory.
fn entries_clash(a: &Entry, b: &Entry) -> bool
    ensures { result ≡ true → (env : Environment) →
        false ≡ (entry_denotes a.now env && entry_denotes b.now env) }
{
    for p in b.pairs() {
        if has_clash(a.pairs(), &p.0, &p.1) {
            return true;
        }
    }
    false
}

/// Returns the number of values that the entry excludes. Takes no memory.
pub fn all_excluded(entry: &Entry) -> usize {
    let mut count: usize = 0;
    for p in entry.pairs() {
        count = count.saturating_add(excluded(&p.1));
    }
    count
}

/// Whether `a` fixes more variables than `b`, or fixes as many and excludes no fewer values. Takes no memory.
fn is_narrower(a: &Entry, b: &Entry) -> bool {
    match fixed_count(a).cmp(&fixed_count(b)) {
        Ordering::Less => false,
        Ordering::Greater => true,
        Ordering::Equal => all_excluded(a) >= all_excluded(b),
    }
}

/// Returns the number of variables that the entry fixes. Takes no memory.
fn fixed_count(entry: &Entry) -> usize {
    entry.pairs().iter().filter(|p| !p.1.is_not()).count()
}

/// Returns what both entries stand for, or `None` if no environment is left. Takes no memory if a variable has bounds in both
/// entries that leave it no value. If one entry plainly allows no more than the other, the result shares it.
pub fn meet_entries(alloc: Global, a: &Entry, b: &Entry) -> Result<Option<Entry>, NoMemory>
    ensures meaning { IfOk result (λ o. (env : Environment) →
        option_denotes o env ≡ (entry_denotes a.now env && entry_denotes b.now env)) }
    ensures vars { IfOk result
        (λ o. (t : Var → Bool) → entry_vars t a.now ≡ true → entry_vars t b.now ≡ true → option_vars t o ≡ true) }
{
    if entries_clash(a, b) {
        return Ok(None);
    }
    if is_narrower(a, b) {
        narrowed_by(alloc, a, b)
    } else {
        narrowed_by(alloc, b, a)
    }
}

/// Returns the first entry with the bounds of the second, or `None` if no environment is left.
fn narrowed_by(alloc: Global, a: &Entry, b: &Entry) -> Result<Option<Entry>, NoMemory>
    ensures meaning { IfOk result (λ o. (env : Environment) →
        option_denotes o env ≡ (entry_denotes a.now env && entry_denotes b.now env)) }
    ensures vars { IfOk result
        (λ o. (t : Var → Bool) → entry_vars t a.now ≡ true → entry_vars t b.now ≡ true → option_vars t o ≡ true) }
{
    let mut both = a.copy(alloc)?;
    for p in b.pairs() {
        match both.narrowed(alloc, &p.0, &p.1)? {
            None => return Ok(None),
            Some(next) => both = next,
        }
    }
    Ok(Some(both))
}

/// Whether the pairs bound `v`, and `bound` allows all that they allow.
fn has_within(pairs: &[(Var, Bound)], v: &Var, bound: &Bound) -> bool
    ensures { result ≡ true → (env : Environment) → entry_denotes pairs.now env ≡ true →
        fits (env v.now) bound.now ≡ true }
{
    for p in pairs {
        if same_var(&p.0, v) && bound_covers(bound, &p.1) {
            return true;
        }
    }
    false
}

/// Whether `a` stands for all that `b` stands for; `false` if this is not evident. It begins with the last bounds, since
/// neighbouring entries of a set begin alike. Takes no memory.
pub fn entry_covers(a: &Entry, b: &Entry) -> bool
    ensures { result ≡ true → (env : Environment) → entry_denotes b.now env ≡ true →
        entry_denotes a.now env ≡ true }
{
    let (outer, inner) = (a.pairs(), b.pairs());
    let mut i = outer.len();
    while i > 0 {
        i -= 1;
        if !has_within(inner, &outer[i].0, &outer[i].1) {
            return false;
        }
    }
    true
}

/// Compares two entries: first by the number of bounds, then by variables and bounds. An entry that covers another is before
/// it, unless lists of excluded values name a value twice. The result is `Equal` only if the bounds are the same, ids aside.
pub fn entry_order(a: &Entry, b: &Entry) -> Ordering {
    let (ps, qs) = (a.pairs(), b.pairs());
    let lengths = ps.len().cmp(&qs.len());
    if lengths.is_ne() {
        return lengths;
    }
    for (p, q) in ps.iter().zip(qs) {
        let order = pair_order(p, q);
        if order.is_ne() {
            return order;
        }
    }
    Ordering::Equal
}

fn pair_order(p: &(Var, Bound), q: &(Var, Bound)) -> Ordering {
    match var_order(&p.0, &q.0) {
        Ordering::Equal => bound_order(&p.1, &q.1),
        unequal => unequal,
    }
}

/// Whether each bound of the entry allows the variable's value. A variable without a value counts as the place 0. Takes no
/// memory.
pub fn entry_holds(entry: &Entry, env: &Env) -> bool
    ensures { result ≡ entry_denotes entry.now (total env.now) }
{
    entry.pairs().iter().all(|p| is_allowed(env, &p.0, &p.1))
}

fn is_allowed(env: &Env, v: &Var, bound: &Bound) -> bool
    ensures { result ≡ fits (total env.now v.now) bound.now }
{
    match env.get(v) {
        Some(value) => bound.allows(value),
        None => bound.allows(&Value::Place(0)),
    }
}
