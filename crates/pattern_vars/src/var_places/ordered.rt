// Variables in their order, with a fast search for those that are in a set.
ghost use Rattle.std.specs.Prelude.{◌≡◌, ◌↔◌, ◌||◌, ◌<◌, ℕ, Bool, true, nat_eq, length, [], All, IsTrue, IfOk, IfSome, OnOk};
ghost use Rattle.std.specs.List.{filter, list_any};
ghost use Rattle.std.specs.List.Sorted.{IsNonDecreasing};
ghost use Rattle.smpl_terms.specs.declared.var.Var.{Var as Variable};
ghost use Rattle.smpl_patch.specs.Bodies.{body};
ghost use Rattle.pattern_vars.specs.Reads.{has};
ghost use Rattle.pattern_vars.specs.VarPlaces.Placing as placing;
ghost use Rattle.pattern_vars.specs.VarPlaces.Places.{reading_at};
ghost use Rattle.pattern_vars.specs.VarPlaces.Ordered.{has_number, IsNumbered, ArePlaces};

use crate::var_places::place::among;
use crate::var_places::reader::Reader;
use crate::var_places::sets::occurring_in_body;
use crate::{VarSet, put_vars};
use c_terms::NoMemory;
use smpl_patch::Elem;
use smpl_terms::Var;
use sqlite_items::Items;
use std::alloc::Global;
use std::marker::Model;

/// Variables in their order. Those that are in a set are found without a look at the others. Contracts see the list.
#[derive(Drop)]
pub struct Ordered {
    /// The variables, in their order.
    vars: Items<Var>,
    /// Gives each variable its place as its number. `None` if a variable is in the list twice.
    numbers: Option<VarSet>,
}

impl Model for Ordered {
    ghost use Rattle.std.specs.Prelude.{List, IfSome};
    ghost use Rattle.smpl_terms.specs.declared.var.Var.{Var as Variable};
    ghost use Rattle.pattern_vars.specs.VarPlaces.Ordered.{IsNumbered};

    ghost Value = { List Variable };

    ghost view = { λ o. o.vars };

    ghost invariant = { λ o. IfSome o.numbers (λ numbers. IsNumbered numbers o.vars) };
}

/// Whether the variable has this number.
fn has_number(alloc: Global, numbers: &VarSet, x: &Var, i: usize) -> Result<bool, NoMemory>
    ensures { IfOk result (λ yes. yes ≡ has_number numbers.now i x.now) }
{
    match numbers.number(alloc, x)? {
        Some(n) => Ok(n == i),
        None => Ok(false),
    }
}

/// Whether the numbers of variables are their places.
fn is_numbered(alloc: Global, numbers: &VarSet, vars: &[Var]) -> Result<bool, NoMemory>
    ensures { IfOk result (λ yes. yes ≡ true → IsNumbered numbers.now vars.now) }
{
    if numbers.len() != vars.len() {
        return Ok(false);
    }
    for (i, x) in vars.iter().enumerate() {
        if !has_number(alloc, numbers, x, i)? {
            return Ok(false);
        }
    }
    Ok(true)
}

/// Returns the places of the variables as their numbers, if none of them is in the list twice.
fn numbers_of(alloc: Global, vars: &[Var]) -> Result<Option<VarSet>, NoMemory>
    ensures { IfOk result (λ found. IfSome found (λ numbers. IsNumbered numbers vars.now)) }
{
    let mut numbers = VarSet::new(alloc);
    put_vars(alloc, vars, &mut numbers)?;
    if is_numbered(alloc, &numbers, vars)? {
        Ok(Some(numbers))
    } else {
        Ok(None)
    }
}

/// Adds the number of the variable, if it has one.
fn put_number(
    alloc: Global,
    numbers: &VarSet,
    x: &Var,
    places: &mut Vec<usize>,
) -> Result<(), NoMemory>
    ensures { OnOk result ((i : ℕ) → list_any (nat_eq i) places.new.items
        ≡ (list_any (nat_eq i) places.old.items || has_number numbers.now i x.now)) }
{
    match numbers.number(alloc, x)? {
        Some(n) => {
            places.push(n)?;
            Ok(())
        }
        None => Ok(()),
    }
}

/// Returns the numbers of the variables of the set that have one.
fn numbers_in(alloc: Global, numbers: &VarSet, set: &VarSet) -> Result<Vec<usize>, NoMemory>
    ensures { IfOk result (λ places. (i : ℕ) → list_any (nat_eq i) places.items
        ≡ list_any (has_number numbers.now i) set.now) }
{
    let mut places = Vec::new(alloc);
    for k in 0..set.len() {
        put_number(alloc, numbers, set.at(k), &mut places)?;
    }
    Ok(places)
}

/// Returns the variables at these places, in their order. Equal places count once.
fn at_places(alloc: Global, vars: &[Var], places: &[usize]) -> Result<Items<Var>, NoMemory>
    requires in_order { IsNonDecreasing places.now }
    requires within { All (λ i. i < length vars.now) places.now }
    ensures { IfOk result (λ found. (test : Variable → Bool) → ArePlaces test vars.now places.now
        → found ≡ filter test vars.now) }
{
    let mut found = Items::new(alloc);
    let mut next = 0;
    for &i in places {
        if next <= i {
            found.push(vars[i].copy(alloc)?)?;
            next = i + 1;
        }
    }
    Ok(found)
}

/// Returns those of the variables that are in the set, by their numbers.
fn among_numbered(
    alloc: Global,
    numbers: &VarSet,
    vars: &[Var],
    set: &VarSet,
) -> Result<Items<Var>, NoMemory>
    requires { IsNumbered numbers.now vars.now }
    ensures { IfOk result (λ found. found ≡ filter (has set.now) vars.now) }
{
    let mut places = numbers_in(alloc, numbers, set)?;
    places.sort_unstable();
    at_places(alloc, vars, places.as_slice())
}

impl Ordered {
    /// Returns these variables, ready for searches. Takes a few look-ups for each.
    pub fn of(alloc: Global, vars: Items<Var>) -> Result<Ordered, NoMemory>
        ensures { IfOk result (λ found. found ≡ vars) }
    {
        let numbers = numbers_of(alloc, vars.as_slice())?;
        Ok(Ordered { vars, numbers })
    }

    /// Returns the variables, in their order. Takes no memory.
    pub fn as_slice(&self) -> &[Var]
        ensures { result.now ≡ self.now }
    {
        self.vars.as_slice()
    }

    /// Returns the number of variables. Takes no memory.
    pub fn len(&self) -> usize
        ensures { result ≡ length self.now }
    {
        self.vars.len()
    }

    /// Whether there are no variables. Takes no memory.
    pub fn is_empty(&self) -> bool
        ensures { IsTrue result ↔ (self.now ≡ []) }
    {
        self.vars.is_empty()
    }

    /// Returns those of the variables that are in the set, in their order. For a set of n variables this takes n look-ups and
    /// n log n steps, however long the list is, if no hashes collide. If a variable is in the list twice, each variable of the
    /// list is looked up instead.
    pub fn among(&self, alloc: Global, set: &VarSet) -> Result<Items<Var>, NoMemory>
        ensures { IfOk result (λ found. found ≡ filter (has set.now) self.now) }
    {
        match &self.numbers {
            Some(numbers) => among_numbered(alloc, numbers, self.vars.as_slice(), set),
            None => among(alloc, set, self.vars.as_slice()),
        }
    }

    /// Returns those of the variables that occur in the sequence, in their order. Reads the sequence once, and not at all if
    /// there are no variables.
    pub fn in_body(
        &self,
        alloc: Global,
        reader: &Reader,
        b: &[Elem],
    ) -> Result<Items<Var>, NoMemory>
        ensures { IfOk result (λ found. found ≡ filter (placing.occurs_body (reading_at reader.now)
            (body b.now)) self.now) }
    {
        if self.len() == 0 {
            return Ok(Items::new(alloc));
        }
        let set = occurring_in_body(alloc, reader, b)?;
        self.among(alloc, &set)
    }
}
