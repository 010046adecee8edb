// The elements and suffixes of a sequence at which its variables are quantified.
ghost use Rattle.std.specs.Prelude.{◌≡◌, ◌||◌, ◌&&◌, not, suc, cond, true, Some, IfOk, OnOk};
ghost use Rattle.smpl_terms.specs.declared.var.Var.{Var as Variable};
ghost use Rattle.smpl_terms.specs.Vars.{same_var};
ghost use Rattle.smpl_patch.specs.Bodies.{body, element};
ghost use Rattle.smpl_patch.specs.Bodies as bodies;
ghost use Rattle.pattern_vars.specs.Reads.{has};
ghost use Rattle.pattern_vars.specs.Keys.{value_of};
ghost use Rattle.pattern_vars.specs.VarPlaces.Placing as placing;
ghost use Rattle.pattern_vars.specs.VarPlaces.Places.{reading_at};
ghost use Rattle.pattern_vars.specs.VarPlaces.Homes as homes_of_sequence;
ghost use Rattle.pattern_vars.specs.VarPlaces.Homes.{AreHomes};

use crate::var_places::counted::spread;
use crate::var_places::reader::Reader;
use crate::var_places::sets::{occurring_in_element, standing_in_element};
use crate::{Key, VarSet};
use c_terms::NoMemory;
use indexmap::IndexMap;
use smpl_patch::Elem;
use smpl_terms::Var;
use std::alloc::Global;

/// Where a variable is quantified, if a suffix of a sequence holds all its occurrences.
#[derive(Clone, Copy)]
pub struct Home {
    /// The number of the element that holds it, or of the first element of the suffix at which it is quantified.
    pub place: usize,
    /// Whether it is quantified at the suffix, and not inside the element.
    pub here: bool,
    /// Whether it also occurs after that element.
    pub again: bool,
}

/// Returns where the variable is quantified.
pub fn home_of(
    alloc: Global,
    homes: &IndexMap<Key, Home>,
    x: &Var,
) -> Result<Option<Home>, NoMemory>
    ensures { IfOk result (λ home. home ≡ value_of homes.now.entries x.now) }
{
    let key = Key {
        var: x.copy(alloc)?,
    };
    let found = homes.get(&key);
    Ok(found.copied())
}

fn put_home(
    alloc: Global,
    x: &Var,
    home: Home,
    homes: &mut IndexMap<Key, Home>,
) -> Result<(), NoMemory>
    ensures { OnOk result ((y : Variable) → value_of homes.new.entries y
        ≡ cond (same_var x.now y) (Some home) (value_of homes.old.entries y)) }
{
    let key = Key {
        var: x.copy(alloc)?,
    };
    homes.insert(key, home)?;
    Ok(())
}

fn passes(again: bool, home: Option<Home>) -> bool
    ensures { result ≡ homes_of_sequence.passes again home }
{
    match home {
        Some(h) => !again || h.again,
        None => false,
    }
}

/// Puts the variable in, if it is quantified somewhere and, if `again` is true, occurs again.
fn put_passing(
    alloc: Global,
    homes: &IndexMap<Key, Home>,
    again: bool,
    x: &Var,
    set: &mut VarSet,
) -> Result<(), NoMemory>
    ensures { OnOk result ((y : Variable) → has set.new y ≡ (has set.old y
        || (homes_of_sequence.passes again (value_of homes.now.entries x.now) && same_var x.now y))) }
{
    let home = home_of(alloc, homes, x)?;
    let here = passes(again, home);
    if here {
        set.put(alloc, x)?;
    }
    Ok(())
}

/// Returns those of the variables that are quantified somewhere and, if `again` is true, occur again.
fn passing(
    alloc: Global,
    homes: &IndexMap<Key, Home>,
    again: bool,
    vars: &VarSet,
) -> Result<VarSet, NoMemory>
    ensures { IfOk result (λ found. (y : Variable) → has found y ≡ (has vars.now y
        && homes_of_sequence.passes again (value_of homes.now.entries y))) }
{
    let mut found = VarSet::new(alloc);
    for i in 0..vars.len() {
        put_passing(alloc, homes, again, vars.at(i), &mut found)?;
    }
    Ok(found)
}

fn is_choice(e: &Elem) -> bool
    ensures { result ≡ placing.is_choice (element e.now) }
{
    matches!(e, Elem::AnyOf(_) | Elem::AllOf(_))
}

fn is_dots(e: &Elem) -> bool
    ensures { result ≡ placing.is_dots (element e.now) }
{
    matches!(e, Elem::Gap(_) | Elem::Nest(_, _, _))
}

/// Whether variables of the element after this one may count at this one.
fn counts_at(e: &Elem, n: &Elem) -> bool
    ensures { result ≡ (placing.is_dots (element e.now) && not (placing.is_choice (element n.now))) }
{
    is_dots(e) && !is_choice(n)
}

/// Returns the variables that count at dots because they appear in the element after the dots and occur again later.
fn after_dots(
    alloc: Global,
    reader: &Reader,
    e: &Elem,
    rest: &[Elem],
    place: usize,
    homes: &IndexMap<Key, Home>,
) -> Result<VarSet, NoMemory>
    requires { AreHomes homes.now.entries (reading_at reader.now) (suc place) (body rest.now) }
    ensures { IfOk result (λ set. (y : Variable) → has set y
        ≡ placing.after_dots (reading_at reader.now) (element e.now) (body rest.now) y) }
{
    if rest.len() == 0 {
        return Ok(VarSet::new(alloc));
    }
    let n = &rest[0];
    let counts = counts_at(e, n);
    if !counts {
        return Ok(VarSet::new(alloc));
    }
    let near = standing_in_element(alloc, reader, n)?;
    let found = passing(alloc, homes, true, &near)?;
    Ok(found)
}

/// Records that the variables are quantified at the suffix that begins with this element.
fn put_here(
    alloc: Global,
    place: usize,
    vars: &VarSet,
    homes: &mut IndexMap<Key, Home>,
) -> Result<(), NoMemory>
    ensures { OnOk result ((y : Variable) → value_of homes.new.entries y
        ≡ cond (has vars.now y) (Some (record { place = place; here = true; again = true })) (value_of homes.old.entries y)) }
{
    for i in 0..vars.len() {
        let home = Home {
            place,
            here: true,
            again: true,
        };
        put_home(alloc, vars.at(i), home, homes)?;
    }
    Ok(())
}

/// Records where the variable, which occurs in this element, is quantified.
fn put_own(
    alloc: Global,
    place: usize,
    x: &Var,
    spread: &VarSet,
    later: &VarSet,
    homes: &mut IndexMap<Key, Home>,
) -> Result<(), NoMemory>
    ensures { OnOk result ((y : Variable) → value_of homes.new.entries y
        ≡ cond (same_var x.now y) (Some (record {
          place = place;
          here = has spread.now x.now || has later.now x.now;
          again = has later.now x.now;
        })) (value_of homes.old.entries y)) }
{
    let again = later.has(alloc, x)?;
    let several = spread.has(alloc, x)?;
    let here = several || again;
    put_home(alloc, x, Home { place, here, again }, homes)
}

/// Records where the variables, which occur in this element, are quantified.
fn put_each(
    alloc: Global,
    place: usize,
    vars: &VarSet,
    spread: &VarSet,
    later: &VarSet,
    homes: &mut IndexMap<Key, Home>,
) -> Result<(), NoMemory>
    ensures { OnOk result ((y : Variable) → value_of homes.new.entries y
        ≡ cond (has vars.now y) (Some (record {
          place = place;
          here = has spread.now y || has later.now y;
          again = has later.now y;
        })) (value_of homes.old.entries y)) }
{
    for i in 0..vars.len() {
        put_own(alloc, place, vars.at(i), spread, later, homes)?;
    }
    Ok(())
}

/// Records that the variables which count at the dots before a sequence are quantified there, given its homes.
fn put_dotted(
    alloc: Global,
    reader: &Reader,
    place: usize,
    e: &Elem,
    rest: &[Elem],
    homes: &mut IndexMap<Key, Home>,
) -> Result<(), NoMemory>
    requires { AreHomes homes.old.entries (reading_at reader.now) (suc place) (body rest.now) }
    ensures { OnOk result ((y : Variable) → value_of homes.new.entries y
        ≡ cond (placing.after_dots (reading_at reader.now) (element e.now) (body rest.now) y)
        (Some (record { place = place; here = true; again = true })) (value_of homes.old.entries y)) }
{
    let dotted = after_dots(alloc, reader, e, rest, place, homes)?;
    put_here(alloc, place, &dotted, homes)?;
    Ok(())
}

/// Records where the variables that occur in this element are quantified; `later` has those that also occur after it.
fn put_spread(
    alloc: Global,
    reader: &Reader,
    place: usize,
    e: &Elem,
    own: &VarSet,
    later: &VarSet,
    homes: &mut IndexMap<Key, Home>,
) -> Result<(), NoMemory>
    requires { (y : Variable) → has own.now y ≡ placing.occurs_element (reading_at reader.now) (element e.now) y }
    ensures { OnOk result ((y : Variable) → value_of homes.new.entries y
        ≡ cond (placing.occurs_element (reading_at reader.now) (element e.now) y) (Some (record {
          place = place;
          here = not (placing.is_inside (reading_at reader.now) (element e.now) y) || has later.now y;
          again = has later.now y;
        })) (value_of homes.old.entries y)) }
{
    let several = spread(alloc, reader, e)?;
    put_each(alloc, place, own, &several, later, homes)?;
    Ok(())
}

/// Turns the homes of a sequence into those of the sequence with one more element before it.
fn put_homes(
    alloc: Global,
    reader: &Reader,
    place: usize,
    e: &Elem,
    rest: &[Elem],
    homes: &mut IndexMap<Key, Home>,
) -> Result<(), NoMemory>
    requires { AreHomes homes.old.entries (reading_at reader.now) (suc place) (body rest.now) }
    ensures { OnOk result (AreHomes homes.new.entries (reading_at reader.now) place (bodies.Then (element e.now) (body rest.now))) }
{
    let own = occurring_in_element(alloc, reader, e)?;
    let later = passing(alloc, homes, false, &own)?;
    put_dotted(alloc, reader, place, e, rest, homes)?;
    put_spread(alloc, reader, place, e, &own, &later, homes)?;
    Ok(())
}

/// Returns where each variable that occurs in the sequence is quantified, if the sequence holds all its occurrences. Reads
/// each element a few times.
pub fn homes_of(alloc: Global, reader: &Reader, b: &[Elem]) -> Result<IndexMap<Key, Home>, NoMemory>
    ensures { IfOk result (λ homes. AreHomes homes.entries (reading_at reader.now) 0 (body b.now)) }
{
    let mut homes = IndexMap::new(alloc);
    let mut i = b.len();
    while i > 0 {
        i -= 1;
        let rest = &b[i + 1..];
        put_homes(alloc, reader, i, &b[i], rest, &mut homes)?;
    }
    Ok(homes)
}
