// Which variables are quantified where.
ghost use Rattle.std.specs.Prelude.{◌≡◌, ◌<◌, ◌^◌, ◌++◌, not, take, length, Some, IfOk, OnOk};
ghost use Rattle.std.specs.List.{filter};
ghost use Rattle.smpl_patch.specs.Bodies.{body};
ghost use Rattle.pattern_vars.specs.Reads.{has};
ghost use Rattle.pattern_vars.specs.VarPlaces.Placing as placing;
ghost use Rattle.pattern_vars.specs.VarPlaces.Places.{reading_at, places};
ghost use Rattle.pattern_vars.specs.VarPlaces.Homes as of_sequence;
ghost use Rattle.pattern_vars.specs.VarPlaces.Scopes.{joined};

use crate::VarSet;
use crate::var_places::homes::{Home, home_of, homes_of};
use crate::var_places::reader::Reader;
use crate::var_places::scope::{Scope, SequenceScope};
use crate::var_places::sets::{occurring_in_body, used_in_atom};
use c_terms::NoMemory;
use smpl_patch::{Elem, Pattern};
use smpl_terms::Var;
use sqlite_items::Items;
use std::alloc::Global;

/// An element's place in a sequence.
#[derive(Drop)]
pub struct Place {
    /// What is quantified at the suffix that begins with the element.
    pub here: Items<Var>,
    /// What is quantified inside the element.
    pub inside: Items<Var>,
    /// What is quantified around the element.
    pub scope: Scope,
}

/// Returns equal variables.
pub fn copied_vars(alloc: Global, vars: &[Var]) -> Result<Items<Var>, NoMemory>
    ensures { IfOk result (λ copies. copies ≡ vars.now) }
{
    let mut copies = Items::new(alloc);
    for x in vars {
        copies.push(x.copy(alloc)?)?;
    }
    Ok(copies)
}

/// The variables that are quantified at the suffix that begins with an element, and those inside the element.
#[derive(Drop)]
pub struct Shares {
    pub here: Items<Var>,
    pub inside: Items<Var>,
}

fn put_share(alloc: Global, here: bool, x: &Var, share: &mut Shares) -> Result<(), NoMemory>
    ensures { OnOk result (share.new ≡ of_sequence.shared_by here (not here) x.now share.old) }
{
    let x = x.copy(alloc)?;
    if here {
        share.here.push(x)?;
    } else {
        share.inside.push(x)?;
    }
    Ok(())
}

fn put_at(alloc: Global, h: Home, x: &Var, shares: &mut Vec<Shares>) -> Result<(), NoMemory>
    ensures { OnOk result (shares.new.items ≡ of_sequence.put_in 0 (Some h) x.now shares.old.items) }
{
    if h.place >= shares.len() {
        return Ok(());
    }
    let share = &mut shares[h.place];
    put_share(alloc, h.here, x, share)?;
    Ok(())
}

/// Puts the variable into the shares of the element at which it is quantified.
fn put_var(
    alloc: Global,
    home: Option<Home>,
    x: &Var,
    shares: &mut Vec<Shares>,
) -> Result<(), NoMemory>
    ensures { OnOk result (shares.new.items ≡ of_sequence.put_in 0 home x.now shares.old.items) }
{
    match home {
        None => Ok(()),
        Some(h) => put_at(alloc, h, x, shares),
    }
}

/// Returns this many empty shares.
fn empty_shares(alloc: Global, count: usize) -> Result<Vec<Shares>, NoMemory>
    ensures { IfOk result (λ found. found.items ≡ of_sequence.empty_shares count) }
{
    let mut found = Vec::new(alloc);
    for _i in 0..count {
        found.push(Shares {
            here: Items::new(alloc),
            inside: Items::new(alloc),
        })?;
    }
    Ok(found)
}

/// Sorts the variables by where they are quantified. Looks each up once; if there are none, reads nothing.
fn sorted(alloc: Global, reader: &Reader, b: &[Elem], vars: &[Var]) -> Result<Vec<Shares>, NoMemory>
    ensures { IfOk result (λ found. found.items ≡ of_sequence.shares_from
        (of_sequence.home_in (reading_at reader.now) 0 (body b.now)) 0 (body b.now) vars.now) }
{
    let mut found = empty_shares(alloc, b.len())?;
    if vars.len() == 0 {
        return Ok(found);
    }
    let homes = homes_of(alloc, reader, b)?;
    for x in vars {
        let home = home_of(alloc, &homes, x)?;
        put_var(alloc, home, x, &mut found)?;
    }
    Ok(found)
}

/// Returns those of the variables that are in the set, in their order.
pub fn among(alloc: Global, set: &VarSet, vars: &[Var]) -> Result<Items<Var>, NoMemory>
    ensures { IfOk result (λ found. found ≡ filter (has set.now) vars.now) }
{
    let mut found = Items::new(alloc);
    for x in vars {
        if set.has(alloc, x)? {
            found.push(x.copy(alloc)?)?;
        }
    }
    Ok(found)
}

/// Returns those of the variables that occur in the sequence, in their order. Reads nothing if there are no variables.
pub fn in_body(
    alloc: Global,
    reader: &Reader,
    b: &[Elem],
    vars: &[Var],
) -> Result<Items<Var>, NoMemory>
    ensures { IfOk result (λ found. found ≡ filter (placing.occurs_body (reading_at reader.now)
        (body b.now)) vars.now) }
{
    if vars.len() == 0 {
        return Ok(Items::new(alloc));
    }
    let set = occurring_in_body(alloc, reader, b)?;
    among(alloc, &set, vars)
}

/// Returns those of the variables that are used in the atom, in their order. Reads nothing if there are no variables.
pub fn at_atom(
    alloc: Global,
    reader: &Reader,
    p: &Pattern,
    vars: &[Var],
) -> Result<Items<Var>, NoMemory>
    ensures { IfOk result (λ found. found
        ≡ filter (λ x. (reading_at reader.now).used p.now x) vars.now) }
{
    if vars.len() == 0 {
        return Ok(Items::new(alloc));
    }
    let set = used_in_atom(alloc, reader, p)?;
    among(alloc, &set, vars)
}

/// Appends variables.
fn append(alloc: Global, more: &[Var], all: &mut Vec<Var>) -> Result<(), NoMemory>
    ensures { OnOk result (all.new.items ≡ all.old.items ++ more.now) }
{
    for x in more {
        all.push(x.copy(alloc)?)?;
    }
    Ok(())
}

/// Returns the scope with further variables, or the shared scope if there are none. Does not copy what is around.
pub fn extended(alloc: Global, scope: &Scope, here: &[Var]) -> Result<Scope, NoMemory>
    ensures { IfOk result (λ found. found ≡ scope.now ++ here.now) }
{
    if here.len() == 0 {
        return scope.share();
    }
    let mut vars = Vec::new(alloc);
    append(alloc, here, &mut vars)?;
    let inside = SequenceScope::of(alloc, scope, vars)?;
    inside.front(here.len())
}

/// Returns what is quantified at the suffixes of a sequence.
fn all_here(alloc: Global, shares: &[Shares]) -> Result<Vec<Var>, NoMemory>
    ensures { IfOk result (λ all. all.items ≡ of_sequence.all_here shares.now) }
{
    let mut all = Vec::new(alloc);
    for share in shares {
        append(alloc, share.here.as_slice(), &mut all)?;
    }
    Ok(all)
}

/// Returns an element's place in a sequence of which this many variables are quantified around the element.
fn place_of(
    alloc: Global,
    share: &Shares,
    inside: &SequenceScope,
    count: usize,
) -> Result<Place, NoMemory>
    ensures { IfOk result (λ place. place ≡ record {
      here = share.now.here;
      inside = share.now.inside;
      scope = joined inside.now.outer ++ take count inside.now.vars;
    }) }
{
    let here = copied_vars(alloc, share.here.as_slice())?;
    let own = copied_vars(alloc, share.inside.as_slice())?;
    let scope = inside.front(count)?;
    Ok(Place {
        here,
        inside: own,
        scope,
    })
}

/// Returns the places of a sequence's elements.
fn along(alloc: Global, shares: &[Shares], inside: &SequenceScope) -> Result<Vec<Place>, NoMemory>
    requires vars { inside.now.vars ≡ of_sequence.all_here shares.now }
    requires fits { length inside.now.vars < 2 ^ 64 }
    ensures { IfOk result (λ found. found.items
        ≡ of_sequence.scoped shares.now (joined inside.now.outer)) }
{
    let mut found = Vec::new(alloc);
    let mut count = 0;
    for share in shares {
        count += share.here.len();
        let place = place_of(alloc, share, inside, count)?;
        found.push(place)?;
    }
    Ok(found)
}

/// Returns the places of a sequence's elements. They share one list of what is quantified at its suffixes.
fn scoped(alloc: Global, shares: &[Shares], scope: &Scope) -> Result<Vec<Place>, NoMemory>
    ensures { IfOk result (λ found. found.items ≡ of_sequence.scoped shares.now scope.now) }
{
    let vars = all_here(alloc, shares)?;
    let inside = SequenceScope::of(alloc, scope, vars)?;
    along(alloc, shares, &inside)
}

/// Returns the places of a sequence's elements, given the variables that are quantified in the sequence and around it. Reads
/// the sequence a few times, and looks each variable up once.
pub fn places_of(
    alloc: Global,
    reader: &Reader,
    b: &[Elem],
    vars: &[Var],
    scope: &Scope,
) -> Result<Vec<Place>, NoMemory>
    ensures { IfOk result (λ found. found.items ≡ places (reading_at reader.now)
        (body b.now) vars.now scope.now) }
{
    let shares = sorted(alloc, reader, b, vars)?;
    scoped(alloc, shares.as_slice(), scope)
}
