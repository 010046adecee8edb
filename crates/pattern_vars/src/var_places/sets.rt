// The variables of the parts of a body, as sets.
ghost use Rattle.std.specs.Prelude.{◌≡◌, ◌||◌, ◌&&◌, false, IfOk, OnOk};
ghost use Rattle.smpl_terms.specs.declared.var.Var.{Var as Variable};
ghost use Rattle.smpl_patch.specs.Bodies.{body, element};
ghost use Rattle.smpl_patch.proofs.BodyLemmas.{bodies as bodies_of};
ghost use Rattle.pattern_vars.specs.Reads.{has};
ghost use Rattle.pattern_vars.specs.VarPlaces.Placing as placing;
ghost use Rattle.pattern_vars.specs.VarPlaces.Places.{reading_at, reads_by};

use crate::var_places::reader::Reader;
use crate::{VarSet, put_pattern};
use c_terms::NoMemory;
use smpl_patch::{Elem, Pattern};
use sqlite_items::Items;
use std::alloc::Global;

fn put_option(
    alloc: Global,
    reader: &Reader,
    plus: bool,
    p: &Option<Pattern>,
    set: &mut VarSet,
) -> Result<(), NoMemory>
    ensures { OnOk result ((y : Variable) → has set.new y ≡ (has set.old y || placing.any_option
        (λ p. reads_by reader.now plus p y) p.now)) }
{
    match p {
        None => Ok(()),
        Some(p) => put_pattern(alloc, reader.decls, reader.tokens, plus, p, set),
    }
}

/// Puts in the variables of the element's patterns. The flags say whether plus code and `when` code count.
#[cycle(put)]
fn put_element(
    alloc: Global,
    reader: &Reader,
    plus: bool,
    whens: bool,
    e: &Elem,
    set: &mut VarSet,
) -> Result<(), NoMemory>
    ensures { OnOk result ((y : Variable) → has set.new y ≡ (has set.old y || placing.any_element whens
        (λ p. reads_by reader.now plus p y) (element e.now))) }
{
    match e {
        Elem::Atom(p) => put_pattern(alloc, reader.decls, reader.tokens, plus, p, set),
        Elem::Compound(h, bodies, tail) => {
            put_compound(alloc, reader, plus, whens, h, bodies.as_slice(), tail, set)
        }
        Elem::Block(o, b, c) => { put_block(alloc, reader, plus, whens, o, b.as_slice(), c, set) }
        Elem::Gap(d) => put_whens(alloc, reader, plus, whens, d.whens.as_slice(), set),
        Elem::Nest(_, b, d) => {
            let inside = b.as_slice();
            put_nest(alloc, reader, plus, whens, inside, d.whens.as_slice(), set)
        }
        Elem::AnyOf(bodies) => { put_bodies(alloc, reader, plus, whens, bodies.as_slice(), set) }
        Elem::AllOf(bodies) => { put_bodies(alloc, reader, plus, whens, bodies.as_slice(), set) }
    }
}

#[cycle(put)]
fn put_compound(
    alloc: Global,
    reader: &Reader,
    plus: bool,
    whens: bool,
    h: &Pattern,
    bs: &[Items<Elem>],
    tail: &Option<Pattern>,
    set: &mut VarSet,
) -> Result<(), NoMemory>
    ensures { OnOk result ((y : Variable) → has set.new y ≡ (has set.old y
        || (reads_by reader.now plus h.now y
        || placing.any_bodies whens (λ p. reads_by reader.now plus p y) (bodies_of bs.now)
        || placing.any_option (λ p. reads_by reader.now plus p y) tail.now))) }
{
    put_pattern(alloc, reader.decls, reader.tokens, plus, h, set)?;
    put_bodies(alloc, reader, plus, whens, bs, set)?;
    put_option(alloc, reader, plus, tail, set)?;
    Ok(())
}

#[cycle(put)]
fn put_block(
    alloc: Global,
    reader: &Reader,
    plus: bool,
    whens: bool,
    o: &Pattern,
    b: &[Elem],
    c: &Pattern,
    set: &mut VarSet,
) -> Result<(), NoMemory>
    ensures { OnOk result ((y : Variable) → has set.new y ≡ (has set.old y
        || (reads_by reader.now plus o.now y
        || placing.any_body whens (λ p. reads_by reader.now plus p y) (body b.now)
        || reads_by reader.now plus c.now y))) }
{
    put_pattern(alloc, reader.decls, reader.tokens, plus, o, set)?;
    put_body(alloc, reader, plus, whens, b, set)?;
    put_pattern(alloc, reader.decls, reader.tokens, plus, c, set)?;
    Ok(())
}

/// Puts in the variables of `when` code, if it counts.
#[cycle(put)]
fn put_whens(
    alloc: Global,
    reader: &Reader,
    plus: bool,
    whens: bool,
    ws: &[Items<Elem>],
    set: &mut VarSet,
) -> Result<(), NoMemory>
    ensures { OnOk result ((y : Variable) → has set.new y ≡ (has set.old y || (whens
        && placing.any_bodies whens (λ p. reads_by reader.now plus p y) (bodies_of ws.now)))) }
{
    if whens {
        put_bodies(alloc, reader, plus, whens, ws, set)?;
    }
    Ok(())
}

#[cycle(put)]
fn put_nest(
    alloc: Global,
    reader: &Reader,
    plus: bool,
    whens: bool,
    b: &[Elem],
    ws: &[Items<Elem>],
    set: &mut VarSet,
) -> Result<(), NoMemory>
    ensures { OnOk result ((y : Variable) → has set.new y ≡ (has set.old y || (placing.any_body whens
        (λ p. reads_by reader.now plus p y) (body b.now) || (whens
        && placing.any_bodies whens (λ p. reads_by reader.now plus p y) (bodies_of ws.now))))) }
{
    put_body(alloc, reader, plus, whens, b, set)?;
    put_whens(alloc, reader, plus, whens, ws, set)?;
    Ok(())
}

#[cycle(put)]
fn put_body(
    alloc: Global,
    reader: &Reader,
    plus: bool,
    whens: bool,
    b: &[Elem],
    set: &mut VarSet,
) -> Result<(), NoMemory>
    ensures { OnOk result ((y : Variable) → has set.new y ≡ (has set.old y || placing.any_body whens
        (λ p. reads_by reader.now plus p y) (body b.now))) }
{
    for e in b {
        put_element(alloc, reader, plus, whens, e, set)?;
    }
    Ok(())
}

#[cycle(put)]
fn put_bodies(
    alloc: Global,
    reader: &Reader,
    plus: bool,
    whens: bool,
    bs: &[Items<Elem>],
    set: &mut VarSet,
) -> Result<(), NoMemory>
    ensures { OnOk result ((y : Variable) → has set.new y ≡ (has set.old y || placing.any_bodies whens
        (λ p. reads_by reader.now plus p y) (bodies_of bs.now))) }
{
    for b in bs {
        put_body(alloc, reader, plus, whens, b.as_slice(), set)?;
    }
    Ok(())
}

/// Returns the variables that are used in the atom.
pub fn used_in_atom(alloc: Global, reader: &Reader, p: &Pattern) -> Result<VarSet, NoMemory>
    ensures { IfOk result (λ set. (y : Variable) → has set y ≡ (reading_at reader.now).used p.now y) }
{
    let mut set = VarSet::new(alloc);
    put_pattern(alloc, reader.decls, reader.tokens, true, p, &mut set)?;
    Ok(set)
}

/// Returns the variables that are used in the atom, if there is one.
pub fn used_in_option(
    alloc: Global,
    reader: &Reader,
    p: &Option<Pattern>,
) -> Result<VarSet, NoMemory>
    ensures { IfOk result (λ set. (y : Variable) → has set y
        ≡ placing.any_option (λ p. (reading_at reader.now).used p y) p.now) }
{
    let mut set = VarSet::new(alloc);
    put_option(alloc, reader, true, p, &mut set)?;
    Ok(set)
}

/// Returns the variables that appear in the atom.
pub fn standing_in_atom(alloc: Global, reader: &Reader, p: &Pattern) -> Result<VarSet, NoMemory>
    ensures { IfOk result (λ set. (y : Variable) → has set y ≡ (reading_at reader.now).stands p.now y) }
{
    let mut set = VarSet::new(alloc);
    put_pattern(alloc, reader.decls, reader.tokens, false, p, &mut set)?;
    Ok(set)
}

/// Returns the variables that are used in the sequence, without `when` code.
pub fn used_in_body(alloc: Global, reader: &Reader, b: &[Elem]) -> Result<VarSet, NoMemory>
    ensures { IfOk result (λ set. (y : Variable) → has set y
        ≡ placing.any_body false (λ p. (reading_at reader.now).used p y) (body b.now)) }
{
    let mut set = VarSet::new(alloc);
    put_body(alloc, reader, true, false, b, &mut set)?;
    Ok(set)
}

/// Returns the variables that appear in the sequence; `when` code counts if `whens` is true.
pub fn standing_in_body(
    alloc: Global,
    reader: &Reader,
    whens: bool,
    b: &[Elem],
) -> Result<VarSet, NoMemory>
    ensures { IfOk result (λ set. (y : Variable) → has set y
        ≡ placing.any_body whens (λ p. (reading_at reader.now).stands p y) (body b.now)) }
{
    let mut set = VarSet::new(alloc);
    put_body(alloc, reader, false, whens, b, &mut set)?;
    Ok(set)
}

/// Returns the variables that appear in the element, without `when` code.
pub fn standing_in_element(alloc: Global, reader: &Reader, e: &Elem) -> Result<VarSet, NoMemory>
    ensures { IfOk result (λ set. (y : Variable) → has set y
        ≡ placing.any_element false (λ p. (reading_at reader.now).stands p y) (element e.now)) }
{
    let mut set = VarSet::new(alloc);
    put_element(alloc, reader, false, false, e, &mut set)?;
    Ok(set)
}

/// Returns the variables that appear in pieces of `when` code.
pub fn standing_in_whens(
    alloc: Global,
    reader: &Reader,
    ws: &[Items<Elem>],
) -> Result<VarSet, NoMemory>
    ensures { IfOk result (λ set. (y : Variable) → has set y
        ≡ placing.in_whens (reading_at reader.now) (bodies_of ws.now) y) }
{
    let mut set = VarSet::new(alloc);
    put_bodies(alloc, reader, false, true, ws, &mut set)?;
    Ok(set)
}

/// Returns the variables that occur in the element, including its `when` code and plus code.
pub fn occurring_in_element(alloc: Global, reader: &Reader, e: &Elem) -> Result<VarSet, NoMemory>
    ensures { IfOk result (λ set. (y : Variable) → has set y
        ≡ placing.occurs_element (reading_at reader.now) (element e.now) y) }
{
    let mut set = VarSet::new(alloc);
    put_element(alloc, reader, true, false, e, &mut set)?;
    put_element(alloc, reader, false, true, e, &mut set)?;
    Ok(set)
}

/// Returns the variables that occur in the sequence.
pub fn occurring_in_body(alloc: Global, reader: &Reader, b: &[Elem]) -> Result<VarSet, NoMemory>
    ensures { IfOk result (λ set. (y : Variable) → has set y
        ≡ placing.occurs_body (reading_at reader.now) (body b.now) y) }
{
    let mut set = VarSet::new(alloc);
    put_body(alloc, reader, true, false, b, &mut set)?;
    put_body(alloc, reader, false, true, b, &mut set)?;
    Ok(set)
}
