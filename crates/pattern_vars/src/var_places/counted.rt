// Which variables several parts of an element have.
ghost use Rattle.std.specs.Prelude.{◌≡◌, ◌+◌, ℕ, not, true, nat_le, IfOk, OnOk};
ghost use Rattle.smpl_terms.specs.declared.var.Var.{Var as Variable};
ghost use Rattle.smpl_patch.specs.Bodies.{body, element};
ghost use Rattle.smpl_patch.proofs.BodyLemmas.{bodies as bodies_of};
ghost use Rattle.pattern_vars.specs.Reads.{has};
ghost use Rattle.pattern_vars.specs.VarPlaces.Placing as placing;
ghost use Rattle.pattern_vars.specs.VarPlaces.Places.{reading_at};
ghost use Rattle.pattern_vars.specs.VarPlaces.Homes.{IsCount};

use crate::var_places::reader::Reader;
use crate::var_places::sets::{occurring_in_body, standing_in_whens, used_in_atom, used_in_option};
use crate::{VarSet, put_met, put_set};
use c_terms::NoMemory;
use smpl_patch::{Elem, Pattern};
use sqlite_items::Items;
use std::alloc::Global;

/// The variables that some of the parts have, and those that several have.
#[derive(Drop)]
pub struct Counted {
    pub some: VarSet,
    pub several: VarSet,
}

/// Counts one more part.
fn count(alloc: Global, part: &VarSet, counted: &mut Counted) -> Result<(), NoMemory>
    ensures { OnOk result ((y : Variable) (n : ℕ) → IsCount counted.old y n
        → IsCount counted.new y (n + placing.one (has part.now y))) }
{
    put_met(alloc, part, &counted.some, &mut counted.several)?;
    put_set(alloc, part, &mut counted.some)?;
    Ok(())
}

/// Counts one more part: an atom.
fn count_atom(
    alloc: Global,
    reader: &Reader,
    p: &Pattern,
    counted: &mut Counted,
) -> Result<(), NoMemory>
    ensures { OnOk result ((y : Variable) (n : ℕ) → IsCount counted.old y n
        → IsCount counted.new y (n + placing.one ((reading_at reader.now).used p.now y))) }
{
    let part = used_in_atom(alloc, reader, p)?;
    count(alloc, &part, counted)?;
    Ok(())
}

/// Counts one more part: an atom, if there is one.
fn count_option(
    alloc: Global,
    reader: &Reader,
    p: &Option<Pattern>,
    counted: &mut Counted,
) -> Result<(), NoMemory>
    ensures { OnOk result ((y : Variable) (n : ℕ) → IsCount counted.old y n
        → IsCount counted.new y (n + placing.one (placing.any_option (λ p. (reading_at reader.now).used p y) p.now))) }
{
    let part = used_in_option(alloc, reader, p)?;
    count(alloc, &part, counted)?;
    Ok(())
}

/// Counts one more part: a sequence.
fn count_body(
    alloc: Global,
    reader: &Reader,
    b: &[Elem],
    counted: &mut Counted,
) -> Result<(), NoMemory>
    ensures { OnOk result ((y : Variable) (n : ℕ) → IsCount counted.old y n
        → IsCount counted.new y (n + placing.one (placing.occurs_body (reading_at reader.now) (body b.now) y))) }
{
    let part = occurring_in_body(alloc, reader, b)?;
    count(alloc, &part, counted)?;
    Ok(())
}

fn count_bodies(
    alloc: Global,
    reader: &Reader,
    bs: &[Items<Elem>],
    counted: &mut Counted,
) -> Result<(), NoMemory>
    ensures { OnOk result ((y : Variable) (n : ℕ) → IsCount counted.old y n
        → IsCount counted.new y (n + placing.bodies_with (reading_at reader.now) (bodies_of bs.now) y)) }
{
    for b in bs {
        let part = occurring_in_body(alloc, reader, b.as_slice())?;
        count(alloc, &part, counted)?;
    }
    Ok(())
}

fn count_nothing(alloc: Global) -> Counted
    ensures { (y : Variable) → IsCount result y 0 }
{
    Counted {
        some: VarSet::new(alloc),
        several: VarSet::new(alloc),
    }
}

/// Returns the variables that several of the bodies have.
fn spread_bodies(alloc: Global, reader: &Reader, bs: &[Items<Elem>]) -> Result<VarSet, NoMemory>
    ensures { IfOk result (λ set. (y : Variable) → has set y
        ≡ not (nat_le (placing.bodies_with (reading_at reader.now) (bodies_of bs.now) y) 1)) }
{
    let mut counted = count_nothing(alloc);
    count_bodies(alloc, reader, bs, &mut counted)?;
    let Counted { some: _, several } = counted;
    Ok(several)
}

fn spread_compound(
    alloc: Global,
    reader: &Reader,
    h: &Pattern,
    bs: &[Items<Elem>],
    tail: &Option<Pattern>,
) -> Result<VarSet, NoMemory>
    ensures { IfOk result (λ set. (y : Variable) → has set y
        ≡ not (nat_le (placing.one ((reading_at reader.now).used h.now y)
        + placing.bodies_with (reading_at reader.now) (bodies_of bs.now) y
        + placing.one (placing.any_option (λ p. (reading_at reader.now).used p y) tail.now)) 1)) }
{
    let mut counted = count_nothing(alloc);
    count_atom(alloc, reader, h, &mut counted)?;
    count_bodies(alloc, reader, bs, &mut counted)?;
    count_option(alloc, reader, tail, &mut counted)?;
    let Counted { some: _, several } = counted;
    Ok(several)
}

fn spread_block(
    alloc: Global,
    reader: &Reader,
    o: &Pattern,
    b: &[Elem],
    c: &Pattern,
) -> Result<VarSet, NoMemory>
    ensures { IfOk result (λ set. (y : Variable) → has set y
        ≡ not (nat_le (placing.one ((reading_at reader.now).used o.now y)
        + placing.one (placing.occurs_body (reading_at reader.now) (body b.now) y)
        + placing.one ((reading_at reader.now).used c.now y)) 1)) }
{
    let mut counted = count_nothing(alloc);
    count_atom(alloc, reader, o, &mut counted)?;
    count_body(alloc, reader, b, &mut counted)?;
    count_atom(alloc, reader, c, &mut counted)?;
    let Counted { some: _, several } = counted;
    Ok(several)
}

fn no_vars(alloc: Global) -> Result<VarSet, NoMemory>
    ensures { IfOk result (λ set. (y : Variable) → has set y ≡ not true) }
{
    Ok(VarSet::new(alloc))
}

/// Returns, of the variables that occur in the element, those for which no part inside it holds all occurrences.
pub fn spread(alloc: Global, reader: &Reader, e: &Elem) -> Result<VarSet, NoMemory>
    ensures { IfOk result (λ set. (y : Variable) → placing.occurs_element (reading_at reader.now) (element e.now) y ≡ true
        → has set y ≡ not (placing.is_inside (reading_at reader.now) (element e.now) y)) }
{
    match e {
        Elem::Atom(_) => no_vars(alloc),
        Elem::Compound(h, bodies, tail) => spread_compound(
            alloc,
            reader,
            h,
            bodies.as_slice(),
            tail,
        ),
        Elem::Block(o, b, c) => spread_block(alloc, reader, o, b.as_slice(), c),
        Elem::Gap(d) => standing_in_whens(alloc, reader, d.whens.as_slice()),
        Elem::Nest(_, _, d) => standing_in_whens(alloc, reader, d.whens.as_slice()),
        Elem::AnyOf(bodies) => spread_bodies(alloc, reader, bodies.as_slice()),
        Elem::AllOf(bodies) => spread_bodies(alloc, reader, bodies.as_slice()),
    }
}
