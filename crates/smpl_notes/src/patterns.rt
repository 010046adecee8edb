// The patterns of a body.
ghost use Rattle.std.specs.Prelude.{◌≡◌, ◌++◌, map, IfOk, OnOk};
ghost use Rattle.smpl_patch.specs.Bodies.{body, element};
ghost use Rattle.smpl_patch.specs.Shapes.{option_patterns, patterns_element, patterns_body, patterns_bodies};
ghost use Rattle.smpl_patch.proofs.BodyLemmas.{bodies as bodies_of};

use c_terms::NoMemory;
use smpl_patch::{Elem, Pattern};
use sqlite_items::Items;
use std::alloc::Global;

/// Returns the patterns of a body in order, including those of `when` code. Linear. Recurses once per level of the body.
pub fn patterns_of<'a>(alloc: Global, elems: &'a [Elem]) -> Result<Vec<&'a Pattern>, NoMemory>
    ensures { IfOk result (λ found. map (λ p. p.now) found.items ≡ patterns_body (body elems.now)) }
{
    let mut found = Vec::new(alloc);
    put_body(elems, &mut found)?;
    Ok(found)
}

#[cycle(patterns)]
fn put_body<'a>(elems: &'a [Elem], found: &mut Vec<&'a Pattern>) -> Result<(), NoMemory>
    ensures { OnOk result (map (λ p. p.now) found.new.items
        ≡ map (λ p. p.now) found.old.items ++ patterns_body (body elems.now)) }
{
    for elem in elems {
        put_element(elem, found)?;
    }
    Ok(())
}

#[cycle(patterns)]
fn put_bodies<'a>(bodies: &'a [Items<Elem>], found: &mut Vec<&'a Pattern>) -> Result<(), NoMemory>
    ensures { OnOk result (map (λ p. p.now) found.new.items
        ≡ map (λ p. p.now) found.old.items ++ patterns_bodies (bodies_of bodies.now)) }
{
    for elems in bodies {
        put_body(elems.as_slice(), found)?;
    }
    Ok(())
}

#[cycle(patterns)]
fn put_element<'a>(elem: &'a Elem, found: &mut Vec<&'a Pattern>) -> Result<(), NoMemory>
    ensures { OnOk result (map (λ p. p.now) found.new.items
        ≡ map (λ p. p.now) found.old.items ++ patterns_element (element elem.now)) }
{
    match elem {
        Elem::Atom(pattern) => put_pattern(pattern, found),
        Elem::Compound(head, bodies, tail) => {
            put_pattern(head, found)?;
            put_bodies(bodies.as_slice(), found)?;
            put_option(tail, found)
        }
        Elem::Block(open, elems, close) => {
            put_pattern(open, found)?;
            put_body(elems.as_slice(), found)?;
            put_pattern(close, found)
        }
        Elem::Gap(dots) => put_bodies(dots.whens.as_slice(), found),
        Elem::Nest(_, elems, dots) => {
            put_body(elems.as_slice(), found)?;
            put_bodies(dots.whens.as_slice(), found)
        }
        Elem::AnyOf(bodies) => put_bodies(bodies.as_slice(), found),
        Elem::AllOf(bodies) => put_bodies(bodies.as_slice(), found),
    }
}

fn put_option<'a>(
    pattern: &'a Option<Pattern>,
    found: &mut Vec<&'a Pattern>,
) -> Result<(), NoMemory>
    ensures { OnOk result (map (λ p. p.now) found.new.items
        ≡ map (λ p. p.now) found.old.items ++ option_patterns pattern.now) }
{
    match pattern {
        None => Ok(()),
        Some(pattern) => put_pattern(pattern, found),
    }
}

fn put_pattern<'a>(pattern: &'a Pattern, found: &mut Vec<&'a Pattern>) -> Result<(), NoMemory>
    ensures { OnOk result (map (λ p. p.now) found.new.items
        ≡ map (λ p. p.now) found.old.items ++ option_patterns (Some pattern.now)) }
{
    found.push(pattern)?;
    Ok(())
}
