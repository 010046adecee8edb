// The blocks of a body.
ghost use Rattle.std.specs.Prelude.{◌≡◌, ◌++◌, IfOk, OnOk};
ghost use Rattle.smpl_patch.specs.Bodies.{body, element};
ghost use Rattle.smpl_patch.proofs.BodyLemmas.{bodies as bodies_of};
ghost use Rattle.ctl_table.specs.Blocks as blocks;

use crate::numbers::Blocks;
use smpl_patch::Elem;
use sqlite_items::Items;
use std::alloc::{AllocError, Global};

/// Returns the blocks of a body, by the atoms of their opening braces, in the order of their hidden variables. Visits
/// each element twice, and takes time linear in the body if no hashes collide. Recurses once for each level of nested
/// statements, branches and `when` code.
pub fn blocks(alloc: Global, b: &[Elem]) -> Result<Blocks, AllocError>
    ensures { IfOk result (λ found. found ≡ blocks.blocks (body b.now)) }
{
    let mut found = Vec::new(alloc);
    put_opens(b, &mut found)?;
    put_later(b, &mut found)?;
    Blocks::of(alloc, found)
}

#[cycle(opens)]
fn put_opens(b: &[Elem], found: &mut Vec<u32>) -> Result<(), AllocError>
    ensures { OnOk result (found.new.items ≡ found.old.items ++ blocks.opens_body (body b.now)) }
{
    for e in b {
        put_opens_of(e, found)?;
    }
    Ok(())
}

#[cycle(opens)]
fn put_opens_of(e: &Elem, found: &mut Vec<u32>) -> Result<(), AllocError>
    ensures { OnOk result
        (found.new.items ≡ found.old.items ++ blocks.opens_element (element e.now)) }
{
    match e {
        Elem::Atom(_) => Ok(()),
        Elem::Compound(_, bodies, _) => put_opens_each(bodies.as_slice(), found),
        Elem::Block(o, b, _) => {
            found.push(o.atom)?;
            put_opens(b.as_slice(), found)
        }
        Elem::Gap(_) => Ok(()),
        Elem::Nest(_, b, _) => put_opens(b.as_slice(), found),
        Elem::AnyOf(bodies) => put_opens_each(bodies.as_slice(), found),
        Elem::AllOf(bodies) => put_opens_each(bodies.as_slice(), found),
    }
}

#[cycle(opens)]
fn put_opens_each(bodies: &[Items<Elem>], found: &mut Vec<u32>) -> Result<(), AllocError>
    ensures { OnOk result
        (found.new.items ≡ found.old.items ++ blocks.opens_bodies (bodies_of bodies.now)) }
{
    for b in bodies {
        put_opens(b.as_slice(), found)?;
    }
    Ok(())
}

#[cycle(later)]
fn put_later(b: &[Elem], found: &mut Vec<u32>) -> Result<(), AllocError>
    ensures { OnOk result (found.new.items ≡ found.old.items ++ blocks.later_body (body b.now)) }
{
    for e in b {
        put_later_of(e, found)?;
    }
    Ok(())
}

#[cycle(later)]
fn put_later_of(e: &Elem, found: &mut Vec<u32>) -> Result<(), AllocError>
    ensures { OnOk result
        (found.new.items ≡ found.old.items ++ blocks.later_element (element e.now)) }
{
    match e {
        Elem::Atom(_) => Ok(()),
        Elem::Compound(_, bodies, _) => put_later_each(bodies.as_slice(), found),
        Elem::Block(_, b, _) => put_later(b.as_slice(), found),
        Elem::Gap(d) => put_pieces(d.whens.as_slice(), found),
        Elem::Nest(_, b, d) => {
            put_later(b.as_slice(), found)?;
            put_pieces(d.whens.as_slice(), found)
        }
        Elem::AnyOf(bodies) => put_later_each(bodies.as_slice(), found),
        Elem::AllOf(bodies) => put_later_each(bodies.as_slice(), found),
    }
}

#[cycle(later)]
fn put_later_each(bodies: &[Items<Elem>], found: &mut Vec<u32>) -> Result<(), AllocError>
    ensures { OnOk result
        (found.new.items ≡ found.old.items ++ blocks.later_bodies (bodies_of bodies.now)) }
{
    for b in bodies {
        put_later(b.as_slice(), found)?;
    }
    Ok(())
}

/// Appends those of the given pieces of `when` code.
#[cycle(later)]
fn put_pieces(whens: &[Items<Elem>], found: &mut Vec<u32>) -> Result<(), AllocError>
    ensures { OnOk result
        (found.new.items ≡ found.old.items ++ blocks.pieces (bodies_of whens.now)) }
{
    for w in whens {
        let piece = w.as_slice();
        put_opens(piece, found)?;
        put_later(piece, found)?;
    }
    Ok(())
}
