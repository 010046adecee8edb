// How deep the atoms of a rule are in the statements that its patterns name.
ghost use Rattle.std.specs.Prelude.{◌≡◌, ◌++◌, ◌+◌, ◌&&◌, slice_get, IfOk, OnOk};
ghost use Rattle.std.specs.Option.{option_copied};
ghost use Rattle.smpl_patch.specs.Bodies.{body, element};
ghost use Rattle.smpl_patch.proofs.BodyLemmas.{bodies as bodies_of};
ghost use Rattle.edit_marks.specs.Removals.{is_minus_at};
ghost use Rattle.edit_marks.specs.Tidy.Depths as spec;

use c_terms::{NoMemory, Tree, leaves};
use smpl_patch::{Elem, Mark, PatToken, Pattern};
use sqlite_items::Items;
use std::alloc::Global;

/// How deep an atom is.
#[derive(Clone, Copy, Debug, PartialEq, Eq)]
pub struct AtomDepth {
    /// The number of compounds one in the other of whose bodies it is the first element.
    pub around: u32,
    /// How many of the innermost of these the rule removes: all tokens of their heads and tails.
    pub removed: u32,
}

/// Returns the depths of the patterns of a body, those of `when` code included, in the order of the patterns. `NoMemory`: out
/// of memory, or an atom is in 2^32 compounds.
pub fn depths_of(
    alloc: Global,
    elems: &[Elem],
    tokens: &[PatToken],
) -> Result<Vec<AtomDepth>, NoMemory>
    ensures { IfOk result (λ found. found.items ≡ spec.depths_body tokens.now spec.outermost (body elems.now)) }
{
    let mut found = Vec::new(alloc);
    put_body(alloc, elems, tokens, outermost(), &mut found)?;
    Ok(found)
}

/// Returns the depth of an element that is in no compound, or isn't the first of a body.
pub fn outermost() -> AtomDepth
    ensures { result ≡ spec.outermost }
{
    AtomDepth {
        around: 0,
        removed: 0,
    }
}

/// Adds the depths in a body whose first element has this depth.
#[cycle(depths)]
fn put_body(
    alloc: Global,
    elems: &[Elem],
    tokens: &[PatToken],
    first: AtomDepth,
    found: &mut Vec<AtomDepth>,
) -> Result<(), NoMemory>
    ensures { OnOk result (found.new.items ≡ found.old.items ++ spec.depths_body tokens.now first (body elems.now)) }
{
    let mut depth = first;
    for elem in elems {
        put_element(alloc, elem, tokens, depth, found)?;
        depth = outermost();
    }
    Ok(())
}

#[cycle(depths)]
fn put_bodies(
    alloc: Global,
    bodies: &[Items<Elem>],
    tokens: &[PatToken],
    first: AtomDepth,
    found: &mut Vec<AtomDepth>,
) -> Result<(), NoMemory>
    ensures { OnOk result (found.new.items ≡ found.old.items ++ spec.depths_bodies tokens.now first (bodies_of bodies.now)) }
{
    for elems in bodies {
        put_body(alloc, elems.as_slice(), tokens, first, found)?;
    }
    Ok(())
}

#[cycle(depths)]
fn put_element(
    alloc: Global,
    elem: &Elem,
    tokens: &[PatToken],
    depth: AtomDepth,
    found: &mut Vec<AtomDepth>,
) -> Result<(), NoMemory>
    ensures { OnOk result (found.new.items ≡ found.old.items ++ spec.depths_element tokens.now depth (element elem.now)) }
{
    match elem {
        Elem::Atom(_) => put_depth(depth, found),
        Elem::Compound(head, bodies, tail) => {
            let inner = inner_depth(alloc, head, tail, tokens, depth)?;
            put_depth(depth, found)?;
            put_bodies(alloc, bodies.as_slice(), tokens, inner, found)?;
            put_tail(tail, depth, found)
        }
        Elem::Block(_, elems, _) => {
            put_depth(depth, found)?;
            put_body(alloc, elems.as_slice(), tokens, outermost(), found)?;
            put_depth(depth, found)
        }
        Elem::Gap(dots) => put_bodies(alloc, dots.whens.as_slice(), tokens, outermost(), found),
        Elem::Nest(_, elems, dots) => {
            put_body(alloc, elems.as_slice(), tokens, outermost(), found)?;
            put_bodies(alloc, dots.whens.as_slice(), tokens, outermost(), found)
        }
        Elem::AnyOf(bodies) => put_bodies(alloc, bodies.as_slice(), tokens, depth, found),
        Elem::AllOf(bodies) => put_bodies(alloc, bodies.as_slice(), tokens, depth, found),
    }
}

fn put_depth(depth: AtomDepth, found: &mut Vec<AtomDepth>) -> Result<(), NoMemory>
    ensures { OnOk result (found.new.items ≡ found.old.items ++ spec.one_depth depth) }
{
    found.push(depth)?;
    Ok(())
}

fn put_tail(
    tail: &Option<Pattern>,
    depth: AtomDepth,
    found: &mut Vec<AtomDepth>,
) -> Result<(), NoMemory>
    ensures { OnOk result (found.new.items ≡ found.old.items ++ spec.tail_depths depth tail.now) }
{
    match tail {
        Some(_) => put_depth(depth, found),
        None => Ok(()),
    }
}

/// Returns the depth of the first element of a body of a compound with this head and tail.
fn inner_depth(
    alloc: Global,
    head: &Pattern,
    tail: &Option<Pattern>,
    tokens: &[PatToken],
    depth: AtomDepth,
) -> Result<AtomDepth, NoMemory>
    ensures { IfOk result (λ inner. inner
        ≡ spec.deeper (spec.is_minus_tail tokens.now tail.now && spec.is_minus_pattern tokens.now head.now) depth) }
{
    let is_removed = is_minus_tail(alloc, tail, tokens)? && is_minus_pattern(alloc, head, tokens)?;
    deeper(is_removed, depth)
}

fn deeper(removes: bool, depth: AtomDepth) -> Result<AtomDepth, NoMemory>
    ensures { IfOk result (λ inner. inner ≡ spec.deeper removes depth) }
{
    let removed = if removes { one_more(depth.removed)? } else { 0 };
    Ok(AtomDepth {
        around: one_more(depth.around)?,
        removed,
    })
}

fn one_more(count: u32) -> Result<u32, NoMemory>
    ensures { IfOk result (λ more. more ≡ count + 1) }
{
    match count.checked_add(1) {
        Some(more) => Ok(more),
        None => Err(NoMemory),
    }
}

fn is_minus_tail(
    alloc: Global,
    tail: &Option<Pattern>,
    tokens: &[PatToken],
) -> Result<bool, NoMemory>
    ensures { IfOk result (λ is. is ≡ spec.is_minus_tail tokens.now tail.now) }
{
    match tail {
        Some(tail) => is_minus_pattern(alloc, tail, tokens),
        None => Ok(true),
    }
}

/// Whether all tokens of a pattern's first form are marked by `-`.
fn is_minus_pattern(alloc: Global, pattern: &Pattern, tokens: &[PatToken]) -> Result<bool, NoMemory>
    ensures { IfOk result (λ is. is ≡ spec.is_minus_pattern tokens.now pattern.now) }
{
    match pattern.forms.get(0) {
        Some(form) => is_minus_tree(alloc, form, tokens),
        None => Ok(true),
    }
}

fn is_minus_tree(alloc: Global, tree: &Tree, tokens: &[PatToken]) -> Result<bool, NoMemory>
    ensures { IfOk result (λ is. is ≡ spec.is_minus_leaves tokens.now tree.now) }
{
    let own = leaves(alloc, tree)?;
    Ok(
        own.as_slice()
            .iter()
            .all(|leaf| is_minus_at(tokens, leaf.id)),
    )
}

fn is_minus_at(tokens: &[PatToken], number: u64) -> bool
    ensures { result ≡ is_minus_at tokens.now number }
{
    match tokens.get(number as usize) {
        Some(token) => token.mark == Mark::Minus,
        None => false,
    }
}
