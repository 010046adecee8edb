// What the clauses of dots say, with their code as elements.
ghost use Rattle.std.specs.Prelude.{◌≡◌, ◌++◌, ◌+◌, slice_get, IfOk, IfSome};
ghost use Rattle.std.specs.Option.{option_copied};
ghost use Rattle.smpl_body.specs.SmplElem.Elements.{atoms};
ghost use Rattle.smpl_body.specs.Bodies as spec;

use crate::smpl_elem::{DotsSource, count_atoms, elements};
use crate::smpl_when::{Clauses, WhenFlags};
use c_terms::{NoMemory, Tree};
use smpl_patch::{Dots, Elem};
use sqlite_items::{Items, at};
use std::alloc::Global;

fn is_any(found: Option<&WhenFlags>) -> bool
    ensures { result ≡ spec.is_any (option_copied found.entry) }
{
    match found {
        None => false,
        Some(said) => said.any,
    }
}

fn is_strict(found: Option<&WhenFlags>) -> bool
    ensures { result ≡ spec.is_strict (option_copied found.entry) }
{
    match found {
        None => false,
        Some(said) => said.strict,
    }
}

fn codes_of<'a>(found: Option<&'a WhenFlags>) -> &'a [usize]
    ensures { result.now ≡ spec.codes_of (option_copied found.entry) }
{
    match found {
        None => &[],
        Some(said) => said.codes.as_slice(),
    }
}

/// The clauses within code.
#[derive(Drop)]
struct CodeDots<'a> {
    said: &'a Clauses,
}

impl<'a> DotsSource for CodeDots<'a> {
    ghost use Rattle.smpl_body.specs.Bodies.{code_dots};

    ghost dots_at = { λ s. code_dots s.said.now };

    fn dots(&self, alloc: Global, id: u64) -> Result<Dots, NoMemory> {
        let found = self.said.get(id);
        Ok(Dots {
            whens: Items::new(alloc),
            any: is_any(found),
            strict: is_strict(found),
        })
    }
}

/// The clauses of a body, the trees of their pieces of code, and the number of the first pattern of each of these.
#[derive(Drop)]
pub(crate) struct BodyDots<'a> {
    pub(crate) said: &'a Clauses,
    pub(crate) codes: &'a [Tree],
    pub(crate) starts: &'a [u32],
}

/// Adds the code of a clause as elements.
fn put_code(
    alloc: Global,
    said: &Clauses,
    tree: Option<&Tree>,
    start: Option<&u32>,
    whens: Items<Items<Elem>>,
) -> Result<Items<Items<Elem>>, NoMemory>
    ensures { IfOk result (λ r. r ≡ whens ++ spec.code_at said.now (option_copied tree.entry) (option_copied start.entry)) }
{
    let tree = match tree {
        None => return Ok(whens),
        Some(tree) => tree,
    };
    let start = match start {
        None => return Ok(whens),
        Some(start) => *start,
    };
    let mut whens = whens;
    let source = CodeDots { said };
    let read = elements(alloc, &source, tree, start)?;
    whens.push(read.elems)?;
    Ok(whens)
}

/// Returns the pieces of code with these numbers as elements.
fn whens_of(
    alloc: Global,
    said: &Clauses,
    trees: &[Tree],
    starts: &[u32],
    codes: &[usize],
) -> Result<Items<Items<Elem>>, NoMemory>
    ensures { IfOk result (λ whens. whens ≡ spec.whens_of said.now trees.now starts.now codes.now) }
{
    let mut whens = Items::new(alloc);
    for k in codes {
        whens = put_code(alloc, said, at(trees, *k), at(starts, *k), whens)?;
    }
    Ok(whens)
}

impl<'a> DotsSource for BodyDots<'a> {
    ghost use Rattle.smpl_body.specs.Bodies.{body_dots};

    ghost dots_at = { λ s. body_dots s.said.now s.codes.now s.starts.now };

    fn dots(&self, alloc: Global, id: u64) -> Result<Dots, NoMemory> {
        let found = self.said.get(id);
        Ok(Dots {
            whens: whens_of(alloc, self.said, self.codes, self.starts, codes_of(found))?,
            any: is_any(found),
            strict: is_strict(found),
        })
    }
}

/// Returns the number of the first pattern after those of a tree, if it fits in a `u32`.
fn after_atoms(first: u32, tree: &Tree) -> Option<u32>
    ensures { IfSome result (λ next. next ≡ first + atoms tree.now) }
{
    first.checked_add(count_atoms(tree)?)
}

/// Returns the number of the first pattern of each piece of code. The first piece begins at the given number.
pub(crate) fn starts_from(alloc: Global, first: u32, trees: &[Tree]) -> Result<Items<u32>, NoMemory>
    ensures { IfOk result (λ starts. starts ≡ spec.starts_from first trees.now) }
{
    let mut starts = Items::new(alloc);
    let mut next = first;
    for tree in trees {
        starts.push(next)?;
        next = after_atoms(next, tree).ok_or(NoMemory)?;
    }
    Ok(starts)
}
