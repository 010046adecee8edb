// A body: its elements, or its first fault.
ghost use Rattle.std.specs.Prelude.{◌≡◌, ◌∷◌, ◌<◌, length, IfOk, IfErr};
ghost use Rattle.smpl_lexer.specs.Texts.{OrNoMemory};
ghost use Rattle.smpl_body.specs.Bodies as spec;
ghost use Rattle.smpl_body.specs.Bodies.{IsBody, IsBodyFault};
ghost use Rattle.smpl_body.specs.SoFar.{IsMade};

use crate::clauses::{BodyDots, starts_from};
use crate::deep::deep_fault;
use crate::faults::tree_fault;
use crate::smpl_elem::{count_atoms, elements};
use crate::smpl_when::{Clauses, cut};
use crate::spelled::spelled;
use c_terms::{NoMemory, Tree};
use smpl_meta::Placed;
use smpl_patch::{Elem, PatchFault};
use sqlite_items::Items;
use std::alloc::Global;

/// Returns the place that is reported for a body that nothing spells: its first token, or the rule's end.
fn place_in(placed: &[Placed], end: u32) -> u32
    ensures { result ≡ spec.place_in placed.now end }
{
    match placed {
        [] => end,
        [p, ..] => p.at,
    }
}

/// Returns the elements of a body, given its tree and the trees of the code of its clauses.
fn body_elements(alloc: Global, said: &Clauses, trees: &[Tree]) -> Result<Items<Elem>, NoMemory>
    ensures { IfOk result (λ es. IsMade said.now trees.now es) }
{
    match trees {
        [] => Ok(Items::new(alloc)),
        [tree, codes @ ..] => {
            let first = count_atoms(tree).ok_or(NoMemory)?;
            let starts = starts_from(alloc, first, codes)?;
            let source = BodyDots {
                said,
                codes,
                starts: starts.as_slice(),
            };
            let read = elements(alloc, &source, tree, 0)?;
            Ok(read.elems)
        }
    }
}

/// Returns the elements of a body, or its first fault.
pub(crate) fn read(alloc: Global, placed: &[Placed], end: u32) -> Result<Items<Elem>, PatchFault>
    ensures body { IfOk result (λ es. IsBody placed.now es) }
    ensures fault { IfErr result (λ fault. OrNoMemory (IsBodyFault placed.now end) fault) }
{
    match deep_fault(placed) {
        Some(fault) => return Err(fault),
        None => {}
    }
    let cut = cut(alloc, placed)?;
    let trees = match spelled(alloc, placed, &cut)? {
        None => return Err(PatchFault::BadPattern(place_in(placed, end))),
        Some(trees) => trees,
    };
    match tree_fault(alloc, placed, &cut, trees.as_slice())? {
        Some(fault) => Err(fault),
        None => Ok(body_elements(alloc, &cut.said, trees.as_slice())?),
    }
}
