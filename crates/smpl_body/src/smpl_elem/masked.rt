// Heads and tails: what is compared of a statement with bodies.
ghost use Rattle.std.specs.Prelude.{◌≡◌, length, IfOk};
ghost use Rattle.smpl_patch.specs.Held.{is_held as is_held_at};
ghost use Rattle.smpl_body.specs.SmplElem.Forms as spec;

use crate::smpl_elem::form::nothing;
use c_terms::{Label, NoMemory, Tree};
use smpl_patch::{Spot, is_held};
use sqlite_items::Items;
use std::alloc::Global;

/// Returns a copy of the child, or its placeholder.
fn child(alloc: Global, own: bool, tree: &Tree) -> Result<Tree, NoMemory>
    ensures { IfOk result (λ t. t ≡ spec.child_or own tree.now) }
{
    if own {
        tree.copy(alloc)
    } else {
        Ok(nothing(alloc))
    }
}

fn masked_children(
    alloc: Global,
    spot: Spot,
    label: Label,
    trees: &[Tree],
) -> Result<Items<Tree>, NoMemory>
    ensures { IfOk result (λ ts. ts ≡ spec.masked_from (is_held_at spot label (length trees.now)) 0 trees.now) }
{
    let mut kept = Vec::new(alloc);
    for i in 0..trees.len() {
        let own = is_held(spot, label, trees.len(), i);
        kept.push(child(alloc, own, &trees[i])?)?;
    }
    Ok(Items::from_vec(kept))
}

/// Returns a copy of the tree in which an empty list of statements replaces each child that is not compared at the spot.
/// Linear in the children that are compared.
pub(crate) fn masked(alloc: Global, spot: Spot, tree: &Tree) -> Result<Tree, NoMemory>
    ensures { IfOk result (λ t. t ≡ spec.masked spot tree.now) }
{
    match tree {
        Tree::Leaf(_) => tree.copy(alloc),
        Tree::Branch(label, children) => {
            let kept = masked_children(alloc, spot, *label, children.as_slice())?;
            Ok(Tree::Branch(*label, kept))
        }
    }
}
