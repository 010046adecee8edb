// Whether a list of forms may grow, as far as labels determine it.
ghost use Rattle.std.specs.Prelude.{◌≡◌};
ghost use Rattle.std.specs.List.{list_any};
ghost use Rattle.c_terms.specs.declared.tree.Tree.{out-Tree};
ghost use Rattle.iso_expand.specs.IsoForms.Stepped as spec;

use c_terms::Tree;
use smpl_patch::Iso;

/// Whether the side is a branch with the tree's label, or a leaf.
fn may_match(side: &Tree, tree: &Tree) -> bool
    ensures { result ≡ spec.may_match (out-Tree side.now) (out-Tree tree.now) }
{
    match side {
        Tree::Leaf(_) => true,
        Tree::Branch(l, _) => match tree {
            Tree::Leaf(_) => false,
            Tree::Branch(k, _) => l.number() == k.number(),
        },
    }
}

fn has_side_for(sides: &[Tree], tree: &Tree) -> bool
    ensures { result ≡ spec.has_side_for sides.now tree.now }
{
    sides.iter().any(|side| may_match(side, tree))
}

fn may_change(iso: &Iso, list: &[Tree]) -> bool
    ensures { result ≡ list_any (spec.has_side_for iso.now.sides) list.now }
{
    list.iter()
        .any(|tree| has_side_for(iso.sides.as_slice(), tree))
}

/// Whether some side is a leaf, or a branch with the label of some tree. Compares each side with each tree, and
/// allocates nothing.
pub fn may_grow(isos: &[Iso], list: &[Tree]) -> bool
    ensures { result ≡ spec.may_grow isos.now list.now }
{
    isos.iter().any(|iso| may_change(iso, list))
}
