// The own tokens of heads and tails.
ghost use Rattle.std.specs.Prelude.{◌≡◌, ◌++◌, ◌||◌, not, true, OnOk, map, length, cond, []};
ghost use Rattle.c_terms.specs.declared.tree.Tree.{out-Tree};
ghost use Rattle.smpl_terms.specs.Environments.{total};
ghost use Rattle.cfg_build.specs.CfgGraph.Own.{is_own};
ghost use Rattle.pat_match.specs.Fitting.{piece, fits_tree, alignment, kids_fit, kids_pairs};
ghost use Rattle.pat_match.specs.Spots.{own_fit, own_pairs, own_fits, own_alignment};
ghost use Rattle.pat_match.specs.PatPairs.Pairs.{numbers};

use crate::pat_pairs::bound::BoundContext;
use crate::pat_pairs::pairing::put_pairs;
use crate::pat_pairs::pairs::AlignedToken;
use c_terms::{Label, NoMemory, Tree};
use cfg_build::{NodeKind, is_own};
use std::alloc::Global;

fn put_own_child(
    alloc: Global,
    found: &mut Vec<AlignedToken>,
    bound: &BoundContext<'_>,
    own: bool,
    form: &Tree,
    tree: &Tree,
) -> Result<(), NoMemory>
    requires fits { (not own || fits_tree bound.now.context.now.decls.now bound.now.context.now.tokens.now
        bound.now.context.now.types.now
        (total bound.now.env.now) form.now tree.now) ≡ true }
    ensures { OnOk result (found.new.items ≡ found.old.items
        ++ numbers (cond own (alignment bound.now.context.now.decls.now bound.now.context.now.tokens.now
        bound.now.context.now.types.now
        (total bound.now.env.now) form.now tree.now) [])) }
{
    if own {
        put_pairs(alloc, found, bound, form, tree)
    } else {
        Ok(())
    }
}

fn put_own_all(
    alloc: Global,
    found: &mut Vec<AlignedToken>,
    bound: &BoundContext<'_>,
    kind: NodeKind,
    label: Label,
    forms: &[Tree],
    trees: &[Tree],
) -> Result<(), NoMemory>
    requires fits { own_fit (is_own kind label (length forms.now)) 0
        (map (piece bound.now.context.now.decls.now bound.now.context.now.tokens.now bound.now.context.now.types.now (total
        bound.now.env.now)) forms.now)
        trees.now ≡ true }
    ensures { OnOk result (found.new.items ≡ found.old.items
        ++ numbers (own_pairs (is_own kind label (length forms.now)) 0
        (map (piece bound.now.context.now.decls.now bound.now.context.now.tokens.now bound.now.context.now.types.now (total
        bound.now.env.now)) forms.now)
        trees.now)) }
{
    for i in 0..forms.len() {
        let own = is_own(kind, label, forms.len(), i);
        put_own_child(alloc, found, bound, own, &forms[i], &trees[i])?;
    }
    Ok(())
}

fn put_own_kids(
    alloc: Global,
    found: &mut Vec<AlignedToken>,
    bound: &BoundContext<'_>,
    kind: NodeKind,
    label: Label,
    forms: &[Tree],
    tree: &Tree,
) -> Result<(), NoMemory>
    requires fits { kids_fit (own_fit (is_own kind label (length forms.now)) 0) label
        (map (piece bound.now.context.now.decls.now bound.now.context.now.tokens.now bound.now.context.now.types.now (total
        bound.now.env.now)) forms.now)
        (out-Tree tree.now) ≡ true }
    ensures { OnOk result (found.new.items ≡ found.old.items
        ++ numbers (kids_pairs (own_pairs (is_own kind label (length forms.now)) 0)
        (map (piece bound.now.context.now.decls.now bound.now.context.now.tokens.now bound.now.context.now.types.now (total
        bound.now.env.now)) forms.now)
        (out-Tree tree.now))) }
{
    match tree {
        Tree::Leaf(_) => Ok(()),
        Tree::Branch(_, trees) => put_own_all(
            alloc,
            found,
            bound,
            kind,
            label,
            forms,
            trees.as_slice(),
        ),
    }
}

/// Adds what the own tokens of a head or tail are aligned with.
pub fn put_own(
    alloc: Global,
    found: &mut Vec<AlignedToken>,
    bound: &BoundContext<'_>,
    kind: NodeKind,
    form: &Tree,
    tree: &Tree,
) -> Result<(), NoMemory>
    requires fits { own_fits bound.now.context.now.decls.now bound.now.context.now.tokens.now bound.now.context.now.types.now
        (total bound.now.env.now) kind
        (out-Tree form.now) tree.now ≡ true }
    ensures { OnOk result (found.new.items ≡ found.old.items
        ++ numbers (own_alignment bound.now.context.now.decls.now bound.now.context.now.tokens.now
        bound.now.context.now.types.now
        (total bound.now.env.now) kind (out-Tree form.now) tree.now)) }
{
    match form {
        Tree::Leaf(_) => Ok(()),
        Tree::Branch(label, forms) => put_own_kids(
            alloc,
            found,
            bound,
            kind,
            *label,
            forms.as_slice(),
            tree,
        ),
    }
}
