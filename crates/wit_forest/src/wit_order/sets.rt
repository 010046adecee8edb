// Trees in order, each once.
ghost use Rattle.std.specs.Prelude.{◌≡◌, ◌||◌, ◌++◌, ◌<◌, Bool, IfOk, [], ◌∷◌, false, true, length, slice_index_or};
ghost use Rattle.std.specs.List.{list_any, list_all};
ghost use Rattle.std.specs.List.Sorted.{IsSortedBy};
ghost use Rattle.std.specs.Ordering.{is_lt};
ghost use Rattle.smpl_patch.specs.declared.witness.Witness.{Witness as Tree};
ghost use Rattle.wit_forest.specs.WitOrder.Same.{same_witness};
ghost use Rattle.wit_forest.specs.WitOrder.Order as spec;
ghost use Rattle.wit_forest.specs.WitOrder.Forests.{has, HaveSame, NoneAbove, Rise};

use crate::wit_order::order::witness_order;
use c_terms::NoMemory;
use smpl_patch::{VarDecl, Witness};
use std::alloc::Global;

/// Returns the forest of these trees: in order, each once. Takes n log n comparisons for n trees.
pub fn distinct(
    alloc: Global,
    decls: &[VarDecl],
    trees: Vec<Witness>,
) -> Result<Vec<Witness>, NoMemory>
    ensures trees { IfOk result (λ r. HaveSame r.items trees.items) }
    ensures rise { IfOk result (λ r. Rise decls.now r.items) }
{
    let mut trees = trees;
    trees.sort_unstable_by(|v, w| witness_order(decls, v, w));
    without_repeats(alloc, decls, trees)
}

/// Returns the trees of a sorted list, each once.
fn without_repeats(
    alloc: Global,
    decls: &[VarDecl],
    trees: Vec<Witness>,
) -> Result<Vec<Witness>, NoMemory>
    requires sorted { IsSortedBy (λ v w. is_lt (spec.witness_order decls.now v w)) trees.items }
    ensures trees { IfOk result (λ r. HaveSame r.items trees.items) }
    ensures rise { IfOk result (λ r. Rise decls.now r.items) }
{
    let mut kept = Vec::with_capacity(alloc, trees.len())?;
    for w in trees {
        put_new(decls, &mut kept, w)?;
    }
    Ok(kept)
}

/// Adds a tree, unless it is the same as the last one.
fn put_new(decls: &[VarDecl], kept: &mut Vec<Witness>, w: Witness) -> Result<(), NoMemory>
    ensures trees { IfOk result (λ _. (z : Tree) → has kept.new.items z ≡ (has kept.old.items z || same_witness w z)) }
    ensures among { IfOk result (λ _. (test : Tree → Bool) → list_all test kept.old.items ≡ true
        → test w ≡ true → list_all test kept.new.items ≡ true) }
    ensures rise { IfOk result (λ _. NoneAbove decls.now w kept.old.items → Rise decls.now kept.old.items →
        Rise decls.now kept.new.items) }
{
    if is_last(decls, kept, &w) {
        return Ok(());
    }
    kept.push(w)?;
    Ok(())
}

/// Whether the last tree of the list is the same as `w`.
fn is_last(decls: &[VarDecl], kept: &[Witness], w: &Witness) -> bool
    ensures known { result ≡ true → (z : Tree) → has kept.now z ≡ (has kept.now z || same_witness w.now z) }
    ensures rise { result ≡ false → NoneAbove decls.now w.now kept.now → Rise decls.now kept.now →
        Rise decls.now (kept.now ++ w.now ∷ []) }
{
    if kept.is_empty() {
        return false;
    }
    witness_order(decls, &kept[kept.len() - 1], w).is_eq()
}
