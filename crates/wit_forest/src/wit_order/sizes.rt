// How large forests are.
ghost use Rattle.std.specs.Prelude.{◌≡◌, ◌+◌, ◌<◌, MatchOption};
ghost use Rattle.wit_forest.specs.WitOrder.Sizes.{size, forest_size};

use smpl_patch::Witness;

/// Returns what is left of a budget after the nodes of a tree, or none if the tree has more. Recurses once per level.
#[cycle(sizes)]
fn tree_within(tree: &Witness, budget: u32) -> Option<u32>
    ensures { MatchOption result (budget < size tree.now) (λ left. left + size tree.now ≡ budget) }
{
    if budget == 0 {
        return None;
    }
    match tree {
        Witness::Touch(_, _, _) => Some(budget - 1),
        Witness::Bind(_, _, _, under) => within(under.as_slice(), budget - 1),
    }
}

/// Returns what is left of a budget after the nodes of all the trees, or none if they have more. Looks at no more nodes than
/// the budget allows, and takes no memory. Recurses once per level.
#[cycle(sizes)]
pub fn within(trees: &[Witness], budget: u32) -> Option<u32>
    ensures left { MatchOption result (budget < forest_size trees.now) (λ left. left + forest_size trees.now ≡ budget) }
{
    let mut left = budget;
    for tree in trees {
        left = tree_within(tree, left)?;
    }
    Some(left)
}
