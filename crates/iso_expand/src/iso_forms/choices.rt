// One form of each child.
ghost use Rattle.std.specs.Prelude.{◌≡◌, ◌≤◌, ◌<◌, ◌*◌, [], ◌∷◌, ◌++◌, map, length, IfOk, IfErr};
ghost use Rattle.iso_expand.specs.IsoForms.Forms as spec;
ghost use Rattle.iso_expand.specs.IsoForms.Forms.{Refused};
ghost use Rattle.iso_expand.specs.IsoForms.Stepped.{grown, longer};

use crate::iso_forms::FormsFault;
use c_terms::{Label, NoMemory, Tree};
use sqlite_items::Items;
use std::alloc::Global;

/// Returns the choice of nothing.
pub fn no_choice(alloc: Global) -> Result<Vec<Items<Tree>>, NoMemory>
    ensures { IfOk result (λ css. css.items ≡ [] ∷ []) }
{
    let mut choices = Vec::new(alloc);
    choices.push(Items::new(alloc))?;
    Ok(choices)
}

fn copied(alloc: Global, trees: &[Tree]) -> Result<Items<Tree>, NoMemory>
    ensures { IfOk result (λ copies. copies ≡ trees.now) }
{
    let mut copies = Vec::with_capacity(alloc, trees.len().saturating_add(1))?;
    for t in trees {
        copies.push(t.copy(alloc)?)?;
    }
    Ok(Items::from_vec(copies))
}

/// Returns the choice with one more tree.
fn with_tree(alloc: Global, choice: &[Tree], tree: &Tree) -> Result<Items<Tree>, NoMemory>
    ensures { IfOk result (λ cs. cs ≡ choice.now ++ tree.now ∷ []) }
{
    let mut copies = copied(alloc, choice)?;
    copies.push(tree.copy(alloc)?)?;
    Ok(copies)
}

/// Adds the choice with each of the trees, all of them copied.
fn push_longer(
    alloc: Global,
    choice: &[Tree],
    trees: &[Tree],
    out: &mut Vec<Items<Tree>>,
) -> Result<(), NoMemory>
    ensures { IfOk result (λ _. out.new.items ≡ out.old.items ++ longer choice.now trees.now) }
{
    for tree in trees {
        out.push(with_tree(alloc, choice, tree)?)?;
    }
    Ok(())
}

/// Returns each choice with each of the trees and with the last one. All of them are copied, except the choice that
/// takes the last tree.
fn multiplied(
    alloc: Global,
    choices: Vec<Items<Tree>>,
    trees: &[Tree],
    last: &Tree,
) -> Result<Vec<Items<Tree>>, NoMemory>
    ensures { IfOk result (λ css. css.items ≡ grown choices.items (trees.now ++ last.now ∷ [])) }
{
    let mut out = Vec::new(alloc);
    for mut choice in choices {
        push_longer(alloc, choice.as_slice(), trees, &mut out)?;
        choice.push(last.copy(alloc)?)?;
        out.push(choice)?;
    }
    Ok(out)
}

/// Returns the same trees, without copying them. Takes linear time.
fn moved(alloc: Global, mut trees: Items<Tree>) -> Result<Vec<Tree>, NoMemory>
    ensures { IfOk result (λ all. all.items ≡ trees) }
{
    let mut all = Vec::with_capacity(alloc, trees.len())?;
    while let Some(tree) = trees.pop() {
        all.push(tree)?;
    }
    all.reverse();
    Ok(all)
}

/// Adds a copy of the choice with each of the trees, which are moved.
fn push_each(
    alloc: Global,
    choice: &[Tree],
    trees: Vec<Tree>,
    out: &mut Vec<Items<Tree>>,
) -> Result<(), NoMemory>
    ensures { IfOk result (λ _. out.new.items ≡ out.old.items ++ longer choice.now trees.items) }
{
    for tree in trees {
        let mut copies = copied(alloc, choice)?;
        copies.push(tree)?;
        out.push(copies)?;
    }
    Ok(())
}

/// Returns each choice with each of the trees and with the last one. The last choice takes the trees without copying
/// them.
fn with_each(
    alloc: Global,
    mut choices: Vec<Items<Tree>>,
    trees: Items<Tree>,
    last: Tree,
) -> Result<Vec<Items<Tree>>, NoMemory>
    ensures { IfOk result (λ css. css.items ≡ grown choices.items (trees ++ last ∷ [])) }
{
    match choices.pop() {
        None => Ok(choices),
        Some(mut choice) => {
            let mut out = multiplied(alloc, choices, trees.as_slice(), &last)?;
            push_each(alloc, choice.as_slice(), moved(alloc, trees)?, &mut out)?;
            choice.push(last)?;
            out.push(choice)?;
            Ok(out)
        }
    }
}

fn all_grown(
    alloc: Global,
    choices: Vec<Items<Tree>>,
    mut trees: Items<Tree>,
) -> Result<Vec<Items<Tree>>, NoMemory>
    ensures { IfOk result (λ css. css.items ≡ grown choices.items trees) }
{
    match trees.pop() {
        None => Ok(Vec::new(alloc)),
        Some(last) => with_each(alloc, choices, trees, last),
    }
}

/// Returns each choice with each of the trees. Each choice is copied for each tree except the last, and each tree for
/// each choice except the last; nothing is copied if there are more than the limit.
pub fn grow(
    alloc: Global,
    choices: Vec<Items<Tree>>,
    trees: Items<Tree>,
    limit: usize,
) -> Result<Vec<Items<Tree>>, FormsFault>
    requires { length choices.items ≤ limit }
    ensures all { IfOk result (λ css. css.items ≡ grown choices.items trees) }
    ensures few { IfOk result (λ css. length css.items ≤ limit) }
    ensures refused { IfErr result (Refused limit (grown choices.items trees)) }
{
    if choices.len().saturating_mul(trees.len()) > limit {
        return Err(FormsFault::TooMany);
    }
    Ok(all_grown(alloc, choices, trees)?)
}

/// Returns branches with the label, one for each list of children.
pub fn branches(
    alloc: Global,
    label: Label,
    choices: Vec<Items<Tree>>,
) -> Result<Items<Tree>, NoMemory>
    ensures { IfOk result (λ trees. trees ≡ spec.branches label choices.items) }
{
    let mut out = Items::new(alloc);
    for children in choices {
        out.push(Tree::Branch(label, children))?;
    }
    Ok(out)
}
