// Looking into a tree: its first token, and the subtree at a path.
ghost use Rattle.std.specs.Prelude.{◌≡◌, ◌++◌, ◌^◌, ◌<◌, map, slice_get, IfOk, OnOk, [], ◌∷◌, if◌then◌else◌};
ghost use Rattle.std.specs.Option.{option_copied};
ghost use Rattle.c_terms.specs.Trees.{leaves, width};
ghost use Rattle.c_terms.specs.Places.{child, subtree, parts};
ghost use Rattle.c_terms.specs.Shapes.{is_expression_part};

use crate::{NoMemory, Token, Tree, TreePath, is_expression_part};
use sqlite_items::Items;
use std::alloc::Global;

/// Returns the first token from the left, if there is one. Allocates nothing, and looks only at
/// branches before it. Recurses once per level.
pub fn first_leaf(tree: &Tree) -> Option<&Token>
    ensures value { option_copied result ≡ slice_get (leaves tree.now) 0 }
{
    match tree {
        Tree::Leaf(token) => Some(token),
        Tree::Branch(_, children) => {
            for child in children.as_slice() {
                if let Some(token) = first_leaf(child) {
                    return Some(token);
                }
            }
            None
        }
    }
}

/// Returns child `i` of a branch, if there is one. Allocates nothing.
pub fn child(tree: &Tree, i: usize) -> Option<&Tree>
    ensures value { option_copied result ≡ child tree.now i }
{
    match tree {
        Tree::Leaf(_) => None,
        Tree::Branch(_, children) => children.get(i),
    }
}

/// Returns the subtree at a path of child numbers, from the root downwards, if there is one.
/// Allocates nothing, and takes one step per number.
pub fn subtree<'a>(tree: &'a Tree, path: &[u32]) -> Option<&'a Tree>
    ensures value { option_copied result ≡ subtree tree.now path.now }
{
    let mut found = tree;
    for step in path {
        found = child(found, *step as usize)?;
    }
    Some(found)
}

/// Returns the greatest number of children of any branch. Allocates nothing, is linear, and
/// recurses once per level.
pub fn width(tree: &Tree) -> usize
    ensures value { result ≡ width tree.now }
{
    match tree {
        Tree::Leaf(_) => 0,
        Tree::Branch(_, children) => {
            let mut most = children.len();
            for child in children.as_slice() {
                most = most.max(width(child));
            }
            most
        }
    }
}

/// Returns the paths of the subtrees that fill an expression part of their row, by place: each
/// before those inside it. Linear in the tree, and in the length of each path. Recurses once per
/// level.
pub fn expression_paths(alloc: Global, tree: &Tree) -> Result<Items<TreePath>, NoMemory>
    requires narrow { width tree.now < 2 ^ 32 }
    ensures paths { IfOk result
        (λ paths. paths ≡ map (λ p. p.path) (parts is_expression_part tree.now)) }
{
    let mut above = Vec::new(alloc);
    let mut found = Items::new(alloc);
    put_paths(alloc, tree, &mut above, &mut found)?;
    Ok(found)
}

/// Appends the paths in a tree that is at the path `above`.
fn put_paths(
    alloc: Global,
    tree: &Tree,
    above: &mut Vec<u32>,
    found: &mut Items<TreePath>,
) -> Result<(), NoMemory>
    requires narrow { width tree.now < 2 ^ 32 }
    ensures found { OnOk result (found.new ≡ found.old
        ++ map (λ p. above.old.items ++ p.path) (parts is_expression_part tree.now)) }
    ensures above { OnOk result (above.new.items ≡ above.old.items) }
{
    if let Tree::Branch(label, children) = tree {
        for (i, child) in children.as_slice().iter().enumerate() {
            above.push(i as u32)?;
            put_part(alloc, is_expression_part(*label, i, child), above, found)?;
            put_paths(alloc, child, above, found)?;
            above.pop();
        }
    }
    Ok(())
}

/// Appends the path if `asked` is true.
fn put_part(
    alloc: Global,
    asked: bool,
    path: &Vec<u32>,
    found: &mut Items<TreePath>,
) -> Result<(), NoMemory>
    ensures { OnOk result (found.new ≡ found.old ++ (if asked then path.now.items ∷ [] else [])) }
{
    if asked {
        let steps = Vec::from_slice(alloc, path.as_slice())?;
        found.push(TreePath::of(steps))?;
    }
    Ok(())
}
