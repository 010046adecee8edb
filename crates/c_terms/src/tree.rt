// Trees over tokens, and the paths in them.
ghost use Rattle.std.specs.Prelude.{◌≡◌, ◌++◌, IfOk};
ghost use Rattle.c_terms.specs.Trees.{leaves};

use crate::{Label, NoMemory, Token};
use sqlite_items::Items;
use std::alloc::Global;
use std::marker::Model;

/// A tree of C or of a pattern. A tree that a parser built has at most 1,000 levels of branches.
#[derive(Drop)]
pub enum Tree {
    Leaf(Token),
    Branch(Label, Items<Tree>),
}

impl Tree {
    /// Returns an equal tree, ids included. Linear. Recurses once per level.
    pub fn copy(&self, alloc: Global) -> Result<Tree, NoMemory>
        ensures same { IfOk result (λ tree. tree ≡ self.now) }
    {
        match self {
            Tree::Leaf(token) => Ok(Tree::Leaf(token.copy(alloc)?)),
            Tree::Branch(label, children) => {
                let mut copies = Vec::with_capacity(alloc, children.len())?;
                for child in children.as_slice() {
                    copies.push_reserved(child.copy(alloc)?);
                }
                Ok(Tree::Branch(*label, Items::from_vec(copies)))
            }
        }
    }
}

fn put_leaves(alloc: Global, tree: &Tree, found: &mut Items<Token>) -> Result<(), NoMemory>
    ensures { IfOk result (λ _. found.new ≡ found.old ++ leaves tree.now) }
{
    match tree {
        Tree::Leaf(token) => {
            found.push(token.copy(alloc)?)?;
            Ok(())
        }
        Tree::Branch(_, children) => {
            for child in children.as_slice() {
                put_leaves(alloc, child, found)?;
            }
            Ok(())
        }
    }
}

/// Returns the tokens from left to right, ids included. Linear. Recurses once per level.
pub fn leaves(alloc: Global, tree: &Tree) -> Result<Items<Token>, NoMemory>
    ensures tokens { IfOk result (λ tokens. tokens ≡ leaves tree.now) }
{
    let mut found = Items::new(alloc);
    put_leaves(alloc, tree, &mut found)?;
    Ok(found)
}

/// A place in a tree: child numbers, from the root downwards.
#[derive(Drop)]
pub struct TreePath {
    steps: Vec<u32>,
}

impl Model for TreePath {
    ghost use Rattle.std.specs.Prelude.{List, ℕ};

    ghost Value = { List ℕ };

    ghost view = { λ path. path.steps.items };
}

impl TreePath {
    /// Returns the path of these child numbers. Allocates nothing.
    pub fn of(steps: Vec<u32>) -> TreePath
        ensures steps { result ≡ steps.items }
    {
        TreePath { steps }
    }

    /// Returns the child numbers. Allocates nothing.
    pub fn steps(&self) -> &[u32]
        ensures steps { result.now ≡ self.now }
    {
        self.steps.as_slice()
    }

    /// Returns an equal path. Linear.
    pub fn copy(&self, alloc: Global) -> Result<TreePath, NoMemory>
        ensures same { IfOk result (λ path. path ≡ self.now) }
    {
        let steps = Vec::from_slice(alloc, self.steps())?;
        Ok(TreePath { steps })
    }
}
