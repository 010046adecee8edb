// The tree that a side makes.
ghost use Rattle.std.specs.Prelude.{◌≡◌, IfOk};
ghost use Rattle.iso_expand.specs.IsoForms.Making as spec;

use crate::iso_forms::matching::{Bound, value};
use c_terms::{NoMemory, Token, TokenKind, Tree, first_leaf};
use sqlite_items::Items;
use std::alloc::Global;

fn numbered(alloc: Global, id: u64, token: &Token) -> Result<Tree, NoMemory>
    ensures { IfOk result (λ tree. tree ≡ spec.numbered id token.now) }
{
    let text = token.text.copy(alloc)?;
    Ok(Tree::Leaf(Token {
        kind: token.kind,
        text,
        id,
    }))
}

fn make_variable(alloc: Global, bound: &[Bound], id: u64, token: &Token) -> Result<Tree, NoMemory>
    ensures { IfOk result (λ tree. tree ≡ spec.make_variable bound.now id token.now) }
{
    match value(bound, token.text.as_bytes()) {
        Some(tree) => tree.copy(alloc),
        None => numbered(alloc, id, token),
    }
}

fn make_leaf(alloc: Global, bound: &[Bound], id: u64, token: &Token) -> Result<Tree, NoMemory>
    ensures { IfOk result (λ tree. tree ≡ spec.make_leaf bound.now id token.now.kind token.now) }
{
    match token.kind {
        TokenKind::Meta(_) => make_variable(alloc, bound, id, token),
        _ => numbered(alloc, id, token),
    }
}

/// Returns the tree that the side makes, giving the side's own tokens this id. Recurses once for each level of the
/// side.
pub fn made(alloc: Global, bound: &[Bound], id: u64, side: &Tree) -> Result<Tree, NoMemory>
    ensures { IfOk result (λ tree. tree ≡ spec.made bound.now id side.now) }
{
    match side {
        Tree::Leaf(token) => make_leaf(alloc, bound, id, token),
        Tree::Branch(label, children) => {
            let mut trees = Vec::with_capacity(alloc, children.len())?;
            for child in children.as_slice() {
                trees.push(made(alloc, bound, id, child)?)?;
            }
            Ok(Tree::Branch(*label, Items::from_vec(trees)))
        }
    }
}

/// Returns the id of the first token, or 0.
pub fn first_id(tree: &Tree) -> u64
    ensures { result ≡ spec.first_id tree.now }
{
    match first_leaf(tree) {
        Some(token) => token.id,
        None => 0,
    }
}
