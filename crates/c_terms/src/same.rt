// Equality of terms: of texts, of tokens and of trees, ids aside.
ghost use Rattle.std.specs.Prelude.{◌≡◌, ◌↔◌, IsTrue, map};
ghost use Rattle.c_terms.specs.Bare.{bare};
ghost use Rattle.c_terms.specs.Same.{same_bytes, same_token, same_tree, all_pass};

use crate::{Token, Tree};

/// Whether the bytes are equal. Stops at the first difference, and allocates nothing.
pub fn same_text(a: &[u8], b: &[u8]) -> bool
    ensures value { result ≡ same_bytes a.now b.now }
{
    if a.len() != b.len() {
        return false;
    }
    for i in 0..a.len() {
        if a[i] != b[i] {
            return false;
        }
    }
    true
}

/// Whether the tokens are equal except for their ids. Allocates nothing.
pub fn is_same_token(a: &Token, b: &Token) -> bool
    ensures value { result ≡ same_token a.now b.now }
{
    a.kind.number() == b.kind.number() && same_text(a.text.as_bytes(), b.text.as_bytes())
}

/// Whether the trees are equal except for ids. Stops at the first difference, allocates nothing,
/// and recurses once per level.
pub fn same_term(a: &Tree, b: &Tree) -> bool
    ensures value { result ≡ same_tree a.now b.now }
    ensures ids_aside { IsTrue result ↔ (bare a.now ≡ bare b.now) }
{
    same_trees(a, b)
}

#[cycle(same)]
fn same_trees(a: &Tree, b: &Tree) -> bool
    ensures { result ≡ same_tree a.now b.now }
{
    match a {
        Tree::Leaf(x) => match b {
            Tree::Leaf(y) => is_same_token(x, y),
            Tree::Branch(_, _) => false,
        },
        Tree::Branch(l, xs) => match b {
            Tree::Leaf(_) => false,
            Tree::Branch(k, ys) => {
                if l.number() != k.number() {
                    return false;
                }
                same_lists(xs.as_slice(), ys.as_slice())
            }
        },
    }
}

#[cycle(same)]
fn same_lists(xs: &[Tree], ys: &[Tree]) -> bool
    ensures { result ≡ all_pass (map same_tree xs.now) ys.now }
{
    if xs.len() != ys.len() {
        return false;
    }
    for i in 0..xs.len() {
        if !same_trees(&xs[i], &ys[i]) {
            return false;
        }
    }
    true
}
