// The order of terms.
ghost use Rattle.std.specs.Prelude.{◌≡◌};
ghost use Rattle.std.specs.Ordering.{nat_cmp};
ghost use Rattle.std.specs.Cmp.Lexicographic.{slice_cmp};
ghost use Rattle.c_terms.specs.Order.{token_order, tree_order};

use crate::{Token, Tree};
use std::cmp::Ordering;

/// Compares by bytes; a proper prefix comes first. Stops at the first difference, and allocates nothing.
pub fn text_order(a: &[u8], b: &[u8]) -> Ordering
    ensures value { result ≡ slice_cmp nat_cmp a.now b.now }
{
    a.cmp(b)
}

/// Compares by kind, in the order of [`TokenKind`](crate::TokenKind), then by bytes. Allocates nothing.
pub fn compare_tokens(a: &Token, b: &Token) -> Ordering
    ensures value { result ≡ token_order a.now b.now }
{
    match a.kind.number().cmp(&b.kind.number()) {
        Ordering::Equal => text_order(a.text.as_bytes(), b.text.as_bytes()),
        unequal => unequal,
    }
}

/// Compares two terms: a leaf comes before a branch; leaves are ordered by kind, then bytes;
/// branches by label, then by children one by one, a proper prefix first. Stops at the first
/// difference, allocates nothing, and recurses once per level.
#[cycle(order)]
pub fn term_order(a: &Tree, b: &Tree) -> Ordering
    ensures value { result ≡ tree_order a.now b.now }
{
    match a {
        Tree::Leaf(x) => match b {
            Tree::Leaf(y) => compare_tokens(x, y),
            Tree::Branch(_, _) => Ordering::Less,
        },
        Tree::Branch(l, xs) => match b {
            Tree::Leaf(_) => Ordering::Greater,
            Tree::Branch(k, ys) => match l.number().cmp(&k.number()) {
                Ordering::Equal => order_of_lists(xs.as_slice(), ys.as_slice()),
                unequal => unequal,
            },
        },
    }
}

#[cycle(order)]
fn order_of_lists(xs: &[Tree], ys: &[Tree]) -> Ordering
    ensures { result ≡ slice_cmp tree_order xs.now ys.now }
{
    let common = xs.len().min(ys.len());
    for i in 0..common {
        match term_order(&xs[i], &ys[i]) {
            Ordering::Equal => {}
            unequal => return unequal,
        }
    }
    xs.len().cmp(&ys.len())
}
