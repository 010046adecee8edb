// The sure variables of a pattern.
ghost use Rattle.std.specs.Prelude.{◌≡◌, ◌||◌, map};
ghost use Rattle.std.specs.List.{list_any, list_all};
ghost use Rattle.smpl_patch.specs.Patterns as spec;

use crate::{PatToken, VarDecl, is_own};
use c_terms::{Shape, TokenKind, Tree};
use smpl_terms::Var;

pub fn is_sign(kind: TokenKind) -> bool
    ensures { result ≡ spec.is_sign kind }
{
    matches!(kind, TokenKind::Pat)
}

pub fn is_sign_tree(tree: &Tree) -> bool
    ensures { result ≡ spec.is_sign_tree tree.now }
{
    match tree {
        Tree::Leaf(token) => is_sign(token.kind),
        Tree::Branch(_, _) => false,
    }
}

#[cycle(sure)]
fn in_every(decls: &[VarDecl], tokens: &[PatToken], x: &Var, trees: &[Tree]) -> bool
    ensures { result ≡ list_all (λ t. spec.is_sign_tree t || spec.is_sure decls.now tokens.now x.now t) trees.now }
{
    for tree in trees {
        if !is_sign_tree(tree) && !is_sure_in(decls, tokens, x, tree) {
            return false;
        }
    }
    true
}

#[cycle(sure)]
fn in_some(decls: &[VarDecl], tokens: &[PatToken], x: &Var, trees: &[Tree]) -> bool
    ensures { result ≡ list_any (λ t. spec.is_sure decls.now tokens.now x.now t) trees.now }
{
    for tree in trees {
        if is_sure_in(decls, tokens, x, tree) {
            return true;
        }
    }
    false
}

/// Whether the variable is a sure variable of the form. Takes no memory. Recurses once per level.
#[cycle(sure)]
pub fn is_sure_in(decls: &[VarDecl], tokens: &[PatToken], x: &Var, tree: &Tree) -> bool
    ensures { result ≡ spec.is_sure decls.now tokens.now x.now tree.now }
{
    match tree {
        Tree::Leaf(token) => is_own(decls, tokens, x, token),
        Tree::Branch(label, children) => match label.shape() {
            Shape::Or => in_every(decls, tokens, x, children.as_slice()),
            Shape::And => in_some(decls, tokens, x, children.as_slice()),
            Shape::List => in_some(decls, tokens, x, children.as_slice()),
            Shape::Plain => in_some(decls, tokens, x, children.as_slice()),
        },
    }
}
