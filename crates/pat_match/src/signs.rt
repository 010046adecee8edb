// Signs between the branches of a disjunction or conjunction, and plain tokens: what is known of a form without a set.
ghost use Rattle.std.specs.Prelude.{◌≡◌, List, true, false, map, length};
ghost use Rattle.std.specs.List.{list_all};
ghost use Rattle.c_terms.specs.declared.tree.Tree.{out-Tree};
ghost use Rattle.c_types.specs.Tables.{ItemTypes};
ghost use Rattle.smpl_terms.specs.Environments.{Environment};
ghost use Rattle.smpl_patch.specs.declared.pattern.VarDecl.{VarDecl};
ghost use Rattle.smpl_patch.specs.declared.pattern.PatToken.{PatToken};
ghost use Rattle.pat_match.specs.Tokens.{leaf_fits};
ghost use Rattle.pat_match.specs.Fitting.{leaf_of, is_bare_sign, is_sign_token, all_fit, piece, fits_tree};

use crate::kinds::is_same_leaf;
use crate::tokens::is_bare_token;
use c_terms::{Token, TokenKind, Tree};
use smpl_patch::{PatToken, is_sign};

pub fn is_sign_tree(tree: &Tree) -> bool
    ensures { result ≡ is_sign_token (leaf_of (out-Tree tree.now)) }
{
    match tree {
        Tree::Leaf(token) => is_sign(token.kind),
        Tree::Branch(_, _) => false,
    }
}

fn is_bare_leaf(tokens: &[PatToken], tree: &Tree) -> bool
    ensures { result ≡ is_bare_sign tokens.now (leaf_of (out-Tree tree.now)) }
{
    match tree {
        Tree::Leaf(token) => !is_sign(token.kind) || is_bare_token(tokens, token.id),
        Tree::Branch(_, _) => true,
    }
}

/// Whether the signs between the branches have neither positions nor plus code. Takes no memory.
pub fn has_bare_signs(tokens: &[PatToken], trees: &[Tree]) -> bool
    ensures { result ≡ list_all (λ f. is_bare_sign tokens.now (leaf_of (out-Tree f))) trees.now }
{
    trees.iter().all(|tree| is_bare_leaf(tokens, tree))
}

/// Whether the token is a token of C, and the tree is a different one.
fn is_other_leaf(token: &Token, tree: &Tree) -> bool
    ensures { result ≡ true → (decls : List VarDecl) (tokens : List PatToken) (types : ItemTypes)
        (env : Environment) → leaf_fits decls tokens env types token.now tree.now ≡ false }
{
    match token.kind {
        TokenKind::Meta(_) => false,
        TokenKind::Dots => false,
        TokenKind::Pat => false,
        _ => !is_same_leaf(token, tree),
    }
}

/// Whether the form is a token of C, and the tree is a different one. Takes no memory.
fn is_other_token(form: &Tree, tree: &Tree) -> bool
    ensures { result ≡ true → (decls : List VarDecl) (tokens : List PatToken) (types : ItemTypes)
        (env : Environment) → fits_tree decls tokens types env form.now tree.now ≡ false }
{
    match form {
        Tree::Leaf(token) => is_other_leaf(token, tree),
        Tree::Branch(_, _) => false,
    }
}

/// Whether some form is a token of C, and the tree at its place is a different one. Takes no memory.
pub fn has_other_token(forms: &[Tree], trees: &[Tree]) -> bool
    requires even { length forms.now ≡ length trees.now }
    ensures { result ≡ true → (decls : List VarDecl) (tokens : List PatToken) (types : ItemTypes)
        (env : Environment) → all_fit (map (piece decls tokens types env) forms.now) trees.now ≡ false }
{
    for i in 0..forms.len() {
        if is_other_token(&forms[i], &trees[i]) {
            return true;
        }
    }
    false
}
