// Kinds of trees: which trees a metavariable of a kind may stand for, and which names it excepts.
ghost use Rattle.std.specs.Prelude.{◌≡◌, ◌&&◌, ◌||◌, true, false};
ghost use Rattle.c_terms.specs.declared.tree.Tree.{out-Tree};
ghost use Rattle.pat_match.specs.Kinds as spec;

use c_terms::{
    Label, MetaKind, Token, TokenKind, Tree, is_constant_name, is_same_token, is_strings, same_text,
};
use smpl_patch::VarDecl;

fn is_name(kind: TokenKind) -> bool
    ensures { result ≡ spec.is_name kind }
{
    match kind {
        TokenKind::Name => true,
        _ => false,
    }
}

fn is_literal(kind: TokenKind) -> bool
    ensures { result ≡ spec.is_literal kind }
{
    match kind {
        TokenKind::Number | TokenKind::Char | TokenKind::Str => true,
        _ => false,
    }
}

fn token_has_kind(kind: MetaKind, token: &Token) -> bool
    ensures { result ≡ spec.token_is_of kind token.now }
{
    match kind {
        MetaKind::Expr => token.kind.is_operand(),
        MetaKind::Ident => is_name(token.kind),
        MetaKind::Constant => {
            is_literal(token.kind)
                || (is_name(token.kind) && is_constant_name(token.text.as_bytes()))
        }
        _ => false,
    }
}

fn label_has_kind(kind: MetaKind, label: Label) -> bool
    ensures { result ≡ spec.label_is_of kind label }
{
    match kind {
        MetaKind::Expr => label.is_expression(),
        MetaKind::Constant => is_strings(label),
        MetaKind::Typ => label.is_type(),
        MetaKind::Stmt => label.is_statement(),
        _ => false,
    }
}

/// Whether the tree is of the kind. Takes no memory.
pub fn has_kind(kind: MetaKind, tree: &Tree) -> bool
    ensures { result ≡ spec.is_of_kind kind (out-Tree tree.now) }
{
    match tree {
        Tree::Leaf(token) => token_has_kind(kind, token),
        Tree::Branch(label, _) => label_has_kind(kind, *label),
    }
}

/// Whether the tree is a token that the declaration excepts. Takes no memory.
pub fn is_excepted(decl: &VarDecl, tree: &Tree) -> bool
    ensures { result ≡ spec.is_named decl.now.not_names (out-Tree tree.now) }
{
    match tree {
        Tree::Leaf(token) => {
            for name in decl.not_names.as_slice() {
                if same_text(name.as_bytes(), token.text.as_bytes()) {
                    return true;
                }
            }
            false
        }
        Tree::Branch(_, _) => false,
    }
}

/// Whether the tree is a leaf of the token's kind and text. Takes no memory.
pub fn is_same_leaf(token: &Token, tree: &Tree) -> bool
    ensures { result ≡ spec.plain_fits token.now (out-Tree tree.now) }
{
    match tree {
        Tree::Leaf(other) => is_same_token(token, other),
        Tree::Branch(_, _) => false,
    }
}
