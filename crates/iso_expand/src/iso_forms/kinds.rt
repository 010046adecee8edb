// Which trees of a pattern a variable of an isomorphism may stand for.
ghost use Rattle.std.specs.Prelude.{◌≡◌, ◌&&◌, ◌||◌, true, false};
ghost use Rattle.std.specs.List.{list_any};
ghost use Rattle.c_terms.specs.declared.tree.Tree.{out-Tree};
ghost use Rattle.c_terms.specs.Same.{same_bytes};
ghost use Rattle.iso_expand.specs.IsoForms.Kinds as spec;

use c_terms::{
    Label, MetaKind, Text, Token, TokenKind, Tree, is_constant_name, is_strings, same_text,
};
use smpl_patch::{VarDecl, declared_as};

fn is_expression_token(kind: TokenKind) -> bool
    ensures { result ≡ spec.is_expression_token kind }
{
    matches!(
        kind,
        TokenKind::Name
            | TokenKind::Number
            | TokenKind::Char
            | TokenKind::Str
            | TokenKind::Meta(MetaKind::Expr)
            | TokenKind::Meta(MetaKind::Ident)
            | TokenKind::Meta(MetaKind::Constant)
    )
}

fn is_choice(label: Label) -> bool
    ensures { result ≡ spec.is_choice label }
{
    matches!(label, Label::PatOr | Label::PatAnd)
}

/// Whether the label is that of an expression of C, or of a disjunction or conjunction of expressions.
pub fn is_expression(label: Label) -> bool
    ensures { result ≡ spec.is_expression label }
{
    label.is_expression() || is_choice(label)
}

fn is_constant_token(token: &Token) -> bool
    ensures { result ≡ spec.is_constant_token token.now.kind token.now.text }
{
    match token.kind {
        TokenKind::Number | TokenKind::Char | TokenKind::Str => true,
        TokenKind::Meta(MetaKind::Constant) => true,
        TokenKind::Name => is_constant_name(token.text.as_bytes()),
        _ => false,
    }
}

fn is_one_of(names: &[Text], text: &[u8]) -> bool
    ensures { result ≡ list_any (λ n. same_bytes n text.now) names.now }
{
    names.iter().any(|name| same_text(name.as_bytes(), text))
}

fn is_excepted(vars: &[VarDecl], var: &[u8], text: &[u8]) -> bool
    ensures { result ≡ list_any (λ n. same_bytes n text.now) (spec.excepted vars.now var.now) }
{
    match declared_as(vars, var) {
        Some(decl) => is_one_of(decl.not_names.as_slice(), text),
        None => false,
    }
}

fn is_identifier_token(vars: &[VarDecl], var: &[u8], token: &Token) -> bool
    ensures { result ≡ spec.is_identifier_token (spec.excepted vars.now var.now) token.now.kind token.now.text }
{
    match token.kind {
        TokenKind::Name => !is_excepted(vars, var, token.text.as_bytes()),
        TokenKind::Meta(MetaKind::Ident) => true,
        _ => false,
    }
}

fn token_has_kind(vars: &[VarDecl], var: &[u8], kind: MetaKind, token: &Token) -> bool
    ensures { result ≡ spec.token_is_of kind (spec.excepted vars.now var.now) token.now }
{
    match kind {
        MetaKind::Expr => is_expression_token(token.kind),
        MetaKind::Constant => is_constant_token(token),
        MetaKind::Ident => is_identifier_token(vars, var, token),
        _ => false,
    }
}

fn label_has_kind(kind: MetaKind, label: Label) -> bool
    ensures { result ≡ spec.label_is_of kind label }
{
    match kind {
        MetaKind::Expr => is_expression(label),
        MetaKind::Constant => is_strings(label),
        _ => false,
    }
}

/// Whether the variable, which is of this kind, may stand for the tree. Allocates nothing.
pub fn has_kind(vars: &[VarDecl], var: &[u8], kind: MetaKind, tree: &Tree) -> bool
    ensures { result ≡ spec.is_of_kind kind (spec.excepted vars.now var.now) (out-Tree tree.now) }
{
    match tree {
        Tree::Leaf(token) => token_has_kind(vars, var, kind, token),
        Tree::Branch(label, _) => label_has_kind(kind, *label),
    }
}
