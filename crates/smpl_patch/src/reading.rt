// Queries on declarations, tokens and patterns.
ghost use Rattle.std.specs.Prelude.{◌≡◌, ◌||◌, slice_get};
ghost use Rattle.std.specs.List.{list_any, list_all};
ghost use Rattle.std.specs.Option.{option_copied};
ghost use Rattle.c_terms.specs.Trees.{leaves};
ghost use Rattle.c_terms.specs.declared.tree.Tree.{out-Tree};
ghost use Rattle.smpl_terms.specs.Vars.{same_var};
ghost use Rattle.smpl_patch.specs.Patterns as spec;

use crate::{PatToken, Pattern, PlusBlock, PlusLine, VarDecl, VarKind};
use c_terms::{MetaKind, Token, TokenKind, Tree, same_text};
use smpl_terms::{Var, same_var};

fn is_position_kind(kind: VarKind) -> bool
    ensures { result ≡ spec.is_position_kind kind }
{
    matches!(kind, VarKind::Position)
}

/// Returns the declaration of the metavariable with this name: the first one of the name that is not a position. Takes no
/// memory.
pub fn declared_as<'a>(decls: &'a [VarDecl], name: &[u8]) -> Option<&'a VarDecl>
    ensures value { option_copied result ≡ spec.declared_as decls.now name.now }
{
    for d in decls {
        if !is_position_kind(d.kind) && same_text(d.var.name.as_bytes(), name) {
            return Some(d);
        }
    }
    None
}

/// Whether the variable is one of these. Takes no memory.
pub fn has_var(vars: &[Var], x: &Var) -> bool
    ensures value { result ≡ list_any (λ y. same_var y x.now) vars.now }
{
    vars.iter().any(|y| same_var(y, x))
}

fn is_declared_as(decls: &[VarDecl], name: &[u8], x: &Var) -> bool
    ensures { result ≡ spec.is_var_of (spec.declared_as decls.now name.now) x.now }
{
    match declared_as(decls, name) {
        Some(d) => same_var(&d.var, x),
        None => false,
    }
}

/// Whether a metavariable of this name is the variable. Compares the names first, which mostly saves the search of the
/// declarations.
fn is_named(decls: &[VarDecl], name: &[u8], x: &Var) -> bool
    ensures { result ≡ spec.is_var_of (spec.declared_as decls.now name.now) x.now }
{
    same_text(name, x.name.as_bytes()) && is_declared_as(decls, name, x)
}

fn is_meta_of(decls: &[VarDecl], token: &Token, x: &Var) -> bool
    ensures { result ≡ spec.is_meta_of decls.now token.now token.now.kind x.now }
{
    match token.kind {
        TokenKind::Meta(_) => is_named(decls, token.text.as_bytes(), x),
        _ => false,
    }
}

fn is_position_of(tokens: &[PatToken], id: u64, x: &Var) -> bool
    ensures { result ≡ spec.is_position_of (slice_get tokens.now id) x.now }
{
    match tokens.get(id as usize) {
        Some(p) => has_var(p.positions.as_slice(), x),
        None => false,
    }
}

/// Whether the variable is the token's, or a position at it. Takes no memory.
pub fn is_own(decls: &[VarDecl], tokens: &[PatToken], x: &Var, token: &Token) -> bool
    ensures value { result ≡ spec.is_own decls.now tokens.now x.now token.now }
{
    is_meta_of(decls, token, x) || is_position_of(tokens, token.id, x)
}

/// Whether the variable is that of one of the tree's tokens, or a position at one.
pub(crate) fn stands_in(decls: &[VarDecl], tokens: &[PatToken], x: &Var, tree: &Tree) -> bool
    ensures { result ≡ spec.stands_in decls.now tokens.now x.now tree.now }
{
    match tree {
        Tree::Leaf(token) => is_own(decls, tokens, x, token),
        Tree::Branch(_, children) => {
            for child in children.as_slice() {
                if stands_in(decls, tokens, x, child) {
                    return true;
                }
            }
            false
        }
    }
}

fn in_line(decls: &[VarDecl], x: &Var, line: &PlusLine) -> bool
    ensures { result ≡ spec.in_line decls.now x.now line.now }
{
    line.tokens
        .as_slice()
        .iter()
        .any(|token| is_meta_of(decls, token, x))
}

fn in_block(decls: &[VarDecl], x: &Var, block: &Option<PlusBlock>) -> bool
    ensures { result ≡ spec.in_block decls.now x.now block.now }
{
    match block {
        None => false,
        Some(b) => {
            for line in b.lines.as_slice() {
                if in_line(decls, x, line) {
                    return true;
                }
            }
            false
        }
    }
}

fn in_plus(decls: &[VarDecl], tokens: &[PatToken], id: u64, x: &Var) -> bool
    ensures { result ≡ spec.in_plus decls.now (slice_get tokens.now id) x.now }
{
    match tokens.get(id as usize) {
        None => false,
        Some(p) => in_block(decls, x, &p.before) || in_block(decls, x, &p.after),
    }
}

fn is_at(decls: &[VarDecl], tokens: &[PatToken], x: &Var, token: &Token) -> bool
    ensures { result ≡ (spec.is_own decls.now tokens.now x.now token.now || spec.in_plus decls.now (slice_get tokens.now token.now.id) x.now) }
{
    is_own(decls, tokens, x, token) || in_plus(decls, tokens, token.id, x)
}

/// Whether the variable is that of one of the tree's tokens, a position at one, or in plus code that is anchored at one.
pub(crate) fn used_in(decls: &[VarDecl], tokens: &[PatToken], x: &Var, tree: &Tree) -> bool
    ensures { result ≡ spec.used_in decls.now tokens.now x.now tree.now }
{
    match tree {
        Tree::Leaf(token) => is_at(decls, tokens, x, token),
        Tree::Branch(_, children) => {
            for child in children.as_slice() {
                if used_in(decls, tokens, x, child) {
                    return true;
                }
            }
            false
        }
    }
}

pub fn is_statement_kind(kind: TokenKind) -> bool
    ensures { result ≡ spec.is_statement_token kind }
{
    matches!(kind, TokenKind::Meta(MetaKind::Stmt))
}

fn is_statement_tree(tree: &Tree) -> bool
    ensures { result ≡ spec.is_statement_tree (out-Tree tree.now) }
{
    match tree {
        Tree::Leaf(token) => is_statement_kind(token.kind),
        Tree::Branch(_, _) => false,
    }
}

/// Whether the atom is a statement variable. Takes no memory.
pub fn is_statement(p: &Pattern) -> bool
    ensures value { result ≡ spec.is_statement p.now }
{
    match p.forms.as_slice() {
        [form, ..] => is_statement_tree(form),
        [] => false,
    }
}
