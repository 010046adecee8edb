// Writes a tree out.
ghost use Rattle.std.specs.Prelude.{◌≡◌, ◌∷◌, [], IfOk, OnOk};
ghost use Rattle.c_show.specs.Show.{role_of, operator_if, is_operator, is_star, is_named, is_wide_after, is_wide_before, is_parted, shown, shown_token, show_of};
ghost use Rattle.c_show.specs.Showing.{Writes, is_parted_from};

use crate::joint::runs_together;
use crate::page::{LastToken, Page, Role};
use c_terms::{Label, NoMemory, Text, Token, TokenKind, Tree};
use std::alloc::Global;

/// Returns the text of the tree: the texts of its tokens, with one space between two neighbours that run together, after
/// `,`, `;` and `{`, before `{` and `}`, around operators with two operands, `?`, `:` and the `=` of a declaration, and
/// between a word and the `*` of a pointer. Linear time. Recurses once for each level of the tree. Fails only when out of
/// memory.
pub fn show(alloc: Global, tree: &Tree) -> Result<Text, NoMemory>
    ensures text { IfOk result (λ text. text ≡ show_of tree.now) }
{
    let mut page = Page {
        text: Vec::new(alloc),
        start: 0,
        last: None,
    };
    put_tree(&mut page, tree, Role::Plain)?;
    Text::from_bytes(alloc, page.text.as_slice())
}

fn put_tree(page: &mut Page, tree: &Tree, role: Role) -> Result<(), NoMemory>
    ensures { OnOk result (Writes page.old page.new (shown tree.now role)) }
{
    match tree {
        Tree::Leaf(token) => put_token(page, token, role),
        Tree::Branch(label, children) => {
            for (i, child) in children.as_slice().iter().enumerate() {
                put_tree(page, child, role_of(*label, i))?;
            }
            Ok(())
        }
    }
}

/// Adds a token, and before it a space if one is needed there.
fn put_token(page: &mut Page, token: &Token, role: Role) -> Result<(), NoMemory>
    ensures { OnOk result (Writes page.old page.new (shown_token token.now role ∷ [])) }
{
    let text = token.text.as_bytes();
    if is_parted(page, text, role) {
        page.text.push(b' ')?;
    }
    let start = page.text.len();
    page.text.extend_from_slice(text)?;
    page.start = start;
    page.last = Some(LastToken {
        kind: token.kind,
        role,
    });
    Ok(())
}

/// Whether a space separates this token from the last one.
fn is_parted(page: &Page, text: &[u8], role: Role) -> bool
    ensures { result ≡ is_parted_from page.now text.now role }
{
    let Some(last) = page.last else {
        return false;
    };
    let before = &page.text[page.start..];
    runs_together(before, text)
        || is_wide_after(before)
        || is_wide_before(text)
        || is_operator(last.role)
        || is_operator(role)
        || (is_named(last.kind) && is_star(role))
}

fn is_wide_after(text: &[u8]) -> bool
    ensures { result ≡ is_wide_after text.now }
{
    text == b",".as_slice() || text == b";".as_slice() || text == b"{".as_slice()
}

fn is_wide_before(text: &[u8]) -> bool
    ensures { result ≡ is_wide_before text.now }
{
    text == b"{".as_slice() || text == b"}".as_slice()
}

fn is_operator(role: Role) -> bool
    ensures { result ≡ is_operator role }
{
    matches!(role, Role::Operator)
}

fn is_star(role: Role) -> bool
    ensures { result ≡ is_star role }
{
    matches!(role, Role::Star)
}

fn is_named(kind: TokenKind) -> bool
    ensures { result ≡ is_named kind }
{
    matches!(kind, TokenKind::Name | TokenKind::Keyword)
}

/// The part that a token plays as the child with this index.
fn role_of(label: Label, child: usize) -> Role
    ensures { result ≡ role_of label child }
{
    match label {
        Label::Binary => operator_if(child == 1),
        Label::Assign => operator_if(child == 1),
        Label::Cond => operator_if(child == 1 || child == 3),
        Label::CondShort => operator_if(child == 1 || child == 2),
        Label::InitDecl => operator_if(child == 1),
        Label::Pointer => if child == 0 { Role::Star } else { Role::Plain },
        _ => Role::Plain,
    }
}

fn operator_if(is: bool) -> Role
    ensures { result ≡ operator_if is }
{
    if is { Role::Operator } else { Role::Plain }
}
