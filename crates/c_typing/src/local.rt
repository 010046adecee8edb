// The names of an item that the item itself declares.
ghost use Rattle.std.specs.Prelude.{◌≡◌, ◌++◌, [], ◌∷◌, IfOk, OnOk, if◌then◌else◌};
ghost use Rattle.c_typing.specs.Locals as spec;

use crate::bindings::Bindings;
use crate::scope::push_rest;
use c_terms::{NoMemory, Token, TokenKind, Tree, is_expression_part};
use sqlite_items::Items;
use std::alloc::Global;

/// Whether the token is a name that one of these declarations declares. One look-up.
fn is_declared(locals: &Bindings, token: &Token) -> bool
    ensures { result ≡ spec.is_declared locals.now token.now }
{
    if token.kind != TokenKind::Name {
        return false;
    }
    match locals.find(token.text.as_bytes()) {
        Some(_) => true,
        None => false,
    }
}

/// Appends the id of a name that one of these declarations declares.
fn put_declared(locals: &Bindings, token: &Token, found: &mut Items<u64>) -> Result<(), NoMemory>
    ensures { OnOk result (found.new
        ≡ found.old ++ (if spec.is_declared locals.now token.now then token.now.id ∷ [] else [])) }
{
    if is_declared(locals, token) {
        found.push(token.id)?;
    }
    Ok(())
}

/// Appends the id of an expression, if `asked` is true and the expression is a name which one of these declarations declares.
fn put_local(
    asked: bool,
    locals: &Bindings,
    tree: &Tree,
    found: &mut Items<u64>,
) -> Result<(), NoMemory>
    ensures { OnOk result (found.new
        ≡ found.old ++ (if asked then spec.local locals.now tree.now else [])) }
{
    if !asked {
        return Ok(());
    }
    match tree {
        Tree::Leaf(token) => put_declared(locals, token, found),
        Tree::Branch(_, _) => Ok(()),
    }
}

/// Appends the ids of the local names in a tree, by place. `locals` are the names that are declared in the item around the
/// tree. Recurses once per level.
fn put_locals(
    alloc: Global,
    tree: &Tree,
    locals: &mut Bindings,
    found: &mut Items<u64>,
) -> Result<(), NoMemory>
    ensures ids { OnOk result (found.new ≡ found.old ++ spec.locals_under locals.old tree.now) }
    ensures locals { OnOk result (locals.new ≡ locals.old) }
{
    match tree {
        Tree::Leaf(_) => Ok(()),
        Tree::Branch(label, children) => {
            let outer = locals.len();
            for (i, child) in children.as_slice().iter().enumerate() {
                let is_part = is_expression_part(*label, i, child);
                put_local(is_part, locals, child, found)?;
                put_locals(alloc, child, locals, found)?;
                push_rest(alloc, *label, child, locals)?;
            }
            locals.truncate(outer);
            Ok(())
        }
    }
}

/// Returns the ids of the names of an item that a declaration in the item declares, by place. Linear, with one look-up for each
/// name, and four for each that the item declares. Recurses once per level of the item.
pub(crate) fn local_names(alloc: Global, item: &Tree) -> Result<Items<u64>, NoMemory>
    ensures ids { IfOk result (λ ids. ids ≡ spec.local_names item.now) }
{
    let mut locals = Bindings::new(alloc);
    let mut found = Items::new(alloc);
    put_locals(alloc, item, &mut locals, &mut found)?;
    Ok(found)
}
