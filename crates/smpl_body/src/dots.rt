// The dots of trees: members of lists, and statements.
ghost use Rattle.std.specs.Prelude.{◌≡◌, ◌++◌, ◌&&◌, map, IfOk, OnOk};
ghost use Rattle.c_terms.specs.Trees.{join};
ghost use Rattle.smpl_body.specs.DotsOf as spec;

use c_terms::{Label, NoMemory, Token, TokenKind, Tree};
use sqlite_items::Items;
use std::alloc::Global;

pub(crate) fn is_dots(kind: TokenKind) -> bool
    ensures { result ≡ spec.is_dots kind }
{
    matches!(kind, TokenKind::Dots)
}

fn is_list(label: Label) -> bool
    ensures { result ≡ spec.is_list label }
{
    matches!(label, Label::Args | Label::Params)
}

fn is_wanted(listed: bool, inside: bool) -> bool
    ensures { result ≡ spec.is_wanted listed inside }
{
    if listed { inside } else { !inside }
}

/// Adds the number of the token if it is dots of the wanted kind.
fn put_wanted(
    token: &Token,
    listed: bool,
    inside: bool,
    found: &mut Items<u64>,
) -> Result<(), NoMemory>
    ensures { OnOk result (found.new ≡ found.old ++ spec.wanted listed token.now inside) }
{
    if is_dots(token.kind) && is_wanted(listed, inside) {
        found.push(token.id)?;
        return Ok(());
    }
    Ok(())
}

/// Adds the numbers of the dots that are members of a list, or of the dots that aren't.
fn put_dots(tree: &Tree, listed: bool, inside: bool, found: &mut Items<u64>) -> Result<(), NoMemory>
    ensures { OnOk result (found.new ≡ found.old ++ spec.dots_in listed tree.now inside) }
{
    match tree {
        Tree::Leaf(token) => put_wanted(token, listed, inside, found),
        Tree::Branch(label, children) => {
            let members = is_list(*label);
            for child in children.as_slice() {
                put_dots(child, listed, members, found)?;
            }
            Ok(())
        }
    }
}

/// Returns the numbers of the dots in trees that are members of a list of arguments or parameters. Linear. Recurses once
/// per level.
pub(crate) fn list_dots(alloc: Global, trees: &[Tree]) -> Result<Items<u64>, NoMemory>
    ensures { IfOk result (λ ids. ids ≡ join (map spec.list_dots trees.now)) }
{
    let mut found = Items::new(alloc);
    for tree in trees {
        put_dots(tree, true, false, &mut found)?;
    }
    Ok(found)
}

/// Returns the numbers of the dots in trees that are statements. Linear. Recurses once per level.
pub(crate) fn statement_dots(alloc: Global, trees: &[Tree]) -> Result<Items<u64>, NoMemory>
    ensures { IfOk result (λ ids. ids ≡ join (map spec.statement_dots trees.now)) }
{
    let mut found = Items::new(alloc);
    for tree in trees {
        put_dots(tree, false, false, &mut found)?;
    }
    Ok(found)
}
