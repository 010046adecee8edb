// Dots and nests that are first or last in a sequence.
ghost use Rattle.std.specs.Prelude.{◌≡◌, ◌++◌, map, IfOk, OnOk};
ghost use Rattle.c_terms.specs.Trees.{join};
ghost use Rattle.smpl_body.specs.Bodies.{nested_host, nested_hosts};
ghost use Rattle.smpl_body.specs.DotsOf as spec;

use crate::dots::is_dots;
use crate::smpl_when::Code;
use c_terms::{Label, NoMemory, Tree};
use sqlite_items::Items;
use std::alloc::Global;

/// Adds the number of the first child, if it is a token.
fn put_first_id(children: &[Tree], found: &mut Items<u64>) -> Result<(), NoMemory>
    ensures { OnOk result (found.new ≡ found.old ++ spec.first_id children.now) }
{
    match children {
        [Tree::Leaf(token), ..] => {
            found.push(token.id)?;
            Ok(())
        }
        _ => Ok(()),
    }
}

/// Adds the number of the first token, if the tree is dots or a nest.
fn put_gap(tree: &Tree, found: &mut Items<u64>) -> Result<(), NoMemory>
    ensures { OnOk result (found.new ≡ found.old ++ spec.gap tree.now) }
{
    match tree {
        Tree::Leaf(token) => {
            if is_dots(token.kind) {
                found.push(token.id)?;
                return Ok(());
            }
            Ok(())
        }
        Tree::Branch(Label::PatNest, children) => put_first_id(children.as_slice(), found),
        Tree::Branch(_, _) => Ok(()),
    }
}

fn put_first(trees: &[Tree], found: &mut Items<u64>) -> Result<(), NoMemory>
    ensures { OnOk result (found.new ≡ found.old ++ spec.first_gap trees.now) }
{
    match trees {
        [] => Ok(()),
        [first, ..] => put_gap(first, found),
    }
}

fn put_last(trees: &[Tree], found: &mut Items<u64>) -> Result<(), NoMemory>
    ensures { OnOk result (found.new ≡ found.old ++ spec.last_gap trees.now) }
{
    match trees {
        [] => Ok(()),
        [.., last] => put_gap(last, found),
    }
}

/// Adds the dots and nests that are first or last in a sequence.
fn put_ends(trees: &[Tree], found: &mut Items<u64>) -> Result<(), NoMemory>
    ensures { OnOk result (found.new ≡ found.old ++ spec.ends trees.now) }
{
    put_first(trees, found)?;
    put_last(trees, found)
}

/// Returns the statements of a list of statements.
fn statements(tree: &Tree) -> &[Tree]
    ensures { result.now ≡ spec.statements tree.now }
{
    match tree {
        Tree::Leaf(_) => &[],
        Tree::Branch(Label::StmtList, children) => children.as_slice(),
        Tree::Branch(_, _) => &[],
    }
}

fn put_branch_ends(trees: &[Tree], found: &mut Items<u64>) -> Result<(), NoMemory>
    ensures { OnOk result (found.new ≡ found.old ++ spec.branch_ends trees.now) }
{
    for tree in trees {
        put_ends(statements(tree), found)?;
    }
    Ok(())
}

fn put_body_ends(trees: &[Tree], found: &mut Items<u64>) -> Result<(), NoMemory>
    ensures { OnOk result (found.new ≡ found.old ++ spec.body_ends trees.now) }
{
    for tree in trees {
        put_gap(tree, found)?;
    }
    Ok(())
}

/// Returns all trees but the first and the last.
fn inner(trees: &[Tree]) -> &[Tree]
    ensures { result.now ≡ spec.inner trees.now }
{
    match trees {
        [_, inner @ .., _] => inner,
        _ => &[],
    }
}

fn put_head_ends(is_head: bool, trees: &[Tree], found: &mut Items<u64>) -> Result<(), NoMemory>
    ensures { OnOk result (found.new ≡ found.old ++ spec.head_ends is_head trees.now) }
{
    if is_head {
        put_body_ends(trees, found)
    } else {
        Ok(())
    }
}

/// Adds the edges of the sequences that are parts of a branch.
fn put_own_ends(label: Label, trees: &[Tree], found: &mut Items<u64>) -> Result<(), NoMemory>
    ensures { OnOk result (found.new ≡ found.old ++ spec.own_ends label trees.now) }
{
    match label {
        Label::PatOr => put_branch_ends(trees, found),
        Label::PatAnd => put_branch_ends(trees, found),
        Label::PatNest => put_ends(inner(trees), found),
        _ => put_head_ends(label.is_head(), trees, found),
    }
}

/// Adds the dots and nests at edges within a tree.
fn put_edged(tree: &Tree, found: &mut Items<u64>) -> Result<(), NoMemory>
    ensures { OnOk result (found.new ≡ found.old ++ (spec.edged tree.now).found) }
{
    match tree {
        Tree::Leaf(_) => Ok(()),
        Tree::Branch(label, children) => {
            put_own_ends(*label, children.as_slice(), found)?;
            for child in children.as_slice() {
                put_edged(child, found)?;
            }
            Ok(())
        }
    }
}

fn put_edges(tree: &Tree, found: &mut Items<u64>) -> Result<(), NoMemory>
    ensures { OnOk result (found.new ≡ found.old ++ spec.edges tree.now) }
{
    put_ends(statements(tree), found)?;
    put_edged(tree, found)
}

/// Adds the token that has the code, if that token is in other code.
fn put_host(code: &Code, found: &mut Items<u64>) -> Result<(), NoMemory>
    ensures { OnOk result (found.new ≡ found.old ++ nested_host code.now) }
{
    if code.nested {
        found.push(code.host)?;
        return Ok(());
    }
    Ok(())
}

/// Adds the tokens that are in code and have code of their own.
fn put_nested(codes: &[Code], found: &mut Items<u64>) -> Result<(), NoMemory>
    ensures { OnOk result (found.new ≡ found.old ++ nested_hosts codes.now) }
{
    for code in codes {
        put_host(code, found)?;
    }
    Ok(())
}

/// Returns the numbers of the dots and nests at edges: those that are in code and have code of their own, and those of the
/// trees. Linear. Recurses once per level.
pub(crate) fn all_edges(
    alloc: Global,
    codes: &[Code],
    trees: &[Tree],
) -> Result<Items<u64>, NoMemory>
    ensures { IfOk result (λ ids. ids ≡ nested_hosts codes.now ++ join (map spec.edges trees.now)) }
{
    let mut found = Items::new(alloc);
    put_nested(codes, &mut found)?;
    for tree in trees {
        put_edges(tree, &mut found)?;
    }
    Ok(found)
}
