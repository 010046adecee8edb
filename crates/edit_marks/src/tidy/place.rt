// Places of statements in an item, and the line that gives the indentation of an insert.
ghost use Rattle.std.specs.Prelude.{◌≡◌, ◌≤◌, length, take, IfOk};
ghost use Rattle.std.specs.Option.{option_copied};
ghost use Rattle.edit_marks.specs.EditWalk.Named.{tree_of};
ghost use Rattle.edit_marks.specs.Tidy.Reach as spec;

use crate::edit_walk::Numbers;
use crate::file_tokens::FileTokens;
use crate::insert::Anchor;
use crate::tidy::depth::AtomDepth;
use c_terms::{Label, NoMemory, Text, Tree, child, first_leaf, subtree};
use cpp_lines::Item;
use sqlite_items::at;
use std::alloc::Global;

/// Returns how many of a path's first numbers lead to the statement or item that names the node of the place.
pub fn node_depth(tree: &Tree, path: &[u32]) -> usize
    ensures depth { result ≡ length (spec.node_path tree.now path.now) }
    ensures within { result ≤ length path.now }
{
    let mut found = tree;
    let mut depth = 0;
    for step in path {
        if !is_statement_at(found, *step as usize) {
            return depth;
        }
        match child(found, *step as usize) {
            Some(next) => found = next,
            None => return depth,
        }
        depth += 1;
    }
    depth
}

/// Whether child `i` of a tree is a statement of its own: one of a block, or a body.
fn is_statement_at(tree: &Tree, i: usize) -> bool
    ensures { result ≡ spec.is_statement_in tree.now i }
{
    match tree {
        Tree::Leaf(_) => false,
        Tree::Branch(label, children) => is_block(*label) || label.is_body(children.len(), i),
    }
}

pub fn is_block(label: Label) -> bool
    ensures { result ≡ spec.is_block_label label }
{
    matches!(label, Label::Block)
}

/// Returns the tree of an item that was read.
pub fn tree_of(items: &[Item], item: u32) -> Option<&Tree>
    ensures { option_copied result ≡ tree_of items.now item }
{
    match at(items, item as usize)? {
        Item::Parsed(tree) => Some(tree),
        Item::Skipped(_, _) => None,
    }
}

/// Returns the length of the path to the tree on whose first line an insert is indented.
pub fn reach_of(
    anchor: Anchor,
    is_inside: bool,
    depth: AtomDepth,
    tree: &Tree,
    path: &[u32],
) -> usize
    ensures reach { take result path.now ≡ spec.reach_of anchor is_inside depth tree.now path.now }
    ensures within { result ≤ length path.now }
{
    match anchor {
        Anchor::Removed => node_depth(tree, path).saturating_sub(depth.removed as usize),
        Anchor::BeforeToken => node_depth(tree, path),
        Anchor::AfterLine => reach_after(is_inside, depth, tree, path),
        Anchor::AfterToken => reach_after(is_inside, depth, tree, path),
    }
}

fn reach_after(is_inside: bool, depth: AtomDepth, tree: &Tree, path: &[u32]) -> usize
    ensures reach { take result path.now ≡ spec.reach_after is_inside depth tree.now path.now }
    ensures within { result ≤ length path.now }
{
    if is_inside {
        return node_depth(tree, path);
    }
    path.len().saturating_sub(depth.around as usize)
}

/// Returns the blanks that begin the line of the first token of the tree at a path.
pub fn indent_of(
    alloc: Global,
    ids: &Numbers,
    files: &FileTokens<'_>,
    tree: &Tree,
    path: &[u32],
) -> Result<Option<Text>, NoMemory>
    ensures { IfOk result (λ indent. indent ≡ spec.indent_of ids.now files.now tree.now path.now) }
{
    let Some(own) = subtree(tree, path) else {
        return Ok(None);
    };
    let Some(token) = first_leaf(own) else {
        return Ok(None);
    };
    indent_at(alloc, ids, files, token.id)
}

/// Returns the blanks that begin the line of the token with this id.
fn indent_at(
    alloc: Global,
    ids: &Numbers,
    files: &FileTokens<'_>,
    id: u64,
) -> Result<Option<Text>, NoMemory>
    ensures { IfOk result (λ indent. indent ≡ spec.indent_at ids.now files.now id) }
{
    let Some(number) = ids.find(id) else {
        return Ok(None);
    };
    match files.get_at(alloc, number)? {
        Some(file) => Ok(Some(file.indent)),
        None => Ok(None),
    }
}
