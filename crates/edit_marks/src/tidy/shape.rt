// The bodies, statements and lists of the items that edits touch, by their tokens.
ghost use Rattle.std.specs.Prelude.{◌≡◌, ◌<◌, ◌≤◌, ◌+◌, ◌^◌, ◌++◌, All, IfOk, OnOk, length, get_or};
ghost use Rattle.std.specs.Option.{option_copied};
ghost use Rattle.edit_marks.specs.Tidy.Outlines as spec;

use crate::edit_walk::Numbers;
use crate::tidy::place::{is_block as is_block_label, tree_of};
use c_terms::{Label, NoMemory, Tree, TreePath};
use cpp_lines::Item;
use std::alloc::Global;

/// The leaves from one number up to another, the last left out, among those of all touched items.
#[derive(Clone, Copy, Debug, PartialEq, Eq)]
pub struct LeafRange {
    pub from: usize,
    pub to: usize,
}

/// A body of a statement, or a function's own block.
#[derive(Drop)]
pub struct Body {
    pub item: u32,
    /// The path from the item to the body.
    pub path: TreePath,
    pub leaves: LeafRange,
    pub is_block: bool,
    /// Whether its last token is a `;` and the last child of its own tree.
    pub has_semicolon: bool,
    /// For the first body of an `if` with `else`, where the second body ends. The `else` is directly behind the first.
    pub second_end: Option<usize>,
    /// The first leaf of the statement or function that has the body.
    pub owner: usize,
    /// Whether it is a function's own block.
    pub is_function: bool,
}

/// The brackets around a list of arguments, parameters or initialisers.
#[derive(Clone, Copy, Debug, PartialEq, Eq)]
pub struct BracketList {
    pub opening: usize,
    pub closing: usize,
    /// Whether it is a list of initialisers.
    pub is_init: bool,
}

/// The bodies, statements and lists of some items. Leaves are given by their numbers here.
#[derive(Drop)]
pub struct Outline {
    /// The token's number of each leaf.
    pub leaves: Vec<u32>,
    /// The bodies of statements and functions, each behind those in it, the items in order.
    pub bodies: Vec<Body>,
    /// The statements that have bodies, each behind those in it.
    pub statements: Vec<LeafRange>,
    pub lists: Vec<BracketList>,
}

/// Returns the outline of the items with these numbers. Linear. `NoMemory`: out of memory, or a branch has 2^32 children.
pub fn outline_of(
    alloc: Global,
    items: &[Item],
    touched: &[u32],
    ids: &Numbers,
) -> Result<Outline, NoMemory>
    requires { length ids.now ≤ 2 ^ 32 }
    ensures { IfOk result (spec.IsOutline ids.now items.now touched.now) }
{
    let mut made = Outline {
        leaves: Vec::new(alloc),
        bodies: Vec::new(alloc),
        statements: Vec::new(alloc),
        lists: Vec::new(alloc),
    };
    for item in touched {
        put_item(alloc, tree_of(items, *item), *item, ids, &mut made)?;
    }
    Ok(made)
}

fn put_item(
    alloc: Global,
    tree: Option<&Tree>,
    item: u32,
    ids: &Numbers,
    made: &mut Outline,
) -> Result<(), NoMemory>
    requires { length ids.now ≤ 2 ^ 32 }
    ensures { OnOk result (spec.AddsItem ids.now item (option_copied tree.entry) made.old made.new) }
{
    match tree {
        Some(tree) => {
            let mut path = Vec::new(alloc);
            put_tree(alloc, tree, item, ids, &mut path, made)
        }
        None => Ok(()),
    }
}

/// Adds what a tree has. Recurses once per level.
fn put_tree(
    alloc: Global,
    tree: &Tree,
    item: u32,
    ids: &Numbers,
    path: &mut Vec<u32>,
    made: &mut Outline,
) -> Result<(), NoMemory>
    requires { length ids.now ≤ 2 ^ 32 }
    ensures adds { OnOk result (spec.AddsTree ids.now item tree.now path.old.items made.old made.new) }
    ensures path { OnOk result (path.new.items ≡ path.old.items) }
{
    match tree {
        Tree::Leaf(token) => {
            put_leaf(token.id, ids, &mut made.leaves)?;
            Ok(())
        }
        Tree::Branch(label, children) => {
            let mut bounds = Vec::with_capacity(alloc, children.len().saturating_add(1))?;
            for (i, child) in children.as_slice().iter().enumerate() {
                bounds.push(made.leaves.len())?;
                path.push(step_of(i)?)?;
                put_tree(alloc, child, item, ids, path, made)?;
                path.pop();
            }
            bounds.push(made.leaves.len())?;
            let branch = Branch {
                item,
                label: *label,
                children: children.as_slice(),
                bounds: &bounds,
            };
            put_own(alloc, &branch, path, made)?;
            Ok(())
        }
    }
}

fn put_leaf(id: u64, ids: &Numbers, leaves: &mut Vec<u32>) -> Result<(), NoMemory>
    requires { length ids.now ≤ 2 ^ 32 }
    ensures { OnOk result (leaves.new.items ≡ leaves.old.items ++ spec.token_of ids.now id) }
{
    match ids.find(id) {
        Some(number) => {
            leaves.push(number as u32)?;
            Ok(())
        }
        None => Ok(()),
    }
}

/// Returns the number of a child as a step of a path.
fn step_of(i: usize) -> Result<u32, NoMemory>
    ensures { IfOk result (λ step. step ≡ i) }
{
    match u32::try_from(i) {
        Ok(step) => Ok(step),
        Err(_) => Err(NoMemory),
    }
}

/// A branch, and for each child the leaf at which it begins, and where the last one ends.
#[derive(Clone, Copy)]
struct Branch<'a> {
    item: u32,
    label: Label,
    children: &'a [Tree],
    bounds: &'a [usize],
}

/// Adds what a branch has by itself.
fn put_own(
    alloc: Global,
    branch: &Branch<'_>,
    path: &[u32],
    made: &mut Outline,
) -> Result<(), NoMemory>
    ensures { OnOk result (spec.AddsOwn branch.now.item path.now branch.now.label branch.now.bounds.now branch.now.children.now made.old made.new) }
{
    put_bodies(alloc, branch, path, &mut made.bodies)?;
    put_statement(branch, &mut made.statements)?;
    put_lists(branch, &mut made.lists)
}

/// Adds the bodies of a branch.
fn put_bodies(
    alloc: Global,
    branch: &Branch<'_>,
    path: &[u32],
    bodies: &mut Vec<Body>,
) -> Result<(), NoMemory>
    ensures { OnOk result (bodies.new.items ≡ bodies.old.items
        ++ spec.bodies_of branch.now.item path.now branch.now.label branch.now.bounds.now branch.now.children.now) }
{
    for (i, child) in branch.children.iter().enumerate() {
        put_body(alloc, branch, path, i, child, bodies)?;
    }
    Ok(())
}

/// Adds a child of a branch if it is a body.
fn put_body(
    alloc: Global,
    branch: &Branch<'_>,
    path: &[u32],
    i: usize,
    child: &Tree,
    bodies: &mut Vec<Body>,
) -> Result<(), NoMemory>
    requires { i < length branch.now.children.now }
    ensures { OnOk result (bodies.new.items ≡ bodies.old.items ++ spec.body_if branch.now.item path.now branch.now.label branch.now.bounds.now
        (length branch.now.children.now) i child.now) }
{
    if branch.label.is_body(branch.children.len(), i) {
        bodies.push(body_at(alloc, branch, path, i, child)?)?;
    }
    Ok(())
}

/// Returns the body that a child of a branch is.
fn body_at(
    alloc: Global,
    branch: &Branch<'_>,
    path: &[u32],
    i: usize,
    child: &Tree,
) -> Result<Body, NoMemory>
    requires { i < length branch.now.children.now }
    ensures { IfOk result (λ body. body ≡ spec.body_at branch.now.item path.now branch.now.label branch.now.bounds.now
        (length branch.now.children.now) i child.now) }
{
    let mut own = Vec::from_slice(alloc, path)?;
    own.push(step_of(i)?)?;
    Ok(Body {
        item: branch.item,
        path: TreePath::of(own),
        leaves: range_at(branch.bounds, i),
        is_block: is_block(child),
        has_semicolon: ends_in_semicolon(child),
        second_end: second_end(branch, i),
        owner: bound_at(branch.bounds, 0),
        is_function: is_function(branch.label),
    })
}

/// Returns the leaves of a child.
fn range_at(bounds: &[usize], i: usize) -> LeafRange
    requires { i + 1 < 2 ^ 64 }
    ensures { result ≡ spec.range_at bounds.now i }
{
    LeafRange {
        from: bound_at(bounds, i),
        to: bound_at(bounds, i + 1),
    }
}

/// Returns the bound with this number, or 0.
fn bound_at(bounds: &[usize], i: usize) -> usize
    ensures { result ≡ get_or bounds.now i 0 }
{
    match bounds.get(i) {
        Some(bound) => *bound,
        None => 0,
    }
}

/// For the first body of an `if` with `else`, returns where the second ends.
fn second_end(branch: &Branch<'_>, i: usize) -> Option<usize>
    ensures { result ≡ spec.second_end branch.now.label branch.now.bounds.now (length branch.now.children.now) i }
{
    if is_if_else(branch.label) && i == 4 && branch.children.len() > 6 {
        return Some(bound_at(branch.bounds, 7));
    }
    None
}

/// Adds a branch that is a statement with bodies.
fn put_statement(branch: &Branch<'_>, statements: &mut Vec<LeafRange>) -> Result<(), NoMemory>
    ensures { OnOk result (statements.new.items ≡ statements.old.items
        ++ spec.statement_of branch.now.label branch.now.bounds.now (length branch.now.children.now)) }
{
    if has_bodies(branch.label) {
        statements.push(whole(branch))?;
    }
    Ok(())
}

/// Returns the leaves of a branch.
fn whole(branch: &Branch<'_>) -> LeafRange
    ensures { result ≡ spec.whole branch.now.bounds.now (length branch.now.children.now) }
{
    LeafRange {
        from: bound_at(branch.bounds, 0),
        to: bound_at(branch.bounds, branch.children.len()),
    }
}

/// Adds the lists of a branch.
fn put_lists(branch: &Branch<'_>, lists: &mut Vec<BracketList>) -> Result<(), NoMemory>
    ensures { OnOk result (lists.new.items ≡ lists.old.items
        ++ spec.lists_of branch.now.label branch.now.bounds.now branch.now.children.now) }
{
    let all = whole(branch);
    put_child_lists(branch, all, lists)?;
    put_init_list(branch.label, all, lists)
}

/// Adds the lists among the children of a branch.
fn put_child_lists(
    branch: &Branch<'_>,
    all: LeafRange,
    lists: &mut Vec<BracketList>,
) -> Result<(), NoMemory>
    ensures { OnOk result (lists.new.items ≡ lists.old.items ++ spec.lists_from all branch.now.bounds.now 0 branch.now.children.now) }
{
    for (i, child) in branch.children.iter().enumerate() {
        put_child_list(child, all, range_at(branch.bounds, i), lists)?;
    }
    Ok(())
}

/// Adds a child of a branch if it is a list that stands between two tokens of the branch.
fn put_child_list(
    child: &Tree,
    all: LeafRange,
    own: LeafRange,
    lists: &mut Vec<BracketList>,
) -> Result<(), NoMemory>
    ensures { OnOk result (lists.new.items ≡ lists.old.items ++ spec.list_if child.now all own) }
{
    if is_bracketed(child) {
        put_list(all, own, lists)?;
    }
    Ok(())
}

/// Adds a list that stands between two tokens of its branch.
fn put_list(all: LeafRange, own: LeafRange, lists: &mut Vec<BracketList>) -> Result<(), NoMemory>
    ensures { OnOk result (lists.new.items ≡ lists.old.items ++ spec.list_between all own) }
{
    if all.from < own.from && own.to < all.to {
        lists.push(BracketList {
            opening: own.from - 1,
            closing: own.to,
            is_init: false,
        })?;
    }
    Ok(())
}

/// Adds an initialiser in braces.
fn put_init_list(label: Label, all: LeafRange, lists: &mut Vec<BracketList>) -> Result<(), NoMemory>
    ensures { OnOk result (lists.new.items ≡ lists.old.items ++ spec.init_list label all) }
{
    if is_init_list(label) && all.from < all.to {
        lists.push(BracketList {
            opening: all.from,
            closing: all.to - 1,
            is_init: true,
        })?;
    }
    Ok(())
}

fn is_function(label: Label) -> bool
    ensures { result ≡ spec.is_function label }
{
    matches!(label, Label::FunDef | Label::MacroFun)
}

fn has_bodies(label: Label) -> bool
    ensures { result ≡ spec.has_bodies label }
{
    label.is_head() && !is_function(label)
}

fn is_if_else(label: Label) -> bool
    ensures { result ≡ spec.is_if_else label }
{
    matches!(label, Label::IfElse)
}

fn is_init_list(label: Label) -> bool
    ensures { result ≡ spec.is_init_list label }
{
    matches!(label, Label::InitList)
}

fn is_block(tree: &Tree) -> bool
    ensures { result ≡ spec.is_block tree.now }
{
    match tree {
        Tree::Leaf(_) => false,
        Tree::Branch(label, _) => is_block_label(*label),
    }
}

/// Whether a tree is a list that stands between brackets.
fn is_bracketed(tree: &Tree) -> bool
    ensures { result ≡ spec.is_bracketed tree.now }
{
    match tree {
        Tree::Leaf(_) => false,
        Tree::Branch(label, _) => is_bracketed_label(*label),
    }
}

fn is_bracketed_label(label: Label) -> bool
    ensures { result ≡ spec.is_bracketed_label label }
{
    matches!(label, Label::Args | Label::Params)
}

/// Whether the last child of a tree is a `;`.
fn ends_in_semicolon(tree: &Tree) -> bool
    ensures { result ≡ spec.ends_in_semicolon tree.now }
{
    match tree {
        Tree::Leaf(_) => false,
        Tree::Branch(_, children) => is_semicolon(children.as_slice().last()),
    }
}

fn is_semicolon(tree: Option<&Tree>) -> bool
    ensures { result ≡ spec.is_semicolon (option_copied tree.entry) }
{
    match tree {
        Some(Tree::Leaf(token)) => token.text.as_bytes() == b";".as_slice(),
        _ => false,
    }
}
