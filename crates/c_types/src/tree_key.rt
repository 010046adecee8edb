// What the expressions of an item are found by.
ghost use Rattle.std.specs.Prelude.{◌≡◌, ◌++◌, map, IfOk, OnOk};
ghost use Rattle.c_terms.specs.Places.{parts};
ghost use Rattle.c_terms.specs.Shapes.{is_expression_part};
ghost use Rattle.c_types.specs.TreeKeys as spec;

use c_terms::{NoMemory, Tree, first_leaf, is_expression_part};
use sqlite_items::Items;
use std::alloc::Global;
use std::hash::{Hash, Hasher};

/// A subtree of an item, by the id of its first token, if it has one, and its levels. Subtrees with the same first token are
/// nested, and the inner one has fewer levels. So in an item whose tokens have different ids no other subtree that has a token
/// has the same key.
#[derive(Clone, Copy, Debug)]
pub struct TreeKey {
    pub(crate) first: Option<u64>,
    pub(crate) levels: usize,
}

impl PartialEq for TreeKey {
    ghost use Rattle.std.proofs.Common.{rules};
    ghost use Rattle.std.specs.Cmp.Rules.{comparing};
    ghost use Rattle.c_types.specs.TreeKeys.{same_key};

    ghost eq = { same_key };

    ghost laws = { Prim.search (comparing, rules) };

    fn eq(&self, other: &TreeKey) -> bool {
        self.first == other.first && self.levels == other.levels
    }
}

impl Eq for TreeKey {
    ghost use Rattle.std.proofs.Common.{rules};
    ghost use Rattle.std.specs.Cmp.Rules.{comparing};

    ghost laws = { Prim.search (comparing, rules) };
}

impl Hash for TreeKey {
    ghost use Rattle.std.proofs.Common.{rules};
    ghost use Rattle.std.specs.Cmp.Rules.{hashing};
    ghost use Rattle.c_types.specs.TreeKeys.{key_input};

    ghost hash_input = { key_input };

    ghost respects_eq = { Prim.search (hashing, rules) };

    fn hash<H: Hasher>(&self, state: &mut H) {
        self.first.hash(state);
        self.levels.hash(state);
    }
}

/// Returns the id of the first token.
fn first_id(tree: &Tree) -> Option<u64>
    ensures { result ≡ spec.first_id tree.now }
{
    first_leaf(tree).map(|token| token.id)
}

/// Returns the number of levels of branches, or 2^64 - 1 if there are more. Linear. Recurses once per level.
fn level_count(tree: &Tree) -> usize
    ensures { result ≡ spec.level_count tree.now }
{
    match tree {
        Tree::Leaf(_) => 0,
        Tree::Branch(_, children) => {
            let mut most: usize = 0;
            for child in children.as_slice() {
                most = most.max(level_count(child));
            }
            most.saturating_add(1)
        }
    }
}

/// Returns the key of a tree. Linear. Recurses once per level.
pub(crate) fn key_of(tree: &Tree) -> TreeKey
    ensures { result ≡ spec.key_of tree.now }
{
    TreeKey {
        first: first_id(tree),
        levels: level_count(tree),
    }
}

/// Appends a place for the key of a child, if `is_part` is true, and the keys of the expressions in the child. Returns the key
/// of the child, which also stands in its place.
#[cycle(keys)]
fn put_child(
    alloc: Global,
    is_part: bool,
    child: &Tree,
    found: &mut Items<TreeKey>,
) -> Result<TreeKey, NoMemory>
    ensures own { IfOk result (λ key. key ≡ spec.key_of child.now) }
    ensures parts { OnOk result (found.new ≡ found.old ++ spec.child_keys is_part child.now) }
{
    if is_part {
        let at = found.len();
        found.push(TreeKey {
            first: None,
            levels: 0,
        })?;
        let key = put_keys(alloc, child, found)?;
        found.set(at, key);
        Ok(key)
    } else {
        put_keys(alloc, child, found)
    }
}

/// Appends the keys of the expressions in a tree, by place, and returns the key of the tree. Linear. Recurses once per level.
#[cycle(keys)]
fn put_keys(alloc: Global, tree: &Tree, found: &mut Items<TreeKey>) -> Result<TreeKey, NoMemory>
    ensures own { IfOk result (λ key. key ≡ spec.key_of tree.now) }
    ensures parts { OnOk result (found.new ≡ found.old ++ spec.part_keys tree.now) }
{
    match tree {
        Tree::Leaf(token) => Ok(TreeKey {
            first: Some(token.id),
            levels: 0,
        }),
        Tree::Branch(label, children) => {
            let mut first: Option<u64> = None;
            let mut most: usize = 0;
            for (i, child) in children.as_slice().iter().enumerate() {
                let is_part = is_expression_part(*label, i, child);
                let key = put_child(alloc, is_part, child, found)?;
                first = first.or(key.first);
                most = most.max(key.levels);
            }
            Ok(TreeKey {
                first,
                levels: most.saturating_add(1),
            })
        }
    }
}

/// Returns the keys of the expressions of an item, by place. Linear. Recurses once per level.
pub fn expression_keys(alloc: Global, item: &Tree) -> Result<Items<TreeKey>, NoMemory>
    ensures keys { IfOk result (λ keys. keys ≡ map (λ p. spec.key_of p.tree) (parts is_expression_part item.now)) }
{
    let mut found = Items::new(alloc);
    let _own = put_keys(alloc, item, &mut found)?;
    Ok(found)
}
