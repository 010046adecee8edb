// The spans of touches.
ghost use Rattle.std.specs.Prelude.{◌≡◌, ◌++◌, None, map, slice_get, IfOk, OnOk};
ghost use Rattle.std.specs.List.{last_or};
ghost use Rattle.wit_places.specs.Touches.{paths};
ghost use Rattle.wit_places.specs.Spans as spec;

use c_terms::{NoMemory, Token, Tree, subtree};
use smpl_patch::Witness;
use std::alloc::Global;

/// From the first to the last of some loaded tokens, by their ids.
#[derive(Clone, Copy, Debug, PartialEq, Eq)]
pub struct TokenSpan {
    pub first: u64,
    pub last: u64,
}

/// Returns the id of a token that was loaded.
fn loaded_id(token: &Token, loaded: u64) -> Option<u64>
    ensures { result ≡ spec.loaded_id loaded token.now }
{
    if token.id < loaded {
        Some(token.id)
    } else {
        None
    }
}

/// Returns the id of the first token of a tree that was loaded. Looks at no token after it. Recurses once per level.
fn first_loaded(tree: &Tree, loaded: u64) -> Option<u64>
    ensures { result ≡ slice_get (spec.loaded_ids loaded tree.now) 0 }
{
    match tree {
        Tree::Leaf(token) => loaded_id(token, loaded),
        Tree::Branch(_, children) => {
            for child in children.as_slice() {
                if let Some(id) = first_loaded(child, loaded) {
                    return Some(id);
                }
            }
            None
        }
    }
}

/// Returns the id of the last token of a tree that was loaded. Looks at no token before it. Recurses once per level.
fn last_loaded(tree: &Tree, loaded: u64) -> Option<u64>
    ensures { result ≡ last_or None (spec.loaded_ids loaded tree.now) }
{
    match tree {
        Tree::Leaf(token) => loaded_id(token, loaded),
        Tree::Branch(_, children) => {
            let children = children.as_slice();
            let mut i = children.len();
            while i > 0 {
                i -= 1;
                if let Some(id) = last_loaded(&children[i], loaded) {
                    return Some(id);
                }
            }
            None
        }
    }
}

/// Returns the span of the subtree at a path.
fn span_at(tree: &Tree, path: &[u32], loaded: u64) -> Option<TokenSpan>
    ensures { result ≡ spec.span_at loaded tree.now path.now }
{
    let part = subtree(tree, path)?;
    let first = first_loaded(part, loaded)?;
    let last = last_loaded(part, loaded)?;
    Some(TokenSpan { first, last })
}

/// Appends the spans of the touches of a tree of a witness. Recurses once per level.
fn put_spans(
    tree: &Tree,
    loaded: u64,
    found: &Witness,
    spans: &mut Vec<Option<TokenSpan>>,
) -> Result<(), NoMemory>
    ensures { OnOk result (spans.new.items ≡ spans.old.items
        ++ map (spec.span_at loaded tree.now) (paths found.now)) }
{
    match found {
        Witness::Touch(_, _, path) => {
            spans.push(span_at(tree, path.steps(), loaded))?;
            Ok(())
        }
        Witness::Bind(_, _, _, under) => {
            for below in under.as_slice() {
                put_spans(tree, loaded, below, spans)?;
            }
            Ok(())
        }
    }
}

/// Returns the span of each touch of a forest over the tree of its item, in preorder: the ids of the first and of the last
/// token of the subtree at its path that were loaded, which are those below `loaded`, the number of tokens of the loaded
/// text. It is none if no token of the subtree was loaded, or if the path leads nowhere.
///
/// A touch costs its path and at most its subtree, and of that only what was added before the first and after the last token
/// that was loaded. Takes memory for the spans alone, and fails only when out of it.
pub fn touch_spans(
    alloc: Global,
    tree: &Tree,
    loaded: u64,
    forest: &[Witness],
) -> Result<Vec<Option<TokenSpan>>, NoMemory>
    ensures spans { IfOk result (λ spans. spans.items ≡ spec.touch_spans loaded tree.now forest.now) }
{
    let mut spans = Vec::new(alloc);
    for found in forest {
        put_spans(tree, loaded, found, &mut spans)?;
    }
    Ok(spans)
}
