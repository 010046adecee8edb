// Which atoms are touched.
ghost use Rattle.std.specs.Prelude.{◌≡◌, ◌&&◌, ◌||◌, slice_get, length};
ghost use Rattle.std.specs.List.{list_any};
ghost use Rattle.smpl_patch.specs.Held as parts;
ghost use Rattle.wit_forest.specs.WitTrees.Marks as spec;

use c_terms::{Label, Token, Tree};
use smpl_patch::{Mark, PatToken, Pattern, PlusBlock, Spot, is_held, is_split_into_nodes};

fn is_context(mark: Mark) -> bool
    ensures { result ≡ spec.is_context mark }
{
    matches!(mark, Mark::Context)
}

fn is_there(block: &Option<PlusBlock>) -> bool
    ensures { result ≡ spec.is_there block.now }
{
    match block {
        None => false,
        Some(_) => true,
    }
}

fn has_plus(p: &PatToken) -> bool
    ensures { result ≡ (spec.is_there p.now.before || spec.is_there p.now.after) }
{
    is_there(&p.before) || is_there(&p.after)
}

fn is_marked(p: &PatToken) -> bool
    ensures { result ≡ spec.is_marked (Some p.now) }
{
    !is_context(p.mark) || has_plus(p)
}

fn is_marked_token(tokens: &[PatToken], token: &Token) -> bool
    ensures { result ≡ spec.is_marked (slice_get tokens.now token.now.id) }
{
    match tokens.get(token.id as usize) {
        None => false,
        Some(p) => is_marked(p),
    }
}

/// Whether some token of the tree is marked. Recurses once per level.
fn is_marked_tree(tokens: &[PatToken], tree: &Tree) -> bool
    ensures { result ≡ spec.is_marked_tree tokens.now tree.now }
{
    match tree {
        Tree::Leaf(token) => is_marked_token(tokens, token),
        Tree::Branch(_, children) => {
            for child in children.as_slice() {
                if is_marked_tree(tokens, child) {
                    return true;
                }
            }
            false
        }
    }
}

fn is_marked_where(here: bool, tokens: &[PatToken], tree: &Tree) -> bool
    ensures { result ≡ (here && spec.is_marked_tree tokens.now tree.now) }
{
    here && is_marked_tree(tokens, tree)
}

fn is_marked_kept(tokens: &[PatToken], spot: Spot, label: Label, trees: &[Tree]) -> bool
    ensures { result ≡ list_any (spec.is_marked_tree tokens.now)
        (parts.kept (parts.is_held spot label (length trees.now)) 0 trees.now) }
{
    for i in 0..trees.len() {
        let here = is_held(spot, label, trees.len(), i);
        if is_marked_where(here, tokens, &trees[i]) {
            return true;
        }
    }
    false
}

fn is_marked_form(tokens: &[PatToken], spot: Spot, form: &Tree) -> bool
    ensures { result ≡ list_any (spec.is_marked_tree tokens.now) (parts.held spot form.now) }
{
    match form {
        Tree::Leaf(_) => is_marked_tree(tokens, form),
        Tree::Branch(label, children) => {
            if is_split_into_nodes(spot, *label) {
                is_marked_kept(tokens, spot, *label, children.as_slice())
            } else {
                is_marked_tree(tokens, form)
            }
        }
    }
}

/// Whether some token of the compared part of the pattern's first form is removed or starred, or has plus code. Takes no
/// memory. Recurses once per level.
pub fn is_touched(tokens: &[PatToken], p: &Pattern) -> bool
    ensures { result ≡ spec.is_touched tokens.now p.now }
{
    match p.forms.as_slice() {
        [form, ..] => is_marked_form(tokens, p.spot, form),
        [] => false,
    }
}
