// The words that patterns spell.
ghost use Rattle.std.specs.Prelude.{◌≡◌, ◌&&◌, ◌||◌, length};
ghost use Rattle.std.specs.List.{list_any, list_all};
ghost use Rattle.smpl_patch.specs.Patterns as patterns;
ghost use Rattle.smpl_patch.specs.Held as parts;
ghost use Rattle.ctl_fixpoint.specs.RequiredWords.Words as spec;

use crate::required_words::word::is_word;
use c_terms::{Label, Shape, Tree};
use smpl_patch::{Pattern, Spot, is_held, is_sign_tree, is_split_into_nodes};

#[cycle(spell)]
fn in_every(word: &[u8], trees: &[Tree]) -> bool
    ensures { result ≡ list_all (λ t. patterns.is_sign_tree t || spec.spells word.now t) trees.now }
{
    for tree in trees {
        if !is_sign_tree(tree) && !spells(word, tree) {
            return false;
        }
    }
    true
}

#[cycle(spell)]
fn in_some(word: &[u8], trees: &[Tree]) -> bool
    ensures { result ≡ list_any (spec.spells word.now) trees.now }
{
    for tree in trees {
        if spells(word, tree) {
            return true;
        }
    }
    false
}

#[cycle(spell)]
fn in_branches(word: &[u8], trees: &[Tree]) -> bool
    ensures { result ≡ (list_any (spec.spells word.now) trees.now
        && list_all (λ t. patterns.is_sign_tree t || spec.spells word.now t) trees.now) }
{
    in_some(word, trees) && in_every(word, trees)
}

/// Whether the form spells the word however it fits. Takes no memory. Recurses once per level.
#[cycle(spell)]
pub fn spells(word: &[u8], tree: &Tree) -> bool
    ensures { result ≡ spec.spells word.now tree.now }
{
    match tree {
        Tree::Leaf(token) => is_word(word, token),
        Tree::Branch(label, children) => match label.shape() {
            Shape::Or => in_branches(word, children.as_slice()),
            Shape::And => in_some(word, children.as_slice()),
            Shape::List => in_some(word, children.as_slice()),
            Shape::Plain => in_some(word, children.as_slice()),
        },
    }
}

fn spells_where(here: bool, word: &[u8], tree: &Tree) -> bool
    ensures { result ≡ (here && spec.spells word.now tree.now) }
{
    here && spells(word, tree)
}

fn kept_spell(word: &[u8], spot: Spot, label: Label, trees: &[Tree]) -> bool
    ensures { result ≡ list_any (spec.spells word.now) (parts.kept (parts.is_held spot label (length trees.now)) 0 trees.now) }
{
    for i in 0..trees.len() {
        let here = is_held(spot, label, trees.len(), i);
        if spells_where(here, word, &trees[i]) {
            return true;
        }
    }
    false
}

/// Whether the part of the form that is compared at the spot spells the word however it fits. Takes no memory.
pub fn held_spells(word: &[u8], spot: Spot, form: &Tree) -> bool
    ensures { result ≡ spec.held_spells word.now spot form.now }
{
    match form {
        Tree::Leaf(_) => spells(word, form),
        Tree::Branch(label, children) => {
            if is_split_into_nodes(spot, *label) {
                kept_spell(word, spot, *label, children.as_slice())
            } else {
                spells(word, form)
            }
        }
    }
}

fn has_form(forms: &[Tree]) -> bool
    ensures { result ≡ spec.has_form forms.now }
{
    match forms {
        [_, ..] => true,
        [] => false,
    }
}

fn each_spells(word: &[u8], spot: Spot, forms: &[Tree]) -> bool
    ensures { result ≡ list_all (spec.held_spells word.now spot) forms.now }
{
    forms.iter().all(|form| held_spells(word, spot, form))
}

/// Whether the pattern has a form and each of its forms spells the word. Takes no memory.
pub fn spelled(word: &[u8], p: &Pattern) -> bool
    ensures { result ≡ spec.spelled word.now p.now }
{
    has_form(p.forms.as_slice()) && each_spells(word, p.spot, p.forms.as_slice())
}
