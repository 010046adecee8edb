// Tests against `NULL` or `0`.
ghost use Rattle.std.specs.Prelude.{◌≡◌, ◌++◌, map, option_map, OnOk};
ghost use Rattle.std.specs.Option.{option_copied};
ghost use Rattle.smpl_notes.specs.NullTests as spec;

use crate::note::{Found, Slip};
use crate::tokens::{is_equality, is_zero};
use c_terms::{Label, NoMemory, Token, Tree};
use smpl_patch::Pattern;
use sqlite_items::{Items, at};

fn is_binary(label: Label) -> bool
    ensures { result ≡ spec.is_binary label }
{
    matches!(label, Label::Binary)
}

fn is_zero_tree(tree: &Tree) -> bool
    ensures { result ≡ (spec.tested tree.now).zero }
{
    match tree {
        Tree::Leaf(token) => is_zero(token),
        Tree::Branch(_, _) => false,
    }
}

/// Whether the tree is `NULL` or `0`.
fn is_zero_at(tree: Option<&Tree>) -> bool
    ensures { result ≡ spec.zero_of (option_map spec.tested (option_copied tree.entry)) }
{
    match tree {
        None => false,
        Some(tree) => is_zero_tree(tree),
    }
}

fn sign_of(tree: &Tree) -> Option<&Token>
    ensures { option_copied result ≡ (spec.tested tree.now).sign }
{
    match tree {
        Tree::Leaf(token) => {
            if is_equality(token) {
                Some(token)
            } else {
                None
            }
        }
        Tree::Branch(_, _) => None,
    }
}

/// Returns the tree's token, if it is `==` or `!=`.
fn sign_at(tree: Option<&Tree>) -> Option<&Token>
    ensures { option_copied result ≡ spec.sign_of (option_map spec.tested (option_copied tree.entry)) }
{
    match tree {
        None => None,
        Some(tree) => sign_of(tree),
    }
}

/// Returns the sign of `x == NULL` and the like, given the label and the children of a branch.
fn own_test(label: Label, children: &[Tree]) -> Option<&Token>
    ensures { option_copied result ≡ spec.own_test label (map spec.tested children.now) }
{
    if is_binary(label) && (is_zero_at(at(children, 0)) || is_zero_at(at(children, 2))) {
        sign_at(at(children, 1))
    } else {
        None
    }
}

/// Returns the sign of the first test in the tree. Takes no memory. Recurses once per level.
#[cycle(null_tests)]
fn test_in(tree: &Tree) -> Option<&Token>
    ensures { option_copied result ≡ (spec.tested tree.now).test }
{
    match tree {
        Tree::Leaf(_) => None,
        Tree::Branch(label, children) => match own_test(*label, children.as_slice()) {
            Some(sign) => Some(sign),
            None => first_test(children.as_slice()),
        },
    }
}

#[cycle(null_tests)]
fn first_test(trees: &[Tree]) -> Option<&Token>
    ensures { option_copied result ≡ spec.first_test (map spec.tested trees.now) }
{
    for tree in trees {
        if let Some(sign) = test_in(tree) {
            return Some(sign);
        }
    }
    None
}

fn test_of_pattern(pattern: &Pattern) -> Option<&Token>
    ensures { option_copied result ≡ spec.test_of_first pattern.now.forms }
{
    match pattern.forms.as_slice() {
        [] => None,
        [form, ..] => test_in(form),
    }
}

fn test_of<'a>(patterns: &[&'a Pattern]) -> Option<&'a Token>
    ensures { option_copied result ≡ spec.test_of (map (λ p. p.now) patterns.entry.now) }
{
    for pattern in patterns {
        if let Some(sign) = test_of_pattern(pattern) {
            return Some(sign);
        }
    }
    None
}

fn put_at(sign: Option<&Token>, found: &mut Items<Found>) -> Result<(), NoMemory>
    ensures { OnOk result (found.new ≡ found.old ++ spec.at_sign (option_copied sign.entry)) }
{
    match sign {
        None => Ok(()),
        Some(token) => {
            found.push(Found {
                token: token.id,
                slip: Slip::WrittenTest,
            })?;
            Ok(())
        }
    }
}

/// Appends the slip at the sign of the first test against `NULL` or `0` in the patterns. Linear in the patterns.
pub fn put_tests(patterns: &[&Pattern], found: &mut Items<Found>) -> Result<(), NoMemory>
    ensures { OnOk result (found.new ≡ found.old ++ spec.test_slips (map (λ p. p.now) patterns.now)) }
{
    put_at(test_of(patterns), found)
}
