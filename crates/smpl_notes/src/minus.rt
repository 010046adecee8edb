// A `-` that was meant as a sign.
ghost use Rattle.std.specs.Prelude.{◌≡◌, ◌++◌, map, slice_get, OnOk};
ghost use Rattle.std.specs.Option.{option_copied};
ghost use Rattle.c_terms.specs.declared.tree.Tree.{out-Tree};
ghost use Rattle.smpl_notes.specs.Minus as spec;

use crate::note::{Found, Slip};
use crate::tokens::is_minus;
use c_terms::{Label, NoMemory, Token, Tree, child};
use smpl_meta::Placed;
use smpl_patch::Pattern;
use sqlite_items::{Items, at};

fn is_unary(tree: &Tree) -> bool
    ensures { result ≡ spec.is_unary (out-Tree tree.now) }
{
    matches!(tree, Tree::Branch(Label::Unary, _))
}

fn is_call(tree: &Tree) -> bool
    ensures { result ≡ spec.is_call (out-Tree tree.now) }
{
    matches!(tree, Tree::Branch(Label::Call, _))
}

fn is_expression_statement(tree: &Tree) -> bool
    ensures { result ≡ spec.is_expression_statement (out-Tree tree.now) }
{
    matches!(tree, Tree::Branch(Label::ExprStat, _))
}

fn is_some_call(tree: Option<&Tree>) -> bool
    ensures { result ≡ spec.is_some_call (option_copied tree.entry) }
{
    match tree {
        None => false,
        Some(tree) => is_call(tree),
    }
}

fn minus_at(tree: &Tree) -> Option<&Token>
    ensures { option_copied result ≡ spec.minus_at (out-Tree tree.now) }
{
    match tree {
        Tree::Leaf(token) => { if is_minus(token) { Some(token) } else { None } }
        Tree::Branch(_, _) => None,
    }
}

fn minus_in(tree: Option<&Tree>) -> Option<&Token>
    ensures { option_copied result ≡ spec.minus_in (option_copied tree.entry) }
{
    match tree {
        None => None,
        Some(tree) => minus_at(tree),
    }
}

/// Returns the `-` of `-f(x)`.
fn minus_before(tree: &Tree) -> Option<&Token>
    ensures { option_copied result ≡ spec.minus_before tree.now }
{
    if is_unary(tree) && is_some_call(child(tree, 1)) {
        minus_in(child(tree, 0))
    } else {
        None
    }
}

fn minus_before_some(tree: Option<&Tree>) -> Option<&Token>
    ensures { option_copied result ≡ spec.minus_before_some (option_copied tree.entry) }
{
    match tree {
        None => None,
        Some(tree) => minus_before(tree),
    }
}

/// Returns the `-` of a form that is `-f(x)` or `-f(x);`.
fn minus_of_form(form: &Tree) -> Option<&Token>
    ensures { option_copied result ≡ spec.minus_of_form form.now }
{
    if is_expression_statement(form) {
        minus_before_some(child(form, 0))
    } else {
        minus_before(form)
    }
}

fn minus_of_pattern(pattern: &Pattern) -> Option<&Token>
    ensures { option_copied result ≡ spec.minus_of_first pattern.now.forms }
{
    match pattern.forms.as_slice() {
        [] => None,
        [form, ..] => minus_of_form(form),
    }
}

fn is_in_line(placed: Option<&Placed>, line: u32) -> bool
    ensures { result ≡ spec.is_in_line (option_copied placed.entry) line }
{
    match placed {
        None => false,
        Some(p) => p.line == line,
    }
}

/// Returns the token before the one with this number.
fn before(placed: &[Placed], id: u64) -> Option<&Placed>
    ensures { option_copied result ≡ spec.before placed.now id }
{
    if id == 0 {
        None
    } else {
        at(placed, id as usize - 1)
    }
}

/// Whether the token is the first of a line without a sign, given the token before it.
fn leads_context(p: Option<&Placed>, last: Option<&Placed>) -> bool
    ensures { result ≡ spec.leads_context (option_copied p.entry) (option_copied last.entry) }
{
    match p {
        None => false,
        Some(p) => p.sign == b' ' && !is_in_line(last, p.line),
    }
}

fn put_minus(
    placed: &[Placed],
    sign: Option<&Token>,
    found: &mut Items<Found>,
) -> Result<(), NoMemory>
    ensures { OnOk result (found.new ≡ found.old ++ spec.minus_slip placed.now (option_copied sign.entry)) }
{
    match sign {
        None => Ok(()),
        Some(token) => {
            let here = at(placed, token.id as usize);
            if leads_context(here, before(placed, token.id)) {
                found.push(Found {
                    token: token.id,
                    slip: Slip::IndentedMinus,
                })?;
            }
            Ok(())
        }
    }
}

/// Appends the slips of patterns that are a `-` before a call, at the first token of a line without a sign. Linear in the
/// patterns.
pub fn put_minuses(
    placed: &[Placed],
    patterns: &[&Pattern],
    found: &mut Items<Found>,
) -> Result<(), NoMemory>
    ensures { OnOk result (found.new ≡ found.old ++ spec.minus_slips placed.now (map (λ p. p.now) patterns.now)) }
{
    for pattern in patterns {
        put_minus(placed, minus_of_pattern(pattern), found)?;
    }
    Ok(())
}
