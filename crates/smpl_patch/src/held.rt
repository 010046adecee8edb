// Questions about a variable in the parts of a pattern that are compared at a node.
ghost use Rattle.std.specs.Prelude.{◌≡◌, ◌&&◌, length};
ghost use Rattle.std.specs.List.{list_any};
ghost use Rattle.smpl_patch.specs.Held as parts;
ghost use Rattle.smpl_patch.specs.Patterns as spec;

use crate::reading::{stands_in, used_in};
use crate::sure::is_sure_in;
use crate::{PatToken, Pattern, Spot, VarDecl};
use c_terms::{Label, Tree};
use smpl_terms::Var;

/// A question about a variable and a tree.
#[derive(Clone, Copy, Debug, PartialEq, Eq)]
pub(crate) enum Question {
    /// Whether the variable appears in the tree.
    Stands,
    /// Whether the variable appears in the tree or in plus code that is anchored there.
    Used,
    /// Whether the variable has a value wherever the tree matches.
    Sure,
}

pub fn is_split_into_nodes(spot: Spot, label: Label) -> bool
    ensures { result ≡ parts.is_split_into_nodes spot label }
{
    match spot {
        Spot::Whole => label.is_head(),
        Spot::Tail => true,
        Spot::Inside => false,
    }
}

/// Whether child `i` of the `n` children of a form with this label is compared at the spot. Of a head, and of the tail of
/// `do`, only their own children are compared. Takes no memory.
pub fn is_held(spot: Spot, label: Label, n: usize, i: usize) -> bool
    ensures value { result ≡ parts.is_held spot label n i }
{
    match spot {
        Spot::Whole => !label.is_body(n, i) && !label.is_tail(i),
        Spot::Tail => label.is_tail(i),
        Spot::Inside => true,
    }
}

fn answer(question: Question, decls: &[VarDecl], tokens: &[PatToken], x: &Var, tree: &Tree) -> bool
    ensures { result ≡ spec.answer decls.now tokens.now question x.now tree.now }
{
    match question {
        Question::Stands => stands_in(decls, tokens, x, tree),
        Question::Used => used_in(decls, tokens, x, tree),
        Question::Sure => is_sure_in(decls, tokens, x, tree),
    }
}

fn answer_where(
    here: bool,
    question: Question,
    decls: &[VarDecl],
    tokens: &[PatToken],
    x: &Var,
    tree: &Tree,
) -> bool
    ensures { result ≡ (here && spec.answer decls.now tokens.now question x.now tree.now) }
{
    here && answer(question, decls, tokens, x, tree)
}

fn kept_answer(
    question: Question,
    decls: &[VarDecl],
    tokens: &[PatToken],
    spot: Spot,
    label: Label,
    x: &Var,
    trees: &[Tree],
) -> bool
    ensures { result ≡ list_any (spec.answer decls.now tokens.now question x.now) (parts.kept (parts.is_held spot label (length trees.now)) 0 trees.now) }
{
    for i in 0..trees.len() {
        let here = is_held(spot, label, trees.len(), i);
        if answer_where(here, question, decls, tokens, x, &trees[i]) {
            return true;
        }
    }
    false
}

fn held_answer(
    question: Question,
    decls: &[VarDecl],
    tokens: &[PatToken],
    spot: Spot,
    x: &Var,
    form: &Tree,
) -> bool
    ensures { result ≡ spec.held_answer decls.now tokens.now question spot x.now form.now }
{
    match form {
        Tree::Leaf(_) => answer(question, decls, tokens, x, form),
        Tree::Branch(label, children) => {
            if is_split_into_nodes(spot, *label) {
                kept_answer(
                    question,
                    decls,
                    tokens,
                    spot,
                    *label,
                    x,
                    children.as_slice(),
                )
            } else {
                answer(question, decls, tokens, x, form)
            }
        }
    }
}

fn of_first(
    question: Question,
    decls: &[VarDecl],
    tokens: &[PatToken],
    p: &Pattern,
    x: &Var,
) -> bool
    ensures { result ≡ spec.of_first decls.now tokens.now question p.now x.now }
{
    match p.forms.as_slice() {
        [form, ..] => held_answer(question, decls, tokens, p.spot, x, form),
        [] => false,
    }
}

/// Whether the variable appears in the compared parts of the pattern's first form. Takes no memory. Recurses once per
/// level.
pub fn stands(decls: &[VarDecl], tokens: &[PatToken], p: &Pattern, x: &Var) -> bool
    ensures value { result ≡ spec.stands decls.now tokens.now p.now x.now }
{
    of_first(Question::Stands, decls, tokens, p, x)
}

/// Whether the variable appears in the compared parts of the pattern's first form, or in plus code that is anchored there.
/// Takes no memory. Recurses once per level.
pub fn used(decls: &[VarDecl], tokens: &[PatToken], p: &Pattern, x: &Var) -> bool
    ensures value { result ≡ spec.used decls.now tokens.now p.now x.now }
{
    of_first(Question::Used, decls, tokens, p, x)
}

/// Whether the variable is a sure variable of the compared parts of the pattern's first form: it has a value wherever they
/// match. Takes no memory. Recurses once per level.
pub fn is_sure(decls: &[VarDecl], tokens: &[PatToken], p: &Pattern, x: &Var) -> bool
    ensures value { result ≡ spec.sure decls.now tokens.now p.now x.now }
{
    of_first(Question::Sure, decls, tokens, p, x)
}

/// Whether the variable is a sure variable of the parts of the form that are compared at the spot. Takes no memory. Recurses
/// once per level.
pub fn is_held_sure(
    decls: &[VarDecl],
    tokens: &[PatToken],
    spot: Spot,
    x: &Var,
    form: &Tree,
) -> bool
    ensures value { result ≡ spec.held_sure decls.now tokens.now spot x.now form.now }
{
    held_answer(Question::Sure, decls, tokens, spot, x, form)
}
