// What the tree of what stands in the place of a body says of the braces that it needs.
ghost use Rattle.std.specs.Prelude.{◌≡◌};
ghost use Rattle.std.specs.Option.{option_copied};
ghost use Rattle.edit_bodies.specs.Needs as spec;

use c_terms::{Label, Tree};

/// Whether a list of statements is one statement that may be a body.
pub fn is_one_body(tree: &Tree) -> bool
    ensures { result ≡ spec.is_one_body (spec.only_statement tree.now) }
{
    match only_statement(tree) {
        Some(statement) => may_be_body(statement),
        None => false,
    }
}

fn may_be_body(tree: &Tree) -> bool
    ensures { result ≡ spec.may_be_body tree.now }
{
    match tree {
        Tree::Leaf(_) => false,
        Tree::Branch(label, _) => is_body_label(*label),
    }
}

fn is_body_label(label: Label) -> bool
    ensures { result ≡ spec.is_body_label label }
{
    match label {
        Label::Decl | Label::Case | Label::CaseRange | Label::Default | Label::Label => false,
        _ => label.is_statement(),
    }
}

fn only_statement(tree: &Tree) -> Option<&Tree>
    ensures { option_copied result ≡ spec.only_statement tree.now }
{
    match tree {
        Tree::Leaf(_) => None,
        Tree::Branch(label, children) => only_in(is_list(*label), children.as_slice()),
    }
}

fn is_list(label: Label) -> bool
    ensures { result ≡ spec.is_list_label label }
{
    matches!(label, Label::StmtList)
}

/// Returns the only one of some trees, if they are the children of a list.
fn only_in(is_list: bool, children: &[Tree]) -> Option<&Tree>
    ensures { option_copied result ≡ spec.only_in is_list children.now }
{
    if is_list && children.len() == 1 {
        children.get(0)
    } else {
        None
    }
}

/// Whether a list is one statement to which an `else` behind it would belong.
pub fn is_open_row(tree: &Tree) -> bool
    ensures { result ≡ spec.is_open_row (spec.only_statement tree.now) }
{
    match only_statement(tree) {
        Some(statement) => is_open(statement),
        None => false,
    }
}

/// Whether an `else` behind a statement would belong to an `if` in it. Recurses once per level.
fn is_open(tree: &Tree) -> bool
    ensures { result ≡ spec.is_open tree.now }
{
    match tree {
        Tree::Leaf(_) => false,
        Tree::Branch(label, children) => {
            if is_if(*label) {
                return true;
            }
            if !goes_on(*label) {
                return false;
            }
            match children.as_slice().last() {
                Some(body) => is_open(body),
                None => false,
            }
        }
    }
}

fn is_if(label: Label) -> bool
    ensures { result ≡ spec.is_if label }
{
    matches!(label, Label::If)
}

/// Whether a statement ends in a body.
fn goes_on(label: Label) -> bool
    ensures { result ≡ spec.goes_on label }
{
    match label {
        Label::IfElse => true,
        Label::While => true,
        Label::For => true,
        Label::ForDecl => true,
        Label::Switch => true,
        Label::Iterator => true,
        _ => false,
    }
}
