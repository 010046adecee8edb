// What a tree is as a part of a body, and which of its children are parts in turn.
ghost use Rattle.std.specs.Prelude.{◌≡◌, ◌<◌, slice_get, IfOk};
ghost use Rattle.std.specs.Option.{option_copied};
ghost use Rattle.smpl_body.specs.SmplElem.Forms as spec;

use c_terms::{Label, MetaKind, NoMemory, TokenKind, Tree};
use sqlite_items::Items;
use std::alloc::Global;

/// What a tree is as a part of a body.
#[derive(Clone, Copy, Debug, PartialEq, Eq)]
pub enum Form {
    /// `...`
    Gap,
    /// An expression.
    Expression,
    /// A statement without bodies, or a metavariable for a statement.
    Plain,
    /// Statements, one after another.
    List,
    /// `{ s }`
    Block,
    /// `<... s ...>`
    Nest,
    /// `\( s \| s \)`
    AnyOf,
    /// `\( s \& s \)`
    AllOf,
    /// A statement or function with bodies.
    Head,
    /// `do s while (c);`, whose tail has its own pattern.
    Do,
}

/// Whether the tree is a list of statements.
fn is_list(tree: &Tree) -> bool
    ensures { result ≡ spec.is_list tree.now }
{
    matches!(tree, Tree::Branch(Label::StmtList, _))
}

fn form_of_token(kind: TokenKind) -> Form
    ensures { result ≡ spec.form_of_token kind }
{
    match kind {
        TokenKind::Dots => Form::Gap,
        TokenKind::Meta(MetaKind::Stmt) => Form::Plain,
        _ => Form::Expression,
    }
}

/// Returns the given form if the branches are lists of statements, else the form of an expression.
fn form_of_choice(form: Form, children: &[Tree]) -> Form
    ensures { result ≡ spec.form_of_choice form children.now }
{
    match children.get(1) {
        Some(child) => {
            if is_list(child) {
                form
            } else {
                Form::Expression
            }
        }
        None => Form::Expression,
    }
}

fn form_of_other(label: Label) -> Form
    ensures { result ≡ spec.form_of_other label }
{
    if label.is_head() {
        Form::Head
    } else if label.is_expression() {
        Form::Expression
    } else {
        Form::Plain
    }
}

fn form_of(label: Label, children: &[Tree]) -> Form
    ensures { result ≡ spec.form_of label children.now }
{
    match label {
        Label::PatOr => form_of_choice(Form::AnyOf, children),
        Label::PatAnd => form_of_choice(Form::AllOf, children),
        Label::PatNest => Form::Nest,
        Label::Block => Form::Block,
        Label::StmtList => Form::List,
        Label::Do => Form::Do,
        _ => form_of_other(label),
    }
}

pub(crate) fn form_at(tree: &Tree) -> Form
    ensures { result ≡ spec.form_at tree.now }
{
    match tree {
        Tree::Leaf(token) => form_of_token(token.kind),
        Tree::Branch(label, children) => form_of(*label, children.as_slice()),
    }
}

/// Returns the children of a branch. A token has none.
pub(crate) fn kids(tree: &Tree) -> &[Tree]
    ensures { result.now ≡ spec.kids tree.now }
{
    match tree {
        Tree::Leaf(_) => &[],
        Tree::Branch(_, children) => children.as_slice(),
    }
}

/// Returns the label of a branch, or for a token the label of a list of statements.
pub(crate) fn label_at(tree: &Tree) -> Label
    ensures { result ≡ spec.label_at tree.now }
{
    match tree {
        Tree::Leaf(_) => Label::StmtList,
        Tree::Branch(label, _) => *label,
    }
}

/// Whether child `i` of `n` has elements of its own.
pub(crate) fn is_part(form: Form, label: Label, n: usize, i: usize, child: &Tree) -> bool
    requires { i < n }
    ensures { result ≡ spec.is_part form label n i child.now }
{
    match form {
        Form::AnyOf | Form::AllOf => is_list(child),
        Form::Nest | Form::Block => 0 < i && i + 1 < n,
        Form::List => true,
        Form::Head | Form::Do => label.is_body(n, i),
        _ => false,
    }
}

/// Returns the number of the form's own patterns before those of its parts.
pub(crate) fn before(form: Form) -> u32
    ensures { result ≡ spec.before form }
{
    match form {
        Form::Expression | Form::Plain | Form::Block | Form::Head | Form::Do => 1,
        _ => 0,
    }
}

/// Returns the number of the form's own patterns after those of its parts.
pub(crate) fn after(form: Form) -> u32
    ensures { result ≡ spec.after form }
{
    match form {
        Form::Block | Form::Do => 1,
        _ => 0,
    }
}

/// Returns the number of a token.
pub(crate) fn id_at(tree: &Tree) -> u64
    ensures { result ≡ spec.id_at tree.now }
{
    match tree {
        Tree::Leaf(token) => token.id,
        Tree::Branch(_, _) => 0,
    }
}

/// Returns the placeholder for a child that is not compared.
pub(crate) fn nothing(alloc: Global) -> Tree
    ensures { result ≡ spec.nothing }
{
    Tree::Branch(Label::StmtList, Items::new(alloc))
}

/// Returns a copy of the first child.
pub(crate) fn first_kid(alloc: Global, children: &[Tree]) -> Result<Tree, NoMemory>
    ensures { IfOk result (λ t. t ≡ spec.first_kid children.now) }
{
    match children {
        [] => Ok(nothing(alloc)),
        [first, ..] => first.copy(alloc),
    }
}

/// Returns a copy of the last child.
pub(crate) fn last_kid(alloc: Global, children: &[Tree]) -> Result<Tree, NoMemory>
    ensures { IfOk result (λ t. t ≡ spec.last_kid children.now) }
{
    match children {
        [] => Ok(nothing(alloc)),
        [.., last] => last.copy(alloc),
    }
}

/// Returns the number of the last child, which is a token.
pub(crate) fn last_id(children: &[Tree]) -> u64
    ensures { result ≡ spec.id_at (spec.last_kid children.now) }
{
    match children {
        [] => 0,
        [.., last] => id_at(last),
    }
}

/// Whether the first child is `<+...`.
pub(crate) fn is_more(children: &[Tree]) -> bool
    ensures { result ≡ spec.is_more (spec.first_kid children.now) }
{
    match children {
        [Tree::Leaf(sign), ..] => sign.text.as_bytes() == b"<+...".as_slice(),
        _ => false,
    }
}
