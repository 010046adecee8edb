// Tokens, read as a tree of the first form that spells them.
ghost use Rattle.std.specs.Prelude.{◌≡◌, IfOk, MatchOption};
ghost use Rattle.c_terms.specs.Names.{listed_names};
ghost use Rattle.c_terms.specs.declared.tree.Tree.{Tree as Term};
ghost use Rattle.smpl_body.specs.Spelled as spec;
ghost use Rattle.smpl_body.specs.Spelled.{IsTree, NoTree, IsFirst, IsRead};

use c_expr::{ParseFault, parse_kind};
use c_rows::Kind;
use c_terms::{Label, Names, NoMemory, Token, Tree};
use std::alloc::Global;

/// The forms that a body can have, in the order in which they are tried.
#[derive(Clone, Copy, Debug, PartialEq, Eq)]
pub enum Form {
    Expression,
    Statements,
    Function,
}

fn is_function(tree: &Tree) -> bool
    ensures { result ≡ spec.is_function tree.now }
{
    match tree {
        Tree::Leaf(_) => false,
        Tree::Branch(Label::FunDef, _) => true,
        Tree::Branch(_, _) => false,
    }
}

fn kind_of(form: Form) -> Kind
    ensures { result ≡ spec.kind_of form }
{
    match form {
        Form::Expression => Kind::Expr,
        Form::Statements => Kind::StmtList,
        Form::Function => Kind::External,
    }
}

/// Returns the tree if it has the form: an item may be a declaration rather than a function.
fn of_form(form: Form, tree: Tree) -> Option<Tree>
    ensures { MatchOption result (spec.IsOfForm form tree → ⊥) (λ t. (t ≡ tree) × spec.IsOfForm form tree) }
{
    match form {
        Form::Expression => Some(tree),
        Form::Statements => Some(tree),
        Form::Function => { if is_function(&tree) { Some(tree) } else { None } }
    }
}

/// Returns the one tree of the form that spells the tokens, if there is one.
fn read_form(
    alloc: Global,
    form: Form,
    names: &Names,
    tokens: &[Token],
) -> Result<Option<Tree>, NoMemory>
    requires { names.now ≡ listed_names }
    ensures { IfOk result (λ found. MatchOption found (NoTree form tokens.now) (λ t. IsTree form tokens.now t)) }
{
    match parse_kind(alloc, kind_of(form), tokens, names, 0, tokens.len()) {
        Ok(tree) => Ok(of_form(form, tree)),
        Err(ParseFault::NoTree) => Ok(None),
        Err(ParseFault::TooDeep) => Ok(None),
        Err(ParseFault::NoMemory) => Err(NoMemory),
    }
}

/// Returns the tree of the first of the forms that spells the tokens, if there is one.
fn read_first(
    alloc: Global,
    forms: &[Form],
    names: &Names,
    tokens: &[Token],
) -> Result<Option<Tree>, NoMemory>
    requires { names.now ≡ listed_names }
    ensures { IfOk result (λ found. MatchOption found ((t : Term) → IsFirst forms.now tokens.now t → ⊥)
        (λ t. IsFirst forms.now tokens.now t)) }
{
    for form in forms {
        let found = read_form(alloc, *form, names, tokens)?;
        match found {
            Some(tree) => return Ok(Some(tree)),
            None => {}
        }
    }
    Ok(None)
}

/// Like [`read_first`], but returns `None` if there is no token.
pub(crate) fn read_tokens(
    alloc: Global,
    forms: &[Form],
    names: &Names,
    tokens: &[Token],
) -> Result<Option<Tree>, NoMemory>
    requires { names.now ≡ listed_names }
    ensures { IfOk result (λ found. MatchOption found ((t : Term) → IsRead forms.now tokens.now t → ⊥)
        (λ t. IsRead forms.now tokens.now t)) }
{
    match tokens {
        [] => Ok(None),
        [_, ..] => read_first(alloc, forms, names, tokens),
    }
}
