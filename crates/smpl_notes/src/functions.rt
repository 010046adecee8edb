// Patterns of functions that find less than they seem to.
ghost use Rattle.std.specs.Prelude.{◌≡◌, ◌++◌, slice_get, OnOk};
ghost use Rattle.std.specs.Option.{option_copied};
ghost use Rattle.c_terms.specs.declared.tree.Tree.{out-Tree};
ghost use Rattle.smpl_patch.specs.Bodies.{body, element};
ghost use Rattle.smpl_patch.specs.Shapes as shapes;
ghost use Rattle.smpl_patch.proofs.BodyLemmas.{bodies as bodies_of};
ghost use Rattle.smpl_notes.specs.Functions as spec;

use crate::note::{Found, Slip};
use crate::tokens::{is_dots, may_be_name};
use c_terms::{Label, NoMemory, Token, Tree, child, first_leaf};
use smpl_patch::{Elem, Mode, Pattern};
use sqlite_items::Items;

fn is_function(form: &Tree) -> bool
    ensures { result ≡ spec.is_function (out-Tree form.now) }
{
    matches!(form, Tree::Branch(Label::FunDef, _))
}

fn is_iterator(form: &Tree) -> bool
    ensures { result ≡ spec.is_iterator (out-Tree form.now) }
{
    matches!(form, Tree::Branch(Label::Iterator, _))
}

fn are_arguments(tree: &Tree) -> bool
    ensures { result ≡ spec.are_arguments (out-Tree tree.now) }
{
    matches!(tree, Tree::Branch(Label::Args, _))
}

fn is_name(tree: &Tree) -> bool
    ensures { result ≡ spec.is_name (out-Tree tree.now) }
{
    match tree {
        Tree::Leaf(token) => may_be_name(token.kind),
        Tree::Branch(_, _) => false,
    }
}

fn is_gap(tree: &Tree) -> bool
    ensures { result ≡ spec.is_gap (out-Tree tree.now) }
{
    match tree {
        Tree::Leaf(token) => is_dots(token.kind),
        Tree::Branch(_, _) => false,
    }
}

fn is_some_name(tree: Option<&Tree>) -> bool
    ensures { result ≡ spec.is_some spec.is_name (option_copied tree.entry) }
{
    match tree {
        None => false,
        Some(tree) => is_name(tree),
    }
}

fn is_some_gap(tree: Option<&Tree>) -> bool
    ensures { result ≡ spec.is_some spec.is_gap (option_copied tree.entry) }
{
    match tree {
        None => false,
        Some(tree) => is_gap(tree),
    }
}

/// Whether the tree is a list of arguments that is dots alone.
fn are_dots(tree: Option<&Tree>) -> bool
    ensures { result ≡ spec.are_dots (option_copied tree.entry) }
{
    match tree {
        None => false,
        Some(tree) => {
            are_arguments(tree) && (is_some_gap(child(tree, 0)) && child(tree, 1).is_none())
        }
    }
}

/// Whether the form is `f(...)` before a body.
fn is_untyped(form: &Tree) -> bool
    ensures { result ≡ spec.is_untyped form.now }
{
    is_iterator(form) && (is_some_name(child(form, 0)) && are_dots(child(form, 2)))
}

/// Whether the element is dots or a nest.
fn is_dotted(elem: &Elem) -> bool
    ensures { result ≡ shapes.is_dots (element elem.now) }
{
    matches!(elem, Elem::Gap(_) | Elem::Nest(_, _, _))
}

fn any_dots(elems: &[Elem]) -> bool
    ensures { result ≡ spec.any_dots (body elems.now) }
{
    for elem in elems {
        if is_dotted(elem) {
            return true;
        }
    }
    false
}

fn block_has_dots(elem: &Elem) -> bool
    ensures { result ≡ spec.block_has_dots (element elem.now) }
{
    match elem {
        Elem::Block(_, elems, _) => any_dots(elems.as_slice()),
        _ => false,
    }
}

fn first_has_dots(elems: &[Elem]) -> bool
    ensures { result ≡ spec.first_has_dots (body elems.now) }
{
    match elems {
        [] => false,
        [elem, ..] => block_has_dots(elem),
    }
}

/// Whether dots or a nest are directly in the block that is the first body.
fn have_dots(bodies: &[Items<Elem>]) -> bool
    ensures { result ≡ spec.have_dots (bodies_of bodies.now) }
{
    match bodies {
        [] => false,
        [elems, ..] => first_has_dots(elems.as_slice()),
    }
}

fn is_forall(mode: Mode) -> bool
    ensures { result ≡ spec.is_forall mode }
{
    matches!(mode, Mode::Forall)
}

fn put_at(token: Option<&Token>, slip: Slip, found: &mut Items<Found>) -> Result<(), NoMemory>
    ensures { OnOk result (found.new ≡ found.old ++ spec.at_token (option_copied token.entry) slip) }
{
    match token {
        None => Ok(()),
        Some(token) => {
            found.push(Found {
                token: token.id,
                slip,
            })?;
            Ok(())
        }
    }
}

/// Appends the slip at the first token of the form, if the flag is true.
fn put_if(here: bool, form: &Tree, slip: Slip, found: &mut Items<Found>) -> Result<(), NoMemory>
    ensures { OnOk result (found.new ≡ found.old ++ spec.slip_if here form.now slip) }
{
    if here {
        put_at(first_leaf(form), slip, found)
    } else {
        Ok(())
    }
}

fn is_loopless(mode: Mode, form: &Tree, bodies: &[Items<Elem>]) -> bool
    ensures { result ≡ spec.is_loopless mode (out-Tree form.now) (bodies_of bodies.now) }
{
    is_forall(mode) && (is_function(form) && have_dots(bodies))
}

fn put_head(
    mode: Mode,
    head: &Pattern,
    bodies: &[Items<Elem>],
    found: &mut Items<Found>,
) -> Result<(), NoMemory>
    ensures { OnOk result (found.new ≡ found.old ++ spec.first_slips mode head.now.forms (bodies_of bodies.now)) }
{
    match head.forms.as_slice() {
        [] => Ok(()),
        [form, ..] => {
            let loopless = is_loopless(mode, form, bodies);
            put_if(loopless, form, Slip::LooplessFunction, found)?;
            put_if(is_untyped(form), form, Slip::UntypedFunction, found)
        }
    }
}

fn put_element(mode: Mode, elem: &Elem, found: &mut Items<Found>) -> Result<(), NoMemory>
    ensures { OnOk result (found.new ≡ found.old ++ spec.element_slips mode (element elem.now)) }
{
    match elem {
        Elem::Compound(head, bodies, _) => put_head(mode, head, bodies.as_slice(), found),
        _ => Ok(()),
    }
}

/// Appends the slips of a body that is one statement or function with bodies. Linear in its block, without what is inside
/// its statements.
pub fn put_functions(mode: Mode, elems: &[Elem], found: &mut Items<Found>) -> Result<(), NoMemory>
    ensures { OnOk result (found.new ≡ found.old ++ spec.function_slips mode (body elems.now)) }
{
    match elems {
        [elem] => put_element(mode, elem, found),
        _ => Ok(()),
    }
}
