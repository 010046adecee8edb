// What a type name must not contain: a name, a storage word, the members of a structure or an enumeration. Also which
// declarators declare a function.

ghost use Rattle.std.specs.Prelude.{◌≡◌};
ghost use Rattle.c_terms.specs.declared.tree.Tree.{out-Tree};
ghost use Rattle.c_rows.specs.Branches as branches;

use crate::{is_named, is_storage};
use c_terms::{Label, Tree};

/// Whether the declarator has a name at its core.
pub fn declares_name(declarator: &Tree) -> bool
    ensures value { result ≡ branches.declares_name declarator.now }
{
    match declarator {
        Tree::Leaf(token) => is_named(token),
        Tree::Branch(label, children) => match label {
            Label::Pointer | Label::DParen => {
                for child in children.as_slice() {
                    if declares_name(child) {
                        return true;
                    }
                }
                false
            }
            Label::DArray | Label::DFun => match children.as_slice() {
                [inner, ..] => declares_name(inner),
                [] => false,
            },
            _ => false,
        },
    }
}

/// Whether a DFun is on the path from the outermost declarator to the name.
pub fn declares_function(declarator: &Tree) -> bool
    ensures value { result ≡ branches.declares_function declarator.now }
{
    match declarator {
        Tree::Leaf(_) => false,
        Tree::Branch(label, children) => match label {
            Label::DFun => true,
            Label::Pointer | Label::DParen => {
                for child in children.as_slice() {
                    if declares_function(child) {
                        return true;
                    }
                }
                false
            }
            Label::DArray => match children.as_slice() {
                [inner, ..] => declares_function(inner),
                [] => false,
            },
            _ => false,
        },
    }
}

/// Whether the part of a Specs is not a storage word, and defines nothing.
fn is_plain_part(part: &Tree) -> bool
    ensures { result ≡ branches.plain_part (out-Tree part.now) }
{
    match part {
        Tree::Leaf(token) => !is_storage(token),
        Tree::Branch(label, _) => !matches!(label, Label::StructDef | Label::EnumDef),
    }
}

/// Whether no part of the Specs is a storage word or defines anything.
fn is_plain(specs: &Tree) -> bool
    ensures { result ≡ branches.is_plain specs.now }
{
    match specs {
        Tree::Leaf(_) => true,
        Tree::Branch(_, parts) => {
            for part in parts.as_slice() {
                if !is_plain_part(part) {
                    return false;
                }
            }
            true
        }
    }
}

/// Whether the children of a TypeName are a plain Specs and, if there is one, a declarator without a name.
pub fn is_plain_type(children: &[Tree]) -> bool
    ensures value { result ≡ branches.is_plain_type children.now }
{
    match children {
        [specs] => is_plain(specs),
        [specs, declarator] => is_plain(specs) && !declares_name(declarator),
        _ => false,
    }
}
