// The names that declarations declare.
ghost use Rattle.std.specs.Prelude.{◌≡◌, ◌++◌, IfOk, OnOk, map};
ghost use Rattle.c_typing.specs.Declarations as spec;

use crate::base::{is_typedef, kids};
use crate::binding::Binding;
use crate::declarator::{declared, declared_name, function_params};
use c_terms::{Label, NoMemory, Tree};
use c_types::{Ty, adjusted};
use std::alloc::Global;

/// Returns the type that a declaration with these specifiers gives to a name. A typedef declares no object.
fn object_type(alloc: Global, specs: &Tree, declarator: &Tree) -> Result<Option<Ty>, NoMemory>
    ensures { IfOk result (λ ty. ty ≡ spec.object_type specs.now declarator.now) }
{
    if is_typedef(specs) {
        return Ok(None);
    }
    declared(alloc, specs, Some(declarator))
}

/// Returns the name that a declarator declares, with its type.
fn binding_of(alloc: Global, specs: &Tree, declarator: &Tree) -> Result<Option<Binding>, NoMemory>
    ensures { IfOk result (λ binding. binding ≡ spec.binding_of specs.now declarator.now) }
{
    match declared_name(declarator) {
        Some(name) => {
            let name = name.copy(alloc)?;
            let ty = object_type(alloc, specs, declarator)?;
            Ok(Some(Binding { name, ty }))
        }
        None => Ok(None),
    }
}

/// Returns the names that a declaration, a field, a parameter or a function declares, given the children of its branch.
pub(crate) fn declared_by(alloc: Global, children: &[Tree]) -> Result<Vec<Binding>, NoMemory>
    ensures { IfOk result (λ found. found.items ≡ spec.declared_by children.now) }
{
    let mut found = Vec::new(alloc);
    let Some((specs, declarators)) = children.split_first() else {
        return Ok(found);
    };
    for declarator in declarators {
        if let Some(binding) = binding_of(alloc, specs, declarator)? {
            found.push(binding)?;
        }
    }
    Ok(found)
}

/// Returns the same name with the type that it has as a parameter.
fn as_param(alloc: Global, binding: Binding) -> Result<Binding, NoMemory>
    ensures { IfOk result (λ param. param ≡ spec.as_param binding) }
{
    let Binding { name, ty } = binding;
    match ty {
        Some(ty) => Ok(Binding {
            name,
            ty: Some(adjusted(alloc, ty)?),
        }),
        None => Ok(Binding { name, ty: None }),
    }
}

/// Appends the names with the types that they have as parameters.
fn put_params(
    alloc: Global,
    bindings: Vec<Binding>,
    found: &mut Vec<Binding>,
) -> Result<(), NoMemory>
    ensures { OnOk result (found.new.items ≡ found.old.items ++ map spec.as_param bindings.items) }
{
    for binding in bindings {
        found.push(as_param(alloc, binding)?)?;
    }
    Ok(())
}

fn put_param_by(
    alloc: Global,
    label: Label,
    children: &[Tree],
    found: &mut Vec<Binding>,
) -> Result<(), NoMemory>
    ensures { OnOk result (found.new.items ≡ found.old.items ++ spec.param_by label children.now) }
{
    match label {
        Label::Param => put_params(alloc, declared_by(alloc, children)?, found),
        _ => Ok(()),
    }
}

/// Appends the name that a member of a list of parameters declares.
fn put_param(alloc: Global, tree: &Tree, found: &mut Vec<Binding>) -> Result<(), NoMemory>
    ensures { OnOk result (found.new.items ≡ found.old.items ++ spec.param tree.now) }
{
    match tree {
        Tree::Leaf(_) => Ok(()),
        Tree::Branch(label, children) => { put_param_by(alloc, *label, children.as_slice(), found) }
    }
}

/// Returns the names that a list of parameters declares.
fn params_of(alloc: Global, members: &[Tree]) -> Result<Vec<Binding>, NoMemory>
    ensures { IfOk result (λ found. found.items ≡ spec.params_of members.now) }
{
    let mut found = Vec::new(alloc);
    for member in members {
        put_param(alloc, member, &mut found)?;
    }
    Ok(found)
}

/// Returns the parameters of a function, given its declarator.
fn function_bindings(alloc: Global, declarator: &Tree) -> Result<Vec<Binding>, NoMemory>
    ensures { IfOk result (λ found. found.items ≡ spec.function_bindings declarator.now) }
{
    match function_params(declarator) {
        Some(params) => params_of(alloc, kids(params)),
        None => Ok(Vec::new(alloc)),
    }
}

fn declaration_by(alloc: Global, label: Label, children: &[Tree]) -> Result<Vec<Binding>, NoMemory>
    ensures { IfOk result (λ found. found.items ≡ spec.declaration_by label children.now) }
{
    match label {
        Label::Decl => declared_by(alloc, children),
        _ => Ok(Vec::new(alloc)),
    }
}

/// Returns the names that a tree declares if it is a declaration.
fn declaration(alloc: Global, tree: &Tree) -> Result<Vec<Binding>, NoMemory>
    ensures { IfOk result (λ found. found.items ≡ spec.declaration tree.now) }
{
    match tree {
        Tree::Leaf(_) => Ok(Vec::new(alloc)),
        Tree::Branch(label, children) => declaration_by(alloc, *label, children.as_slice()),
    }
}

/// Returns the names that a child of a branch with this label declares for the children that follow it.
pub(crate) fn declared_for_rest(
    alloc: Global,
    label: Label,
    child: &Tree,
) -> Result<Vec<Binding>, NoMemory>
    ensures { IfOk result (λ found. found.items ≡ spec.declared_for_rest label child.now) }
{
    match label {
        Label::Block | Label::ForDecl => declaration(alloc, child),
        Label::Params => {
            let mut found = Vec::new(alloc);
            put_param(alloc, child, &mut found)?;
            Ok(found)
        }
        Label::FunDef => function_bindings(alloc, child),
        _ => Ok(Vec::new(alloc)),
    }
}

fn item_by(alloc: Global, label: Label, children: &[Tree]) -> Result<Vec<Binding>, NoMemory>
    ensures { IfOk result (λ found. found.items ≡ spec.item_by label children.now) }
{
    match label {
        Label::Decl | Label::FunDef => declared_by(alloc, children),
        _ => Ok(Vec::new(alloc)),
    }
}

/// Returns the names that an item declares for the items that follow it.
pub(crate) fn item_names(alloc: Global, item: &Tree) -> Result<Vec<Binding>, NoMemory>
    ensures { IfOk result (λ found. found.items ≡ spec.item_names item.now) }
{
    match item {
        Tree::Leaf(_) => Ok(Vec::new(alloc)),
        Tree::Branch(label, children) => item_by(alloc, *label, children.as_slice()),
    }
}

fn own_by(alloc: Global, label: Label, children: &[Tree]) -> Result<Vec<Binding>, NoMemory>
    ensures { IfOk result (λ found. found.items ≡ spec.own_by label children.now) }
{
    match label {
        Label::FunDef => declared_by(alloc, children),
        _ => Ok(Vec::new(alloc)),
    }
}

/// Returns the name of a function, which is declared in the function itself.
pub(crate) fn own_name(alloc: Global, item: &Tree) -> Result<Vec<Binding>, NoMemory>
    ensures { IfOk result (λ found. found.items ≡ spec.own_name item.now) }
{
    match item {
        Tree::Leaf(_) => Ok(Vec::new(alloc)),
        Tree::Branch(label, children) => own_by(alloc, *label, children.as_slice()),
    }
}
