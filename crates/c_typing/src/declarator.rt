// Declarators: the name in one, and the type that it makes of the type that the specifiers name.
ghost use Rattle.std.specs.Prelude.{◌≡◌, IfOk};
ghost use Rattle.std.specs.Option.{option_copied};
ghost use Rattle.c_typing.specs.Declarators as spec;

use crate::base::{base_type, kids, name};
use c_terms::{Label, NoMemory, Text, Token, TokenKind, Tree};
use c_types::Ty;
use sqlite_items::Boxed;
use std::alloc::Global;

/// Returns the declarator inside another one, inside `d = 1`, or inside `d : 3`.
fn inner(label: Label, children: &[Tree]) -> Option<&Tree>
    ensures { option_copied result ≡ spec.inner label children.now }
{
    match label {
        Label::Pointer => children.last(),
        Label::DParen => children.get(1),
        Label::DArray | Label::DFun | Label::InitDecl | Label::Bits => children.get(0),
        _ => None,
    }
}

/// Returns the name that a declarator declares, if there is one. Recurses once per level.
#[tactic(auto, using(crate::proofs::FoldLemmas::name_leaf, crate::proofs::FoldLemmas::name_branch))]
pub(crate) fn declared_name(declarator: &Tree) -> Option<&Text>
    ensures { option_copied result ≡ spec.declared_name declarator.now }
{
    match declarator {
        Tree::Leaf(_) => name(declarator),
        Tree::Branch(label, children) => match inner(*label, children.as_slice()) {
            Some(within) => declared_name(within),
            None => None,
        },
    }
}

/// Returns the token of the name that a declarator declares, if there is one. Takes no memory, and recurses once per level.
#[tactic(auto, using(crate::proofs::FoldLemmas::token_branch))]
pub fn declarator_name(declarator: &Tree) -> Option<&Token>
    ensures value { option_copied result ≡ spec.declared_token declarator.now }
{
    match declarator {
        Tree::Leaf(token) => {
            if token.kind == TokenKind::Name {
                Some(token)
            } else {
                None
            }
        }
        Tree::Branch(label, children) => match inner(*label, children.as_slice()) {
            Some(within) => declarator_name(within),
            None => None,
        },
    }
}

/// Returns the type that one part of a declarator makes of a type.
fn derived(alloc: Global, label: Label, ty: Ty) -> Result<Ty, NoMemory>
    ensures { IfOk result (λ derived. derived ≡ spec.derived label ty) }
{
    match label {
        Label::Pointer => Ok(Ty::Ptr(Boxed::new(alloc, ty)?)),
        Label::DArray => Ok(Ty::Array(Boxed::new(alloc, ty)?)),
        Label::DFun => Ok(Ty::Fun(Boxed::new(alloc, ty)?)),
        _ => Ok(ty),
    }
}

/// Returns the type that a declarator makes of a type. Recurses once per level.
#[tactic(auto, using(crate::proofs::FoldLemmas::shaped_leaf, crate::proofs::FoldLemmas::shaped_branch))]
fn shaped(alloc: Global, declarator: &Tree, ty: Ty) -> Result<Ty, NoMemory>
    ensures { IfOk result (λ shaped. shaped ≡ spec.shaped declarator.now ty) }
{
    match declarator {
        Tree::Leaf(_) => Ok(ty),
        Tree::Branch(label, children) => {
            let outer = derived(alloc, *label, ty)?;
            match inner(*label, children.as_slice()) {
                Some(within) => shaped(alloc, within, outer),
                None => Ok(outer),
            }
        }
    }
}

/// Returns the type that a declaration with these specifiers gives to the name in the declarator, or to an object without
/// a name. There is none if the specifiers name a structure, union or enumeration without a tag, or are a metavariable.
/// Linear. Recurses once per level of the declarator.
pub fn declared(
    alloc: Global,
    specs: &Tree,
    declarator: Option<&Tree>,
) -> Result<Option<Ty>, NoMemory>
    ensures value { IfOk result (λ ty. ty ≡ spec.declared specs.now (option_copied declarator.entry)) }
{
    match base_type(alloc, specs)? {
        Some(base) => match declarator {
            Some(declarator) => Ok(Some(shaped(alloc, declarator, base)?)),
            None => Ok(Some(base)),
        },
        None => Ok(None),
    }
}

/// Returns the list of parameters next to the name in the declarator of a function: the innermost one. Recurses once per
/// level.
#[tactic(auto, using(crate::proofs::FoldLemmas::params_leaf, crate::proofs::FoldLemmas::params_branch))]
pub(crate) fn function_params(declarator: &Tree) -> Option<&Tree>
    ensures { option_copied result ≡ spec.function_params declarator.now }
{
    match declarator {
        Tree::Leaf(_) => None,
        Tree::Branch(label, children) => {
            let deeper = match inner(*label, children.as_slice()) {
                Some(within) => function_params(within),
                None => None,
            };
            match deeper {
                Some(params) => Some(params),
                None => own_params(*label, children.as_slice()),
            }
        }
    }
}

/// Returns the list of parameters that one part of a declarator has.
fn own_params(label: Label, children: &[Tree]) -> Option<&Tree>
    ensures { option_copied result ≡ spec.own_params label children.now }
{
    match label {
        Label::DFun => children.get(children.len().saturating_sub(2)),
        _ => None,
    }
}
