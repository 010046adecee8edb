// The type of an expression, given the types of its parts.
ghost use Rattle.std.specs.Prelude.{◌≡◌, IfOk, [], ◌∷◌};
ghost use Rattle.std.specs.Option.{option_copied, option_and_then, option_flatten};
ghost use Rattle.c_types.specs.declared.ty.Ty.{out-Ty};
ghost use Rattle.c_types.specs.Types.{element, target, called};
ghost use Rattle.c_typing.specs.Expressions as spec;

use crate::base::{kids, one_word, text_at};
use crate::declarator::declared;
use crate::field::Fields;
use c_terms::{Label, NoMemory, Text, Tree, same_text};
use c_types::{Ty, called, copy_type, element, same_type, target};
use sqlite_items::Boxed;
use std::alloc::Global;

/// Returns the type, if it is known.
pub(crate) fn flat(found: Option<&Option<Ty>>) -> Option<&Ty>
    ensures { option_copied result ≡ option_flatten (option_copied found.entry) }
{
    match found {
        Some(ty) => ty.as_ref(),
        None => None,
    }
}

/// Returns the type of child `i`, if it has one.
pub(crate) fn type_at(types: &[Option<Ty>], i: usize) -> Option<&Ty>
    ensures { option_copied result ≡ spec.type_at types.now i }
{
    flat(types.get(i))
}

/// Returns what the type of child `i` points to, or is an array of.
fn element_at(types: &[Option<Ty>], i: usize) -> Option<&Ty>
    ensures { option_copied result ≡ option_and_then element (spec.type_at types.now i) }
{
    match type_at(types, i) {
        Some(ty) => element(ty),
        None => None,
    }
}

/// Returns what the type of child `i` points to.
fn target_at(types: &[Option<Ty>], i: usize) -> Option<&Ty>
    ensures { option_copied result ≡ option_and_then target (spec.type_at types.now i) }
{
    match type_at(types, i) {
        Some(ty) => target(ty),
        None => None,
    }
}

/// Returns what a function of the type of child `i` returns.
fn called_at(types: &[Option<Ty>], i: usize) -> Option<&Ty>
    ensures { option_copied result ≡ option_and_then called (spec.type_at types.now i) }
{
    match type_at(types, i) {
        Some(ty) => called(ty),
        None => None,
    }
}

/// Returns the type `int`.
fn int_type(alloc: Global) -> Result<Option<Ty>, NoMemory>
    ensures { IfOk result (λ ty. ty ≡ spec.int_type) }
{
    Ok(Some(Ty::Basic(one_word(alloc, b"int")?)))
}

/// Returns the type `size_t`.
fn size_type(alloc: Global) -> Result<Option<Ty>, NoMemory>
    ensures { IfOk result (λ ty. ty ≡ spec.size_type) }
{
    Ok(Some(Ty::Named(Text::from_bytes(alloc, b"size_t")?)))
}

/// Returns the type of a field of a structure or union of this type.
fn member_in<'f>(
    alloc: Global,
    fields: &'f Fields,
    of: &Ty,
    name: &[u8],
) -> Result<Option<&'f Ty>, NoMemory>
    ensures { IfOk result (λ found. option_copied found ≡ spec.member_in fields.now (out-Ty of.now) name.now) }
{
    match of {
        Ty::Tag(is_union, tag) => {
            let found = fields.find(alloc, *is_union, tag.as_bytes(), name)?;
            Ok(flat(found))
        }
        _ => Ok(None),
    }
}

/// Returns the type of a field of a structure or union of this type, if the type is known.
fn member_type<'f>(
    alloc: Global,
    fields: &'f Fields,
    of: Option<&Ty>,
    name: &[u8],
) -> Result<Option<&'f Ty>, NoMemory>
    ensures { IfOk result (λ found. option_copied found ≡ spec.member_type fields.now (option_copied of.entry) name.now) }
{
    match of {
        Some(ty) => member_in(alloc, fields, ty, name),
        None => Ok(None),
    }
}

/// Returns the type of both, if they have the same.
fn common<'t>(a: Option<&'t Ty>, b: Option<&Ty>) -> Option<&'t Ty>
    ensures { option_copied result ≡ spec.common (option_copied a.entry) (option_copied b.entry) }
{
    match a {
        None => None,
        Some(x) => match b {
            None => None,
            Some(y) => { if same_type(x, y) { Some(x) } else { None } }
        },
    }
}

/// Returns the type of an operation with one operand.
fn unary_type(alloc: Global, sign: &[u8], of: Option<&Ty>) -> Result<Option<Ty>, NoMemory>
    ensures { IfOk result (λ ty. ty ≡ spec.unary_type sign.now (option_copied of.entry)) }
{
    if same_text(sign, b"!") {
        return int_type(alloc);
    }
    match of {
        Some(ty) => {
            if same_text(sign, b"*") {
                return copy_type(alloc, element(ty));
            }
            if same_text(sign, b"&") {
                return Ok(Some(Ty::Ptr(Boxed::new(alloc, ty.copy(alloc)?)?)));
            }
            Ok(None)
        }
        None => Ok(None),
    }
}

/// Whether an operation with this sign answers yes or no.
fn is_test(sign: &[u8]) -> bool
    ensures { result ≡ spec.is_test sign.now }
{
    same_text(sign, b"&&")
        || same_text(sign, b"||")
        || same_text(sign, b"==")
        || same_text(sign, b"!=")
        || same_text(sign, b"<")
        || same_text(sign, b">")
        || same_text(sign, b"<=")
        || same_text(sign, b">=")
}

/// Returns the type of an operation with two operands.
fn binary_type(alloc: Global, sign: &[u8]) -> Result<Option<Ty>, NoMemory>
    ensures { IfOk result (λ ty. ty ≡ spec.binary_type sign.now) }
{
    if is_test(sign) {
        int_type(alloc)
    } else {
        Ok(None)
    }
}

/// Returns the type that a type name names.
fn type_named(alloc: Global, name: Option<&Tree>) -> Result<Option<Ty>, NoMemory>
    ensures { IfOk result (λ ty. ty ≡ spec.type_named (option_copied name.entry)) }
{
    match name {
        Some(name) => named_by(alloc, kids(name)),
        None => Ok(None),
    }
}

/// Returns the type that specifiers and perhaps a declarator name.
fn named_by(alloc: Global, parts: &[Tree]) -> Result<Option<Ty>, NoMemory>
    ensures { IfOk result (λ ty. ty ≡ spec.named_by parts.now) }
{
    match parts.get(0) {
        Some(specs) => declared(alloc, specs, parts.get(1)),
        None => Ok(None),
    }
}

/// Returns the type of an expression with this label, given the types of its children. Takes no more than one step and one
/// look-up beside what the type takes.
pub(crate) fn branch_type(
    alloc: Global,
    fields: &Fields,
    label: Label,
    children: &[Tree],
    types: &[Option<Ty>],
) -> Result<Option<Ty>, NoMemory>
    ensures { IfOk result (λ ty. ty ≡ spec.branch_type fields.now label children.now types.now) }
{
    match label {
        Label::PostOp | Label::Assign => copy_type(alloc, type_at(types, 0)),
        Label::Paren | Label::PreOp => copy_type(alloc, type_at(types, 1)),
        Label::Comma => copy_type(alloc, type_at(types, 2)),
        Label::Index => copy_type(alloc, element_at(types, 0)),
        Label::Call => copy_type(alloc, called_at(types, 0)),
        Label::Member => {
            let found = member_type(alloc, fields, type_at(types, 0), text_at(children, 2))?;
            copy_type(alloc, found)
        }
        Label::Arrow => {
            let of = target_at(types, 0);
            let found = member_type(alloc, fields, of, text_at(children, 2))?;
            copy_type(alloc, found)
        }
        Label::Cond => copy_type(alloc, common(type_at(types, 2), type_at(types, 4))),
        Label::Unary => unary_type(alloc, text_at(children, 0), type_at(types, 1)),
        Label::Binary => binary_type(alloc, text_at(children, 1)),
        Label::Cast | Label::Literal => type_named(alloc, children.get(1)),
        Label::SizeofExpr | Label::SizeofType => size_type(alloc),
        _ => Ok(None),
    }
}
