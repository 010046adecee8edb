// Types.
ghost use Rattle.std.specs.Prelude.{◌≡◌, IfOk, take};
ghost use Rattle.std.specs.Option.{option_copied};
ghost use Rattle.c_types.specs.Types as spec;

use c_terms::{NoMemory, Text, same_text};
use sqlite_items::{Boxed, Items};
use std::alloc::Global;

/// A type as a declaration gives it, without qualifiers and storage words.
#[derive(Drop)]
pub enum Ty {
    /// `unsigned long`: the words of a basic type, in the order of their bytes. `int` and `signed` are there only if
    /// no other word says more.
    Basic(Items<Text>),
    /// `foo_t`: a name
    Named(Text),
    /// `struct s`, or `union s` if the first is true
    Tag(bool, Text),
    /// `enum e`
    Enumer(Text),
    /// A pointer to a type
    Ptr(Boxed<Ty>),
    /// An array of a type
    Array(Boxed<Ty>),
    /// A function that returns a type
    Fun(Boxed<Ty>),
}

fn copy_words(alloc: Global, words: &[Text]) -> Result<Items<Text>, NoMemory>
    ensures { IfOk result (λ copies. copies ≡ words.now) }
{
    let mut copies = Items::new(alloc);
    for word in words {
        copies.push(word.copy(alloc)?)?;
    }
    Ok(copies)
}

impl Ty {
    /// Returns an equal type. Linear. Recurses once per level.
    pub fn copy(&self, alloc: Global) -> Result<Ty, NoMemory>
        ensures same { IfOk result (λ ty. ty ≡ self.now) }
    {
        match self {
            Ty::Basic(words) => Ok(Ty::Basic(copy_words(alloc, words.as_slice())?)),
            Ty::Named(name) => Ok(Ty::Named(name.copy(alloc)?)),
            Ty::Tag(is_union, tag) => Ok(Ty::Tag(*is_union, tag.copy(alloc)?)),
            Ty::Enumer(tag) => Ok(Ty::Enumer(tag.copy(alloc)?)),
            Ty::Ptr(inner) => Ok(Ty::Ptr(Boxed::new(alloc, inner.get().copy(alloc)?)?)),
            Ty::Array(inner) => Ok(Ty::Array(Boxed::new(alloc, inner.get().copy(alloc)?)?)),
            Ty::Fun(inner) => Ok(Ty::Fun(Boxed::new(alloc, inner.get().copy(alloc)?)?)),
        }
    }
}

/// Returns an equal type, if there is one.
pub fn copy_type(alloc: Global, ty: Option<&Ty>) -> Result<Option<Ty>, NoMemory>
    ensures { IfOk result (λ copy. copy ≡ option_copied ty.entry) }
{
    match ty {
        Some(ty) => Ok(Some(ty.copy(alloc)?)),
        None => Ok(None),
    }
}

pub fn same_words(a: &[Text], b: &[Text]) -> bool
    ensures { result ≡ spec.same_words a.now b.now }
{
    if a.len() != b.len() {
        return false;
    }
    for i in 0..a.len() {
        if !same_text(a[i].as_bytes(), b[i].as_bytes()) {
            return false;
        }
    }
    true
}

/// Whether the types are equal. Stops at the first difference, allocates nothing, and recurses once per level.
#[tactic(auto, using(crate::proofs::TypeLemmas::same_basic, crate::proofs::TypeLemmas::same_named, crate::proofs::TypeLemmas::same_tag, crate::proofs::TypeLemmas::same_enumer, crate::proofs::TypeLemmas::same_ptr, crate::proofs::TypeLemmas::same_array, crate::proofs::TypeLemmas::same_fun))]
pub fn same_type(a: &Ty, b: &Ty) -> bool
    ensures value { result ≡ spec.same_type a.now b.now }
{
    match a {
        Ty::Basic(x) => match b {
            Ty::Basic(y) => same_words(x.as_slice(), y.as_slice()),
            _ => false,
        },
        Ty::Named(x) => match b {
            Ty::Named(y) => same_text(x.as_bytes(), y.as_bytes()),
            _ => false,
        },
        Ty::Tag(is_union, x) => match b {
            Ty::Tag(other, y) => {
                is_same_flag(*is_union, *other) && same_text(x.as_bytes(), y.as_bytes())
            }
            _ => false,
        },
        Ty::Enumer(x) => match b {
            Ty::Enumer(y) => same_text(x.as_bytes(), y.as_bytes()),
            _ => false,
        },
        Ty::Ptr(x) => match b {
            Ty::Ptr(y) => same_type(x.get(), y.get()),
            _ => false,
        },
        Ty::Array(x) => match b {
            Ty::Array(y) => same_type(x.get(), y.get()),
            _ => false,
        },
        Ty::Fun(x) => match b {
            Ty::Fun(y) => same_type(x.get(), y.get()),
            _ => false,
        },
    }
}

fn is_same_flag(a: bool, b: bool) -> bool
    ensures { result ≡ spec.same_flag a b }
{
    if a { b } else { !b }
}

/// Returns what a pointer points to, or what an array is of. Takes no memory.
pub fn element(ty: &Ty) -> Option<&Ty>
    ensures value { option_copied result ≡ spec.element ty.now }
{
    match ty {
        Ty::Ptr(inner) => Some(inner.get()),
        Ty::Array(inner) => Some(inner.get()),
        _ => None,
    }
}

/// Returns what a pointer points to.
pub fn target(ty: &Ty) -> Option<&Ty>
    ensures { option_copied result ≡ spec.target ty.now }
{
    match ty {
        Ty::Ptr(inner) => Some(inner.get()),
        _ => None,
    }
}

/// Returns what a function returns.
pub fn returned(ty: &Ty) -> Option<&Ty>
    ensures { option_copied result ≡ spec.returned ty.now }
{
    match ty {
        Ty::Fun(inner) => Some(inner.get()),
        _ => None,
    }
}

/// Returns what a function, or one that a pointer points to, returns.
pub fn called(ty: &Ty) -> Option<&Ty>
    ensures { option_copied result ≡ spec.called ty.now }
{
    match ty {
        Ty::Fun(inner) => Some(inner.get()),
        Ty::Ptr(inner) => returned(inner.get()),
        _ => None,
    }
}

/// Returns the type that a parameter of this declared type has (6.7.6.3).
pub fn adjusted(alloc: Global, ty: Ty) -> Result<Ty, NoMemory>
    ensures { IfOk result (λ adjusted. adjusted ≡ spec.adjusted ty) }
{
    match ty {
        Ty::Array(inner) => Ok(Ty::Ptr(inner)),
        Ty::Fun(inner) => Ok(Ty::Ptr(Boxed::new(alloc, Ty::Fun(inner))?)),
        other => Ok(other),
    }
}
