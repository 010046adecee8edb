// The names that an item declares as types.
ghost use Rattle.std.specs.Prelude.{◌≡◌, OnOk, codes};
ghost use Rattle.std.specs.List.{list_any};
ghost use Rattle.std.specs.Option.{option_copied};
ghost use Rattle.c_file.specs.Typedefs as spec;

use c_terms::{Label, Names, NoMemory, Text, Token, TokenKind, Tree};
use sqlite_items::at;
use std::alloc::Global;

fn name_of(token: &Token) -> Option<&Text>
    ensures { option_copied result ≡ spec.name_of token.now }
{
    match token.kind {
        TokenKind::Name => Some(&token.text),
        _ => None,
    }
}

/// Returns which child of a declarator with `n` children has the name, if one has.
fn core_place(label: Label, n: usize) -> Option<usize>
    ensures { result ≡ spec.core_place label n }
{
    match label {
        Label::Pointer => Some(n.saturating_sub(1)),
        Label::DParen => Some(1),
        Label::DArray | Label::DFun | Label::InitDecl => Some(0),
        _ => None,
    }
}

/// Returns the name that a declarator declares, if there is one.
fn core(tree: &Tree) -> Option<&Text>
    ensures { option_copied result ≡ spec.core tree.now }
{
    match tree {
        Tree::Leaf(token) => name_of(token),
        Tree::Branch(label, children) => {
            let Some(place) = core_place(*label, children.len()) else {
                return None;
            };
            match at(children.as_slice(), place) {
                Some(inner) => core(inner),
                None => None,
            }
        }
    }
}

fn is_typedef(tree: &Tree) -> bool
    ensures { result ≡ spec.is_typedef tree.now }
{
    match tree {
        Tree::Leaf(token) => token.text.as_bytes() == b"typedef".as_slice(),
        Tree::Branch(_, _) => false,
    }
}

fn any_typedef(words: &[Tree]) -> bool
    ensures { result ≡ list_any spec.is_typedef words.now }
{
    words.iter().any(|word| is_typedef(word))
}

/// Whether a tree is a Specs with the word `typedef`.
fn has_typedef(tree: &Tree) -> bool
    ensures { result ≡ spec.has_typedef tree.now }
{
    match tree {
        Tree::Branch(Label::Specs, words) => any_typedef(words.as_slice()),
        _ => false,
    }
}

fn add_core(alloc: Global, names: &mut Names, tree: &Tree) -> Result<(), NoMemory>
    ensures { OnOk result (names.new ≡ spec.with_core names.old tree.now) }
{
    match core(tree) {
        Some(name) => names.add(alloc, name.copy(alloc)?),
        None => Ok(()),
    }
}

fn add_cores(alloc: Global, names: &mut Names, trees: &[Tree]) -> Result<(), NoMemory>
    ensures { OnOk result (names.new ≡ spec.with_cores names.old trees.now) }
{
    for tree in trees {
        add_core(alloc, names, tree)?;
    }
    Ok(())
}

/// Adds the names that an item declares as types.
pub(crate) fn add_declared(alloc: Global, names: &mut Names, item: &Tree) -> Result<(), NoMemory>
    ensures { OnOk result (names.new ≡ spec.with_declared names.old item.now) }
{
    match item {
        Tree::Leaf(_) => Ok(()),
        Tree::Branch(_, children) => match children.as_slice().split_first() {
            Some((specs, declarators)) if has_typedef(specs) => add_cores(
                alloc,
                names,
                declarators,
            ),
            _ => Ok(()),
        },
    }
}
