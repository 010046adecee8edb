// The type that the specifiers of a declaration name.
ghost use Rattle.std.specs.Prelude.{◌≡◌, ◌<◌, ◌++◌, IfOk, OnOk, [], slice_index_or};
ghost use Rattle.std.specs.List.{list_any};
ghost use Rattle.std.specs.Option.{option_copied};
ghost use Rattle.c_typing.specs.Base as spec;

use c_terms::{Label, NoMemory, Text, TokenKind, Tree, same_text};
use c_types::{Ty, same_words};
use sqlite_items::Items;
use std::alloc::Global;

/// Returns the children of a branch. A leaf has none.
pub(crate) fn kids(tree: &Tree) -> &[Tree]
    ensures { result.now ≡ spec.kids tree.now }
{
    match tree {
        Tree::Leaf(_) => &[],
        Tree::Branch(_, children) => children.as_slice(),
    }
}

/// Returns the text of a token, and otherwise an empty text.
pub(crate) fn token_text(tree: &Tree) -> &[u8]
    ensures { result.now ≡ spec.token_text tree.now }
{
    match tree {
        Tree::Leaf(token) => token.text.as_bytes(),
        Tree::Branch(_, _) => &[],
    }
}

/// Whether the tree is a token with this text.
fn is_word(tree: &Tree, word: &[u8]) -> bool
    ensures { result ≡ spec.is_word word.now tree.now }
{
    match tree {
        Tree::Leaf(token) => same_text(word, token.text.as_bytes()),
        Tree::Branch(_, _) => false,
    }
}

/// Returns the text of child `i` if that is a token, and otherwise an empty text.
pub(crate) fn text_at(children: &[Tree], i: usize) -> &[u8]
    ensures { result.now ≡ spec.text_at children.now i }
{
    match children.get(i) {
        Some(child) => token_text(child),
        None => &[],
    }
}

/// Whether child `i` is a token with this text.
pub(crate) fn is_word_at(children: &[Tree], i: usize, word: &[u8]) -> bool
    ensures { result ≡ spec.is_word_at word.now children.now i }
{
    match children.get(i) {
        Some(child) => is_word(child, word),
        None => false,
    }
}

/// Returns the text of a tree that is a name.
pub(crate) fn name(tree: &Tree) -> Option<&Text>
    ensures { option_copied result ≡ spec.name tree.now }
{
    match tree {
        Tree::Leaf(token) if token.kind == TokenKind::Name => Some(&token.text),
        _ => None,
    }
}

/// Returns the text of child `i` if that is a name.
pub(crate) fn name_at(children: &[Tree], i: usize) -> Option<&Text>
    ensures { option_copied result ≡ spec.name_at children.now i }
{
    match children.get(i) {
        Some(child) => name(child),
        None => None,
    }
}

/// The number of words that name basic types.
const WORDS: usize = 11;

/// Returns a word that names a basic type, in the order of their bytes.
fn basic_word(i: usize) -> &'static [u8]
    requires { i < WORDS }
    ensures { result.now ≡ slice_index_or spec.basic_words i [] }
{
    match i {
        0 => b"_Bool",
        1 => b"_Complex",
        2 => b"char",
        3 => b"double",
        4 => b"float",
        5 => b"int",
        6 => b"long",
        7 => b"short",
        8 => b"signed",
        9 => b"unsigned",
        _ => b"void",
    }
}

/// Appends the word once for each child that is this keyword.
fn put_word(
    alloc: Global,
    word: &[u8],
    children: &[Tree],
    found: &mut Items<Text>,
) -> Result<(), NoMemory>
    ensures { OnOk result (found.new ≡ found.old ++ spec.times word.now children.now) }
{
    for child in children {
        if is_keyword(child, word) {
            found.push(Text::from_bytes(alloc, word)?)?;
        }
    }
    Ok(())
}

/// Whether the tree is this keyword.
fn is_keyword(tree: &Tree, word: &[u8]) -> bool
    ensures { result ≡ spec.is_keyword word.now tree.now }
{
    match tree {
        Tree::Leaf(token) => {
            token.kind == TokenKind::Keyword && same_text(word, token.text.as_bytes())
        }
        Tree::Branch(_, _) => false,
    }
}

/// Returns the words of the basic type, in the order of their bytes.
fn words_of(alloc: Global, children: &[Tree]) -> Result<Items<Text>, NoMemory>
    ensures { IfOk result (λ words. words ≡ spec.words_of children.now) }
{
    let mut words = Items::new(alloc);
    for i in 0..WORDS {
        put_word(alloc, basic_word(i), children, &mut words)?;
    }
    Ok(words)
}

/// Whether the word makes `int` and `signed` say nothing more.
fn is_size(word: &[u8]) -> bool
    ensures { result ≡ spec.is_size word.now }
{
    same_text(word, b"short") || (same_text(word, b"long") || same_text(word, b"unsigned"))
}

fn is_plain(word: &[u8]) -> bool
    ensures { result ≡ spec.is_plain word.now }
{
    same_text(word, b"int") || same_text(word, b"signed")
}

fn has_size(words: &[Text]) -> bool
    ensures { result ≡ list_any spec.is_size words.now }
{
    for word in words {
        if is_size(word.as_bytes()) {
            return true;
        }
    }
    false
}

fn is_all_plain(words: &[Text]) -> bool
    ensures { result ≡ spec.is_all_plain words.now }
{
    match words {
        [only] => same_text(only.as_bytes(), b"signed"),
        [first, second] => {
            same_text(first.as_bytes(), b"int") && same_text(second.as_bytes(), b"signed")
        }
        _ => false,
    }
}

fn without_plain(alloc: Global, words: &[Text]) -> Result<Items<Text>, NoMemory>
    ensures { IfOk result (λ kept. kept ≡ spec.without_plain words.now) }
{
    let mut kept = Items::new(alloc);
    for word in words {
        if !is_plain(word.as_bytes()) {
            kept.push(word.copy(alloc)?)?;
        }
    }
    Ok(kept)
}

/// Returns the same type in as few words as there are.
fn shortest(alloc: Global, words: Items<Text>) -> Result<Items<Text>, NoMemory>
    ensures { IfOk result (λ kept. kept ≡ spec.shortest words) }
{
    if has_size(words.as_slice()) {
        return without_plain(alloc, words.as_slice());
    }
    if is_all_plain(words.as_slice()) {
        return one_word(alloc, b"int");
    }
    Ok(words)
}

/// Returns a list of one word.
pub(crate) fn one_word(alloc: Global, word: &[u8]) -> Result<Items<Text>, NoMemory>
    ensures { IfOk result (λ words. words ≡ spec.one_word word.now) }
{
    let mut words = Items::new(alloc);
    words.push(Text::from_bytes(alloc, word)?)?;
    Ok(words)
}

/// Returns the type that a structure, union or enumeration with a tag is.
fn tagged(alloc: Global, label: Label, children: &[Tree]) -> Result<Option<Ty>, NoMemory>
    ensures { IfOk result (λ ty. ty ≡ spec.tagged label children.now) }
{
    let Some(tag) = name_at(children, 1) else {
        return Ok(None);
    };
    match label {
        Label::StructUse | Label::StructDef => {
            let is_union = is_word_at(children, 0, b"union");
            Ok(Some(Ty::Tag(is_union, tag.copy(alloc)?)))
        }
        Label::EnumUse | Label::EnumDef => Ok(Some(Ty::Enumer(tag.copy(alloc)?))),
        _ => Ok(None),
    }
}

/// Returns the type that one of the specifiers names, unless it is a word.
fn named(alloc: Global, part: &Tree) -> Result<Option<Ty>, NoMemory>
    ensures { IfOk result (λ ty. ty ≡ spec.named part.now) }
{
    match part {
        Tree::Leaf(token) => {
            if token.kind != TokenKind::Name {
                return Ok(None);
            }
            Ok(Some(Ty::Named(token.text.copy(alloc)?)))
        }
        Tree::Branch(label, children) => tagged(alloc, *label, children.as_slice()),
    }
}

fn first_named(alloc: Global, children: &[Tree]) -> Result<Option<Ty>, NoMemory>
    ensures { IfOk result (λ ty. ty ≡ spec.first_named children.now) }
{
    for child in children {
        if let Some(ty) = named(alloc, child)? {
            return Ok(Some(ty));
        }
    }
    Ok(None)
}

/// Returns the type that the specifiers name, if they name one.
pub(crate) fn base_type(alloc: Global, specs: &Tree) -> Result<Option<Ty>, NoMemory>
    ensures { IfOk result (λ ty. ty ≡ spec.base_type specs.now) }
{
    let children = kids(specs);
    let words = shortest(alloc, words_of(alloc, children)?)?;
    if words.is_empty() {
        return first_named(alloc, children);
    }
    Ok(Some(Ty::Basic(words)))
}

/// Whether one of the specifiers is `typedef`.
pub(crate) fn is_typedef(specs: &Tree) -> bool
    ensures { result ≡ spec.is_typedef specs.now }
{
    for child in kids(specs) {
        if is_keyword(child, b"typedef") {
            return true;
        }
    }
    false
}
