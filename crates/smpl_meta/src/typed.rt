// Typed declarations: specifiers, and declarators with a name.
ghost use Rattle.std.specs.Prelude.{◌≡◌, ◌≤◌, ◌<◌, ◌+◌, ◌^◌, length, IsTrue, IfOk, slice_get, option_and_then};
ghost use Rattle.std.specs.List.{list_any};
ghost use Rattle.c_terms.specs.Names.{listed_names};
ghost use Rattle.c_rows.specs.Trees.{stands_alone};
ghost use Rattle.smpl_meta.specs.Typed as spec;

use crate::form::{count_stars, expression_item};
use crate::item::{DeclKind, Item};
use crate::names::{is_keyword, is_keyword_of, is_wordish, plain_of};
use crate::type_names::TypeNames;
use c_expr::{ParseFault, parse_kind};
use c_rows::Kind;
use c_terms::{MetaKind, Names, NoMemory, Token, Tree};
use c_types::Ty;
use c_typing::{declarator_name, declared};
use smpl_lexer::{PatchToken, is_name, is_sign};
use smpl_patch::{NameWanted, TypeWanted, VarKind, Wanted};
use sqlite_items::Items;
use std::alloc::Global;

/// What a declaration is read with: the types that are known by their names, and the rule's `type` metavariables so far.
#[derive(Clone, Copy)]
pub struct TypeContext<'t> {
    pub listed: &'t Names,
    pub types: &'t TypeNames,
    pub ghost known: { listed.now ≡ listed_names },
}

/// Whether a tag follows the word.
fn is_tag_word(t: &PatchToken) -> bool
    ensures { result ≡ spec.is_tag_word t.now }
{
    is_keyword_of(t, b"struct") || is_keyword_of(t, b"union") || is_keyword_of(t, b"enum")
}

/// Whether the word qualifies a type that another word names.
fn is_qualifier(t: &PatchToken) -> bool
    ensures { result ≡ spec.is_qualifier t.now }
{
    is_keyword_of(t, b"const") || is_keyword_of(t, b"volatile") || is_keyword_of(t, b"restrict")
}

/// Whether specifiers with this word are not those of a typed declaration.
fn is_refused(t: &PatchToken) -> bool
    ensures { result ≡ spec.is_refused t.now }
{
    is_keyword_of(t, b"typedef")
        || is_keyword_of(t, b"extern")
        || is_keyword_of(t, b"static")
        || is_keyword_of(t, b"auto")
        || is_keyword_of(t, b"register")
        || is_keyword_of(t, b"_Thread_local")
        || is_keyword_of(t, b"inline")
        || is_keyword_of(t, b"_Noreturn")
}

/// Whether the token can be the next of specifiers: a word, a tag after its word, or a name if no other word names a type.
fn can_follow(named: bool, tag: bool, t: &PatchToken) -> bool
    ensures { result ≡ spec.can_follow named tag t.now }
{
    is_keyword(t) || (is_name(t) && (tag || !named))
}

/// Whether a word up to this token names a type.
fn named_after(named: bool, t: &PatchToken) -> bool
    ensures { result ≡ spec.named_after named t.now }
{
    named || !is_qualifier(t)
}

/// Returns the number of tokens in front that can be specifiers.
fn specs_length(tokens: &[PatchToken]) -> usize
    ensures value { result ≡ spec.specs_length tokens.now }
    ensures within { result ≤ length tokens.now }
{
    let mut named = false;
    let mut tag = false;
    for i in 0..tokens.len() {
        let t = &tokens[i];
        if !can_follow(named, tag, t) {
            return i;
        }
        named = named_after(named, t);
        tag = is_tag_word(t);
    }
    tokens.len()
}

fn depth_after(depth: usize, t: &PatchToken) -> usize
    requires { depth + 1 < 2 ^ 64 }
    ensures value { result ≡ spec.depth_after depth t.now }
    ensures one_more { result ≤ depth + 1 }
{
    if is_sign(t, b"(") || is_sign(t, b"[") || is_sign(t, b"{") {
        depth + 1
    } else if is_sign(t, b")") || is_sign(t, b"]") || is_sign(t, b"}") {
        depth.saturating_sub(1)
    } else {
        depth
    }
}

/// Returns the number of tokens before the first comma outside brackets.
fn declarator_length(tokens: &[PatchToken]) -> usize
    ensures value { result ≡ spec.declarator_length 0 tokens.now }
    ensures within { result ≤ length tokens.now }
{
    let mut depth: usize = 0;
    for i in 0..tokens.len() {
        let t = &tokens[i];
        if depth == 0 && is_sign(t, b",") {
            return i;
        }
        depth = depth_after(depth, t);
    }
    tokens.len()
}

/// Returns the tokens as those of a file, with their numbers as ids.
fn tokens_of(alloc: Global, tokens: &[PatchToken]) -> Result<Vec<Token>, NoMemory>
    ensures { IfOk result (λ out. out.items ≡ spec.tokens_of 0 tokens.now) }
{
    let mut out = Vec::with_capacity(alloc, tokens.len())?;
    for i in 0..tokens.len() {
        let token = &tokens[i].token;
        out.push(Token {
            kind: token.kind,
            text: token.text.copy(alloc)?,
            id: i as u64,
        })?;
    }
    Ok(out)
}

/// Returns the one tree of the kind that spells the tokens, if there is one.
fn read_tree(
    alloc: Global,
    kind: Kind,
    names: &Names,
    tokens: &[Token],
) -> Result<Option<Tree>, NoMemory>
    requires alone { IsTrue (stands_alone kind) }
    requires listed { names.now ≡ listed_names }
    ensures { IfOk result (λ tree. spec.IsRead kind tokens.now tree) }
{
    match parse_kind(alloc, kind, tokens, names, 0, tokens.len()) {
        Ok(tree) => Ok(Some(tree)),
        Err(ParseFault::NoTree) => Ok(None),
        Err(ParseFault::TooDeep) => Ok(None),
        Err(ParseFault::NoMemory) => Err(NoMemory),
    }
}

/// Returns the tree, unless specifiers in it name one of these types.
fn unless_named(types: &TypeNames, tree: Option<Tree>) -> Option<Tree>
    ensures { result ≡ option_and_then (spec.unless_named types.now) tree }
{
    match tree {
        None => None,
        Some(tree) => {
            if types.is_named_in(&tree) {
                None
            } else {
                Some(tree)
            }
        }
    }
}

/// Returns the tree of the kind that the tokens spell, if specifiers in it name none of the rule's types.
fn read_plain(
    alloc: Global,
    context: &TypeContext<'_>,
    kind: Kind,
    tokens: &[PatchToken],
) -> Result<Option<Tree>, NoMemory>
    requires { IsTrue (stands_alone kind) }
    ensures { IfOk result (λ tree. spec.IsPlain context.now.types.now kind tokens.now tree) }
{
    let copies = tokens_of(alloc, tokens)?;
    let tree = read_tree(alloc, kind, context.listed, copies.as_slice())?;
    Ok(unless_named(context.types, tree))
}

fn any_refused(tokens: &[PatchToken]) -> bool
    ensures { result ≡ list_any spec.is_refused tokens.now }
{
    tokens.iter().any(|t| is_refused(t))
}

/// Returns the specifiers, if they can be those of a typed declaration.
fn specs_of(
    alloc: Global,
    context: &TypeContext<'_>,
    tokens: &[PatchToken],
) -> Result<Option<Tree>, NoMemory>
    ensures { IfOk result (λ specs. spec.AreSpecs context.now.types.now tokens.now specs) }
{
    if any_refused(tokens) {
        Ok(None)
    } else {
        read_plain(alloc, context, Kind::Specs, tokens)
    }
}

fn is_function(ty: &Ty) -> bool
    ensures { result ≡ spec.is_function ty.now }
{
    matches!(ty, Ty::Fun(_))
}

/// Returns the type that a declarator gives its name, if an expression can have it.
fn type_of(alloc: Global, specs: &Tree, declarator: &Tree) -> Result<Option<Ty>, NoMemory>
    ensures { IfOk result (λ ty. ty ≡ spec.type_of specs.now declarator.now) }
{
    match declared(alloc, specs, Some(declarator))? {
        None => Ok(None),
        Some(ty) => {
            if is_function(&ty) {
                Ok(None)
            } else {
                Ok(Some(ty))
            }
        }
    }
}

/// Returns the item of a name and its type.
fn typed_item(
    alloc: Global,
    name: NameWanted,
    tokens: &[PatchToken],
    at: usize,
    ty: Ty,
) -> Result<Option<Item>, NoMemory>
    ensures { IfOk result (λ o. o ≡ spec.typed_item name (slice_get tokens.now at) ty) }
{
    let Some(t) = tokens.get(at) else {
        return Ok(None);
    };
    match plain_of(alloc, t)? {
        None => Ok(None),
        Some(named) => Ok(Some(Item {
            kind: DeclKind::Var(VarKind::Meta(MetaKind::Expr)),
            named,
            nots: Items::new(alloc),
            wanted: Wanted {
                name,
                ty: TypeWanted::Is(ty),
            },
        })),
    }
}

/// Returns the item of a declarator after these specifiers.
fn item_of(
    alloc: Global,
    name: NameWanted,
    specs: &Tree,
    tokens: &[PatchToken],
    declarator: &Tree,
) -> Result<Option<Item>, NoMemory>
    ensures { IfOk result (λ o. o ≡ spec.declarator_item name specs.now tokens.now declarator.now) }
{
    match declarator_name(declarator) {
        None => Ok(None),
        Some(token) => match type_of(alloc, specs, declarator)? {
            None => Ok(None),
            Some(ty) => typed_item(alloc, name, tokens, token.id as usize, ty),
        },
    }
}

/// Reads one declarator after these specifiers.
fn declarator_item(
    alloc: Global,
    context: &TypeContext<'_>,
    name: NameWanted,
    specs: &Tree,
    tokens: &[PatchToken],
) -> Result<Option<Item>, NoMemory>
    ensures { IfOk result (λ o. spec.IsDeclarator context.now.types.now name specs.now tokens.now o) }
{
    let tree = read_plain(alloc, context, Kind::Declarator, tokens)?;
    match tree {
        None => Ok(None),
        Some(declarator) => item_of(alloc, name, specs, tokens, &declarator),
    }
}

/// Reads declarators that are separated by commas.
fn declarator_items(
    alloc: Global,
    context: &TypeContext<'_>,
    name: NameWanted,
    specs: &Tree,
    tokens: &[PatchToken],
) -> Result<Option<Items<Item>>, NoMemory>
    ensures { IfOk result (λ o. spec.AreDeclarators context.now.types.now name specs.now tokens.now o) }
{
    let mut items = Items::new(alloc);
    let mut start = 0;
    loop {
        let rest = &tokens[start..];
        let n = declarator_length(rest);
        match declarator_item(alloc, context, name, specs, &rest[..n])? {
            None => return Ok(None),
            Some(item) => items.push(item)?,
        }
        if n == rest.len() {
            return Ok(Some(items));
        }
        start += n + 1;
    }
}

/// Returns the items of a typed declaration that is given without its `;`, or `None` if it is malformed.
pub fn typed_items(
    alloc: Global,
    context: &TypeContext<'_>,
    name: NameWanted,
    tokens: &[PatchToken],
) -> Result<Option<Items<Item>>, NoMemory>
    ensures { IfOk result (λ o. spec.IsTyped context.now.types.now name tokens.now o) }
{
    let n = specs_length(tokens);
    let specs = specs_of(alloc, context, &tokens[..n])?;
    match specs {
        None => Ok(None),
        Some(specs) => declarator_items(alloc, context, name, &specs, &tokens[n..]),
    }
}

/// Whether the tokens are a name or `r.x`.
fn is_name_alone(tokens: &[PatchToken]) -> bool
    ensures { result ≡ spec.is_name_alone tokens.now }
{
    match tokens {
        [x] => is_wordish(x),
        [_, dot, _] => is_sign(dot, b"."),
        _ => false,
    }
}

/// Whether the tokens are any number of `*`, then a name or `r.x`.
fn is_untyped(tokens: &[PatchToken]) -> bool
    ensures { result ≡ spec.is_untyped tokens.now }
{
    let n = count_stars(tokens);
    is_name_alone(&tokens[n..])
}

/// Returns the item with these names wanted.
fn with_name(item: Item, name: NameWanted) -> Item
    ensures { result ≡ spec.with_name name item }
{
    let Item {
        kind,
        named,
        nots,
        wanted,
    } = item;
    let Wanted { name: _, ty } = wanted;
    Item {
        kind,
        named,
        nots,
        wanted: Wanted { name, ty },
    }
}

/// Reads an item of an `expression` declaration that takes only these names.
fn untyped_item(
    alloc: Global,
    name: NameWanted,
    tokens: &[PatchToken],
) -> Result<Option<Item>, NoMemory>
    ensures { IfOk result (λ o. o ≡ spec.untyped_item name tokens.now) }
{
    match expression_item(alloc, tokens)? {
        None => Ok(None),
        Some(item) => Ok(Some(with_name(item, name))),
    }
}

/// Reads names that are separated by commas, as those of an `expression` declaration that takes only these names.
fn untyped_items(
    alloc: Global,
    name: NameWanted,
    tokens: &[PatchToken],
) -> Result<Option<Items<Item>>, NoMemory>
    ensures { IfOk result (λ o. o ≡ spec.untyped_items name tokens.now) }
{
    let mut items = Items::new(alloc);
    let mut start = 0;
    loop {
        let rest = &tokens[start..];
        let n = declarator_length(rest);
        match untyped_item(alloc, name, &rest[..n])? {
            None => return Ok(None),
            Some(item) => items.push(item)?,
        }
        if n == rest.len() {
            return Ok(Some(items));
        }
        start += n + 1;
    }
}

/// Returns the items of a declaration of names, which follow `idexpression`, with or without a type.
pub fn name_items(
    alloc: Global,
    context: &TypeContext<'_>,
    name: NameWanted,
    tokens: &[PatchToken],
) -> Result<Option<Items<Item>>, NoMemory>
    ensures { IfOk result (λ o. spec.AreNames context.now.types.now name tokens.now o) }
{
    let n = declarator_length(tokens);
    if is_untyped(&tokens[..n]) {
        untyped_items(alloc, name, tokens)
    } else {
        typed_items(alloc, context, name, tokens)
    }
}
