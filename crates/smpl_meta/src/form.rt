// The form of declarations.
ghost use Rattle.std.specs.Prelude.{◌≡◌, ◌≤◌, length, IfOk, option_map, option_and_then};
ghost use Rattle.smpl_meta.specs.Forms as spec;

use crate::item::{DeclKind, Item, Named};
use crate::lists::{PartReader, parts_between};
use crate::names::{is_wordish, named_of, plain_of};
use crate::nots::nots_of;
use c_terms::{MetaKind, NoMemory};
use smpl_lexer::{PatchToken, is_sign, is_word};
use smpl_patch::{NameWanted, TypeWanted, VarKind, Wanted};
use sqlite_items::Items;
use std::alloc::Global;

/// Returns the item of a name that must differ from what the tokens after `!=` name, or `None` if they are malformed.
fn excepted_of(
    alloc: Global,
    kind: DeclKind,
    tokens: &[PatchToken],
    named: Named,
) -> Result<Option<Item>, NoMemory>
    ensures { IfOk result (λ o. o ≡ spec.excepted_of kind tokens.now named) }
{
    match kind {
        DeclKind::Symbol => Ok(None),
        DeclKind::Var(var) => match nots_of(alloc, var, tokens)? {
            None => Ok(None),
            Some(nots) => Ok(Some(Item {
                kind,
                named,
                nots,
                wanted: Wanted::anything(),
            })),
        },
    }
}

/// Reads `x != ..`.
fn except(
    alloc: Global,
    kind: DeclKind,
    x: &PatchToken,
    tokens: &[PatchToken],
) -> Result<Option<Item>, NoMemory>
    ensures { IfOk result
        (λ o. o ≡ option_and_then (spec.excepted_of kind tokens.now) (spec.plain_of x.now)) }
{
    match plain_of(alloc, x)? {
        None => Ok(None),
        Some(named) => excepted_of(alloc, kind, tokens, named),
    }
}

/// Reads `x` or `r.x`.
fn bare(alloc: Global, kind: DeclKind, tokens: &[PatchToken]) -> Result<Option<Item>, NoMemory>
    ensures { IfOk result (λ o. o ≡ option_map (spec.bare_item kind) (spec.named_of tokens.now)) }
{
    match named_of(alloc, tokens)? {
        None => Ok(None),
        Some(named) => Ok(Some(Item {
            kind,
            named,
            nots: Items::new(alloc),
            wanted: Wanted::anything(),
        })),
    }
}

/// The number of `*` in front.
pub fn count_stars(tokens: &[PatchToken]) -> usize
    ensures value { result ≡ spec.count_stars tokens.now }
    ensures within { result ≤ length tokens.now }
{
    for i in 0..tokens.len() {
        if !is_sign(&tokens[i], b"*") {
            return i;
        }
    }
    tokens.len()
}

/// Reads `x` after that many `*`. More than 2^32 - 1 of them are refused as if out of memory.
fn pointer(alloc: Global, stars: usize, tokens: &[PatchToken]) -> Result<Option<Item>, NoMemory>
    ensures { IfOk result (λ o. o ≡ spec.pointer_item stars tokens.now) }
{
    if stars > u32::MAX as usize {
        return Err(NoMemory);
    }
    match tokens {
        [x] => match plain_of(alloc, x)? {
            None => Ok(None),
            Some(named) => Ok(Some(Item {
                kind: DeclKind::Var(VarKind::Meta(MetaKind::Expr)),
                named,
                nots: Items::new(alloc),
                wanted: Wanted {
                    name: NameWanted::Any,
                    ty: TypeWanted::Pointer(stars as u32),
                },
            })),
        },
        _ => Ok(None),
    }
}

/// Reads an item of an `expression` declaration.
pub fn expression_item(alloc: Global, tokens: &[PatchToken]) -> Result<Option<Item>, NoMemory>
    ensures { IfOk result (λ o. o ≡ spec.expression_item tokens.now) }
{
    let stars = count_stars(tokens);
    if stars == 0 {
        return plain_item(alloc, DeclKind::Var(VarKind::Meta(MetaKind::Expr)), tokens);
    }
    pointer(alloc, stars, &tokens[stars..])
}

fn item_of(alloc: Global, kind: DeclKind, tokens: &[PatchToken]) -> Result<Option<Item>, NoMemory>
    ensures { IfOk result (λ o. o ≡ spec.item_of kind tokens.now) }
{
    match kind {
        DeclKind::Var(VarKind::Meta(MetaKind::Expr)) => expression_item(alloc, tokens),
        _ => plain_item(alloc, kind, tokens),
    }
}

/// Reads an item without a `*` in front.
fn plain_item(
    alloc: Global,
    kind: DeclKind,
    tokens: &[PatchToken],
) -> Result<Option<Item>, NoMemory>
    ensures { IfOk result (λ o. o ≡ spec.plain_item kind tokens.now) }
{
    match tokens {
        [x, differs, rest @ ..] => {
            if is_sign(differs, b"!=") {
                except(alloc, kind, x, rest)
            } else {
                bare(alloc, kind, tokens)
            }
        }
        _ => bare(alloc, kind, tokens),
    }
}

/// Reads one item of a declaration of this kind.
#[derive(Drop)]
struct ItemReader {
    kind: DeclKind,
}

impl PartReader for ItemReader {
    type Part = Item;

    ghost spelled = { λ r. spec.item_of r.kind };

    fn read(&self, alloc: Global, tokens: &[PatchToken]) -> Result<Option<Item>, NoMemory> {
        item_of(alloc, self.kind, tokens)
    }
}

/// Reads items that are separated by commas.
fn items_in(
    alloc: Global,
    kind: DeclKind,
    tokens: &[PatchToken],
) -> Result<Option<Items<Item>>, NoMemory>
    ensures { IfOk result (λ o. o ≡ spec.items_in kind tokens.now) }
{
    parts_between(alloc, &ItemReader { kind }, tokens)
}

/// Whether `list` belongs to the kind. It does if a name follows.
fn is_listed(tokens: &[PatchToken]) -> bool
    ensures { result ≡ spec.is_listed tokens.now }
{
    match tokens {
        [l, x, ..] => is_word(l, b"list") && is_wordish(x),
        _ => false,
    }
}

/// Returns the kind that one word names.
fn kind_of(t: &PatchToken) -> Option<DeclKind>
    ensures { result ≡ spec.kind_of t.now }
{
    if is_word(t, b"expression") {
        Some(DeclKind::Var(VarKind::Meta(MetaKind::Expr)))
    } else if is_word(t, b"identifier") {
        Some(DeclKind::Var(VarKind::Meta(MetaKind::Ident)))
    } else if is_word(t, b"constant") {
        Some(DeclKind::Var(VarKind::Meta(MetaKind::Constant)))
    } else if is_word(t, b"type") {
        Some(DeclKind::Var(VarKind::Meta(MetaKind::Typ)))
    } else if is_word(t, b"statement") {
        Some(DeclKind::Var(VarKind::Meta(MetaKind::Stmt)))
    } else if is_word(t, b"position") {
        Some(DeclKind::Var(VarKind::Position))
    } else if is_word(t, b"symbol") {
        Some(DeclKind::Symbol)
    } else {
        None
    }
}

/// Returns the kind that a word and `list` name together.
fn list_kind_of(t: &PatchToken) -> Option<DeclKind>
    ensures { result ≡ spec.list_kind_of t.now }
{
    if is_word(t, b"expression") {
        Some(DeclKind::Var(VarKind::Meta(MetaKind::ExprList)))
    } else if is_word(t, b"parameter") {
        Some(DeclKind::Var(VarKind::Meta(MetaKind::Params)))
    } else {
        None
    }
}

fn items_by(
    alloc: Global,
    kind: Option<DeclKind>,
    tokens: &[PatchToken],
) -> Result<Option<Items<Item>>, NoMemory>
    ensures { IfOk result (λ o. o ≡ spec.items_by kind tokens.now) }
{
    match kind {
        None => Ok(None),
        Some(kind) => items_in(alloc, kind, tokens),
    }
}

/// Whether the token is a word that begins the declarations of a kind.
pub fn is_kind_word(t: &PatchToken) -> bool
    ensures { result ≡ spec.is_kind_word t.now }
{
    kind_of(t).is_some() || list_kind_of(t).is_some()
}

/// Returns the items of a declaration that is given without its `;` and begins with the word for a kind.
pub fn kind_items(alloc: Global, tokens: &[PatchToken]) -> Result<Option<Items<Item>>, NoMemory>
    ensures { IfOk result (λ o. o ≡ spec.kind_items tokens.now) }
{
    match tokens {
        [] => Ok(None),
        [t, rest @ ..] => {
            if is_listed(rest) {
                items_by(alloc, list_kind_of(t), &rest[1..])
            } else {
                items_by(alloc, kind_of(t), rest)
            }
        }
    }
}
