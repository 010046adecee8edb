// One declaration.
ghost use Rattle.std.specs.Prelude.{◌≡◌, ◌≤◌, length, IsTrue, IfOk};
ghost use Rattle.smpl_meta.specs.Declarations as spec;

use crate::form::{is_kind_word, kind_items};
use crate::item::Item;
use crate::parts::before_sign;
use crate::typed::{TypeContext, name_items, typed_items};
use c_terms::NoMemory;
use smpl_lexer::{PatchToken, is_word};
use smpl_patch::NameWanted;
use sqlite_items::Items;
use std::alloc::Global;

/// Returns the items of a declaration that doesn't begin with `local idexpression`, without its `;`. One that doesn't begin
/// with the word for a kind is typed.
fn plain_items(
    alloc: Global,
    context: &TypeContext<'_>,
    tokens: &[PatchToken],
) -> Result<Option<Items<Item>>, NoMemory>
    ensures { IfOk result (λ o. spec.AreItems context.now.types.now tokens.now o) }
{
    match tokens {
        [] => Ok(None),
        [t, ..] => {
            if is_kind_word(t) {
                kind_items(alloc, tokens)
            } else if is_word(t, b"idexpression") {
                name_items(alloc, context, NameWanted::Name, &tokens[1..])
            } else {
                typed_items(alloc, context, NameWanted::Any, tokens)
            }
        }
    }
}

/// Whether the tokens begin with `local idexpression`.
fn is_local(tokens: &[PatchToken]) -> bool
    ensures value { result ≡ spec.is_local tokens.now }
    ensures long { IsTrue result → 2 ≤ length tokens.now }
{
    match tokens {
        [local, names, ..] => is_word(local, b"local") && is_word(names, b"idexpression"),
        _ => false,
    }
}

/// Returns the items of a declaration that is given without its `;`.
fn front_items(
    alloc: Global,
    context: &TypeContext<'_>,
    tokens: &[PatchToken],
) -> Result<Option<Items<Item>>, NoMemory>
    ensures { IfOk result (λ o. spec.AreFrontItems context.now.types.now tokens.now o) }
{
    if is_local(tokens) {
        name_items(alloc, context, NameWanted::Local, &tokens[2..])
    } else {
        plain_items(alloc, context, tokens)
    }
}

/// Returns the items of a declaration, which ends in `;`, or `None` if it is malformed.
pub fn declared(
    alloc: Global,
    context: &TypeContext<'_>,
    part: &[PatchToken],
) -> Result<Option<Items<Item>>, NoMemory>
    ensures { IfOk result (λ o. spec.IsDeclared context.now.types.now part.now o) }
{
    match before_sign(b";", part) {
        None => Ok(None),
        Some(front) => front_items(alloc, context, front),
    }
}
