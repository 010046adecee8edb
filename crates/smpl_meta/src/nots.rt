// What an item must differ from: `!= y`, `!= {y, z}`.
ghost use Rattle.std.specs.Prelude.{◌≡◌, IfOk};
ghost use Rattle.smpl_meta.specs.Forms as spec;

use crate::item::Named;
use crate::lists::{PartReader, parts_between};
use crate::names::{member_of, plain_of};
use crate::parts::before_sign;
use c_terms::{MetaKind, NoMemory};
use smpl_lexer::{PatchToken, is_sign};
use smpl_patch::VarKind;
use sqlite_items::Items;
use std::alloc::Global;

/// Reads a name that an identifier must differ from.
fn name_not(alloc: Global, tokens: &[PatchToken]) -> Result<Option<Named>, NoMemory>
    ensures { IfOk result (λ o. o ≡ spec.name_not tokens.now) }
{
    match tokens {
        [x] => plain_of(alloc, x),
        _ => Ok(None),
    }
}

/// Reads a position of another rule that a position must differ from.
fn place_not(alloc: Global, tokens: &[PatchToken]) -> Result<Option<Named>, NoMemory>
    ensures { IfOk result (λ o. o ≡ spec.place_not tokens.now) }
{
    match tokens {
        [r, dot, x] => member_of(alloc, r, dot, x),
        _ => Ok(None),
    }
}

fn not_of(alloc: Global, kind: VarKind, tokens: &[PatchToken]) -> Result<Option<Named>, NoMemory>
    ensures { IfOk result (λ o. o ≡ spec.not_of kind tokens.now) }
{
    match kind {
        VarKind::Meta(MetaKind::Ident) => name_not(alloc, tokens),
        VarKind::Position => place_not(alloc, tokens),
        _ => Ok(None),
    }
}

/// Reads one name that an item of this kind must differ from.
#[derive(Drop)]
struct NotReader {
    kind: VarKind,
}

impl PartReader for NotReader {
    type Part = Named;

    ghost spelled = { λ r. spec.not_of r.kind };

    fn read(&self, alloc: Global, tokens: &[PatchToken]) -> Result<Option<Named>, NoMemory> {
        not_of(alloc, self.kind, tokens)
    }
}

/// Reads several names that are separated by commas.
fn nots_between(
    alloc: Global,
    kind: VarKind,
    tokens: &[PatchToken],
) -> Result<Option<Items<Named>>, NoMemory>
    ensures { IfOk result (λ o. o ≡ spec.nots_between kind tokens.now) }
{
    parts_between(alloc, &NotReader { kind }, tokens)
}

fn one_not(
    alloc: Global,
    kind: VarKind,
    tokens: &[PatchToken],
) -> Result<Option<Items<Named>>, NoMemory>
    ensures { IfOk result (λ o. o ≡ spec.one_not kind tokens.now) }
{
    match not_of(alloc, kind, tokens)? {
        None => Ok(None),
        Some(one) => {
            let mut nots = Items::new(alloc);
            nots.push(one)?;
            Ok(Some(nots))
        }
    }
}

fn braced(
    alloc: Global,
    kind: VarKind,
    tokens: &[PatchToken],
) -> Result<Option<Items<Named>>, NoMemory>
    ensures { IfOk result (λ o. o ≡ spec.braced kind tokens.now) }
{
    match before_sign(b"}", tokens) {
        None => Ok(None),
        Some(inside) => nots_between(alloc, kind, inside),
    }
}

/// Reads one name, or several in braces.
pub fn nots_of(
    alloc: Global,
    kind: VarKind,
    tokens: &[PatchToken],
) -> Result<Option<Items<Named>>, NoMemory>
    ensures { IfOk result (λ o. o ≡ spec.nots_of kind tokens.now) }
{
    match tokens {
        [] => Ok(None),
        [t, rest @ ..] => {
            if is_sign(t, b"{") {
                braced(alloc, kind, rest)
            } else {
                one_not(alloc, kind, tokens)
            }
        }
    }
}
