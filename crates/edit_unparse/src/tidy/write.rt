// The tidied text.
ghost use Rattle.std.specs.Prelude.{◌≡◌, ◌≤◌, ◌<◌, ◌^◌, ◌∷◌, [], length, IfOk, IsErrOf, OnOk, if◌then◌else◌};
ghost use Rattle.std.specs.List.{items_where_true};
ghost use Rattle.c_lexer.specs.Pieces.{most_bytes, text_of};
ghost use Rattle.c_lexer.specs.Lexes.{Cuts};
ghost use Rattle.c_lexer.specs.Ids.{ids_of};
ghost use Rattle.edit_unparse.specs.Words.{ReadsAgain};
ghost use Rattle.edit_unparse.specs.Written.{Overflows, Writes};
ghost use Rattle.edit_unparse.specs.Tidy.Text.{tidied_of};
ghost use Rattle.edit_unparse.specs.Tidy.Fair.{TidyFair};
ghost use Rattle.edit_unparse.specs.Tidy.Plans.{IsPlan};
ghost use Rattle.edit_unparse.specs.Tidy.Made.{frame_of, part_in, parts_in};

use crate::draft::{Draft, Edited};
use crate::fault::OutFault;
use crate::tidy::commas::staying;
use crate::tidy::layout::Layout;
use crate::tidy::old::old_piece;
use crate::tidy::parts::TextPart;
use crate::tidy::pieces::parts_of;
use crate::tidy::plan::Plan;
use c_lexer::{Lexed, PieceKind};
use edit_marks::EditList;
use std::alloc::Global;

/// Returns the tidied text that results from applying edits to a text, and the ids of its tokens. Added tokens have the ids
/// from `next` on. `plan` is that of the edits and of the layout.
///
/// The text consists of the pieces in order without the removed tokens, without the blanks within runs of them, and without
/// the lines that are emptied, with the inserts at a run before its first token, any other insert directly before or after its
/// token's place, and the braces at theirs. Commas of lists that are left beside nothing go. A space stands where a token and
/// a piece that was not its neighbour would run together. Takes log n steps for each token, with n inserts and braces, and a
/// step for each list around a part, and else is linear in both texts.
pub fn tidied(
    alloc: Global,
    lexed: &Lexed,
    edits: &EditList,
    plan: &Plan,
    layout: &Layout,
    next: u64,
) -> Result<Edited, OutFault>
    requires plan { IsPlan lexed.now edits.now layout.now.gone.items layout.now.depths.items plan.now }
    requires fresh { next ≤ 2 ^ 62 }
    ensures bytes { IfOk result (λ edited. edited.bytes.items
        ≡ text_of (tidied_of lexed.now edits.now (frame_of layout.now) next)) }
    ensures ids { IfOk result (λ edited. edited.ids.items ≡ ids_of (tidied_of lexed.now edits.now (frame_of layout.now) next)) }
    ensures short { IfOk result (λ edited. length edited.bytes.items ≤ most_bytes) }
    ensures too_long { IsErrOf result OutFault.TooLong →
        most_bytes < length (text_of (tidied_of lexed.now edits.now (frame_of layout.now) next)) }
    ensures again { IfOk result (λ edited. Cuts lexed.now → TidyFair lexed.now edits.now (frame_of layout.now) →
        ReadsAgain edited.bytes.items edited.ids.items (tidied_of lexed.now edits.now (frame_of layout.now) next)) }
{
    let all = edits.edits();
    let braces = layout.braces.as_slice();
    let lists = layout.lists.as_slice();
    let made = parts_of(alloc, lexed, all, plan, braces)?;
    let parts = made.as_slice();
    let kept = staying(alloc, lexed, all, plan, lists, parts)?;
    let stays = kept.as_slice();
    let mut draft = Draft {
        bytes: Vec::with_capacity(alloc, lexed.bytes().len())?,
        ids: Vec::with_capacity(alloc, lexed.count() / 2)?,
        next,
        start: 0,
        last: None,
    };
    put_parts(&mut draft, lexed, parts, stays)?;
    let Draft { bytes, ids, .. } = draft;
    Ok(Edited { bytes, ids })
}

/// Writes the parts that stay.
fn put_parts(
    draft: &mut Draft,
    lexed: &Lexed,
    parts: &[TextPart],
    stays: &[bool],
) -> Result<(), OutFault>
    requires { length stays.now ≡ length parts.now }
    ensures ok { OnOk result (Writes draft.old draft.new (items_where_true stays.now (parts_in lexed.now parts.now))) }
    ensures too_long { IsErrOf result OutFault.TooLong →
        Overflows draft.old (items_where_true stays.now (parts_in lexed.now parts.now)) }
{
    for i in 0..parts.len() {
        put_if(draft, lexed, &parts[i], stays[i])?;
    }
    Ok(())
}

/// Writes a part, if it stays.
fn put_if(draft: &mut Draft, lexed: &Lexed, part: &TextPart, stays: bool) -> Result<(), OutFault>
    ensures ok { OnOk result (Writes draft.old draft.new (if stays then part_in lexed.now part.now ∷ [] else [])) }
    ensures too_long { IsErrOf result OutFault.TooLong →
        Overflows draft.old (if stays then part_in lexed.now part.now ∷ [] else []) }
{
    if !stays {
        return Ok(());
    }
    put_part(draft, lexed, part)
}

/// Writes a part.
fn put_part(draft: &mut Draft, lexed: &Lexed, part: &TextPart) -> Result<(), OutFault>
    ensures ok { OnOk result (Writes draft.old draft.new (part_in lexed.now part.now ∷ [])) }
    ensures too_long { IsErrOf result OutFault.TooLong → Overflows draft.old (part_in lexed.now part.now ∷ []) }
{
    match part {
        TextPart::Old(number) => {
            let (kind, text) = old_piece(lexed, *number);
            draft.put_old(*number, kind, text)
        }
        TextPart::Cut(number, text) => draft.put_old(*number, PieceKind::Blank, text),
        TextPart::New(piece) => draft.put_new(piece.kind, piece.text.as_bytes()),
    }
}
