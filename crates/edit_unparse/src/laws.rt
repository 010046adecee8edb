// What `edited_text` requires of inserted texts, which ids the new text has, and what stays in a tidied text. The functions do
// nothing.
ghost use Rattle.std.specs.Prelude.{ℕ, ◌≡◌, ◌<◌, true, List, All, filter};
ghost use Rattle.c_show.specs.PlainText.{IsPlainText};
ghost use Rattle.c_lexer.specs.Pieces.{TextPiece};
ghost use Rattle.c_lexer.specs.Ids.{ids_of};
ghost use Rattle.edit_marks.specs.declared.edit_conflict.edit.Edit.{Edit};
ghost use Rattle.edit_unparse.specs.Fair.{is_plain_text};
ghost use Rattle.edit_unparse.specs.NextId.{free_id};
ghost use Rattle.edit_unparse.specs.Output.{added, output_of, placed};
ghost use Rattle.edit_unparse.specs.Tidy.Text.{Frame, tidied_parts};
ghost use Rattle.edit_unparse.specs.Tidy.Lasting.{is_lasting};

/// A text whose pieces are blanks and tokens other than Strays may be inserted.
pub fn plain_texts_are_fair()
    ensures fair { (text : List ℕ) → IsPlainText text → is_plain_text text ≡ true }
{}

/// If all old ids are below `next`, all new ids are below `next` plus the number of new ids that aren't below `next`.
pub fn ids_stay_below()
    ensures below { (pieces : List TextPiece) (edits : List Edit) (next : ℕ) →
        All (λ id. id < next) (ids_of pieces) →
        All (λ id. id < free_id next (ids_of (output_of pieces edits next)))
        (ids_of (output_of pieces edits next)) }
{}

/// Of old tokens other than commas, of old comments and of old preprocessor lines, the tidied text has those of the plain text,
/// in the same order: only blanks and commas go besides.
pub fn tidying_takes_blanks_and_commas()
    ensures lasting { (pieces : List TextPiece) (edits : List Edit) (frame : Frame) →
        filter is_lasting (tidied_parts added pieces edits frame) ≡ filter is_lasting (placed edits 0 0 pieces) }
{}
