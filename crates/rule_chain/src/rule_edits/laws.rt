// Laws of the ids of texts.
ghost use Rattle.std.specs.Prelude.{◌<◌, ◌≤◌, ℕ, List, All};
ghost use Rattle.c_lexer.specs.Pieces.{TextPiece};
ghost use Rattle.c_lexer.specs.Ids.{ids_of};
ghost use Rattle.edit_marks.specs.declared.edit_conflict.edit.Edit.{Edit as Change};
ghost use Rattle.cpp_lines.specs.declared.reading.Item.{Item};
ghost use Rattle.edit_marks.specs.declared.tidy.walk.TidiedEdits.{TidiedEdits};
ghost use Rattle.rule_chain.specs.RuleEdits.Pages.{Page, page_after};
ghost use Rattle.rule_chain.specs.RuleEdits.Tidied.{IsTidyPage};

/// If the ids of a text are below the next one, so are those of the text that edits make of it, plain or tidied, whose next id is
/// no smaller.
/// Since new tokens get ids from the next id on, none gets an id that was used before. Does nothing.
pub fn ids_stay_below_next()
    ensures below { (next : ℕ) (pieces : List TextPiece) (edits : List Change) → All (λ id. id < next) (ids_of pieces)
        → All (λ id. id < (page_after next pieces edits).next) (page_after next pieces edits).ids }
    ensures rises { (next : ℕ) (pieces : List TextPiece) (edits : List Change) → next ≤ (page_after next pieces edits).next }
    ensures tidied_below { (next : ℕ) (pieces : List TextPiece) (items : List Item) (made : TidiedEdits) (page : Page)
        → IsTidyPage next pieces items made page → All (λ id. id < next) (ids_of pieces) → All (λ id. id < page.next) page.ids }
    ensures tidied_rises { (next : ℕ) (pieces : List TextPiece) (items : List Item) (made : TidiedEdits) (page : Page)
        → IsTidyPage next pieces items made page → next ≤ page.next }
{}
